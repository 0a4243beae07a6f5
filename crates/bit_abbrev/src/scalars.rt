//! Operands that give one value each, read from buffered bits; records that are passed over by their operands.

ghost use Rattle.std.specs.Prelude.{◌≡◌, ℕ, ◌+◌, ◌*◌, ◌≤◌, List, length, IfSome};
ghost use Rattle.bit_grammar.specs.Blocks.{by_definition};
ghost use Rattle.bit_fields.specs.PlacedView.{placed};
ghost use Rattle.bit_abbrev.specs.Layouts.{HasLayout, IsSingle, AreSingles};
ghost use Rattle.bit_abbrev.specs.Plans.{PassesOver};
ghost use Rattle.bit_abbrev.specs.Scalars.{Elements, HasScalars, TakesScalar};
ghost use Rattle.bit_abbrev.specs.declared.layout.Layout.TheVariants as layout;

use crate::abbrev::Abbrev;
use crate::layout::Layout;
use crate::plan::Passed;
use bit_fields::{ChunkTops, ChunkWidth, PlacedBits, character};
use bit_grammar::Op;

/// How many values a record has at most that is read so.
pub const MOST_VALUES: u64 = 65536;

/// How many bits have to be behind a number that has more than 57: a load, and 32 fields of at most 57 bits.
pub const FIELDS: u64 = 64 + 57 * 32;

/// The value of a single operand, and the bits after its field.
#[inline(always)]
pub fn value_of<'a>(bits: PlacedBits<'a>, op: Op) -> Option<(u64, PlacedBits<'a>)>
    requires single { IsSingle op }
    requires there { 64 ≤ length (placed bits).bits }
    ensures { IfSome result (λ read. TakesScalar op 1888 (placed bits.entry) read.0 (placed read.1)) }
{
    let (value, width) = match op {
        Op::Literal(value) => (value, 0),
        Op::Fixed(width) => (bits.front(u32::from(width)), u64::from(width)),
        Op::Vbr(6) => return bits.near_six(FIELDS),
        Op::Vbr(width) => return bits.near_number(u32::from(width), FIELDS),
        _ => (character(bits.front(6)), 6),
    };
    Some((value, bits.after(width)))
}

/// The bits behind the fields of single operands.
#[inline(always)]
pub fn pass_ops<'a>(fields: PlacedBits<'a>, ops: &[Op]) -> Option<PlacedBits<'a>>
    requires singles { AreSingles ops.now }
    requires few { length ops.now ≤ 32 }
    requires there { 64 + 57 * length ops.now ≤ length (placed fields).bits }
    ensures passes { IfSome result (λ bits. (values : List ℕ) × HasScalars ops.now (placed fields.entry)
        values (placed bits)) }
    ensures more { IfSome result (λ bits. 64 ≤ length (placed bits).bits) }
{
    let mut bits = fields;
    for op in ops {
        let (_, after) = value_of(bits, *op)?;
        bits = after;
    }
    Some(bits)
}

/// How many bits the elements of an array take, of which there are at most 65,536.
#[inline(always)]
fn elements_len(bits: PlacedBits<'_>, element: Op, count: u64) -> Option<u64>
    requires single { IsSingle element }
    requires few { count ≤ 65536 }
    ensures { IfSome result (λ len. (len ≤ length (placed bits.entry).bits)
        × Elements element count (placed bits.entry) len) }
{
    let width = match element {
        Op::Vbr(6) => return bits.all_sixes(count),
        Op::Vbr(width) => return bits.all_of(ChunkTops::of(ChunkWidth::of(width)), count, 0),
        Op::Fixed(width) => u64::from(width),
        Op::Literal(_) => 0,
        _ => 6,
    };
    let len = count * width;
    if !bits.has(len) {
        return None;
    }
    Some(len)
}

/// Passes over the fields of a record with an array.
#[inline(always)]
fn pass_list(fields: PlacedBits<'_>, abbrev: &Abbrev, room: u64) -> Option<Passed>
    requires list { HasLayout «abbrev».now layout.List }
    requires there { 2208 ≤ length (placed fields).bits }
    ensures { IfSome result (λ passed. (first : ℕ)
        → PassesOver (by_definition first room «abbrev».now) (placed fields.entry) passed) }
{
    let ops = abbrev.ops();
    let (code, bits) = value_of(fields, ops[0])?;
    let singles = &ops[1..ops.len() - 2];
    let (number, elements) = pass_ops(bits, singles)?.number(6)?;
    let count = number.saturating_add(singles.len() as u64);
    if count > room.min(MOST_VALUES) {
        return None;
    }
    let more = elements_len(elements, ops[ops.len() - 1], number)?;
    Some(Passed {
        len: elements.position() + more - fields.position(),
        code,
        count,
    })
}

/// Passes over the fields of a record without an array.
#[inline(always)]
fn pass_coded(fields: PlacedBits<'_>, abbrev: &Abbrev, room: u64) -> Option<Passed>
    requires coded { HasLayout «abbrev».now layout.Coded }
    requires there { 2208 ≤ length (placed fields).bits }
    ensures { IfSome result (λ passed. (first : ℕ)
        → PassesOver (by_definition first room «abbrev».now) (placed fields.entry) passed) }
{
    let ops = abbrev.ops();
    let (code, bits) = value_of(fields, ops[0])?;
    let singles = &ops[1..];
    let count = singles.len() as u64;
    if count > room {
        return None;
    }
    let after = pass_ops(bits, singles)?;
    Some(Passed {
        len: after.position() - fields.position(),
        code,
        count,
    })
}

/// Passes over the fields of a record by its operands, if it has at most `room` values. `None` passes over nothing: the record is
/// then read.
#[inline(never)]
pub fn pass_by_operands(fields: PlacedBits<'_>, abbrev: &Abbrev, room: u64) -> Option<Passed>
    requires there { 2208 ≤ length (placed fields).bits }
    ensures { IfSome result (λ passed. (first : ℕ)
        → PassesOver (by_definition first room «abbrev».now) (placed fields.entry) passed) }
{
    match abbrev.layout() {
        Layout::List => pass_list(fields, abbrev, room),
        Layout::Singles | Layout::Coded => pass_coded(fields, abbrev, room),
        Layout::Odd => None,
    }
}
