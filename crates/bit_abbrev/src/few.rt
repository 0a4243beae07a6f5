//! Records of few values, read from buffered bits at once.

ghost use Rattle.std.specs.Prelude.{◌≡◌, ℕ, ◌+◌, ◌*◌, ◌≤◌, length, take, IfSome};
ghost use Rattle.bit_grammar.specs.Blocks.{by_definition, entry};
ghost use Rattle.bit_grammar.specs.Grammar.{repeat};
ghost use Rattle.bit_grammar.specs.Record.{scalar, unabbreviated};
ghost use Rattle.bit_fields.specs.Buffered.{Reads};
ghost use Rattle.bit_fields.specs.PlacedView.{placed};
ghost use Rattle.bit_abbrev.specs.Layouts.{HasLayout, IsSingle, AreSingles};
ghost use Rattle.bit_abbrev.specs.Scalars.{HasScalars, ReadsFew, ReadsSingles};
ghost use Rattle.bit_abbrev.specs.declared.layout.Layout.TheVariants as layout;

use crate::abbrev::Abbrev;
use crate::in_force::Definitions;
use crate::layout::Layout;
use crate::plan::Passed;
use crate::scalars::value_of;
use bit_fields::PlacedBits;
use bit_grammar::Op;

/// How many values a record has at most that is read at once.
pub const FEW: usize = 64;

/// Reads the values of single operands into the first places.
#[inline(always)]
fn read_ops<'a>(fields: PlacedBits<'a>, ops: &[Op], values: &mut [u64]) -> Option<PlacedBits<'a>>
    requires singles { AreSingles ops.now }
    requires few { length ops.now ≤ 32 }
    requires there { 64 + 57 * length ops.now ≤ length (placed fields).bits }
    requires places { length ops.now ≤ length values.old }
    ensures reads { IfSome result (λ bits. HasScalars ops.now (placed fields.entry)
        (take (length ops.now) values.new) (placed bits)) }
    ensures more { IfSome result (λ bits. 64 ≤ length (placed bits).bits) }
{
    let mut bits = fields;
    for at in 0..ops.len() {
        let (value, after) = value_of(bits, ops[at])?;
        values[at] = value;
        bits = after;
    }
    Some(bits)
}

/// Reads elements of an array, as many as there are places for them.
#[inline(never)]
fn read_elements<'a>(
    elements: PlacedBits<'a>,
    element: Op,
    values: &mut [u64],
) -> Option<PlacedBits<'a>>
    requires single { IsSingle element }
    ensures { IfSome result (λ bits. Reads (repeat (length values.new) (scalar element))
        (placed elements.entry) values.new (placed bits)) }
{
    if let Op::Vbr(6) = element {
        return elements.read_sixes(values);
    }
    let mut bits = elements;
    for at in 0..values.len() {
        if !bits.has(64) {
            return None;
        }
        let (value, after) = value_of(bits, element)?;
        values[at] = value;
        bits = after;
    }
    Some(bits)
}

/// Reads a record that is not abbreviated.
#[inline(always)]
fn read_few_plain(fields: PlacedBits<'_>, room: u64, values: &mut [u64]) -> Option<Passed>
    requires there { 2208 ≤ length (placed fields).bits }
    requires places { length values.old ≡ 64 }
    ensures reads { IfSome result (λ passed. ReadsFew (unabbreviated room) (placed fields.entry)
        passed values.new) }
    ensures few { IfSome result (λ passed. (passed.count ≤ room) × (passed.count ≤ 64)) }
{
    let (code, behind) = fields.number(6)?;
    let (count, rest) = behind.number(6)?;
    if count > room.min(FEW as u64) {
        return None;
    }
    let after = rest.read_sixes(&mut values[..count as usize])?;
    Some(Passed {
        len: after.position() - fields.position(),
        code,
        count,
    })
}

/// Reads a record of single operands, after its code.
#[inline(always)]
fn read_few_singles(
    bits: PlacedBits<'_>,
    first: u64,
    code: u64,
    singles: &[Op],
    room: u64,
    values: &mut [u64],
) -> Option<Passed>
    requires singles { AreSingles singles.now }
    requires few { length singles.now ≤ 31 }
    requires there { 1888 ≤ length (placed bits).bits }
    requires behind { first ≤ (placed bits).position }
    requires places { length values.old ≡ 64 }
    ensures { IfSome result (λ passed. ReadsSingles first code room singles.now (placed bits.entry)
        passed values.new) }
{
    let count = singles.len() as u64;
    if count > room {
        return None;
    }
    let after = read_ops(bits, singles, values)?;
    Some(Passed {
        len: after.position() - first,
        code,
        count,
    })
}

/// Reads a record whose code is a literal, and that has single operands.
#[inline(always)]
fn read_few_fixed(
    fields: PlacedBits<'_>,
    abbrev: &Abbrev,
    room: u64,
    values: &mut [u64],
) -> Option<Passed>
    requires singles { HasLayout «abbrev».now layout.Singles }
    requires there { 2208 ≤ length (placed fields).bits }
    requires places { length values.old ≡ 64 }
    ensures reads { IfSome result (λ passed. (first : ℕ)
        → ReadsFew (by_definition first room «abbrev».now) (placed fields.entry) passed values.new) }
    ensures few { IfSome result (λ passed. (passed.count ≤ room) × (passed.count ≤ 64)) }
{
    let ops = abbrev.ops();
    let Op::Literal(code) = ops[0] else {
        return None;
    };
    read_few_singles(fields, fields.position(), code, &ops[1..], room, values)
}

/// Reads a record whose code is a field, and that has single operands.
#[inline(always)]
fn read_few_coded(
    fields: PlacedBits<'_>,
    abbrev: &Abbrev,
    room: u64,
    values: &mut [u64],
) -> Option<Passed>
    requires coded { HasLayout «abbrev».now layout.Coded }
    requires there { 2208 ≤ length (placed fields).bits }
    requires places { length values.old ≡ 64 }
    ensures reads { IfSome result (λ passed. (first : ℕ)
        → ReadsFew (by_definition first room «abbrev».now) (placed fields.entry) passed values.new) }
    ensures few { IfSome result (λ passed. (passed.count ≤ room) × (passed.count ≤ 64)) }
{
    let ops = abbrev.ops();
    let (code, bits) = value_of(fields, ops[0])?;
    read_few_singles(bits, fields.position(), code, &ops[1..], room, values)
}

/// Reads a record with an array.
#[inline(always)]
fn read_few_list(
    fields: PlacedBits<'_>,
    abbrev: &Abbrev,
    room: u64,
    values: &mut [u64],
) -> Option<Passed>
    requires list { HasLayout «abbrev».now layout.List }
    requires there { 2208 ≤ length (placed fields).bits }
    requires places { length values.old ≡ 64 }
    ensures reads { IfSome result (λ passed. (first : ℕ)
        → ReadsFew (by_definition first room «abbrev».now) (placed fields.entry) passed values.new) }
    ensures few { IfSome result (λ passed. (passed.count ≤ room) × (passed.count ≤ 64)) }
{
    let ops = abbrev.ops();
    let (code, bits) = value_of(fields, ops[0])?;
    let singles = &ops[1..ops.len() - 2];
    let (number, elements) = read_ops(bits, singles, values)?.number(6)?;
    let before = singles.len();
    let count = number.saturating_add(before as u64);
    if count > room.min(FEW as u64) {
        return None;
    }
    let places = &mut values[before..count as usize];
    let after = read_elements(elements, ops[ops.len() - 1], places)?;
    Some(Passed {
        len: after.position() - fields.position(),
        code,
        count,
    })
}

/// Reads a record whose code is a field, or that has an array.
#[inline(never)]
fn read_few_other(
    fields: PlacedBits<'_>,
    abbrev: &Abbrev,
    room: u64,
    values: &mut [u64],
) -> Option<Passed>
    requires there { 2208 ≤ length (placed fields).bits }
    requires places { length values.old ≡ 64 }
    ensures reads { IfSome result (λ passed. (first : ℕ)
        → ReadsFew (by_definition first room «abbrev».now) (placed fields.entry) passed values.new) }
    ensures few { IfSome result (λ passed. (passed.count ≤ room) × (passed.count ≤ 64)) }
{
    match abbrev.layout() {
        Layout::List => read_few_list(fields, abbrev, room, values),
        Layout::Coded => read_few_coded(fields, abbrev, room, values),
        Layout::Singles | Layout::Odd => None,
    }
}

/// Reads a record after its id, if it has at most 64 values, and at most `room`, and its definition is not odd: its values come into
/// the first places. `None` reads nothing: then the record is read one value after another, and the places say nothing.
#[inline(always)]
pub fn read_few(
    fields: PlacedBits<'_>,
    id: u64,
    definitions: &Definitions<'_>,
    room: u64,
    values: &mut [u64],
) -> Option<Passed>
    requires id { 3 ≤ id }
    requires there { 2208 ≤ length (placed fields).bits }
    requires places { length values.old ≡ 64 }
    ensures reads { IfSome result (λ passed. (first : ℕ)
        → ReadsFew (entry room first id definitions.now) (placed fields.entry) passed values.new) }
    ensures few { IfSome result (λ passed. (passed.count ≤ room) × (passed.count ≤ 64)) }
{
    if id == 3 {
        return read_few_plain(fields, room, values);
    }
    let abbrev = definitions.get((id - 4) as usize)?;
    if abbrev.layout() == Layout::Singles {
        return read_few_fixed(fields, abbrev, room, values);
    }
    read_few_other(fields, abbrev, room, values)
}
