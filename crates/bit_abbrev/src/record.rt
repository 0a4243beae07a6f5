//! Reading records from any source of bits.

ghost use Rattle.std.specs.Prelude.{◌≡◌, ◌≢◌, ◌+◌, ◌-◌, ◌≤◌, ℕ, List, [], ◌∷◌, ◌++◌, Ok, Err, IfErr, IfOk, OnErr, OnOk, length, true, nat_le, false};
ghost use Rattle.std.specs.List.{AllByRecursion};
ghost use Rattle.bit_grammar.specs.Grammar.{gives};
ghost use Rattle.bit_grammar.specs.Record.{scalar, singles, value_count, values_of, abbreviated, unabbreviated};
ghost use Rattle.bit_grammar.specs.Definition.{has_shape};
ghost use Rattle.bit_grammar.specs.FormatDefinition.{op_at, IsElement, HasLawfulValue, Lawful};
ghost use Rattle.bit_grammar.specs.declared.op.Op.{Op};
ghost use Rattle.bit_grammar.specs.declared.op.Op.TheVariants.{Array, Blob};
ghost use Rattle.bit_fields.specs.declared.fault.Fault.{Fault};
ghost use Rattle.bit_fields.specs.declared.fault.Fault.TheVariants.{Memory};
ghost use Rattle.bit_fields.specs.Reader.{Takes, IsOnly, failed_reader};
ghost use Rattle.bit_abbrev.specs.Bits.{Answers};
ghost use Rattle.bit_abbrev.specs.Operands.{OthersInOrder, others_of};
ghost use Rattle.bit_abbrev.specs.Values.{AddsAll, AddsFew, AddsFirst, AddsWithin, Gains, Keeps, PassesFirst, Recorded};

use crate::abbrev::Abbrev;
use crate::bits::Bits;
use crate::runs::Runs;
use bit_fields::{BitReader, ChunkWidth, Fault, FieldWidth, Source, ValueTaker};
use bit_grammar::{Op, Reason};

/// Gives a value to the value sink.
#[inline(always)]
pub(crate) fn keep<B: Bits, V: ValueTaker>(
    bits: &mut B,
    values: &mut V,
    value: u64,
) -> Result<(), B::Miss>
    ensures ok { OnOk result ((B.as_reader bits.new ≡ B.as_reader bits.old)
        × ((before : List ℕ) → V.took values.old before
        → V.took values.new (before ++ value ∷ []))) }
    ensures err { IfErr result (λ miss. (fault : Fault) → B.faults miss fault
        → (fault ≡ Memory) × (B.as_reader bits.new ≡ failed_reader (B.as_reader bits.old))) }
    ensures same { OnErr result
        ((before : List ℕ) → V.took values.old before → V.took values.new before) }
{
    match values.take(value) {
        Ok(()) => Ok(()),
        Err(_) => Err(bits.out_of_memory()),
    }
}

/// Reads a number of values, at most `room`.
#[inline(always)]
#[tactic(auto, unfolding(bit_grammar::specs::Record::value_count))]
fn read_count<B: Bits>(bits: &mut B, room: u64) -> Result<u64, B::Miss>
    ensures takes { Answers B.faults (λ r. Takes (value_count room) (B.as_reader bits.old) r
        (B.as_reader bits.new)) result }
    ensures few { IfOk result (λ count. count ≤ room) }
{
    let first = bits.position();
    let count = bits.vbr(ChunkWidth { bits: 6 })?;
    bits.judge(count <= room, Reason::TooManyValues, first)?;
    Ok(count)
}

/// Reads the field of an operand that gives one value. The usual widths are constants in the calls.
#[inline(always)]
#[tactic(auto, unfolding(bit_grammar::specs::Record::scalar, bit_grammar::specs::Fields::vbr))]
pub(crate) fn read_scalar<B: Bits>(bits: &mut B, op: Op) -> Result<u64, B::Miss>
    requires lawful { HasLawfulValue op }
    requires live { (B.as_reader bits.old).live ≡ true }
    ensures takes { Answers B.faults (λ r. Takes (scalar op) (B.as_reader bits.old) r
        (B.as_reader bits.new)) result }
    ensures missed { OnErr result (B.missed bits.old bits.new) }
{
    match op {
        Op::Literal(value) => Ok(value),
        Op::Fixed(0) => Ok(0),
        Op::Vbr(0) | Op::Array | Op::Blob => Ok(0),
        Op::Fixed(width) => bits.fixed(FieldWidth::of(width)),
        Op::Vbr(6) => bits.vbr(ChunkWidth { bits: 6 }),
        Op::Vbr(width) => bits.vbr(ChunkWidth::of(width)),
        Op::Char6 => bits.char6(),
    }
}

/// Reads such a field without using its value.
#[inline(always)]
#[tactic(auto, unfolding(bit_grammar::specs::Record::scalar, bit_grammar::specs::Fields::vbr))]
fn skip_scalar<B: Bits>(bits: &mut B, op: Op) -> Result<u64, B::Miss>
    requires lawful { HasLawfulValue op }
    requires live { (B.as_reader bits.old).live ≡ true }
    ensures { Answers B.faults (λ r. Takes (scalar op) (B.as_reader bits.old) r
        (B.as_reader bits.new)) result }
{
    match op {
        Op::Vbr(0) => Ok(0),
        Op::Vbr(width) => bits.pass_vbr(ChunkWidth::of(width)),
        op => read_scalar(bits, op),
    }
}

/// Adds `count` zeros, which take no bits, in one call once the value sink accepts it.
pub(crate) fn read_zeros<B: Bits, V: ValueTaker>(
    bits: &mut B,
    count: u64,
    values: &mut V,
) -> Result<(), B::Miss>
    requires live { (B.as_reader bits.old).live ≡ true }
    ensures adds { Answers B.faults (λ r. Gains V.took values.old values.new
        (AddsAll (gives 0) count (B.as_reader bits.old) r (B.as_reader bits.new))) result }
    ensures keeps { Keeps V.took values.old values.new }
{
    for done in 0..count {
        if values.pass_zeros(count - done) {
            return Ok(());
        }
        keep(bits, values, 0)?;
    }
    Ok(())
}

/// Reads `count` fields of an operand that has a width: in runs, with a single field after each run.
#[inline(always)]
fn read_runs<U, B: Runs, V: ValueTaker>(
    bits: &mut B,
    count: u64,
    element: Op,
    values: &mut V,
) -> Result<(), B::Miss>
    requires element { IsElement element }
    requires lawful { HasLawfulValue element }
    requires live { (B.as_reader bits.old).live ≡ true }
    ensures adds { Answers B.faults (λ r. Gains V.took values.old values.new
        (AddsAll (scalar element) count (B.as_reader bits.old) r (B.as_reader bits.new))) result }
    ensures keeps { Keeps V.took values.old values.new }
{
    let mut done = 0;
    loop {
        done += bits.some(count - done, element, values)?;
        if done == count {
            return Ok(());
        }
        let value = bits.one(element)?;
        keep(bits, values, value)?;
        done += 1;
    }
}

/// Reads `count` elements of an array.
#[inline(always)]
fn read_elements<U, B: Runs, V: ValueTaker>(
    bits: &mut B,
    count: u64,
    element: Op,
    values: &mut V,
) -> Result<(), B::Miss>
    requires element { IsElement element }
    requires lawful { HasLawfulValue element }
    requires live { (B.as_reader bits.old).live ≡ true }
    ensures adds { Answers B.faults (λ r. Gains V.took values.old values.new
        (AddsAll (scalar element) count (B.as_reader bits.old) r (B.as_reader bits.new))) result }
    ensures keeps { Keeps V.took values.old values.new }
{
    match element {
        Op::Fixed(0) => bits.zeros(count, values),
        Op::Vbr(0) => bits.zeros(count, values),
        _ => read_runs::<U, B, V>(bits, count, element, values),
    }
}

/// Reads an array of fields of an operand, at most `room` of them.
#[inline(always)]
pub(crate) fn read_array<U, B: Runs, V: ValueTaker>(
    bits: &mut B,
    room: u64,
    element: Op,
    values: &mut V,
) -> Result<(), B::Miss>
    requires element { IsElement element }
    requires lawful { HasLawfulValue element }
    ensures adds { (others : List Op) → Answers B.faults (λ r. Gains V.took values.old values.new
        (AddsFew (values_of room (Array ∷ element ∷ others)) room (B.as_reader bits.old) r
        (B.as_reader bits.new))) result }
    ensures keeps { Keeps V.took values.old values.new }
{
    let count = read_count(bits, room)?;
    read_elements::<U, B, V>(bits, count, element, values)
}

/// Reads a blob of at most `room` bytes.
#[inline(always)]
pub(crate) fn read_blob<U, B: Runs, V: ValueTaker>(
    bits: &mut B,
    room: u64,
    values: &mut V,
) -> Result<(), B::Miss>
    ensures adds { (others : List Op) → Answers B.faults (λ r. Gains V.took values.old values.new
        (AddsFew (values_of room (Blob ∷ others)) room (B.as_reader bits.old) r
        (B.as_reader bits.new))) result }
    ensures keeps { Keeps V.took values.old values.new }
{
    let count = read_count(bits, room)?;
    bits.pad()?;
    read_runs::<U, B, V>(bits, count, Op::Fixed(8), values)?;
    bits.pad()
}

/// Skips the fields of operands that give one value each.
#[inline(always)]
fn skip_singles<B: Bits>(bits: &mut B, ops: &[Op]) -> Result<(), B::Miss>
    requires single { singles ops.now ≡ length ops.now }
    requires lawful { AllByRecursion HasLawfulValue ops.now }
    requires live { (B.as_reader bits.old).live ≡ true }
    ensures { (room : ℕ) (tail : List Op) → Answers B.faults (PassesFirst room ops.now tail
        (B.as_reader bits.old) (B.as_reader bits.new)) result }
{
    for op in ops {
        skip_scalar(bits, *op)?;
    }
    Ok(())
}

/// Reads the values of operands that give one value each, or skips them if the value sink does not use them.
#[inline(always)]
fn read_singles<U, B: Bits, V: ValueTaker>(
    bits: &mut B,
    ops: &[Op],
    values: &mut V,
) -> Result<(), B::Miss>
    requires single { singles ops.now ≡ length ops.now }
    requires lawful { AllByRecursion HasLawfulValue ops.now }
    requires live { (B.as_reader bits.old).live ≡ true }
    ensures adds { (room : ℕ) (tail : List Op) → Answers B.faults (λ r. Gains V.took values.old
        values.new (AddsFirst room ops.now tail (B.as_reader bits.old) r (B.as_reader bits.new)))
        result }
    ensures keeps { Keeps V.took values.old values.new }
{
    if values.pass(ops.len() as u64) {
        return skip_singles(bits, ops);
    }
    for op in ops {
        let value = read_scalar(bits, *op)?;
        keep(bits, values, value)?;
    }
    Ok(())
}

/// Reads the values of operands, at most `room`. The first `count` operands give one value each.
#[inline(always)]
fn read_values<U, B: Runs, V: ValueTaker>(
    bits: &mut B,
    room: u64,
    ops: &[Op],
    count: usize,
    values: &mut V,
) -> Result<(), B::Miss>
    requires order { OthersInOrder ops.now }
    requires singles { count ≡ singles ops.now }
    requires within { count ≤ length ops.now }
    requires lawful { AllByRecursion HasLawfulValue ops.now }
    requires live { (B.as_reader bits.old).live ≡ true }
    requires fits { singles ops.now ≤ room }
    ensures adds { Answers B.faults (λ r. Gains V.took values.old values.new
        (AddsFew (values_of (room - singles ops.now) ops.now) room (B.as_reader bits.old) r
        (B.as_reader bits.new))) result }
    ensures keeps { Keeps V.took values.old values.new }
{
    read_singles::<U, B, V>(bits, &ops[..count], values)?;
    let left = room - count as u64;
    let last = ops.len() - count;
    // Tested first, so that the blob is inlined and the buffered bits stay in registers.
    if last == 1 {
        return read_blob::<U, B, V>(bits, left, values);
    }
    if last == 0 {
        return Ok(());
    }
    read_array::<U, B, V>(bits, left, ops[count + 1], values)
}

/// Reads a record by its operands. After the first one, `count` of them give one value each.
#[inline(always)]
fn read_by_ops<U, B: Runs, V: ValueTaker>(
    bits: &mut B,
    ops: &[Op],
    count: usize,
    first: u64,
    room: u64,
    values: &mut V,
) -> Result<u64, B::Miss>
    requires lawful { Lawful ops.now }
    requires live { (B.as_reader bits.old).live ≡ true }
    requires singles { count ≡ singles (others_of ops.now) }
    requires within { count ≤ length (others_of ops.now) }
    ensures adds { Answers B.faults (λ r. Gains V.took values.old values.new
        (AddsWithin (abbreviated first room ops.now) room (B.as_reader bits.old) r
        (B.as_reader bits.new))) result }
    ensures keeps { Keeps V.took values.old values.new }
{
    let [code_op, others @ ..] = ops else {
        unreachable!();
    };
    bits.judge(count as u64 <= room, Reason::TooManyValues, first)?;
    let code = read_scalar(bits, *code_op)?;
    read_values::<U, B, V>(bits, room, others, count, values)?;
    Ok(code)
}

/// Reads a record by its definition, after its abbreviation id, which began at `first`: gives its values to the value sink and
/// returns its code. If it fails, some of its values may have been added.
///
/// `U` names the caller. So each caller has its own copy, which the compiler inlines into the caller's loop; the buffered bits
/// then stay in registers.
#[inline(always)]
pub fn read_record<U, B: Runs, V: ValueTaker>(
    bits: &mut B,
    abbrev: &Abbrev,
    first: u64,
    room: u64,
    values: &mut V,
) -> Result<u64, B::Miss>
    requires shape { has_shape «abbrev».now ≡ true }
    requires live { (B.as_reader bits.old).live ≡ true }
    ensures adds { Answers B.faults (λ r. Gains V.took values.old values.new
        (AddsWithin (abbreviated first room «abbrev».now) room (B.as_reader bits.old) r
        (B.as_reader bits.new))) result }
    ensures keeps { Keeps V.took values.old values.new }
{
    let ops = abbrev.lawful_ops();
    let count = ops.len() - 1 - abbrev.tail().len();
    read_by_ops::<U, B, V>(bits, ops, count, first, room, values)
}

/// Reads a record that is not abbreviated, after its abbreviation id: gives its values to the value sink and returns its code. If
/// it fails, some of its values may have been added. More than `room` values are `TooManyValues` at the first bit of their number.
/// For `U` see `read_record`. Source: "UNABBREV_RECORD Encoding".
#[inline(always)]
pub fn read_plain<U, B: Runs, V: ValueTaker>(
    bits: &mut B,
    room: u64,
    values: &mut V,
) -> Result<u64, B::Miss>
    ensures adds { Answers B.faults (λ r. Gains V.took values.old values.new
        (AddsWithin (unabbreviated room) room (B.as_reader bits.old) r (B.as_reader bits.new)))
        result }
    ensures keeps { Keeps V.took values.old values.new }
{
    let code = bits.vbr(ChunkWidth { bits: 6 })?;
    let count = read_count(bits, room)?;
    read_runs::<U, B, V>(bits, count, Op::Vbr(6), values)?;
    Ok(code)
}

/// Reads a record by its definition, after its abbreviation id, which began at `first`: gives its values to the value sink and
/// returns its code. The operands of the definition are in a lawful order.
///
/// More than `room` values are `TooManyValues`: at `first` if the single operands alone are more, and else at the first bit of the
/// length of the array or the blob. After any fault the values are as they were before, and the reader has failed, at the position
/// where the call began.
pub fn read_abbreviated<S: Source, V: ValueTaker>(
    reader: &mut BitReader<S>,
    abbrev: &Abbrev,
    first: u64,
    room: u64,
    values: &mut V,
) -> Result<u64, Fault>
    requires { has_shape «abbrev».now ≡ true }
    ensures takes { Gains V.took values.old values.new
        (Recorded (λ r. Takes (abbreviated first room «abbrev».now) reader.old r reader.new)
        result) }
    ensures only { Gains V.took values.old values.new
        (Recorded (λ r. IsOnly (abbreviated first room «abbrev».now) reader.old r reader.new)
        result) }
    ensures few { Gains V.took values.old values.new
        (λ before after. OnOk result (length after ≤ length before + room)) }
    ensures stays { OnErr result (reader.new.position ≡ reader.old.position) }
{
    if !reader.is_live() {
        return Err(Fault::Failed);
    }
    let start = reader.position();
    let before = values.count();
    match read_record::<V, BitReader<S>, V>(reader, abbrev, first, room, values) {
        Ok(code) => Ok(code),
        Err(fault) => {
            values.truncate(before);
            Err(reader.fail_at(fault, start))
        }
    }
}
