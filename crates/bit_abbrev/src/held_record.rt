//! Reading a record by a definition that is held in few bytes, operand by operand.

ghost use Rattle.std.specs.Prelude.{◌≡◌, ◌+◌, ◌<◌, ◌∷◌, length, true, false, IfNone, IfSome};
ghost use Rattle.std.specs.List.{AllByRecursion};
ghost use Rattle.bit_grammar.specs.Blocks.{by_definition};
ghost use Rattle.bit_grammar.specs.Definition.{has_shape, in_order};
ghost use Rattle.bit_grammar.specs.FormatDefinition.{HasLawfulValue};
ghost use Rattle.bit_grammar.specs.Record.{abbreviated, singles, values_of};
ghost use Rattle.bit_grammar.specs.declared.op.Op.TheVariants.{Array, Blob};
ghost use Rattle.bit_grammar.specs.declared.op.Place.TheVariants.{Later};
ghost use Rattle.bit_abbrev.specs.Bits.{Answers};
ghost use Rattle.bit_abbrev.specs.HeldOps.{ops_in, IsLawfulFrom};
ghost use Rattle.bit_abbrev.specs.Values.{AddsFew, AddsWithin, Gains, Keeps};

use crate::abbrev::{fits, kind_of};
use crate::bits::Bits;
use crate::held::{HeldOps, first_in};
use crate::held_op::HeldOp;
use crate::record::{keep, read_array, read_blob, read_scalar};
use crate::runs::Runs;
use bit_fields::ValueTaker;
use bit_grammar::{Op, Place, Reason};

/// Whether what is held behind an array is its element alone.
fn ends_array(held: &[HeldOp]) -> bool
    ensures { result ≡ in_order Later (Array ∷ ops_in held.now) }
{
    match first_in(held) {
        Some((element, rest)) => {
            fits(Place::Element, 0, kind_of(element)) && first_in(rest).is_none()
        }
        None => false,
    }
}

/// Whether nothing is held behind a blob.
fn ends_blob(held: &[HeldOp]) -> bool
    ensures { result ≡ in_order Later (Blob ∷ ops_in held.now) }
{
    first_in(held).is_none()
}

/// How many operands give one value each, if all are in a lawful order. They are held behind the first one of their definition.
fn singles_in(held: &[HeldOp]) -> Option<u64>
    ensures some { IfSome result (λ count. (in_order Later (ops_in held.now) ≡ true) × (count ≡ singles (ops_in held.now))) }
    ensures none { IfNone result (in_order Later (ops_in held.now) ≡ false) }
{
    let mut left = held;
    for count in 0..held.len() {
        let Some((op, rest)) = first_in(left) else {
            return Some(count as u64);
        };
        match op {
            Op::Array => return if ends_array(rest) {
                Some(count as u64)
            } else {
                None
            },
            Op::Blob => return if ends_blob(rest) {
                Some(count as u64)
            } else {
                None
            },
            _ => left = rest,
        }
    }
    Some(held.len() as u64)
}

/// The first operand, what is held behind it, and how many others give one value each, if all are in a lawful order.
fn lawful_in(held: &[HeldOp]) -> Option<(Op, &[HeldOp], u64)>
    requires { 0 < length (ops_in held.now) }
    ensures some { IfSome result (λ found. IsLawfulFrom (ops_in held.now) found.0 (ops_in found.1.now) found.2) }
    ensures none { IfNone result (has_shape (ops_in held.now) ≡ false) }
{
    let Some((op, others)) = first_in(held) else {
        unreachable!();
    };
    match op {
        Op::Array | Op::Blob => None,
        op => Some((op, others, singles_in(others)?)),
    }
}

/// Reads the values of the operands behind the first one of a definition, at most `room` of an array or a blob.
#[inline(always)]
fn read_held_values<U, B: Runs, V: ValueTaker>(
    bits: &mut B,
    held: &[HeldOp],
    room: u64,
    values: &mut V,
) -> Result<(), B::Miss>
    requires order { in_order Later (ops_in held.now) ≡ true }
    requires lawful { AllByRecursion HasLawfulValue (ops_in held.now) }
    requires live { (B.as_reader bits.old).live ≡ true }
    ensures adds { Answers B.faults (λ r. Gains V.took values.old values.new
        (AddsFew (values_of room (ops_in held.now)) (singles (ops_in held.now) + room) (B.as_reader bits.old) r
        (B.as_reader bits.new))) result }
    ensures keeps { Keeps V.took values.old values.new }
{
    let mut left = held;
    while let Some((op, rest)) = first_in(left) {
        match op {
            Op::Blob => return read_blob::<U, B, V>(bits, room, values),
            Op::Array => {
                let Some((element, _)) = first_in(rest) else {
                    unreachable!();
                };
                return read_array::<U, B, V>(bits, room, element, values);
            }
            op => {
                let value = read_scalar(bits, op)?;
                keep(bits, values, value)?;
            }
        }
        left = rest;
    }
    Ok(())
}

/// Reads a record by its operands. After the first one, `count` of them give one value each.
#[inline(always)]
fn read_by_held<U, B: Runs, V: ValueTaker>(
    bits: &mut B,
    code_op: Op,
    others: &[HeldOp],
    count: u64,
    first: u64,
    room: u64,
    values: &mut V,
) -> Result<u64, B::Miss>
    requires order { in_order Later (ops_in others.now) ≡ true }
    requires lawful { AllByRecursion HasLawfulValue (code_op ∷ ops_in others.now) }
    requires live { (B.as_reader bits.old).live ≡ true }
    requires singles { count ≡ singles (ops_in others.now) }
    ensures adds { Answers B.faults (λ r. Gains V.took values.old values.new
        (AddsWithin (abbreviated first room (code_op ∷ ops_in others.now)) room (B.as_reader bits.old) r
        (B.as_reader bits.new))) result }
    ensures keeps { Keeps V.took values.old values.new }
{
    bits.judge(count <= room, Reason::TooManyValues, first)?;
    let code = read_scalar(bits, code_op)?;
    read_held_values::<U, B, V>(bits, others, room - count, values)?;
    Ok(code)
}

/// Reads a record by a definition that is held in few bytes, after its abbreviation id, which began at `first`: gives its values to
/// the value sink and returns its code. A definition whose operands are in no lawful order is `AbbrevShape` at `first`. If it fails,
/// some of its values may have been added. For `U` see `read_record`.
#[cold]
#[inline(never)]
pub fn read_held_record<U, B: Runs, V: ValueTaker>(
    bits: &mut B,
    ops: HeldOps<'_>,
    first: u64,
    room: u64,
    values: &mut V,
) -> Result<u64, B::Miss>
    requires { (B.as_reader bits.old).live ≡ true }
    ensures adds { Answers B.faults (λ r. Gains V.took values.old values.new
        (AddsWithin (by_definition first room ops.entry) room (B.as_reader bits.old) r (B.as_reader bits.new))) result }
    ensures keeps { Keeps V.took values.old values.new }
{
    let lawful = lawful_in(ops.held);
    bits.judge(lawful.is_some(), Reason::AbbrevShape, first)?;
    let Some((code_op, others, count)) = lawful else {
        unreachable!();
    };
    read_by_held::<U, B, V>(bits, code_op, others, count, first, room, values)
}
