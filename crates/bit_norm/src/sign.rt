//! What is at a place of a tree, for comparison.

ghost use Rattle.std.specs.Prelude.{◌≡◌, ◌↔◌, IsTrue};
ghost use Rattle.bit_norm.specs.Entries.{begins, has_record, ends, over, first_unlike, value_apart, what_of, what_shown};
ghost use Rattle.bit_norm.specs.InStep.{sign_shown};

use crate::differences::{ValueDifference, What};
use bit_fields::PackedValues;

/// What is at a place of a tree: a block with this id begins, a record with this code and these values, a block ends, or the stream
/// ends.
#[derive(Clone, Copy)]
pub(crate) enum Sign<'a> {
    Begins(u32),
    Record(u64, &'a PackedValues),
    Ends,
    Over,
}

/// Whether a sign is the beginning of a block with this id.
#[inline(always)]
fn is_begin(sign: Sign<'_>, id: u32) -> bool
    ensures { IsTrue result ↔ (begins id ≡ sign_shown sign.entry) }
{
    match sign {
        Sign::Begins(other) => id == other,
        Sign::Record(..) => false,
        Sign::Ends => false,
        Sign::Over => false,
    }
}

/// Whether it is this record.
#[inline(always)]
fn is_record(sign: Sign<'_>, code: u64, values: &PackedValues) -> bool
    ensures { IsTrue result ↔ (has_record code values.now ≡ sign_shown sign.entry) }
{
    match sign {
        Sign::Begins(_) => false,
        Sign::Record(other, others) => code == other && values.is(others),
        Sign::Ends => false,
        Sign::Over => false,
    }
}

/// Whether it is the end of a block.
#[inline(always)]
fn is_end(sign: Sign<'_>) -> bool
    ensures { IsTrue result ↔ (ends ≡ sign_shown sign.entry) }
{
    match sign {
        Sign::Begins(_) => false,
        Sign::Record(..) => false,
        Sign::Ends => true,
        Sign::Over => false,
    }
}

/// Whether it is the end of the stream.
#[inline(always)]
fn is_over(sign: Sign<'_>) -> bool
    ensures { IsTrue result ↔ (over ≡ sign_shown sign.entry) }
{
    match sign {
        Sign::Begins(_) => false,
        Sign::Record(..) => false,
        Sign::Ends => false,
        Sign::Over => true,
    }
}

/// The first value that differs, if one does.
#[tactic(auto, using(crate::proofs::InStep::nowhere_apart, crate::proofs::InStep::unlike_at, crate::proofs::InStep::has_both))]
fn first_unlike(first: &PackedValues, second: &PackedValues) -> Option<ValueDifference>
    ensures { result ≡ first_unlike 0 first.now second.now }
{
    let index = first.first_apart(second)?;
    match (first.get(index), second.get(index)) {
        (Some(first), Some(second)) => Some(ValueDifference {
            index,
            first,
            second,
        }),
        _ => None,
    }
}

impl Sign<'_> {
    /// Whether it equals another sign.
    #[inline(always)]
    pub(crate) fn is(self, other: Sign<'_>) -> bool
        ensures { IsTrue result ↔ (sign_shown self.entry ≡ sign_shown other.entry) }
    {
        match self {
            Sign::Begins(id) => is_begin(other, id),
            Sign::Record(code, values) => is_record(other, code, values),
            Sign::Ends => is_end(other),
            Sign::Over => is_over(other),
        }
    }

    /// The sign as a result has it.
    pub(crate) fn what(self) -> What
        ensures { what_shown result ≡ what_of (sign_shown self.entry) }
    {
        match self {
            Sign::Begins(id) => What::Block(id),
            Sign::Record(code, values) => What::Record {
                code,
                count: values.len(),
            },
            Sign::Ends => What::End,
            Sign::Over => What::End,
        }
    }

    /// The first value that differs from that of another sign, if both are records with the same code.
    pub(crate) fn value_apart(self, other: Sign<'_>) -> Option<ValueDifference>
        ensures { result ≡ value_apart (sign_shown self.entry) (sign_shown other.entry) }
    {
        match (self, other) {
            (Sign::Record(code, first), Sign::Record(same, second)) if code == same => {
                first_unlike(first, second)
            }
            _ => None,
        }
    }
}
