ghost use Rattle.std.specs.Prelude.{◌≡◌, Some};
ghost use Rattle.bit_grammar.specs.Setting.{setting_of};
ghost use Rattle.bit_norm.specs.Whole.{FindsDifference, FindsInBytes, FindsInParts, SaysNone, Compares, ComparesBytes};

use crate::alike::compare_checked;
use crate::differences::Difference;
use bit_events::{check, check_keeping};
use bit_fields::{Fault, FrontSource, Limits, SliceSource, Source};
use bit_tree::Info;
use std::alloc::Global;
use std::fmt;
use thiserror::Error;

/// One of two inputs.
#[derive(Clone, Copy, Debug, PartialEq, Eq)]
pub enum Which {
    First,
    Second,
}

impl fmt::Display for Which {
    ghost use Rattle.bit_norm.specs.Whole.{which_text};

    ghost output = { λ w. Some (which_text w) };

    fn fmt<W: fmt::Write>(&self, f: &mut fmt::Formatter<W>) -> fmt::Result {
        f.write_str(match self {
            Which::First => "first",
            Which::Second => "second",
        })
    }
}

/// Why two inputs were not compared: the fault of one of them.
#[derive(Clone, Copy, Debug, PartialEq, Eq, Error)]
#[error("{which}: {fault}")]
pub struct SameFault {
    pub which: Which,
    pub fault: Fault,
}

/// A fault of this input.
pub(crate) fn faulty(which: Which, fault: Fault) -> SameFault
    ensures { result ≡ record { which = which; fault = fault } }
{
    SameFault { which, fault }
}

/// Returns where the trees of two inputs under a setting first differ: in the magics, or else in their blocks and records in order.
/// Each input goes from the first byte that its source still has to the last; the length of the normal forms does not matter.
///
/// The first input is read completely before a byte of the second is taken, and the second is read to its end even after a
/// difference. Only the bytes of the first, the open blocks of both and one record of each are held. A fault names its input, which
/// breaks the rules, or whose source failed, or during whose reading an allocation failed. The sources are returned in their
/// present state.
#[tactic(auto, using(crate::proofs::Comparisons::finds_plain))]
pub fn first_difference<A: Source, B: Source>(
    alloc: Global,
    a: A,
    b: B,
    limits: Limits,
    info: Info<'_>,
) -> (Result<Option<Difference>, SameFault>, A, B)
    ensures { FindsDifference (setting_of info.entry) limits (A.incoming a) (B.incoming b) result.0
        (A.incoming result.1) (B.incoming result.2) }
{
    // The limits are within their caps, so each length in a normal form fits its field.
    let _bytes = limits.bytes();
    let (first, a) = check_keeping(alloc, a, limits);
    let first = match first {
        Ok(first) => first,
        Err(fault) => return (Err(faulty(Which::First, fault)), a, b),
    };
    let (answer, b) = compare_checked(alloc, &first, b, limits, info, false);
    (answer, a, b)
}

/// The same for two inputs from one source: its first `first` bytes, or all if it has fewer, and its rest.
///
/// If the first input is refused, no byte is taken that `check` would not take of it.
pub fn first_difference_in_parts<S: Source>(
    alloc: Global,
    source: S,
    first: u64,
    limits: Limits,
    info: Info<'_>,
) -> (Result<Option<Difference>, SameFault>, S)
    ensures { FindsInParts (setting_of info.entry) limits first (S.incoming source) result.0
        (S.incoming result.1) }
{
    // The limits are within their caps, so each length in a normal form fits its field.
    let _bytes = limits.bytes();
    let (kept, front) = check_keeping(alloc, FrontSource::new(source, first), limits);
    let rest = front.into_inner();
    match kept {
        Ok(bytes) => compare_checked(alloc, &bytes, rest, limits, info, true),
        Err(fault) => (Err(faulty(Which::First, fault)), rest),
    }
}

/// The same for bytes and an input: what `first_difference` returns for a source of these bytes, which are not copied.
pub fn first_difference_from<B: Source>(
    alloc: Global,
    first: &[u8],
    b: B,
    limits: Limits,
    info: Info<'_>,
) -> (Result<Option<Difference>, SameFault>, B)
    ensures { FindsInBytes (setting_of info.entry) limits first.now (B.incoming b) result.0
        (B.incoming result.1) }
{
    // The limits are within their caps, so each length in a normal form fits its field.
    let _bytes = limits.bytes();
    let (checked, _) = check(alloc, SliceSource::new(first), limits);
    match checked {
        Ok(()) => compare_checked(alloc, first, b, limits, info, true),
        Err(fault) => (Err(faulty(Which::First, fault)), b),
    }
}

/// Whether there is no difference.
fn is_none(answer: Result<Option<Difference>, SameFault>) -> Result<bool, SameFault>
    ensures { SaysNone answer result }
{
    Ok(answer?.is_none())
}

/// Whether the trees of two inputs under a setting are the same: `first_difference` finds none.
#[tactic(auto, using(crate::proofs::Comparisons::compares))]
pub fn same<A: Source, B: Source>(
    alloc: Global,
    a: A,
    b: B,
    limits: Limits,
    info: Info<'_>,
) -> (Result<bool, SameFault>, A, B)
    ensures { Compares (setting_of info.entry) limits (A.incoming a) (B.incoming b) result.0
        (A.incoming result.1) (B.incoming result.2) }
{
    // The limits are within their caps, so each length in a normal form fits its field.
    let _bytes = limits.bytes();
    let (answer, a, b) = first_difference(alloc, a, b, limits, info);
    (is_none(answer), a, b)
}

/// The same for bytes and an input: what `same` returns for a source of these bytes, which are not copied.
#[tactic(auto, using(crate::proofs::Comparisons::compares))]
pub fn same_as<B: Source>(
    alloc: Global,
    first: &[u8],
    b: B,
    limits: Limits,
    info: Info<'_>,
) -> (Result<bool, SameFault>, B)
    ensures { ComparesBytes (setting_of info.entry) limits first.now (B.incoming b) result.0
        (B.incoming result.1) }
{
    // The limits are within their caps, so each length in a normal form fits its field.
    let _bytes = limits.bytes();
    let (answer, b) = first_difference_from(alloc, first, b, limits, info);
    (is_none(answer), b)
}
