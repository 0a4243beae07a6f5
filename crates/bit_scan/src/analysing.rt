//! The analysis of an input, event by event.

ghost use Rattle.std.specs.Prelude.{◌≡◌};
ghost use Rattle.bit_grammar.specs.Tally.{stream_begin};
ghost use Rattle.bit_fields.specs.Opening.{head_told};
ghost use Rattle.bit_events.specs.Reading.{ReadsWhole};
ghost use Rattle.bit_scan.specs.Analysing.{HasTally};

use crate::analysis::Analysis;
use crate::counter::Counter;
use bit_events::fold;
use bit_fields::{Fault, Head, Limits, Source};
use std::alloc::Global;
use std::hash::{BuildHasher, BuildHasherDefault};

/// The bit where a stream begins, with its magic.
pub(crate) fn begin_of(head: Head) -> u64
    ensures { result ≡ stream_begin (head_told head).wrapper }
{
    match head.wrapper {
        Some(wrapper) => 8 * u64::from(wrapper.offset),
        None => 0,
    }
}

/// Analyses an input, from the first unread byte of its source to the last, in one pass without a tree. Memory is used for open
/// blocks and for the rows, which are found by the hashes of block ids and codes. Give a hasher with random keys if the input may
/// be made to collide.
///
/// `Refused` names the one reason and bit at which the input breaks the rules. The source is returned.
pub fn analyse_with_hasher<S: Source, H: BuildHasher + Copy>(
    alloc: Global,
    source: S,
    limits: Limits,
    hasher: H,
) -> (Result<Analysis<H>, Fault>, S)
    ensures { ReadsWhole (HasTally limits) limits (S.incoming source) result.0
        (S.incoming result.1) }
{
    let (answer, source) = fold(alloc, source, limits, Counter::new(alloc, hasher));
    match answer {
        Ok(folded) => {
            let bits = folded.after.saturating_sub(begin_of(folded.head));
            let rows = folded.gatherer.into_rows();
            let magic = folded.head.magic;
            (Ok(Analysis::of(alloc, magic, bits, rows)), source)
        }
        Err(fault) => (Err(fault), source),
    }
}

/// The same with the hasher of `IndexMap`, whose seed is fixed.
pub fn analyse<S: Source>(alloc: Global, source: S, limits: Limits) -> (Result<Analysis, Fault>, S)
    ensures { ReadsWhole (HasTally limits) limits (S.incoming source) result.0
        (S.incoming result.1) }
{
    analyse_with_hasher(alloc, source, limits, BuildHasherDefault::new())
}
