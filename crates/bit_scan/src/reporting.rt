ghost use Rattle.bit_scan.specs.Reporting.{Reports, ReportsAs};

use crate::analysing::analyse_with_hasher;
use crate::format::Format;
use bit_fields::{Fault, Limits, Sink, Source};
use std::alloc::Global;
use std::hash::{BuildHasher, BuildHasherDefault, FoldHasher};

/// Appends the report of an input's analysis to a sink: a line for the stream, then one for each block id and each of its
/// codes. The input is read from the first unread byte of its source to the last. Its rows are found by the hashes of block ids
/// and codes, as in `analyse_with_hasher`.
///
/// The sink gets nothing before the whole input is accepted. `Refused` names the one reason and bit at which it breaks
/// the rules. `Write`, and `Memory` after acceptance, leave the sink a prefix of the report. The source and the sink are
/// returned.
#[tactic(auto, using(crate::proofs::Reported::not_reported, crate::proofs::Reported::reported))]
pub fn write_report_with_hasher<S: Source, K: Sink, H: BuildHasher + Copy>(
    alloc: Global,
    source: S,
    sink: K,
    limits: Limits,
    format: Format,
    hasher: H,
) -> (Result<(), Fault>, S, K)
    ensures { ReportsAs format limits (S.incoming source) (K.outgoing sink) result.0
        (S.incoming result.1) (K.outgoing result.2) }
{
    let (answer, source) = analyse_with_hasher(alloc, source, limits, hasher);
    match answer {
        Ok(analysis) => {
            let (written, sink) = analysis.write_as(sink, format);
            (written, source, sink)
        }
        Err(fault) => (Err(fault), source, sink),
    }
}

/// The same with the hasher of `IndexMap`, whose seed is fixed.
pub fn write_report_as<S: Source, K: Sink>(
    alloc: Global,
    source: S,
    sink: K,
    limits: Limits,
    format: Format,
) -> (Result<(), Fault>, S, K)
    ensures { ReportsAs format limits (S.incoming source) (K.outgoing sink) result.0
        (S.incoming result.1) (K.outgoing result.2) }
{
    write_report_with_hasher(
        alloc,
        source,
        sink,
        limits,
        format,
        BuildHasherDefault::<FoldHasher>::new(),
    )
}

/// The same with the report as text.
pub fn write_report<S: Source, K: Sink>(
    alloc: Global,
    source: S,
    sink: K,
    limits: Limits,
) -> (Result<(), Fault>, S, K)
    ensures { Reports limits (S.incoming source) (K.outgoing sink) result.0 (S.incoming result.1)
        (K.outgoing result.2) }
{
    write_report_as(alloc, source, sink, limits, Format::Text)
}
