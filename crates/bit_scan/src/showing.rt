ghost use Rattle.bit_grammar.specs.Setting.{setting_of};
ghost use Rattle.bit_scan.specs.Showing.{Shows};

use crate::listing::write_listing;
use bit_events::check_keeping;
use bit_fields::{Fault, Limits, Sink, Source};
use bit_grammar::Info;
use std::alloc::Global;

/// Appends a listing of the part of an input that is kept under a setting to a sink: a line for the magic, and one for each block
/// and record in order. The input is read from the first unread byte of its source to the last. Its bytes are kept and read twice:
/// first to judge the input, and then to write each line as it is read.
///
/// The sink gets nothing before the whole input is accepted. `Refused` names the one reason and bit at which it breaks
/// the rules. `Write`, and `Memory` after acceptance, leave the sink a prefix of the listing. The source and the sink are
/// returned.
pub fn write_show<S: Source, K: Sink>(
    alloc: Global,
    source: S,
    sink: K,
    limits: Limits,
    info: Info<'_>,
) -> (Result<(), Fault>, S, K)
    ensures { Shows (setting_of info.entry) limits (S.incoming source) (K.outgoing sink) result.0
        (S.incoming result.1) (K.outgoing result.2) }
{
    let (kept, source) = check_keeping(alloc, source, limits);
    match kept {
        Ok(bytes) => {
            let (written, sink) = write_listing(alloc, &bytes, limits, info, sink);
            (written, source, sink)
        }
        Err(fault) => (Err(fault), source, sink),
    }
}
