ghost use Rattle.std.specs.Prelude.{◌≡◌, ◌^◌};
ghost use Rattle.bit_text.specs.Assembling.{Assembles, TakesAll};
ghost use Rattle.bit_text.specs.Listings.{Standing};
ghost use Rattle.bit_text.specs.Stops.{IsAt};

use crate::assembler::Assembler;
use crate::fault::AssembleFault;
use bit_fields::{Fault, Limits, Sink, Source, SourceFailed};
use std::alloc::Global;

/// How many bytes of a text are pulled at once.
const PIECE: usize = 8192;

/// Reads all bytes that a source still has.
fn take_all<S: Source>(source: &mut S, assembler: &mut Assembler) -> Result<(), AssembleFault>
    ensures { (now : Standing) → IsAt assembler.old.limits now assembler.old.writer
        → TakesAll now (S.incoming source.old) assembler.old result (S.incoming source.new)
        assembler.new }
{
    let mut piece = [0; PIECE];
    for _ in 0..u64::MAX {
        match source.pull(&mut piece) {
            Ok(0) => return Ok(()),
            Ok(count) => assembler.take(&piece[..count])?,
            Err(SourceFailed) => return Err(AssembleFault::Fault(Fault::Read)),
        }
    }
    Err(AssembleFault::Fault(Fault::Read))
}

/// Reads a listing, from the first byte that its source still has to the last, and gives a sink the normal form of the tree that
/// it spells. Returns the length of the form in bytes. Besides the form, the open blocks and the longest line are held.
///
/// The sink gets nothing before the whole listing is read. `Refused` has the number of the first line that no listing has there,
/// and the reason; `OutputTooLong` means that the form is longer than the limit on bytes. After these, `Read` and `Memory` the sink
/// has got nothing, and after `Write` a prefix of the form. The source and the sink are returned in their present state.
pub fn assemble<S: Source, K: Sink>(
    alloc: Global,
    mut source: S,
    sink: K,
    limits: Limits,
) -> (Result<u64, AssembleFault>, S, K)
    ensures { Assembles limits (S.incoming source) (K.outgoing sink) result.0
        (S.incoming result.1) (K.outgoing result.2) }
{
    let mut assembler = Assembler::new(alloc, limits);
    match take_all(&mut source, &mut assembler) {
        Ok(()) => {
            let (answer, sink) = assembler.finish(sink);
            (answer, source, sink)
        }
        Err(fault) => (Err(fault), source, sink),
    }
}
