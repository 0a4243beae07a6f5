//! Calls of `FormWriter`.

use crate::ending::Ending;
use bit_fields::{Fault, Limits, VecSink};
use bit_norm::{FormWriter, Untold};
use std::alloc::Global;

const MAGIC: [u8; 4] = [0x42, 0x43, 0xC0, 0xDE];

/// The values of each record; a block with one such record has 236 bytes in its form.
const VALUES: [u64; 100] = [7_000; 100];

/// How many blocks are written, and the bytes of their form.
const BLOCKS: usize = 40;

const BYTES: u64 = 4 + 40 * 236;

/// Writes blocks with a record in each.
fn write_blocks(writer: &mut FormWriter) -> Result<(), Untold> {
    for _ in 0..BLOCKS {
        writer.enter(8)?;
        writer.record(1, &VALUES)?;
        writer.leave()?;
    }
    Ok(())
}

/// Whether each call of a writer says that an allocation has failed, and its end gives a sink nothing.
fn stays_failed(alloc: Global, mut writer: FormWriter) -> bool {
    let lost = Err(Untold::Memory);
    if writer.enter(8) != lost || writer.record(1, &[7]) != lost || writer.leave() != lost {
        return false;
    }
    if !writer.is_complete() {
        return true;
    }
    let (answer, sink) = writer.finish(VecSink::new(alloc));
    answer == Err(Fault::Failed) && sink.bytes().is_empty()
}

/// The end of a writer that took all items.
fn finish(alloc: Global, writer: FormWriter) -> Ending {
    if !writer.is_complete() {
        return Ending::Wrong;
    }
    let (answer, sink) = writer.finish(VecSink::new(alloc));
    match answer {
        Ok(count) => Ending::of_answer(count == BYTES && sink.bytes().len() as u64 == BYTES),
        Err(Fault::Write) => Ending::of_memory((sink.bytes().len() as u64) < BYTES),
        Err(_) => Ending::Wrong,
    }
}

/// The calls of `FormWriter`.
pub fn write(alloc: Global) -> Ending {
    let Some(mut writer) = FormWriter::new(alloc, MAGIC, Limits::usual()) else {
        return Ending::Wrong;
    };
    match write_blocks(&mut writer) {
        Ok(()) => finish(alloc, writer),
        Err(Untold::Memory) => Ending::of_memory(stays_failed(alloc, writer)),
        Err(Untold::Misplaced) => Ending::Wrong,
    }
}
