use crate::{FormWriter, Untold};
use bit_fields::{Fault, Limits, VecSink};
use std::alloc::Global;
use std::process::Abort;

const MAGIC: [u8; 4] = [0x42, 0x43, 0xc0, 0xde];

/// A writer under limits of 1000 bytes, depth 2 and 3 values.
fn begin(rt: &impl Abort, alloc: Global, bytes: u64) -> FormWriter {
    let limits = Limits::new(bytes, 2, 3).expect(rt, "limits within their caps");
    FormWriter::new(alloc, MAGIC, limits).expect(rt, "no wrapper")
}

const NO: Result<(), Untold> = Err(Untold::Misplaced);

#[test]
fn what_does_not_fit(rt: HostRuntime) {
    let mut writer = begin(&rt, rt.alloc(), 1000);
    let top = [writer.leave(), writer.record(1, &[7])];
    assert!(rt; top == [NO; 2] && writer.is_complete());
    let down = [writer.enter(8), writer.enter(0), writer.enter(8)];
    assert!(rt; down == [Ok(()), Ok(()), NO] && !writer.is_complete());
    let info = [
        writer.record(2, &[7]),
        writer.record(1, &[]),
        writer.record(1, &[1 << 32]),
        writer.record(1, &[7]),
        writer.record(2, &[7]),
    ];
    assert!(rt; info == [NO, NO, NO, Ok(()), Ok(())]);
    let rest = [
        writer.leave(),
        writer.record(1, &[7, 7]),
        writer.record(1, &[7]),
    ];
    assert!(rt; rest == [Ok(()), NO, Ok(())]);
}

/// How a writer ends of one block with one record of code 1 and the value 30, and its bytes.
fn end(rt: &impl Abort, alloc: Global, bytes: u64) -> (Result<u64, Fault>, VecSink) {
    let mut writer = begin(rt, alloc, bytes);
    let told = [writer.enter(8), writer.record(1, &[30]), writer.leave()];
    let complete = writer.is_complete();
    assert!(rt; told == [Ok(()); 3] && complete);
    writer.finish(VecSink::new(alloc))
}

#[test]
fn what_is_written(rt: HostRuntime) {
    let (answer, sink) = end(&rt, rt.alloc(), 16);
    let wanted = [
        0x42, 0x43, 0xC0, 0xDE, 0x21, 8, 0, 0, 1, 0, 0, 0, 7, 0x81, 7, 0,
    ];
    assert!(rt; answer == Ok(16) && sink.bytes() == wanted.as_slice());
    let (answer, sink) = end(&rt, rt.alloc(), 15);
    assert!(rt; answer == Err(Fault::OutputTooLong) && sink.bytes().is_empty());
}
