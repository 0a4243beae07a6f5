//! Fields that are written, to sinks that take few bytes a put or fail.

ghost use Rattle.std.specs.Prelude.{◌≡◌, ◌<◌, ◌^◌, Some};

use bit_fields::{BitWriter, Fault, Sink, SinkFailed, VecSink, WriteSink};
use std::alloc::Global;
use std::io::{self, Error, ErrorKind, Write};
use std::test::Fail;

/// A sink that takes few bytes a put, and fails after some puts.
#[derive(Drop)]
struct Pieces {
    bytes: Vec<u8>,
    /// How many bytes it takes a put, at most.
    most: usize,
    /// It fails after this many more puts.
    puts_left: u64,
    failures: u64,
    /// The most bytes that it was given at once.
    widest: usize,
}

impl Pieces {
    fn new(alloc: Global, most: usize, puts_left: u64) -> Pieces {
        Pieces {
            bytes: Vec::new(alloc),
            most,
            puts_left,
            failures: 0,
            widest: 0,
        }
    }
}

impl Sink for Pieces {
    ghost outgoing = { λ s. record { bytes = Some s.bytes.items; failures = s.failures } };

    fn put(&mut self, from: &[u8]) -> Result<usize, SinkFailed> {
        if self.failures == u64::MAX {
            return Err(SinkFailed);
        }
        if self.puts_left == 0 {
            self.failures += 1;
            return Err(SinkFailed);
        }
        self.puts_left -= 1;
        self.widest = self.widest.max(from.len());
        let count = from.len().min(self.most);
        match self.bytes.extend_from_slice(&from[..count]) {
            Ok(()) => {
                if count == 0 && !from.is_empty() {
                    self.failures += 1;
                }
                Ok(count)
            }
            Err(_) => {
                self.failures += 1;
                Err(SinkFailed)
            }
        }
    }
}

/// A writer that takes at most two bytes, or fails.
#[derive(Drop)]
struct Balky {
    fails: bool,
    flushes: u32,
}

impl Write for Balky {
    fn write(&mut self, from: &[u8]) -> io::Result<usize> {
        if self.fails {
            return Err(ErrorKind::Other.into());
        }
        Ok(from.len().min(2))
    }

    fn flush(&mut self) -> io::Result<()> {
        if self.fails {
            return Err(ErrorKind::Other.into());
        }
        self.flushes = self.flushes.saturating_add(1);
        Ok(())
    }
}

/// What `write_fields` writes, computed apart from this crate.
static WRITTEN: [u8; 76] = [
    0xfc, 0xa7, 0x6a, 0xff, 0xff, 0xff, 0xff, 0xff, 0xff, 0xff, 0xff, 0xff, 0xff, 0xff, 0xff, 0xff,
    0xff, 0xff, 0x7f, 0xc0, 0x07, 0x06, 0xff, 0xff, 0xff, 0xff, 0xff, 0xff, 0xff, 0xff, 0xff, 0x0f,
    0x00, 0x00, 0x00, 0xc0, 0x07, 0x00, 0x00, 0x00, 0x08, 0x00, 0x00, 0xc0, 0xff, 0xff, 0xff, 0xff,
    0xff, 0xff, 0xff, 0xff, 0x00, 0x00, 0x00, 0x00, 0x00, 0x00, 0x00, 0x00, 0xc0, 0xf7, 0x01, 0x00,
    0x00, 0x00, 0x82, 0x00, 0x00, 0x00, 0xfc, 0xff, 0xff, 0xff, 0xff, 0x03,
];

/// Numbers in chunks of the least, a middle and the greatest width: at their ends, and with one more chunk.
static NUMBERS: [(u32, u64); 12] = [
    (2, 0),
    (2, 31),
    (2, 32),
    (2, u64::MAX),
    (6, 0),
    (6, 31),
    (6, 32),
    (6, u64::MAX),
    (32, 0),
    (32, 31),
    (32, 32),
    (32, u64::MAX),
];

fn write_numbers<K: Sink>(writer: &mut BitWriter<K>) -> Result<(), Fault> {
    for (n, value) in &NUMBERS {
        if *n < 2 || *n > 32 || writer.position() >= 1 << 62 {
            return Err(Fault::Read);
        }
        writer.vbr(*n, *value)?;
    }
    Ok(())
}

/// Fields of the same widths, at their lower ends.
fn write_low<K: Sink>(writer: &mut BitWriter<K>) -> Result<(), Fault> {
    if writer.position() >= 1 << 62 {
        return Err(Fault::Read);
    }
    writer.fixed(2, 0)?;
    writer.fixed(6, 0)?;
    writer.fixed(32, 0)?;
    writer.fixed(6, 31)?;
    writer.fixed(32, 31)
}

/// And at their upper ends.
fn write_high<K: Sink>(writer: &mut BitWriter<K>) -> Result<(), Fault> {
    if writer.position() >= 1 << 62 {
        return Err(Fault::Read);
    }
    writer.fixed(6, 32)?;
    writer.fixed(32, 32)?;
    writer.fixed(2, 3)?;
    writer.fixed(6, 63)?;
    writer.fixed(32, 0xffff_ffff)
}

/// Padding to this position, and the end.
fn write_end<K: Sink>(writer: &mut BitWriter<K>, end: u64) -> Result<(), Fault> {
    if writer.position() >= 1 << 62 {
        return Err(Fault::Read);
    }
    writer.pad()?;
    if writer.position() != end || end % 8 != 0 {
        return Err(Fault::Read);
    }
    writer.finish()
}

/// All of these fields, and padding. A wrong position gives a read fault, which no writer returns.
fn write_fields<K: Sink>(writer: &mut BitWriter<K>) -> Result<(), Fault> {
    write_numbers(writer)?;
    write_low(writer)?;
    write_high(writer)?;
    if writer.position() != 602 {
        return Err(Fault::Read);
    }
    write_end(writer, 608)
}

/// Whether each call of a failed writer returns `Failed`, and its position stays.
fn has_failed<K: Sink>(writer: &mut BitWriter<K>) -> bool {
    let failed = Err(Fault::Failed);
    let position = writer.position();
    position < 1 << 62
        && writer.fixed(1, 0) == failed
        && writer.vbr(6, 0) == failed
        && writer.vbr(6, u64::MAX) == failed
        && writer.pad() == failed
        && (position % 8 != 0 || writer.finish() == failed)
        && writer.position() == position
}

/// A number of two chunks, and padding.
fn write_number<K: Sink>(writer: &mut BitWriter<K>) -> Result<(), Fault> {
    if writer.position() != 0 {
        return Err(Fault::Read);
    }
    writer.vbr(6, 32)?;
    if writer.position() != 12 {
        return Err(Fault::Read);
    }
    write_end(writer, 32)
}

#[test]
fn a_chunk_more(rt: HostRuntime) -> Result<(), Fail> {
    let mut writer = BitWriter::new(VecSink::new(rt.alloc()));
    write_number(&mut writer)?;
    assert!(rt; writer.into_sink().bytes() == [0x60, 0, 0, 0].as_slice());
    Ok(())
}

/// The sink after all of it.
fn written_to<K: Sink + Drop>(sink: K) -> Result<K, Fault> {
    let mut writer = BitWriter::new(sink);
    write_fields(&mut writer)?;
    Ok(writer.into_sink())
}

#[test]
fn vectors_take_all(rt: HostRuntime) -> Result<(), Fail> {
    let sink = written_to(VecSink::new(rt.alloc()))?;
    assert!(rt; sink.bytes() == WRITTEN.as_slice());
    Ok(())
}

#[test]
fn vectors_keep_the_order(rt: HostRuntime) {
    let mut sink = VecSink::new(rt.alloc());
    let answers = [sink.put(&[1, 2, 3]), sink.put(&[]), sink.put(&[4])];
    assert!(rt; answers == [Ok(3), Ok(0), Ok(1)]);
    assert!(rt; sink.bytes() == [1, 2, 3, 4].as_slice());
}

#[test]
fn writers_take_all(rt: HostRuntime) -> Result<(), Fail> {
    let mut sink = written_to(WriteSink::new(Vec::new(rt.alloc())))?;
    sink.flush()?;
    assert!(rt; sink.into_inner().as_slice() == WRITTEN.as_slice());
    Ok(())
}

#[test]
fn full_writers(rt: HostRuntime) {
    let mut room = [0; 2];
    let mut sink = WriteSink::new(room.as_mut_slice());
    let puts = [sink.put(&[7, 8, 9]), sink.put(&[9])];
    assert!(rt; puts == [Ok(2), Ok(0)] && sink.flush() == Ok(()));
}

#[test]
fn short_writers(rt: HostRuntime) -> Result<(), Fail> {
    let mut sink = WriteSink::new(Balky {
        fails: false,
        flushes: 0,
    });
    let answers = [sink.put(&[1, 2, 3]), sink.put(&[3])];
    sink.flush()?;
    assert!(rt; answers == [Ok(2), Ok(1)] && sink.into_inner().flushes == 1);
    Ok(())
}

#[test]
fn writers_fail_alone(rt: HostRuntime) {
    let mut sink = WriteSink::new(Balky {
        fails: true,
        flushes: 0,
    });
    let put = sink.put(&[1, 2, 3]);
    assert!(rt; put == Err(SinkFailed) && sink.flush() == Err(SinkFailed));
}

#[test]
fn short_puts_lose_nothing(rt: HostRuntime) -> Result<(), Fail> {
    for most in [1, 3, 4, 7, 8] {
        let sink = written_to(Pieces::new(rt.alloc(), most, u64::MAX))?;
        let whole = sink.bytes.as_slice() == WRITTEN.as_slice();
        assert!(rt; whole && sink.widest <= 8, "{most} bytes a put");
    }
    Ok(())
}

/// Whether such a sink fails once, has a prefix of what was written, and the writer has then failed.
fn keeps_a_front(alloc: Global, most: usize, puts: u64) -> bool {
    let mut writer = BitWriter::new(Pieces::new(alloc, most, puts));
    let answer = write_fields(&mut writer);
    let failed = answer == Err(Fault::Write) && has_failed(&mut writer);
    let sink = writer.into_sink();
    failed && sink.failures == 1 && WRITTEN.starts_with(&sink.bytes)
}

#[test]
fn failing_puts_keep_a_front(rt: HostRuntime) {
    for most in [1, 3, 4, 8] {
        for puts in 0..10 {
            assert!(rt;
                keeps_a_front(rt.alloc(), most, puts),
                "{puts} puts of {most} bytes"
            );
        }
    }
}

#[test]
fn no_byte_taken_is_a_failure(rt: HostRuntime) {
    assert!(rt; keeps_a_front(rt.alloc(), 0, u64::MAX));
}

/// Whether a writer fails at the end of a field, and has then failed.
fn fails_at_the_end<K: Sink>(writer: &mut BitWriter<K>) -> bool {
    writer.position() == 0
        && writer.fixed(32, 7).is_ok()
        && writer.position() == 32
        && writer.finish() == Err(Fault::Write)
        && has_failed(writer)
        && writer.position() == 32
}

#[test]
fn worn_sinks_fail(rt: HostRuntime) {
    let mut sink = Pieces::new(rt.alloc(), 8, u64::MAX);
    sink.failures = u64::MAX;
    let mut writer = BitWriter::new(sink);
    assert!(rt; fails_at_the_end(&mut writer));
    assert!(rt; writer.into_sink().failures == u64::MAX);
}

/// A writer that takes a limited number of bytes at a time, fails at one of its writes, and can't flush.
#[derive(Drop)]
struct Slow {
    taken: Vec<u8>,
    step: usize,
    writes: u64,
    fails_at: u64,
}

impl Write for Slow {
    fn write(&mut self, buf: &[u8]) -> io::Result<usize> {
        self.writes = self.writes.saturating_add(1);
        if self.writes == self.fails_at {
            return Err(Error::from(ErrorKind::Other));
        }
        let count = self.step.min(buf.len());
        self.taken.extend_from_slice(&buf[..count])?;
        Ok(count)
    }

    fn flush(&mut self) -> io::Result<()> {
        Err(Error::from(ErrorKind::Other))
    }
}

/// Writes two numbers, 20 bytes, and finishes.
fn write_some<W: Write + Drop>(sink: WriteSink<W>) -> (Result<(), Fault>, u64, W) {
    let mut writer = BitWriter::new(sink);
    let answer = write_two(&mut writer);
    let position = writer.position();
    (answer, position, writer.into_sink().into_inner())
}

fn write_two<W: Write>(writer: &mut BitWriter<WriteSink<W>>) -> Result<(), Fault> {
    if writer.position() > 0 {
        return Ok(());
    }
    writer.fixed(32, 0xDEC0_4342)?;
    if writer.position() == 32 {
        writer.vbr(2, u64::MAX)?;
    }
    if writer.position() == 160 {
        writer.finish()?;
    }
    Ok(())
}

/// Whether such a writer gets all bytes, or a prefix of them if it fails.
fn gets_its_part(alloc: Global, step: usize, fails_at: u64, whole: &[u8]) -> bool {
    let (answer, position, slow) = write_some(WriteSink::new(Slow {
        taken: Vec::new(alloc),
        step,
        writes: 0,
        fails_at,
    }));
    let taken = slow.taken.as_slice();
    match answer {
        Ok(()) => position == 160 && taken == whole,
        Err(fault) => fault == Fault::Write && fails_at > 0 && whole.starts_with(taken),
    }
}

#[test]
fn slow_writers(rt: HostRuntime) {
    let mut whole = [0xFF; 20];
    whole[..4].copy_from_slice(&[0x42, 0x43, 0xC0, 0xDE]);
    whole[19] = 0x7F;
    for step in 1..10 {
        for fails_at in 0..30 {
            assert!(rt;
                gets_its_part(rt.alloc(), step, fails_at, &whole),
                "{step} {fails_at}"
            );
        }
    }
}

#[test]
fn flushes(rt: HostRuntime) {
    let slow = Slow {
        taken: Vec::new(rt.alloc()),
        step: 1,
        writes: 0,
        fails_at: 0,
    };
    let mut sink = WriteSink::new(slow);
    assert!(rt; sink.flush().is_err());
    assert!(rt; sink.flush().is_err());
}
