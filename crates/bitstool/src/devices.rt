//! Sinks with buffers, and whole texts for sinks.

ghost use Rattle.std.specs.Prelude.{◌≡◌, ◌++◌, decimal};
ghost use Rattle.bitstool.specs.Performing.{PutsAll};

use bit_fields::{Sink, SinkFailed, WriteSink};
use itoa::Buffer;
use std::io::Write;

/// A sink that may buffer the bytes that it took.
pub trait Flush: Sink {
    ghost use Rattle.std.specs.Prelude.{OnOk};
    ghost use Rattle.bit_fields.specs.Devices.{Flushes};

    // Whether it was flushed successfully, up to the last byte that it took.
    ghost handed_on: { Self → Type 0 };

    /// Flushes the buffer. `SinkFailed` is counted as a failure unless the sink's counter was exhausted.
    fn hand_on(&mut self) -> Result<(), SinkFailed>
        ensures flushes { Flushes (Self.outgoing self.old) (Self.outgoing self.new) result }
        ensures handed_on { OnOk result (handed_on self.new) };
}

/// A writer for a program's output.
#[derive(Drop)]
pub struct Output<W: Write> {
    sink: WriteSink<W>,
    /// The writer was flushed, and has taken nothing since.
    flushed: bool,
}

impl<W: Write> Output<W> {
    /// An output to this writer.
    pub fn new(writer: W) -> Output<W>
        ensures { ⟦<Output<W> as Sink>⟧.outgoing result
            ≡ record { bytes = W.contents writer; failures = 0 } }
    {
        Output {
            sink: WriteSink::new(writer),
            flushed: false,
        }
    }

    /// The writer, with the bytes that it holds.
    pub fn into_inner(self) -> W
        ensures { W.contents result ≡ (⟦<Output<W> as Sink>⟧.outgoing self).bytes }
    {
        self.sink.into_inner()
    }
}

impl<W: Write> Sink for Output<W> {
    ghost outgoing = { λ output. ⟦<WriteSink<W> as Sink>⟧.outgoing output.sink };

    fn put(&mut self, from: &[u8]) -> Result<usize, SinkFailed> {
        self.flushed = false;
        self.sink.put(from)
    }
}

impl<W: Write> Flush for Output<W> {
    ghost use Rattle.std.specs.Prelude.{true};

    ghost handed_on = { λ output. output.flushed ≡ true };

    fn hand_on(&mut self) -> Result<(), SinkFailed> {
        self.sink.flush()?;
        self.flushed = true;
        Ok(())
    }
}

/// Gives a sink all of a text, in as many puts as it needs. `SinkFailed` leaves it a prefix of the text.
pub fn put_all<K: Sink>(sink: &mut K, text: &[u8]) -> Result<(), SinkFailed>
    ensures { PutsAll text.now (K.outgoing sink.old) result (K.outgoing sink.new) }
{
    let mut rest = text;
    while !rest.is_empty() {
        match sink.put(rest) {
            Ok(0) => return Err(SinkFailed),
            Ok(count) => rest = &rest[count..],
            Err(e) => return Err(e),
        }
    }
    Ok(())
}

/// Gives a sink a number in digits, and then a text.
pub fn put_number<K: Sink>(sink: &mut K, number: u64, after: &[u8]) -> Result<(), SinkFailed>
    ensures { PutsAll (decimal number ++ after.now) (K.outgoing sink.old) result
        (K.outgoing sink.new) }
{
    let mut digits = Buffer::new();
    put_all(sink, digits.format(number).as_bytes())?;
    put_all(sink, after)
}
