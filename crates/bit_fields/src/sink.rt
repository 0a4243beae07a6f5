ghost use Rattle.std.specs.Prelude.{◌≡◌, [], length, Some, IfOk};
ghost use Rattle.bit_fields.specs.Devices.{Flushes};

use std::alloc::Global;
use std::io::Write;
use thiserror::Error;

/// A sink took no bytes, or could not flush them.
#[derive(Clone, Copy, Debug, PartialEq, Eq, Error)]
#[error("the sink failed")]
pub struct SinkFailed;

/// Takes bytes in order, and counts its failures. A sink is exhausted once the count is `u64::MAX`.
pub trait Sink {
    ghost use Rattle.std.specs.Prelude.{◌≡◌};
    ghost use Rattle.bit_fields.specs.Devices.{Outgoing, Puts};

    // The bytes that it holds, if it is known, and the count.
    ghost outgoing: { Self → Outgoing };

    /// Takes leading bytes of a slice and returns how many. To take none of a slice that is not empty counts as a failure.
    ///
    /// After `SinkFailed` no byte was taken; it counts as a failure too. An exhausted sink returns it and changes nothing.
    fn put(&mut self, from: &[u8]) -> Result<usize, SinkFailed>
        ensures { Puts (outgoing self.old) (outgoing self.new) result from.now };

    /// Tells the sink that so many bytes come, so that it may make room for all of them at once. It takes none.
    #[inline]
    fn expect(&mut self, _bytes: u64)
        ensures { outgoing self.new ≡ outgoing self.old }
    {}
}

/// A sink that is a vector of bytes. It fails if an allocation fails.
#[derive(Drop)]
pub struct VecSink {
    bytes: Vec<u8>,
    failures: u64,
}

impl VecSink {
    /// A sink that has taken no byte.
    pub fn new(alloc: Global) -> VecSink
        ensures { ⟦<VecSink as Sink>⟧.outgoing result ≡ record { bytes = Some []; failures = 0 } }
    {
        VecSink {
            bytes: Vec::new(alloc),
            failures: 0,
        }
    }

    /// The bytes that it took.
    pub fn bytes(&self) -> &[u8]
        ensures { (⟦<VecSink as Sink>⟧.outgoing self.now).bytes ≡ Some result.now }
    {
        self.bytes.as_slice()
    }
}

impl Sink for VecSink {
    ghost use Rattle.bit_fields.specs.Devices.{Puts};

    ghost outgoing = { λ s. record { bytes = Some s.bytes.items; failures = s.failures } };

    /// Takes all bytes of a slice, or none.
    fn put(&mut self, from: &[u8]) -> Result<usize, SinkFailed>
        ensures puts { Puts (⟦<VecSink as Sink>⟧.outgoing self.old)
            (⟦<VecSink as Sink>⟧.outgoing self.new) result from.now }
        ensures whole { IfOk result (λ count. count ≡ length from.now) }
    {
        if self.failures == u64::MAX {
            return Err(SinkFailed);
        }
        match self.bytes.extend_from_slice(from) {
            Ok(()) => Ok(from.len()),
            Err(_) => {
                self.failures += 1;
                Err(SinkFailed)
            }
        }
    }

    /// Makes room for the bytes. Without memory for them it goes on as before.
    fn expect(&mut self, bytes: u64) {
        let _ = self.bytes.reserve_exact(bytes as usize);
    }
}

/// A sink over a writer. Any error of the writer is a failure, and so is a write that takes nothing.
#[derive(Drop)]
pub struct WriteSink<W> {
    writer: W,
    failures: u64,
}

impl<W: Write> WriteSink<W> {
    /// A sink over a writer in its present state.
    pub fn new(writer: W) -> WriteSink<W>
        ensures { ⟦<WriteSink<W> as Sink>⟧.outgoing result
            ≡ record { bytes = W.contents writer; failures = 0 } }
    {
        WriteSink {
            writer,
            failures: 0,
        }
    }

    /// Flushes the writer. `SinkFailed` counts as a failure, unless the sink was exhausted.
    pub fn flush(&mut self) -> Result<(), SinkFailed>
        ensures { Flushes (⟦<WriteSink<W> as Sink>⟧.outgoing self.old)
            (⟦<WriteSink<W> as Sink>⟧.outgoing self.new) result }
    {
        if self.failures == u64::MAX {
            return Err(SinkFailed);
        }
        match self.writer.flush() {
            Ok(()) => Ok(()),
            Err(_) => {
                self.failures += 1;
                Err(SinkFailed)
            }
        }
    }

    /// Returns the writer in its present state.
    pub fn into_inner(self) -> W
        ensures { W.contents result ≡ (⟦<WriteSink<W> as Sink>⟧.outgoing self).bytes }
    {
        self.writer
    }
}

impl<W: Write> Sink for WriteSink<W> {
    ghost outgoing = { λ s. record { bytes = W.contents s.writer; failures = s.failures } };

    #[inline]
    fn put(&mut self, from: &[u8]) -> Result<usize, SinkFailed> {
        if self.failures == u64::MAX {
            return Err(SinkFailed);
        }
        match self.writer.write(from) {
            Ok(count) => {
                if count == 0 && !from.is_empty() {
                    self.failures += 1;
                }
                Ok(count)
            }
            Err(_) => {
                self.failures += 1;
                Err(SinkFailed)
            }
        }
    }
}

#[cfg(test)]
mod tests {
    use super::*;

    #[test]
    fn worn_lists(rt: HostRuntime) {
        let mut list = VecSink::new(rt.alloc());
        list.failures = u64::MAX;
        assert!(rt; list.put(&[7]) == Err(SinkFailed));
        assert!(rt; list.bytes().is_empty() && list.failures == u64::MAX);
    }

    #[test]
    fn worn_writers(rt: HostRuntime) {
        let mut room = [0; 2];
        let mut writer = WriteSink {
            writer: room.as_mut_slice(),
            failures: u64::MAX - 1,
        };
        let puts = [writer.put(&[7, 8, 9]), writer.put(&[9]), writer.put(&[9])];
        assert!(rt; puts == [Ok(2), Ok(0), Err(SinkFailed)]);
        let flush = writer.flush();
        assert!(rt; flush == Err(SinkFailed) && writer.failures == u64::MAX);
    }
}
