//! The sink of a text for the caller's room.

ghost use Rattle.std.specs.Prelude.{◌≡◌, ◌++◌, [], length, Some, IfSome, OnErr, OnOk};
ghost use Rattle.std.proofs.Props.{props};
ghost use Rattle.bit_c.specs.Handing.{KeepsText};

use crate::outcome::Outcome;
use crate::took::{Piece, Took};
use bit_fields::{Sink, SinkFailed};
use std::alloc::{AllocError, Global};

/// Counts the bytes that it takes, and keeps them while they fit a room: nothing of a longer text. It fails if an
/// allocation for them fails.
#[derive(Drop)]
pub(crate) struct RoomSink {
    room: usize,
    kept: Option<Vec<u8>>,
    taken: usize,
    failures: u64,
    took: Took,
    ghost counted: { taken ≡ length took.bytes },
    ghost whole: { IfSome kept (λ bytes. bytes.items ≡ took.bytes) } by { Prim.hlevel props },
}

impl RoomSink {
    /// An empty sink for a room of `room` bytes.
    pub(crate) fn new(alloc: Global, room: usize) -> RoomSink
        ensures { ⟦<RoomSink as Sink>⟧.outgoing result ≡ record { bytes = Some []; failures = 0 } }
    {
        RoomSink {
            room,
            kept: Some(Vec::new(alloc)),
            taken: 0,
            failures: 0,
            took: Took::nothing(),
        }
    }

    /// The number of bytes that it took.
    pub(crate) fn taken(&self) -> usize
        ensures { result ≡ length self.now.took.bytes }
    {
        self.taken
    }

    /// All bytes that it took, if it keeps them.
    pub(crate) fn kept(&self) -> Option<&[u8]>
        ensures { IfSome result (λ bytes. bytes.now ≡ self.now.took.bytes) }
    {
        match &self.kept {
            Some(bytes) => Some(bytes.as_slice()),
            None => None,
        }
    }

    /// The same, by value.
    pub(crate) fn into_kept(self) -> Option<Vec<u8>>
        ensures { IfSome result (λ bytes. bytes.items ≡ self.took.bytes) }
    {
        self.kept
    }

    /// Takes all bytes of a slice, or none.
    fn take(&mut self, from: &[u8]) -> Result<(), AllocError>
        ensures took { OnOk result (self.new.took.bytes ≡ self.old.took.bytes ++ from.now) }
        ensures none { OnErr result (self.new.took.bytes ≡ self.old.took.bytes) }
        ensures failures { self.new.failures ≡ self.old.failures }
    {
        let taken = self.taken.checked_add(from.len()).ok_or(AllocError)?;
        if taken > self.room {
            self.kept = None;
        }
        if let Some(kept) = &mut self.kept {
            kept.extend_from_slice(from)?;
        }
        self.taken = taken;
        self.took = self.took.and(&Piece(from));
        Ok(())
    }
}

/// The text that a sink for the largest room kept.
pub(crate) fn kept_of(sink: RoomSink) -> Result<Vec<u8>, Outcome>
    ensures { KeepsText sink.took.bytes result }
{
    match sink.into_kept() {
        Some(text) => Ok(text),
        // Such a sink keeps every text.
        None => Err(Outcome::Memory),
    }
}

impl Sink for RoomSink {
    ghost use Rattle.bit_fields.specs.Devices.{Puts};

    ghost outgoing = { λ s. record { bytes = Some s.took.bytes; failures = s.failures } };

    /// Takes all bytes of a slice, or none.
    fn put(&mut self, from: &[u8]) -> Result<usize, SinkFailed> {
        if self.failures == u64::MAX {
            return Err(SinkFailed);
        }
        match self.take(from) {
            Ok(()) => Ok(from.len()),
            Err(AllocError) => {
                self.failures += 1;
                Err(SinkFailed)
            }
        }
    }

    /// Makes room for a text that fits, and keeps nothing of a longer one. Without memory for it the sink goes on as before.
    fn expect(&mut self, bytes: u64) {
        if bytes > self.room as u64 {
            self.kept = None;
            return;
        }
        if let Some(kept) = &mut self.kept {
            let _ = kept.reserve_exact(bytes as usize);
        }
    }
}
