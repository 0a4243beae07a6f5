ghost use Rattle.std.specs.Prelude.{◌≡◌, [], ◌∷◌, ◌++◌, ◌≤◌, ℕ, List, length, take};
ghost use Rattle.bit_text.specs.Assembling.{outlook, EndsLine, Finishes, TakesBytes};
ghost use Rattle.bit_norm.specs.Telling.{Call};
ghost use Rattle.bit_text.specs.Listings.{after_line, at_start, told_all, Standing};
ghost use Rattle.bit_text.specs.Stops.{IsAt, IsTold};

use crate::fault::AssembleFault;
use crate::line_end::line_end;
use crate::numbers::{BATCH, Stop};
use crate::reason::TextReason;
use crate::telling::{close, read_line};
use bit_fields::{Fault, Limits, Sink};
use bit_norm::FormWriter;
use std::alloc::Global;
use std::mem;

/// Ends all open blocks, and gives a sink the normal form of what a writer was told.
fn give<K: Sink>(mut writer: FormWriter, sink: K) -> (Result<u64, AssembleFault>, K)
    ensures { (limits : Limits) (magic : List ℕ) (calls : List Call)
        → IsTold limits magic calls writer
        → Finishes (Ok (told_all magic calls)) limits (K.outgoing sink) result.0
        (K.outgoing result.1) }
{
    if close(&mut writer, 0).is_err() {
        return (Err(AssembleFault::Fault(Fault::Memory)), sink);
    }
    if !writer.is_complete() {
        return (Err(AssembleFault::Fault(Fault::Failed)), sink);
    }
    let (written, sink) = writer.finish(sink);
    match written {
        Ok(count) => (Ok(count), sink),
        Err(fault) => (Err(AssembleFault::Fault(fault)), sink),
    }
}

/// Reads a text piece by piece. It holds the form of the lines so far, the beginning of the next line, and the numbers of a line.
///
/// After a fault it is of no use.
#[derive(Drop)]
pub(crate) struct Assembler {
    alloc: Global,
    limits: Limits,
    /// After the line of the magic.
    writer: Option<FormWriter>,
    line: Vec<u8>,
    numbers: Vec<u64>,
    /// The numbers of a line that is read at once.
    batch: [u64; BATCH],
    /// How many lines were read; the greatest number if more.
    number: u64,
}

impl Assembler {
    /// At the beginning of a text.
    pub(crate) fn new(alloc: Global, limits: Limits) -> Assembler
        ensures at { IsAt limits at_start result.writer }
        ensures limits { result.limits ≡ limits }
        ensures number { result.number ≡ 0 }
        ensures line { result.line.items ≡ [] }
    {
        Assembler {
            alloc,
            limits,
            writer: None,
            line: Vec::new(alloc),
            numbers: Vec::new(alloc),
            batch: [0; BATCH],
            number: 0,
        }
    }

    /// Reads the line that a text has before `end`.
    fn read(&mut self, text: &[u8], end: usize) -> Result<(), AssembleFault>
        requires empty { self.old.line.items ≡ [] }
        requires within { end ≤ length text.now }
        ensures { (now : Standing) → IsAt self.old.limits now self.old.writer
            → EndsLine self.old (after_line self.old.limits now (take end text.now)) result self.new }
    {
        self.number = self.number.saturating_add(1);
        match read_line(
            self.alloc,
            self.limits,
            text,
            end,
            &mut self.writer,
            &mut self.numbers,
            &mut self.batch,
        ) {
            Ok(()) => Ok(()),
            Err(Stop::Refused(reason)) => Err(AssembleFault::Refused {
                reason,
                line: self.number,
            }),
            Err(Stop::Memory) => Err(AssembleFault::Fault(Fault::Memory)),
        }
    }

    /// Reads the line that ends with the bytes of a text before `end`. A line that begins in an earlier piece is put together.
    #[inline(always)]
    fn end_line(&mut self, text: &[u8], end: usize) -> Result<(), AssembleFault>
        requires { end ≤ length text.now }
        ensures { (now : Standing) → IsAt self.old.limits now self.old.writer
            → EndsLine self.old
            (after_line self.old.limits now (self.old.line.items ++ take end text.now)) result self.new }
    {
        if self.line.is_empty() {
            return self.read(text, end);
        }
        let mut line = mem::replace(&mut self.line, Vec::new(self.alloc));
        match line.extend_from_slice(&text[..end]) {
            Ok(()) => self.read(&line, line.len()),
            Err(_) => Err(AssembleFault::Fault(Fault::Memory)),
        }
    }

    /// Reads the next bytes of the text.
    pub(crate) fn take(&mut self, bytes: &[u8]) -> Result<(), AssembleFault>
        ensures { (now : Standing) → IsAt self.old.limits now self.old.writer
            → TakesBytes now bytes.now self.old result self.new }
    {
        let mut from = 0;
        let mut to = line_end(bytes, 0);
        while to < bytes.len() {
            self.end_line(&bytes[from..], to - from)?;
            from = to + 1;
            to = line_end(bytes, from);
        }
        match self.line.extend_from_slice(&bytes[from..]) {
            Ok(()) => Ok(()),
            Err(_) => Err(AssembleFault::Fault(Fault::Memory)),
        }
    }

    /// Reads the line with which the text ends, ends the blocks that are open, and gives a sink the normal form.
    pub(crate) fn finish<K: Sink>(mut self, sink: K) -> (Result<u64, AssembleFault>, K)
        ensures { (now : Standing) → IsAt self.limits now self.writer
            → Finishes (outlook now self []) self.limits (K.outgoing sink) result.0
            (K.outgoing result.1) }
    {
        if let Err(fault) = self.end_line(&[], 0) {
            return (Err(fault), sink);
        }
        let Assembler {
            alloc: _,
            limits: _,
            writer,
            line: _,
            numbers: _,
            batch: _,
            number,
        } = self;
        match writer {
            Some(writer) => give(writer, sink),
            None => {
                let reason = TextReason::NoMagic;
                let line = number;
                (Err(AssembleFault::Refused { reason, line }), sink)
            }
        }
    }
}
