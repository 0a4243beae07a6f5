//! The outcome of a command.

ghost use Rattle.std.specs.Prelude.{◌≡◌, ◌++◌};
ghost use Rattle.bitstool.specs.Outcome.{line_of, refused_at, start_of, status_of};
ghost use Rattle.bitstool.specs.Performing.{PutsAll};

use crate::devices::{put_all, put_number};
use bit_fields::{Reason, Sink, SinkFailed};
use bit_norm::Which;
use bit_text::TextReason;

/// The outcome of a command.
#[derive(Clone, Copy, Debug, PartialEq, Eq)]
pub enum Outcome {
    /// It succeeded; two inputs are the same.
    Done,
    /// Two inputs are not the same.
    Different,
    /// The input breaks a rule at a bit.
    Refused {
        reason: Reason,
        bit: u64,
    },
    /// One of two inputs breaks a rule at a bit of it.
    RefusedOf {
        which: Which,
        reason: Reason,
        bit: u64,
    },
    /// The listing is refused at a line.
    RefusedLine {
        reason: TextReason,
        line: u64,
    },
    /// The normal form has more bytes than the limit, which is given.
    TooLong {
        limit: u64,
    },
    /// The arguments are no command.
    Usage,
    /// The input could not be read.
    Read,
    /// The output could not be written.
    Write,
    /// An allocation failed.
    Memory,
}

impl Outcome {
    /// The exit status.
    pub fn status(self) -> u8
        ensures { result ≡ status_of self }
    {
        match self {
            Outcome::Done => 0,
            Outcome::Different => 1,
            Outcome::Refused { .. } => 1,
            Outcome::RefusedOf { .. } => 1,
            Outcome::RefusedLine { .. } => 1,
            Outcome::TooLong { .. } => 1,
            Outcome::Usage => 2,
            Outcome::Read => 3,
            Outcome::Write => 3,
            Outcome::Memory => 3,
        }
    }

    /// Writes the line for the errors, if there is one.
    pub fn report<K: Sink>(self, errors: &mut K) -> Result<(), SinkFailed>
        ensures { PutsAll (line_of self) (K.outgoing errors.old) result (K.outgoing errors.new) }
    {
        match self {
            Outcome::Done | Outcome::Different | Outcome::Usage => Ok(()),
            Outcome::Refused { reason, bit } => {
                put_refusal(errors, b"refused: ", reason.name(), b" at bit ", bit)
            }
            Outcome::RefusedOf { which, reason, bit } => {
                put_refusal(errors, start_of(which), reason.name(), b" at bit ", bit)
            }
            Outcome::RefusedLine { reason, line } => {
                put_refusal(errors, b"refused: ", reason.name(), b" at line ", line)
            }
            Outcome::TooLong { limit } => put_too_long(errors, limit),
            Outcome::Read => put_all(errors, b"fault: read failed\n"),
            Outcome::Write => put_all(errors, b"fault: write failed\n"),
            Outcome::Memory => put_all(errors, b"fault: no memory\n"),
        }
    }
}

/// The beginning of the line if one of two inputs is refused.
fn start_of(which: Which) -> &'static [u8]
    ensures { result.now ≡ start_of which }
{
    match which {
        Which::First => b"refused: first: ",
        Which::Second => b"refused: second: ",
    }
}

/// Gives a sink the beginning of a line, a reason, and the number of the place where it is.
fn put_refusal<K: Sink>(
    sink: &mut K,
    start: &[u8],
    reason: &str,
    place: &[u8],
    number: u64,
) -> Result<(), SinkFailed>
    ensures { PutsAll (start.now ++ refused_at reason.now place.now number) (K.outgoing sink.old)
        result (K.outgoing sink.new) }
{
    put_all(sink, start)?;
    put_all(sink, reason.as_bytes())?;
    put_all(sink, place)?;
    put_number(sink, number, b"\n")
}

/// Gives a sink the line of a normal form that has more bytes than this limit.
fn put_too_long<K: Sink>(sink: &mut K, limit: u64) -> Result<(), SinkFailed>
    ensures { PutsAll (line_of (Outcome.TooLong limit)) (K.outgoing sink.old) result
        (K.outgoing sink.new) }
{
    put_all(sink, b"refused: normal form longer than ")?;
    put_number(sink, limit, b" bytes\n")
}
