//! The end of a call, and the status and fault that C gets.

ghost use Rattle.std.specs.Prelude.{◌≡◌};
ghost use Rattle.bit_c.specs.Ending.{status_number, fault_told, ended_by, ended_by_listing, text_number};

use bit_fields::{Fault, Reason};
use bit_text::{AssembleFault, TextReason};

/// The end of a call.
#[derive(Clone, Copy)]
pub(crate) enum Outcome {
    Done,
    /// Two inputs differ.
    Different,
    /// An input, 0 for the only or the first one and 1 for the second, breaks a rule at a bit.
    Refused {
        input: u32,
        reason: Reason,
        bit: u64,
    },
    /// A listing is refused at a line.
    RefusedLine {
        reason: TextReason,
        line: u64,
    },
    Memory,
    /// The normal form has more bytes than the limit.
    TooLong,
    /// A limit is past its cap.
    Limits,
    /// The caller's room is too small.
    Room,
    /// The handle is closed.
    Closed,
    /// Records of BLOCKINFO blocks are named to be left out.
    Names,
    /// A call of a writer does not fit: no tree within the limits has that item there.
    Unfit,
}

/// The reason why an input was refused. All zeros if none was refused.
#[repr(C)]
#[derive(Clone, Copy)]
pub struct BsFault {
    /// The number of the reason: from 1 to 22 of an input, from 101 to 108 of a listing.
    pub reason: u32,
    /// 0 for the only or the first input, 1 for the second.
    pub input: u32,
    /// The bit, counted from the first bit of that input; of a listing the number of the line, counted from 1.
    pub bit: u64,
}

/// The number of a reason why a listing is refused.
fn text_number_of(reason: TextReason) -> u32
    ensures { result ≡ text_number reason }
{
    match reason {
        TextReason::NoMagic => 101,
        TextReason::WrapperMagic => 102,
        TextReason::BadLine => 103,
        TextReason::NumberTooLarge => 104,
        TextReason::BadIndentation => 105,
        TextReason::TooDeep => 106,
        TextReason::TooManyValues => 107,
        TextReason::Misplaced => 108,
    }
}

impl Outcome {
    /// The end of a call by a fault of an input.
    pub(crate) fn of(input: u32, fault: Fault) -> Outcome
        ensures { result ≡ ended_by input fault }
    {
        match fault {
            Fault::Refused { reason, bit } => Outcome::Refused { input, reason, bit },
            Fault::OutputTooLong => Outcome::TooLong,
            // A sink in memory fails only if it cannot grow.
            Fault::Memory | Fault::Write => Outcome::Memory,
            // Bytes in memory do not fail, and no call is used after a fault.
            Fault::Read | Fault::Failed => Outcome::Memory,
        }
    }

    /// The end of a call by a fault of a listing.
    pub(crate) fn of_listing(fault: AssembleFault) -> Outcome
        ensures { result ≡ ended_by_listing fault }
    {
        match fault {
            AssembleFault::Refused { reason, line } => Outcome::RefusedLine { reason, line },
            AssembleFault::Fault(fault) => Outcome::of(0, fault),
        }
    }

    /// The status.
    pub(crate) fn number(self) -> u32
        ensures { result ≡ status_number self }
    {
        match self {
            Outcome::Done => 0,
            Outcome::Different => 1,
            Outcome::Refused { .. } | Outcome::RefusedLine { .. } => 2,
            Outcome::Memory => 3,
            Outcome::TooLong => 4,
            Outcome::Limits => 5,
            Outcome::Room => 6,
            Outcome::Closed => 7,
            Outcome::Names => 8,
            Outcome::Unfit => 9,
        }
    }

    /// The reason, the input and the bit of a refusal, or the line of a listing.
    fn fault(self) -> BsFault
        ensures { result ≡ fault_told self }
    {
        match self {
            Outcome::Refused { input, reason, bit } => BsFault {
                reason: u32::from(reason.number()),
                input,
                bit,
            },
            Outcome::RefusedLine { reason, line } => BsFault {
                reason: text_number_of(reason),
                input: 0,
                bit: line,
            },
            _ => BsFault {
                reason: 0,
                input: 0,
                bit: 0,
            },
        }
    }

    /// Gives C the status and the fault.
    pub(crate) fn tell(self, fault: &mut BsFault) -> u32
        ensures number { result ≡ status_number self }
        ensures fault { fault.new ≡ fault_told self }
    {
        *fault = self.fault();
        self.number()
    }
}
