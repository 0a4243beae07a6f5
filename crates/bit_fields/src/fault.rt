use bit_grammar::Reason;
use thiserror::Error;

/// Why a call did not succeed.
#[derive(Clone, Copy, Debug, PartialEq, Eq, Error)]
pub enum Fault {
    /// The input breaks a rule at a bit, counted from the first bit of the input.
    #[error("refused: {} at bit {bit}", .reason.name())]
    Refused { reason: Reason, bit: u64 },
    /// The source failed.
    #[error("the source failed")]
    Read,
    /// The sink failed.
    #[error("the sink failed")]
    Write,
    /// An allocation failed: out of memory.
    #[error("no memory")]
    Memory,
    /// A normal form has more bytes than the limit.
    #[error("the normal form is too long")]
    OutputTooLong,
    /// A call before this one failed, or closed what it was called on.
    #[error("used after a fault")]
    Failed,
}
