use crate::reason::TextReason;
use bit_fields::Fault;
use thiserror::Error;

/// Why a text was not assembled.
#[derive(Clone, Copy, Debug, PartialEq, Eq, Error)]
pub enum AssembleFault {
    /// This is the first line that no listing has there, counted from 1.
    #[error("refused: {} at line {line}", .reason.name())]
    Refused { reason: TextReason, line: u64 },
    /// The source or the sink failed, an allocation failed, or the normal form is too long.
    #[error("{0}")]
    Fault(Fault),
}
