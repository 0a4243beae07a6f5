//! Formats of lines.

use bit_grammar::ValueDisplay;

/// The format of lines.
#[derive(Clone, Copy, Debug, PartialEq, Eq)]
pub enum Format {
    /// As words and numbers.
    Text,
    /// As JSON, one object a line.
    JsonLines,
}

/// The style of events: the format, and whether the values of records are shown.
#[derive(Clone, Copy, Debug, PartialEq, Eq)]
pub struct EventStyle {
    pub format: Format,
    pub values: ValueDisplay,
}
