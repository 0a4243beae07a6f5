//! The contents of a stream, in numbers and as text. Begin with `analyse`, which counts by block id and record code, `write_show`,
//! which lists a tree, and `write_events`, which lists events as they are read.
//!
//! `analyse` is a fold into a counter: an `IndexMap` of rows in order of first entry, each with one of its codes. An open block caches
//! the place of its row, and small tables for all rows cache the places of recent codes. The key at such a place is checked. The
//! hasher of the maps is a type parameter. Counts saturate, and `numbers_fit` proves that no accepted input reaches the greatest number.
//!
//! `write_show` keeps the bytes that `check_keeping` accepts, reads them again, and prints items as they are read, without a tree.
//! `write_events` prints each event as it is read, as text or as a JSON object (`json`), in pieces of about 64 KiB. Both writers are
//! gatherers; if a line is not written, they keep its fault.
//! The lines of blocks, definitions and records are written forwards into the buffered text (`record_lines`, `text_buffer`). That of a
//! record of few values is written at once; one that would fill the buffer, and each other one, is added piece by piece.
#![tactic(auto)]

mod analysing;
mod analysis;
mod counter;
mod digits;
mod format;
mod json;
mod laws;
mod lines;
mod listing;
mod printer;
mod record_lines;
mod reporting;
mod rows;
mod showing;
mod telling;
mod text_buffer;

pub use analysing::{analyse, analyse_with_hasher};
pub use analysis::Analysis;
pub use bit_grammar::ValueDisplay;
pub use format::{EventStyle, Format};
pub use json::{Field, push_fields, push_front, push_magic_part, push_object};
pub use laws::{json_lines, numbers_fit};
pub use lines::push_magic;
pub use reporting::{write_report, write_report_as, write_report_with_hasher};
pub use rows::{BlockRow, CodeRow, Codes};
pub use showing::write_show;
pub use telling::write_events;
