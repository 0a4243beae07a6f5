//! From a listing to the stream that it spells: `assemble`.
//!
//! A line is read by itself: `line` finds its item, whose numbers `numbers` reads into one vector that all lines share. A short line
//! that is a record of short numbers is read at once into an array instead, if the text has some bytes more behind it. `telling`
//! ends the blocks that an item is not in and tells it to a `FormWriter`, which refuses what no tree has there. `Assembler` cuts a
//! text into lines (`line_end`) in whatever pieces it comes, and `assemble` pulls the pieces from a source. What a listing is, and
//! of which tree, is defined in the words of the format in `FormatListing` of `bit_grammar` and `Entries` of `specs/`, and what
//! refuses a text in `Refusals`. `Numbers`, `Lines` and `Listings` define how a text is read; `listing_exact` and `refused_exact`
//! compare them.
#![tactic(auto)]

mod assembler;
mod assembling;
mod fault;
mod laws;
mod line;
mod line_end;
mod numbers;
mod reason;
mod telling;

pub use assembling::assemble;
pub use fault::AssembleFault;
pub use laws::{listing_exact, listing_spells, refused_exact, shown_assembled};
pub use reason::TextReason;
