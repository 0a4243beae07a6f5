//! Trees of blocks and records. Begin with `read`, which reads an input as a tree with the bits of each item, and `tree_of`, which
//! leaves these out. `Document::new` judges a tree that was made by hand. For a walk over an input that builds no tree, take
//! `Events`.
//!
//! Trees are plain types over vectors. Contracts see a list of items as one `Forest`, in which each item carries those after it,
//! and a marked list as `Marks`. `read` is a fold into `MarkedBuilder`: what is built so far, before whatever follows, is the
//! marked tree. `tree_with` makes the tree that a setting leaves.
#![tactic(auto)]

mod copying;
mod document;
mod judging;
mod marked;
mod marked_builder;
mod reading;
mod tree;

pub use bit_events::{Event, Events};
pub use bit_grammar::{Info, RecordName, not_both, one_fault, one_tree, tree_or_fault};
pub use copying::{tree_of, tree_with};
pub use document::{BadDocument, Document, DocumentReason};
pub use marked::{
    Marked, MarkedBlock, MarkedBlocks, MarkedDefine, MarkedItem, MarkedItems, MarkedRecord,
};
pub use reading::read;
pub use tree::{Block, Item, Items, Record, Values};
