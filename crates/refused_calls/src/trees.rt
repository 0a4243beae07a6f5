//! Whole inputs and their trees.

ghost use Rattle.bit_grammar.specs.Forest.{Fit};
ghost use Rattle.bit_grammar.specs.Input.{tree_of};

use crate::ending::Ending;
use crate::inputs::INPUT;
use bit_fields::{Fault, Limits, SliceSource};
use bit_tree::{Block, Document, DocumentReason, Info, Items, Marked};
use std::alloc::{AllocError, Global};

/// The magic of LLVM's bitcode.
const MAGIC: [u8; 4] = [0x42, 0x43, 0xC0, 0xDE];

/// The magic of a wrapper.
const WRAPPER: [u8; 4] = [0xDE, 0xC0, 0x17, 0x0B];

/// Writes the marked tree of the input.
fn write_marked(rt: &HostRuntime, marked: &Marked) -> Ending {
    Ending::of_answer(println!(rt; "{marked:?}").is_ok())
}

/// Writes a tree that was made, if it was.
fn write_tree(rt: &HostRuntime, made: Result<Document, AllocError>) -> Ending {
    match made {
        Ok(document) => Ending::of_answer(println!(rt; "{document:?}").is_ok()),
        Err(_) => Ending::Memory,
    }
}

/// Makes a call on the marked tree of the input, or writes it.
fn ask_of(rt: &HostRuntime, marked: &Marked, letter: u8) -> Ending
    requires { Fit (tree_of marked.now) }
{
    match letter {
        b't' => write_tree(rt, bit_tree::tree_of(rt.alloc(), marked)),
        b'w' => write_tree(rt, bit_tree::tree_with(rt.alloc(), marked, Info::Drop)),
        _ => write_marked(rt, marked),
    }
}

/// Makes the call `read` (r), `tree_of` (t) or, without the BLOCKINFO block, `tree_with` (w), and writes the tree.
pub fn ask(rt: &HostRuntime, letter: u8) -> Ending {
    match bit_tree::read(rt.alloc(), SliceSource::new(&INPUT), Limits::usual()).0 {
        Ok(marked) => ask_of(rt, &marked, letter),
        Err(Fault::Memory) if letter == b'r' => Ending::Memory,
        Err(Fault::Memory) => Ending::Unready,
        Err(_) => Ending::Wrong,
    }
}

/// A list of a block 8 without items.
fn blocks(alloc: Global) -> Result<Vec<Block>, AllocError> {
    let items = Items(Vec::new(alloc));
    let mut blocks = Vec::new(alloc);
    blocks.push(Block { id: 8, items })?;
    Ok(blocks)
}

/// Whether a list has one block, with the id 8.
fn are_eight(blocks: &[Block]) -> bool {
    match blocks {
        [block] => block.id == 8,
        _ => false,
    }
}

/// Whether a block is accepted as a document, which has its magic and its block.
fn is_taken(blocks: Vec<Block>) -> bool {
    match Document::new(MAGIC, blocks) {
        Ok(document) => document.magic() == MAGIC && are_eight(document.blocks()),
        Err(_) => false,
    }
}

/// Whether a block is returned that came with the magic of a wrapper.
fn comes_back(blocks: Vec<Block>) -> bool {
    match Document::new(WRAPPER, blocks) {
        Ok(_) => false,
        Err(bad) => bad.reason == DocumentReason::WrapperMagic && are_eight(&bad.blocks),
    }
}

/// `Document::new` with the magic of a wrapper.
fn under_a_wrapper(alloc: Global) -> Ending {
    match blocks(alloc) {
        Ok(bad) => Ending::of_answer(comes_back(bad)),
        Err(_) => Ending::Unready,
    }
}

/// The calls of `Document`, which allocate nothing.
pub fn document(alloc: Global) -> Ending {
    match blocks(alloc) {
        Ok(good) => {
            if is_taken(good) {
                under_a_wrapper(alloc)
            } else {
                Ending::Wrong
            }
        }
        Err(_) => Ending::Unready,
    }
}
