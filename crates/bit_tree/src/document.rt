ghost use Rattle.std.specs.Prelude.{◌≡◌, ◌↔◌, IsOk, IfOk, IfErr, IfSome, IfNone};
ghost use Rattle.bit_grammar.specs.Forest.{Fit};
ghost use Rattle.bit_fields.specs.Opening.{magic_number};
ghost use Rattle.bit_tree.specs.Judging.{IsFirstReason};
ghost use Rattle.bit_tree.specs.TreeView.{forest_of_blocks, tree_with};

use crate::judging::{are_deep, is_wrapper, keep_info_rule};
use crate::tree::Block;
use std::marker::Model;
use thiserror::Error;

/// Why blocks are no document.
#[derive(Clone, Copy, Debug, PartialEq, Eq, Error)]
pub enum DocumentReason {
    #[error("the magic is that of a wrapper")]
    WrapperMagic,
    #[error("blocks are nested more than 255 deep")]
    DepthOver255,
    #[error("a block with id 0 does not say which blocks it describes")]
    BlockInfoRule,
}

/// Blocks that are no document: the blocks, and the first reason.
#[derive(Debug, Drop, Error)]
#[error("{reason}")]
pub struct BadDocument {
    pub blocks: Vec<Block>,
    pub reason: DocumentReason,
}

/// A tree that an input can spell: a magic and blocks.
#[derive(Debug, Drop)]
pub struct Document {
    magic: [u8; 4],
    blocks: Vec<Block>,
}

impl Model for Document {
    ghost use Rattle.bit_grammar.specs.Forest.{Tree, Fit};
    ghost use Rattle.bit_tree.specs.TreeCode.{tree_code};

    ghost Value = { Tree };

    ghost coded = { tree_code };

    ghost use Rattle.bit_tree.specs.TreeView.{tree_with};

    ghost view = { λ document. tree_with document.magic document.blocks.items };

    ghost invariant = { λ document. Fit (tree_with document.magic document.blocks.items) };
}

/// The first reason for which a magic and blocks are no document.
fn first_reason(magic: [u8; 4], blocks: &[Block]) -> Option<DocumentReason>
    ensures some { IfSome result (λ reason. IsFirstReason (tree_with magic blocks.now) reason) }
    ensures none { IfNone result (Fit (tree_with magic blocks.now)) }
{
    if is_wrapper(magic) {
        return Some(DocumentReason::WrapperMagic);
    }
    if are_deep(blocks) {
        return Some(DocumentReason::DepthOver255);
    }
    if !keep_info_rule(blocks) {
        return Some(DocumentReason::BlockInfoRule);
    }
    None
}

impl Document {
    /// Makes a document of a magic and blocks that are a fit tree, and returns any other blocks. It allocates nothing.
    pub fn new(magic: [u8; 4], blocks: Vec<Block>) -> Result<Document, BadDocument>
        ensures fit { IsOk result ↔ Fit (tree_with magic blocks.items) }
        ensures ok { IfOk result (λ document. document ≡ tree_with magic blocks.items) }
        ensures back { IfErr result (λ bad. bad.blocks ≡ blocks) }
        ensures reason { IfErr result (λ bad. IsFirstReason (tree_with magic blocks.items)
            bad.reason) }
    {
        match first_reason(magic, &blocks) {
            Some(reason) => Err(BadDocument { blocks, reason }),
            None => Ok(Document { magic, blocks }),
        }
    }

    /// A magic and blocks that are known to be a fit tree.
    pub(crate) fn of(magic: [u8; 4], blocks: Vec<Block>) -> Document
        requires { Fit (tree_with magic blocks.items) }
        ensures { result ≡ tree_with magic blocks.items }
    {
        Document { magic, blocks }
    }

    /// The magic, its low byte first.
    pub fn magic(&self) -> [u8; 4]
        ensures magic { magic_number result ≡ self.now.magic }
        ensures fit { Fit self.now }
    {
        self.magic
    }

    /// The blocks at the top.
    pub fn blocks(&self) -> &[Block]
        ensures blocks { forest_of_blocks result.now ≡ self.now.blocks }
        ensures fit { Fit self.now }
    {
        &self.blocks
    }
}
