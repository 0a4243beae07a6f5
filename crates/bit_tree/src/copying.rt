ghost use Rattle.std.specs.Prelude.{◌≡◌, IfOk};
ghost use Rattle.bit_grammar.specs.Forest.{Fit};
ghost use Rattle.bit_grammar.specs.Input as input;
ghost use Rattle.bit_grammar.specs.Marks.{forest_of};
ghost use Rattle.bit_grammar.specs.Setting.{setting_of};
ghost use Rattle.bit_grammar.specs.Under.{items_under, under};
ghost use Rattle.bit_tree.specs.TreeView.{forest_of_blocks};
ghost use Rattle.bit_tree.specs.MarkedView.{marks_of_blocks};

use crate::document::Document;
use crate::marked::{Marked, MarkedBlock, MarkedItem, MarkedItems};
use crate::tree::{Block, Item, Items, Record, Values};
use bit_grammar::Info;
use std::alloc::{AllocError, Global};

/// The tree of a marked tree. That of an input that was read is fit.
pub fn tree_of(alloc: Global, marked: &Marked) -> Result<Document, AllocError>
    requires { Fit (input.tree_of marked.now) }
    ensures { IfOk result (λ document. document ≡ input.tree_of marked.now) }
{
    tree_with(alloc, marked, Info::Keep)
}

/// The tree of a marked tree under a setting.
pub fn tree_with(alloc: Global, marked: &Marked, info: Info<'_>) -> Result<Document, AllocError>
    requires { Fit (under (setting_of info) (input.tree_of marked.now)) }
    ensures { IfOk result (λ document. document
        ≡ under (setting_of info.entry) (input.tree_of marked.now)) }
{
    let blocks = blocks_of(alloc, &marked.blocks.0, info)?;
    Ok(Document::of(marked.head.magic, blocks))
}

/// Whether an item of a block with this id is kept in the tree.
fn is_left(item: &MarkedItem, around: u32, info: Info<'_>) -> bool {
    match item {
        MarkedItem::Block(block) => info.keeps(block.id),
        MarkedItem::Record(record) => info.keeps_record(around, record.code),
        MarkedItem::Define(_) => false,
    }
}

/// A record without its marks.
fn record_of(alloc: Global, code: u64, values: &[u64]) -> Result<Record, AllocError>
    ensures code { IfOk result (λ copy. copy.code ≡ code) }
    ensures values { IfOk result (λ copy. copy.values ≡ values.now) }
{
    Ok(Record {
        code,
        values: Values(Vec::from_slice(alloc, values)?),
    })
}

/// The kept items of a marked block with this id.
fn items_of(
    alloc: Global,
    around: u32,
    marked: &MarkedItems,
    info: Info<'_>,
) -> Result<Items, AllocError>
    ensures { IfOk result (λ items. items ≡ items_under (setting_of info.entry) around
        (forest_of marked.now)) }
{
    let count = marked
        .0
        .iter()
        .filter(|item| is_left(item, around, info))
        .count();
    let mut items = Vec::with_capacity(alloc, count)?;
    for item in &marked.0 {
        match item {
            MarkedItem::Block(block) => {
                if info.keeps(block.id) {
                    let inner = items_of(alloc, block.id, &block.items, info)?;
                    items.push(Item::Block(Block {
                        id: block.id,
                        items: inner,
                    }))?;
                }
            }
            MarkedItem::Record(record) => {
                if info.keeps_record(around, record.code) {
                    let record = record_of(alloc, record.code, &record.values.0)?;
                    items.push(Item::Record(record))?;
                }
            }
            MarkedItem::Define(_) => {}
        }
    }
    Ok(Items(items))
}

/// The kept blocks of a tree.
pub(crate) fn blocks_of(
    alloc: Global,
    marked: &[MarkedBlock],
    info: Info<'_>,
) -> Result<Vec<Block>, AllocError>
    ensures { IfOk result (λ blocks. forest_of_blocks blocks.items
        ≡ items_under (setting_of info.entry) 0 (forest_of (marks_of_blocks marked.now))) }
{
    let count = marked.iter().filter(|block| info.keeps(block.id)).count();
    let mut blocks = Vec::with_capacity(alloc, count)?;
    for block in marked {
        if info.keeps(block.id) {
            let inner = items_of(alloc, block.id, &block.items, info)?;
            blocks.push(Block {
                id: block.id,
                items: inner,
            })?;
        }
    }
    Ok(blocks)
}
