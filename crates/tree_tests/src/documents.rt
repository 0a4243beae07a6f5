//! Documents made by hand, and their texts.

use bit_tree::{Block, Document, DocumentReason, Item, Items, Record, Values};
use std::alloc::{AllocError, Global};
use std::fmt::Write;
use std::process::Abort;

const MAGIC: [u8; 4] = [0x42, 0x43, 0xC0, 0xDE];

const WRAPPER: [u8; 4] = [0xDE, 0xC0, 0x17, 0x0B];

fn record(alloc: Global, code: u64, values: &[u64]) -> Result<Item, AllocError> {
    Ok(Item::Record(Record {
        code,
        values: Values(Vec::from_slice(alloc, values)?),
    }))
}

fn block(id: u32, items: Vec<Item>) -> Block {
    Block {
        id,
        items: Items(items),
    }
}

/// A list of one.
fn one<T: Drop>(alloc: Global, item: T) -> Result<Vec<T>, AllocError> {
    let mut items = Vec::new(alloc);
    items.push(item)?;
    Ok(items)
}

/// A block with these records.
fn block_of(alloc: Global, id: u32, records: &[(u64, &[u64])]) -> Result<Block, AllocError> {
    let mut items = Vec::new(alloc);
    for (code, values) in records {
        items.push(record(alloc, *code, values)?)?;
    }
    Ok(block(id, items))
}

/// The block nested in `others` other blocks.
fn within(alloc: Global, others: u32, innermost: Block) -> Result<Block, AllocError> {
    let mut outermost = innermost;
    for _ in 0..others {
        outermost = block(8, one(alloc, Item::Block(outermost))?);
    }
    Ok(outermost)
}

fn show_items(items: &Items, text: &mut String) -> Result<(), AllocError> {
    for item in &items.0 {
        match item {
            Item::Block(block) => {
                write!(text, " {} {{", block.id)?;
                show_items(&block.items, text)?;
                write!(text, " }}")?;
            }
            Item::Record(record) => {
                write!(text, " {} {:?}", record.code, record.values.0)?;
            }
        }
    }
    Ok(())
}

/// Blocks as text: ids before braces, and codes before lists of values.
pub(crate) fn blocks_text(alloc: Global, blocks: &[Block]) -> Result<String, AllocError> {
    let mut text = String::new(alloc);
    for block in blocks {
        write!(text, " {} {{", block.id)?;
        show_items(&block.items, &mut text)?;
        write!(text, " }}")?;
    }
    Ok(text)
}

/// A document as text: its magic, and its blocks.
pub(crate) fn document_text(alloc: Global, document: &Document) -> Result<String, AllocError> {
    let mut text = blocks_text(alloc, document.blocks())?;
    write!(text, " {:?}", document.magic())?;
    Ok(text)
}

/// Checks that a text is the wanted one.
pub(crate) fn agrees(rt: &impl Abort, told: Result<String, AllocError>, wanted: &str, row: &str) {
    let told = told.expect(rt, "memory");
    assert!(rt; told.as_str() == wanted, "{row}: {told}, not {wanted}");
}

/// Checks that these blocks are no document for this reason, or are one if there is none; and their text, kept or returned.
fn answer_text(
    rt: &impl Abort,
    alloc: Global,
    magic: [u8; 4],
    blocks: Vec<Block>,
    wanted: Option<DocumentReason>,
) -> Result<String, AllocError> {
    match Document::new(magic, blocks) {
        Ok(document) => {
            assert!(rt; wanted == None && document.magic() == magic);
            blocks_text(alloc, document.blocks())
        }
        Err(bad) => {
            assert!(rt; wanted == Some(bad.reason));
            blocks_text(alloc, &bad.blocks)
        }
    }
}

/// The same for one block, which is kept or returned as it was.
fn is_judged(
    rt: &impl Abort,
    alloc: Global,
    magic: [u8; 4],
    block: Block,
    wanted: Option<DocumentReason>,
) {
    let blocks = one(alloc, block).expect(rt, "memory");
    let before = blocks_text(alloc, &blocks).expect(rt, "memory");
    let after = answer_text(rt, alloc, magic, blocks, wanted);
    agrees(rt, after, before.as_str(), "blocks");
}

/// A magic, the number of blocks around, an id, and records.
type Row = ([u8; 4], u32, u32, &'static [(u64, &'static [u64])]);

/// The same, for a block with this id and these records, nested in other blocks.
fn is_row_judged(rt: &impl Abort, alloc: Global, row: Row, wanted: Option<DocumentReason>) {
    let (magic, others, id, records) = row;
    let innermost = block_of(alloc, id, records).expect(rt, "memory");
    let block = within(alloc, others, innermost).expect(rt, "memory");
    is_judged(rt, alloc, magic, block, wanted);
}

/// `0 { 9 { } }`.
fn block_in_info(alloc: Global) -> Result<Block, AllocError> {
    let inner = block(9, Vec::new(alloc));
    Ok(block(0, one(alloc, Item::Block(inner))?))
}

#[test]
fn no_block_stands_in_blockinfo(rt: HostRuntime) {
    let block = block_in_info(rt.alloc()).expect(&rt, "memory");
    let rule = Some(DocumentReason::BlockInfoRule);
    is_judged(&rt, rt.alloc(), MAGIC, block, rule);
}

/// Rows, and why they are no document.
static REASONS: [(Row, Option<DocumentReason>); 22] = [
    // lawful BLOCKINFO blocks
    ((MAGIC, 2, 0, &[]), None),
    ((MAGIC, 2, 0, &[(1, &[8])]), None),
    (
        (MAGIC, 2, 0, &[(1, &[8, 1 << 32]), (2, &[]), (1, &[0])]),
        None,
    ),
    ((MAGIC, 2, 0, &[(1, &[0xFFFF_FFFF]), (0, &[1 << 40])]), None),
    // unlawful ones, and the same records in another block
    (
        (MAGIC, 2, 0, &[(2, &[])]),
        Some(DocumentReason::BlockInfoRule),
    ),
    ((MAGIC, 0, 9, &[(2, &[])]), None),
    (
        (MAGIC, 2, 0, &[(2, &[8]), (1, &[8])]),
        Some(DocumentReason::BlockInfoRule),
    ),
    ((MAGIC, 0, 9, &[(2, &[8]), (1, &[8])]), None),
    (
        (MAGIC, 2, 0, &[(1, &[])]),
        Some(DocumentReason::BlockInfoRule),
    ),
    ((MAGIC, 0, 9, &[(1, &[])]), None),
    (
        (MAGIC, 2, 0, &[(1, &[1 << 32])]),
        Some(DocumentReason::BlockInfoRule),
    ),
    ((MAGIC, 0, 9, &[(1, &[1 << 32])]), None),
    (
        (MAGIC, 2, 0, &[(1, &[8]), (1, &[])]),
        Some(DocumentReason::BlockInfoRule),
    ),
    ((MAGIC, 0, 9, &[(1, &[8]), (1, &[])]), None),
    (
        (MAGIC, 2, 0, &[(1, &[8]), (3, &[]), (1, &[1 << 32, 8])]),
        Some(DocumentReason::BlockInfoRule),
    ),
    (
        (MAGIC, 0, 9, &[(1, &[8]), (3, &[]), (1, &[1 << 32, 8])]),
        None,
    ),
    // the first reason is returned
    ((MAGIC, 254, 0, &[(1, &[8])]), None),
    (
        (MAGIC, 255, 0, &[(1, &[8])]),
        Some(DocumentReason::DepthOver255),
    ),
    (
        (MAGIC, 255, 0, &[(2, &[])]),
        Some(DocumentReason::DepthOver255),
    ),
    (
        (MAGIC, 254, 0, &[(2, &[])]),
        Some(DocumentReason::BlockInfoRule),
    ),
    (
        (WRAPPER, 255, 0, &[(2, &[])]),
        Some(DocumentReason::WrapperMagic),
    ),
    ((WRAPPER, 0, 8, &[]), Some(DocumentReason::WrapperMagic)),
];

#[test]
fn blocks_are_judged(rt: HostRuntime) {
    for (row, wanted) in &REASONS {
        is_row_judged(&rt, rt.alloc(), *row, *wanted);
    }
}

/// Why an empty list is no document with the magic of a wrapper, as text.
fn told_of_refusal(alloc: Global) -> Result<String, AllocError> {
    match Document::new(WRAPPER, Vec::new(alloc)) {
        Ok(_) => Ok(String::new(alloc)),
        Err(bad) => bad.to_string(alloc),
    }
}

#[test]
fn a_refused_document_says_why(rt: HostRuntime) {
    let wanted = "the magic is that of a wrapper";
    agrees(&rt, told_of_refusal(rt.alloc()), wanted, "a wrapper");
}
