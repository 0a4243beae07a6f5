ghost use Rattle.std.specs.Prelude.{◌≡◌, ◌^◌, ◌<◌, ◌≤◌, ◌↔◌, IsTrue, true, false, nat_lt};
ghost use Rattle.std.specs.List.{AllByRecursion};
ghost use Rattle.bit_grammar.specs.Forest.{names_block, forest_depth, wrapper_magic};
ghost use Rattle.bit_fields.specs.Opening.{magic_number};
ghost use Rattle.bit_tree.specs.Judging.{InRange, describes_blocks, keeps_info_rule};
ghost use Rattle.bit_tree.specs.TreeView.{forest_of_blocks};

use crate::tree::{Block, Item, Items};
use bit_grammar::{SET_BID, WRAPPER_MAGIC};

/// Whether the magic is that of a wrapper.
pub(crate) fn is_wrapper(magic: [u8; 4]) -> bool
    ensures wrapper { IsTrue result ↔ (magic_number magic ≡ wrapper_magic) }
    ensures fits { magic_number magic < 2 ^ 32 }
{
    u64::from(u32::from_le_bytes(magic)) == WRAPPER_MAGIC
}

/// Whether the first value is a block id.
fn names_block(values: &[u64]) -> bool
    ensures { result ≡ names_block values.now }
{
    match values {
        [] => false,
        [id, ..] => *id < 1 << 32,
    }
}

/// Whether these are only records, the first of which is a SETBID, and each SETBID names a block id.
fn describes_blocks(items: &Items) -> bool
    ensures { result ≡ describes_blocks false items.now }
{
    let mut described = false;
    for item in &items.0 {
        match item {
            Item::Block(_) => return false,
            Item::Record(record) => {
                let good = if record.code == SET_BID {
                    names_block(&record.values.0)
                } else {
                    described
                };
                if !good {
                    return false;
                }
                described = true;
            }
        }
    }
    true
}

/// An id has 32 bits, by its type.
fn known_id(id: u32)
    ensures { id < 2 ^ 32 }
{}

/// A code and values have 64 bits, by their types.
fn known_record(code: u64, values: &[u64])
    ensures code { code < 2 ^ 64 }
    ensures values { AllByRecursion (λ v. v < 2 ^ 64) values.now }
{}

/// Whether the items are nested deeper than a number of levels. It recurses no further than that.
fn is_deep(items: &Items, levels: u32) -> bool
    ensures deep { result ≡ nat_lt levels (forest_depth items.now) }
    ensures range { result ≡ false → InRange items.now }
{
    for item in &items.0 {
        match item {
            Item::Block(block) => {
                known_id(block.id);
                if levels == 0 || is_deep(&block.items, levels - 1) {
                    return true;
                }
            }
            Item::Record(record) => {
                known_record(record.code, &record.values.0);
            }
        }
    }
    false
}

/// Whether each BLOCKINFO block in the items describes blocks.
fn keeps_info_rule(items: &Items) -> bool
    requires { forest_depth items.now ≤ 255 }
    ensures { result ≡ keeps_info_rule items.now }
{
    for item in &items.0 {
        if let Item::Block(block) = item {
            if block.id == 0 && !describes_blocks(&block.items) {
                return false;
            }
            if !keeps_info_rule(&block.items) {
                return false;
            }
        }
    }
    true
}

/// Whether the blocks are nested deeper than 255 levels.
pub(crate) fn are_deep(blocks: &[Block]) -> bool
    ensures deep { result ≡ nat_lt 255 (forest_depth (forest_of_blocks blocks.now)) }
    ensures range { result ≡ false → InRange (forest_of_blocks blocks.now) }
{
    for block in blocks {
        known_id(block.id);
        if is_deep(&block.items, 254) {
            return true;
        }
    }
    false
}

/// Whether each BLOCKINFO block, at any depth, describes blocks.
pub(crate) fn keep_info_rule(blocks: &[Block]) -> bool
    requires { forest_depth (forest_of_blocks blocks.now) ≤ 255 }
    ensures { result ≡ keeps_info_rule (forest_of_blocks blocks.now) }
{
    for block in blocks {
        if block.id == 0 && !describes_blocks(&block.items) {
            return false;
        }
        if !keeps_info_rule(&block.items) {
            return false;
        }
    }
    true
}
