ghost use Rattle.std.specs.Prelude.{◌≡◌, ◌+◌, ◌*◌, ◌/◌, ◌^◌, ◌<◌, ◌≤◌, length, IfSome, MatchOption};
ghost use Rattle.bit_grammar.specs.Forest.{Tree};
ghost use Rattle.bit_grammar.specs.Size.{shortest_length, values_length, record_length, aligned, body_at, body_length, end_of, size_of};
ghost use Rattle.bit_grammar.specs.Normal.{most_bytes};
ghost use Rattle.bit_grammar.specs.Bits.{saturated};
ghost use Rattle.bit_tree.specs.TreeView.{forest_of_blocks};

use bit_fields::Limits;
use bit_tree::{Block, Document, Item, Items};

/// How many bits the shortest VBR of width n has.
fn vbr_bits(n: u32, value: u64) -> u64
    requires wide { 2 ≤ n }
    requires narrow { n ≤ 32 }
    ensures bits { result ≡ shortest_length n value }
    ensures few { result ≤ 2048 }
{
    let more = 1 << (n - 1);
    let mut bits = u64::from(n);
    let mut rest = value;
    while rest >= more {
        bits += u64::from(n);
        rest >>= n - 1;
    }
    bits
}

/// The next multiple of 32. This and the positions below saturate at the greatest number.
fn aligned(from: u64) -> u64
    ensures { result ≡ saturated (aligned from) }
{
    from.saturating_add((32 - from % 32) % 32)
}

/// How many chunks of six bits the shortest VBR has: one, and one more for each five bits below the highest.
#[inline(always)]
#[tactic(auto, using(crate::proofs::ChunkCounting::six_by_size))]
fn chunks_of(value: u64) -> u64
    ensures chunks { shortest_length 6 value ≡ 6 * result }
    ensures few { result ≤ 13 }
{
    1 + u64::from(value.max(1).ilog2() / 5)
}

/// How many chunks of six bits the values of a record have.
#[inline(always)]
fn chunks_of_values(values: &[u64]) -> u64
    ensures chunks { values_length values.now ≡ 6 * result }
    ensures few { result ≤ 13 * length values.now }
{
    let mut chunks = 0;
    for value in values {
        chunks += chunks_of(*value);
    }
    chunks
}

/// The position after a record.
#[inline(always)]
fn end_of_record(code: u64, values: &[u64], from: u64) -> u64
    ensures { result ≡ saturated (from + record_length code values.now) }
{
    let count = chunks_of(values.len() as u64);
    let chunks = chunks_of(code) + count + chunks_of_values(values);
    from.saturating_add(2)
        .saturating_add(chunks.saturating_mul(6))
}

/// How many bits a block's body has, if its items begin at 0 and end at `inner`.
fn body_bits(inner: u64) -> u64
    ensures { result ≡ saturated (aligned (inner + 2)) }
{
    aligned(inner.saturating_add(2))
}

/// The position after a block whose items begin at 0 and end at `inner`.
fn end_of_block(id: u32, inner: u64, from: u64) -> u64
    ensures { result ≡ saturated (body_at id from + aligned (inner + 2)) }
{
    let head = 2 + vbr_bits(8, u64::from(id)) + 4;
    aligned(from.saturating_add(head))
        .saturating_add(32)
        .saturating_add(body_bits(inner))
}

/// The position after items.
fn end_of_items(items: &Items, from: u64) -> u64
    ensures { result ≡ saturated (end_of items.now from) }
{
    let mut at = from;
    for item in &items.0 {
        at = match item {
            Item::Block(block) => end_of_block(block.id, end_of_items(&block.items, 0), at),
            Item::Record(record) => end_of_record(record.code, &record.values.0, at),
        };
    }
    at
}

/// The position after blocks.
fn end_of_blocks(blocks: &[Block], from: u64) -> u64
    ensures { result ≡ saturated (end_of (forest_of_blocks blocks.now) from) }
{
    let mut at = from;
    for block in blocks {
        at = end_of_block(block.id, end_of_items(&block.items, 0), at);
    }
    at
}

/// How many words a block's body has.
#[tactic(auto, using(crate::proofs::Ends::words_counted))]
pub(crate) fn body_words(items: &Items) -> u64
    ensures { body_length items.now < 2 ^ 63 → result ≡ body_length items.now / 32 }
{
    body_bits(end_of_items(items, 0)) / 32
}

/// How many bytes the normal form of a tree with these blocks has, or `None` if they are more than the limit on bytes.
pub(crate) fn form_len(blocks: &[Block], limits: Limits) -> Option<u64>
    ensures len { (tree : Tree) → tree.blocks ≡ forest_of_blocks blocks.now
        → MatchOption result (limits.bytes < size_of tree)
        (λ bytes. (bytes ≡ size_of tree) × (bytes ≤ limits.bytes)) }
    ensures capped { IfSome result (λ bytes. bytes ≤ most_bytes) }
{
    let bytes = end_of_blocks(blocks, 32) / 8;
    if bytes <= limits.bytes() {
        Some(bytes)
    } else {
        None
    }
}

/// How many bytes the normal form of a document has, or `None` if they are more than the limit on bytes. It allocates nothing.
pub fn normal_len(doc: &Document, limits: Limits) -> Option<u64>
    ensures len { MatchOption result (limits.bytes < size_of doc.now)
        (λ bytes. (bytes ≡ size_of doc.now) × (bytes ≤ limits.bytes)) }
    ensures capped { IfSome result (λ bytes. bytes ≤ most_bytes) }
{
    form_len(doc.blocks(), limits)
}
