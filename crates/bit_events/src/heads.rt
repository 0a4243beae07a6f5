ghost use Rattle.std.specs.Prelude.{◌≡◌, ◌+◌, ◌*◌, ◌≤◌, ◌<◌, ◌^◌, ◌%◌, OnOk, OnErr, IsErr, IfOk, IfErr, IfSome, ◌==◌, ◌&&◌, nat_le, true, length};
ghost use Rattle.bit_grammar.specs.Blocks.{block_id, new_width, block_head, end_of_block};
ghost use Rattle.bit_fields.specs.PlacedView.{placed};
ghost use Rattle.bit_fields.specs.Reader.{Takes, told_by, failed_reader};
ghost use Rattle.bit_events.specs.Events.{Shuts};
ghost use Rattle.bit_events.specs.HeadView.{head_shown};
ghost use Rattle.bit_events.specs.Runs.{ReadsUpTo};

use crate::head::BlockHead;
use bit_fields::{BitReader, Fault, PlacedBits, Reason, Source};
use std::alloc::AllocError;

/// The value that was made; if an allocation for it failed, the reader fails.
pub(crate) fn or_memory_fault<S: Source, T>(
    reader: &mut BitReader<S>,
    got: Result<T, AllocError>,
) -> Result<T, Fault>
    ensures ok { IfOk result (λ value. (got ≡ Ok value) × (reader.new ≡ reader.old)) }
    ensures err { IfErr result (λ fault. (fault ≡ Fault.Memory)
        × (reader.new ≡ failed_reader reader.old)) }
    ensures lost { OnErr result (IsErr got) }
{
    match got {
        Ok(value) => Ok(value),
        Err(_) => Err(reader.fail(Fault::Memory)),
    }
}

/// Reads the id of a block.
fn block_id<S: Source>(reader: &mut BitReader<S>) -> Result<u32, Fault>
    ensures { Takes block_id reader.old result reader.new }
{
    let first = reader.position();
    let id = reader.vbr(8)?;
    reader.judge(id < 1 << 32, Reason::BlockId, first)?;
    Ok(id as u32)
}

/// Whether abbreviation ids may have this many bits.
fn is_width(width: u64) -> bool
    ensures { result ≡ (nat_le 1 width && nat_le width 32) }
{
    1 <= width && width <= 32
}

/// Reads the width of the abbreviation ids in a block.
fn new_width<S: Source>(reader: &mut BitReader<S>) -> Result<u8, Fault>
    ensures takes { Takes new_width reader.old result reader.new }
    ensures least { IfOk result (λ width. 1 ≤ width) }
    ensures most { IfOk result (λ width. width ≤ 32) }
{
    let first = reader.position();
    let width = reader.vbr(4)?;
    reader.judge(is_width(width), Reason::AbbrevWidth, first)?;
    Ok(width as u8)
}

/// Reads what comes between a block's abbreviation id and its items. Source: "ENTER_SUBBLOCK Encoding".
pub(crate) fn block_head<S: Source>(reader: &mut BitReader<S>) -> Result<BlockHead, Fault>
    ensures { Takes block_head reader.old (told_by head_shown result) reader.new }
{
    let id = block_id(reader)?;
    let width = new_width(reader)?;
    reader.pad()?;
    let length_at = reader.position();
    let words = reader.fixed(32)?;
    let body = reader.position();
    Ok(BlockHead {
        id,
        width,
        length_at,
        words: words as u32,
        body,
    })
}

/// Up to which bit an exact reader has loaded bytes once it has read a field, if it had those up to `loaded` before.
#[inline(always)]
pub(crate) fn loaded_by(first: u64, bits: u64, loaded: u64) -> u64
    requires few { bits ≤ 64 }
    requires fits { first + 64 < 2 ^ 64 }
{
    if first + bits > loaded {
        return (first & !7) + 64;
    }
    loaded
}

/// The same once it has read fields of eight and of four bits.
#[inline(always)]
fn loaded_by_two(first: u64, loaded: u64) -> u64
    requires { first + 72 < 2 ^ 64 }
{
    if first + 12 > loaded {
        return loaded_by(first + 8, 4, loaded_by(first, 8, loaded));
    }
    loaded
}

/// The same once it has read padding up to a bit.
#[inline(always)]
fn loaded_by_padding(after: u64, loaded: u64) -> u64
    requires { after + 64 < 2 ^ 64 }
{
    if after > loaded {
        return loaded + 64;
    }
    loaded
}

/// Reads what comes between a block's abbreviation id and its items, and up to which bit an exact reader has loaded bytes then. `None`
/// leaves it to that reader: also an id or a width of more than one chunk, and a BLOCKINFO block, which are rare.
#[inline(always)]
pub(crate) fn placed_head(bits: PlacedBits<'_>, loaded: u64) -> Option<(BlockHead, u64)>
    requires { 160 ≤ length (placed bits).bits }
    ensures reads { IfSome result (λ read. ReadsUpTo block_head (placed bits.entry) (head_shown read.0)
        read.0.body) }
    ensures plain { IfSome result (λ read. 0 < read.0.id) }
{
    let first = bits.position();
    let length_at = (first + 12 + 31) & !31;
    let to_length = length_at - first;
    // The id, the width and the padding, which is to be 0.
    let word = bits.front(to_length as u32);
    let id = word & 0xff;
    let width = word >> 8;
    if id >= 1 << 7 || width >= 1 << 3 || id == 0 || width == 0 {
        return None;
    }
    let words = bits.after(to_length).fixed(32);
    let loaded = loaded_by_two(first, loaded);
    let loaded = loaded_by(length_at, 32, loaded_by_padding(length_at, loaded));
    let head = BlockHead {
        id: id as u32,
        width: width as u8,
        length_at,
        words: words as u32,
        body: length_at + 32,
    };
    Some((head, loaded))
}

/// Whether a block that ends here has the right length.
#[inline(always)]
fn ends_at(head: BlockHead, after: u64) -> bool
    ensures { result ≡ (head.body + 32 * head.words == after) }
{
    match head.body.checked_add(32 * u64::from(head.words)) {
        Some(end) => end == after,
        None => false,
    }
}

/// Reads the padding after the id that ends a block, judges the block's length, and returns the bit after the block. Source:
/// "END_BLOCK Encoding".
pub(crate) fn end_of_block<S: Source>(
    reader: &mut BitReader<S>,
    head: BlockHead,
) -> Result<u64, Fault>
    ensures takes { Takes (end_of_block (head_shown head)) reader.old result reader.new }
    ensures aligned { OnOk result (reader.new.position % 32 ≡ 0) }
{
    reader.pad()?;
    let after = reader.position();
    reader.judge(ends_at(head, after), Reason::BlockLength, head.length_at)?;
    Ok(after)
}

/// The same of placed bits: the bit after the block, and up to which bit an exact reader has loaded bytes then. `None` leaves it to that
/// reader.
#[inline(always)]
pub(crate) fn placed_end(bits: PlacedBits<'_>, head: BlockHead, loaded: u64) -> Option<(u64, u64)>
    requires { 160 ≤ length (placed bits).bits }
    ensures reads { IfSome result (λ read. ReadsUpTo (end_of_block (head_shown head))
        (placed bits.entry) read.0 read.0) }
    ensures aligned { IfSome result (λ read. read.0 % 32 ≡ 0) }
{
    let first = bits.position();
    let after = (first + 31) & !31;
    if bits.fixed((after - first) as u32) != 0 || !ends_at(head, after) {
        return None;
    }
    Some((after, loaded_by_padding(after, loaded)))
}

/// Outside of all blocks: returns whether the stream has no byte left and its whole input is accepted.
#[cold]
#[inline(never)]
fn shuts_outside<S: Source>(reader: &mut BitReader<S>) -> Result<bool, Fault>
    requires live { reader.old.live ≡ true }
    requires aligned { reader.old.position % 8 ≡ 0 }
    ensures { Shuts true reader.old result reader.new }
{
    // Here the position and the unread bits reach as far as the stream and the limit on bytes.
    let _position = reader.position();
    if !reader.at_end()? {
        return Ok(false);
    }
    reader.close()?;
    Ok(true)
}

/// The same if a block may be open: then the input has not ended.
#[inline(always)]
pub(crate) fn shuts<S: Source>(reader: &mut BitReader<S>, outside: bool) -> Result<bool, Fault>
    requires live { reader.old.live ≡ true }
    requires aligned { outside ≡ true → reader.old.position % 8 ≡ 0 }
    ensures { Shuts outside reader.old result reader.new }
{
    if !outside {
        return Ok(false);
    }
    shuts_outside(reader)
}
