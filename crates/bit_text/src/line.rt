ghost use Rattle.std.specs.Prelude.{◌≡◌, ◌<◌, ◌≤◌, Ok, drop, length, take, ◌^◌};
ghost use Rattle.std.specs.Char.{digit_value};
ghost use Rattle.bit_text.specs.Lines.{byte_of, is_free, is_low_digit, item_of, block_of, magic_of, spaces};
ghost use Rattle.bit_text.specs.Stops.{call_of, ReadsItem};

use crate::numbers::{BATCH, Stop, behind, quick_numbers, read_numbers, value_of_digit};
use crate::reason::TextReason;

/// The beginning of a block with an id, or a record, whose code and values are kept elsewhere.
#[derive(Clone, Copy, Debug, PartialEq, Eq)]
pub(crate) enum Item {
    Block(u32),
    Record,
}

/// How many bytes a line has at most that is read at once: its numbers, with a space before each, are no more than a batch.
const MOST: usize = 512;

/// How many spaces are at the beginning of a line.
pub(crate) fn spaces(line: &[u8]) -> usize
    ensures spaces { result ≡ spaces line.now }
    ensures within { result ≤ length line.now }
{
    for (i, b) in line.iter().enumerate() {
        if *b != b' ' {
            return i;
        }
    }
    line.len()
}

/// Whether a line without the spaces at its beginning is empty or a comment.
pub(crate) fn is_free(content: &[u8]) -> bool
    ensures { result ≡ is_free content.now }
{
    match content {
        [] => true,
        [b, ..] => *b == b'#',
    }
}

/// Whether a byte is one of `0` to `9` and `a` to `f`.
fn is_low_digit(b: u8) -> bool
    ensures { result ≡ is_low_digit b }
{
    value_of_digit(b) < 16 && (b < b'A' || b >= b'a')
}

/// The byte that two digits spell.
fn byte_of(high: u8, low: u8) -> Option<u8>
    ensures { result ≡ byte_of high low }
{
    if is_low_digit(high) && is_low_digit(low) {
        Some((value_of_digit(high) * 16 + value_of_digit(low)) as u8)
    } else {
        None
    }
}

/// The magic of a line.
pub(crate) fn magic_of(line: &[u8]) -> Option<[u8; 4]>
    ensures { result ≡ magic_of line.now }
{
    let text = behind(line, b"magic ")?;
    if text.len() != 8 {
        return None;
    }
    let first = byte_of(text[0], text[1])?;
    let second = byte_of(text[2], text[3])?;
    let third = byte_of(text[4], text[5])?;
    let fourth = byte_of(text[6], text[7])?;
    Some([first, second, third, fourth])
}

/// The block that its numbers spell.
fn block_of(numbers: &[u64]) -> Result<Item, Stop>
    ensures { ReadsItem (block_of numbers.now) result numbers.now }
{
    match numbers {
        [id] if *id < 1 << 32 => Ok(Item::Block(*id as u32)),
        [_] => Err(Stop::Refused(TextReason::NumberTooLarge)),
        _ => Err(Stop::Refused(TextReason::BadLine)),
    }
}

/// Reads the record that a text has before a place, if its numbers are few and short, and returns how many there are; or else 0.
#[inline(always)]
pub(crate) fn quick_record(text: &[u8], end: usize, batch: &mut [u64; BATCH]) -> usize
    requires { end ≤ length text.now }
    ensures few { result ≤ 256 }
    ensures item { 0 < result → item_of (take end text.now) ≡ Ok (call_of Item.Record (take result batch.new)) }
{
    if end > MOST || text.len() - end < 7 {
        return 0;
    }
    match behind(&text[..end], b"record ") {
        Some(numbers) => quick_numbers(&text[7..], numbers.len(), batch),
        None => 0,
    }
}

/// Reads the item that a line has after its spaces. The code and values of a record are the numbers.
pub(crate) fn read_item(content: &[u8], numbers: &mut Vec<u64>) -> Result<Item, Stop>
    ensures { ReadsItem (item_of content.now) result numbers.new.items }
{
    if let Some(text) = behind(content, b"record ") {
        read_numbers(text, numbers)?;
        return match numbers.as_slice() {
            [] => Err(Stop::Refused(TextReason::BadLine)),
            _ => Ok(Item::Record),
        };
    }
    match behind(content, b"block ") {
        Some(text) => {
            read_numbers(text, numbers)?;
            block_of(numbers)
        }
        None => Err(Stop::Refused(TextReason::BadLine)),
    }
}
