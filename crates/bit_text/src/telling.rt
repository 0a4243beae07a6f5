ghost use Rattle.std.specs.Prelude.{◌≡◌, ◌<◌, ◌≤◌, ◌-◌, ◌++◌, ℕ, List, length, take, replicate, IfErr, IfOk};
ghost use Rattle.bit_norm.specs.Telling.{Call, at_top, ends, place_of, where_after, Tells};
ghost use Rattle.bit_text.specs.Listings.{after_line, begun, item_calls, misfit, Standing};
ghost use Rattle.bit_text.specs.Lines.{magic_of};
ghost use Rattle.bit_text.specs.Stops.{call_of, IsAt, IsTold, ReadsLine, TellsItem};

use crate::line::{Item, is_free, magic_of, quick_record, read_item, spaces};
use crate::numbers::{BATCH, Stop};
use crate::reason::TextReason;
use bit_fields::Limits;
use bit_norm::{FormWriter, Untold};
use std::alloc::Global;

/// Ends blocks until `level` are open.
pub(crate) fn close(writer: &mut FormWriter, level: u32) -> Result<(), Stop>
    ensures told { IfOk result (λ _. (limits : Limits) (magic : List ℕ) (calls : List Call)
        → IsTold limits magic calls writer.old → IsTold limits magic
        (calls ++ replicate ((where_after calls at_top).depth - level) ends) writer.new) }
    ensures memory { IfErr result (λ stop. stop ≡ Stop.Memory) }
{
    for _ in level..writer.depth() {
        let Ok(()) = writer.leave() else {
            return Err(Stop::Memory);
        };
    }
    Ok(())
}

/// Tells an item, of a record its numbers.
fn tell(writer: &mut FormWriter, item: Item, numbers: &[u64]) -> Result<(), Untold>
    requires { 0 < length numbers.now }
    ensures { Tells (call_of item numbers.now) writer.old result writer.new }
{
    match item {
        Item::Block(id) => writer.enter(id),
        Item::Record => writer.record(numbers[0], &numbers[1..]),
    }
}

/// Why an item does not fit.
#[cold]
fn misfit(writer: &FormWriter, limits: Limits, item: Item, numbers: &[u64]) -> TextReason
    requires { 0 < length numbers.now }
    ensures { result ≡ misfit limits (place_of writer.now) (call_of item numbers.now) }
{
    match item {
        Item::Block(_) => {
            if writer.depth() < limits.depth() {
                TextReason::Misplaced
            } else {
                TextReason::TooDeep
            }
        }
        Item::Record => {
            let values = writer.values().saturating_add(numbers.len() as u64 - 1);
            if values > limits.values() {
                TextReason::TooManyValues
            } else {
                TextReason::Misplaced
            }
        }
    }
}

/// Ends the blocks that an item after so many spaces is not in, and tells the item.
#[inline(always)]
fn tell_item(
    writer: &mut FormWriter,
    limits: Limits,
    spaces: usize,
    item: Item,
    numbers: &[u64],
) -> Result<(), Stop>
    requires { 0 < length numbers.now }
    ensures { (magic : List ℕ) (calls : List Call) → IsTold limits magic calls writer.old
        → TellsItem limits magic calls
        (item_calls limits (where_after calls at_top) spaces (call_of item numbers.now)) result writer.new }
{
    if (writer.depth() as usize) < spaces / 2 {
        return Err(Stop::Refused(TextReason::BadIndentation));
    }
    if spaces % 2 != 0 {
        return Err(Stop::Refused(TextReason::BadIndentation));
    }
    close(writer, (spaces / 2) as u32)?;
    match tell(writer, item, numbers) {
        Ok(()) => Ok(()),
        Err(Untold::Misplaced) => Err(Stop::Refused(misfit(writer, limits, item, numbers))),
        Err(Untold::Memory) => Err(Stop::Memory),
    }
}

/// Begins a listing with the line of its magic.
#[cold]
#[inline(never)]
fn begin(
    alloc: Global,
    limits: Limits,
    line: &[u8],
    writer: &mut Option<FormWriter>,
) -> Result<(), Stop>
    ensures { ReadsLine limits (begun (magic_of line.now)) result writer.new }
{
    let Some(magic) = magic_of(line) else {
        return Err(Stop::Refused(TextReason::NoMagic));
    };
    match FormWriter::new(alloc, magic, limits) {
        Some(begun) => {
            *writer = Some(begun);
            Ok(())
        }
        None => Err(Stop::Refused(TextReason::WrapperMagic)),
    }
}

/// Reads the line that a text has before `end`. There is a writer after the line of the magic.
pub(crate) fn read_line(
    alloc: Global,
    limits: Limits,
    text: &[u8],
    end: usize,
    writer: &mut Option<FormWriter>,
    numbers: &mut Vec<u64>,
    batch: &mut [u64; BATCH],
) -> Result<(), Stop>
    requires { end ≤ length text.now }
    ensures { (now : Standing) → IsAt limits now writer.old
        → ReadsLine limits (after_line limits now (take end text.now)) result writer.new }
{
    let line = &text[..end];
    let count = spaces(line);
    let content = &line[count..];
    if is_free(content) {
        return Ok(());
    }
    match writer {
        Some(writer) => {
            let quick = quick_record(&text[count..], end - count, batch);
            if quick > 0 {
                return tell_item(writer, limits, count, Item::Record, &batch[..quick]);
            }
            let item = read_item(content, numbers)?;
            tell_item(writer, limits, count, item, numbers)
        }
        None => begin(alloc, limits, line, writer),
    }
}
