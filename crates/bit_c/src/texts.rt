//! The texts that calls make of an input: its normal form, its report and its listing.

ghost use Rattle.bit_grammar.specs.Setting.{keep, setting_of};
ghost use Rattle.bit_c.specs.Ending.{EndsCall};
ghost use Rattle.bit_c.specs.Handing.{LeavesRoom, Makes};
ghost use Rattle.bit_c.specs.Limiting.{AsksWithin, Within, limits_told, setting_told};
ghost use Rattle.bit_c.specs.Texts.{FailsText, GivesText, IsTextOf};
ghost use Rattle.bit_c.specs.declared.texts.Text.{Text as TextTold};

use crate::keys::BsKeys;
use crate::left_out::{BsLeftOut, asked_of};
use crate::limits::BsLimits;
use crate::outcome::{BsFault, Outcome};
use crate::room::hand;
use crate::room_sink::RoomSink;
use bit_fields::{Limits, Sink, SliceSource};
use bit_norm::{Info, normalise};
use bit_scan::{Format, write_report_with_hasher, write_show};
use std::alloc::Global;

/// A text of an input.
#[derive(Clone, Copy)]
pub(crate) enum Text {
    /// The normal form, under a setting.
    Form,
    /// The report, whose rows are found by these keys.
    Report(BsKeys),
    /// The listing, under a setting.
    Listing,
}

/// Makes the normal form of some bytes, for a room of `room` bytes.
fn form_of(
    alloc: Global,
    bytes: &[u8],
    limits: Limits,
    info: Info<'_>,
    room: usize,
) -> (Outcome, RoomSink)
    ensures { let setting = setting_of info.entry
        in Makes (IsTextOf TextTold.Form setting limits bytes.now)
        (FailsText TextTold.Form setting limits bytes.now) result.0
        (⟦<RoomSink as Sink>⟧.outgoing result.1).bytes }
{
    let sink = RoomSink::new(alloc, room);
    let (answer, _, sink) = normalise(alloc, SliceSource::new(bytes), sink, limits, info);
    match answer {
        Ok(_) => (Outcome::Done, sink),
        Err(fault) => (Outcome::of(0, fault), sink),
    }
}

/// Makes the report of some bytes, for a room of `room` bytes.
fn report_of(
    alloc: Global,
    bytes: &[u8],
    limits: Limits,
    keys: BsKeys,
    room: usize,
) -> (Outcome, RoomSink)
    ensures { let text = TextTold.Report keys in Makes (IsTextOf text keep limits bytes.now)
        (FailsText text keep limits bytes.now) result.0
        (⟦<RoomSink as Sink>⟧.outgoing result.1).bytes }
{
    let sink = RoomSink::new(alloc, room);
    let source = SliceSource::new(bytes);
    let (answer, _, sink) = write_report_with_hasher(
        alloc,
        source,
        sink,
        limits,
        Format::Text,
        keys,
    );
    match answer {
        Ok(()) => (Outcome::Done, sink),
        Err(fault) => (Outcome::of(0, fault), sink),
    }
}

/// Makes the listing of some bytes, for a room of `room` bytes.
fn listing_of(
    alloc: Global,
    bytes: &[u8],
    limits: Limits,
    info: Info<'_>,
    room: usize,
) -> (Outcome, RoomSink)
    ensures { let setting = setting_of info.entry
        in Makes (IsTextOf TextTold.Listing setting limits bytes.now)
        (FailsText TextTold.Listing setting limits bytes.now) result.0
        (⟦<RoomSink as Sink>⟧.outgoing result.1).bytes }
{
    let sink = RoomSink::new(alloc, room);
    let (answer, _, sink) = write_show(alloc, SliceSource::new(bytes), sink, limits, info);
    match answer {
        Ok(()) => (Outcome::Done, sink),
        Err(fault) => (Outcome::of(0, fault), sink),
    }
}

/// Makes a text of some bytes, for a room of `room` bytes.
pub(crate) fn make(
    alloc: Global,
    bytes: &[u8],
    limits: Limits,
    text: Text,
    info: Info<'_>,
    room: usize,
) -> (Outcome, RoomSink)
    ensures { let setting = setting_of info.entry
        in Makes (IsTextOf text setting limits bytes.now) (FailsText text setting limits bytes.now)
        result.0 (⟦<RoomSink as Sink>⟧.outgoing result.1).bytes }
{
    match text {
        Text::Form => form_of(alloc, bytes, limits, info, room),
        Text::Report(keys) => report_of(alloc, bytes, limits, keys, room),
        Text::Listing => listing_of(alloc, bytes, limits, info, room),
    }
}

/// Hands out a text of some bytes.
fn give(
    alloc: Global,
    bytes: &[u8],
    limits: Limits,
    text: Text,
    info: Info<'_>,
    room: &mut [u8],
    needed: &mut usize,
) -> Outcome
    ensures { GivesText text (setting_of info.entry) limits bytes.now room.old needed.new room.new
        result }
{
    let (outcome, made) = make(alloc, bytes, limits, text, info, room.len());
    hand(outcome, &made, room, needed)
}

/// The report, with limits that may be past their caps.
fn report_within(
    alloc: Global,
    bytes: &[u8],
    limits: &BsLimits,
    keys: BsKeys,
    room: &mut [u8],
    needed: &mut usize,
) -> Outcome
    ensures { let l = limits_told limits.now in Within l (LeavesRoom room.old needed.new room.new)
        (GivesText (TextTold.Report keys) keep l bytes.now room.old needed.new room.new) result }
{
    match limits.to_limits() {
        Some(limits) => give(
            alloc,
            bytes,
            limits,
            Text::Report(keys),
            Info::Keep,
            room,
            needed,
        ),
        None => {
            *needed = 0;
            Outcome::Limits
        }
    }
}

/// A text of what is not left out, with limits and names that may be unfit.
fn give_asked(
    alloc: Global,
    bytes: &[u8],
    limits: &BsLimits,
    left_out: &BsLeftOut<'_>,
    text: Text,
    room: &mut [u8],
    needed: &mut usize,
) -> Outcome
    ensures { let l = limits_told limits.now in AsksWithin l left_out.now
        (LeavesRoom room.old needed.new room.new)
        (GivesText text (setting_told left_out.now) l bytes.now room.old needed.new room.new)
        result }
{
    match asked_of(alloc, limits, left_out) {
        Ok(asked) => give(
            alloc,
            bytes,
            asked.limits,
            text,
            asked.setting(),
            room,
            needed,
        ),
        Err(outcome) => {
            *needed = 0;
            outcome
        }
    }
}

/// Puts the normal form of some bytes, whole or without what is left out, into the caller's room, and reports its length in
/// bytes.
#[unsafe(no_mangle)]
pub extern "C" fn bs_normal(
    alloc: Global,
    bytes: &[u8],
    limits: &BsLimits,
    left_out: &BsLeftOut<'_>,
    room: &mut [u8],
    needed: &mut usize,
    fault: &mut BsFault,
) -> u32
    ensures { let l = limits_told limits.now in EndsCall result fault.new
        (AsksWithin l left_out.now (LeavesRoom room.old needed.new room.new)
        (GivesText TextTold.Form (setting_told left_out.now) l bytes.now room.old needed.new
        room.new)) }
{
    give_asked(alloc, bytes, limits, left_out, Text::Form, room, needed).tell(fault)
}

/// Puts the report of an analysis of bytes into the caller's room, and reports its length in bytes. The few lines of C before the
/// call give the keys, as for each call that analyses.
#[unsafe(no_mangle)]
pub extern "C" fn bs_report(
    alloc: Global,
    bytes: &[u8],
    limits: &BsLimits,
    room: &mut [u8],
    needed: &mut usize,
    fault: &mut BsFault,
    keys: &BsKeys,
) -> u32
    ensures { let l = limits_told limits.now in EndsCall result fault.new
        (Within l (LeavesRoom room.old needed.new room.new)
        (GivesText (TextTold.Report keys.now) keep l bytes.now room.old needed.new room.new)) }
{
    report_within(alloc, bytes, limits, *keys, room, needed).tell(fault)
}

/// Puts the listing of bytes, whole or without what is left out, into the caller's room, and reports its length in bytes.
#[unsafe(no_mangle)]
pub extern "C" fn bs_show(
    alloc: Global,
    bytes: &[u8],
    limits: &BsLimits,
    left_out: &BsLeftOut<'_>,
    room: &mut [u8],
    needed: &mut usize,
    fault: &mut BsFault,
) -> u32
    ensures { let l = limits_told limits.now in EndsCall result fault.new
        (AsksWithin l left_out.now (LeavesRoom room.old needed.new room.new)
        (GivesText TextTold.Listing (setting_told left_out.now) l bytes.now room.old needed.new
        room.new)) }
{
    give_asked(alloc, bytes, limits, left_out, Text::Listing, room, needed).tell(fault)
}
