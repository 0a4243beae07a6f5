//! Texts held in a handle. They are made once, and their length is known before the caller has room for them.

ghost use Rattle.std.specs.Prelude.{◌≡◌, None, Some};
ghost use Rattle.bit_grammar.specs.Setting.{keep, setting_of};
ghost use Rattle.bit_c.specs.Ending.{EndsCall};
ghost use Rattle.bit_c.specs.Holding.{Holds, PutsBehind, TellsText};
ghost use Rattle.bit_c.specs.Limiting.{AsksWithin, Within, limits_told, setting_told};
ghost use Rattle.bit_c.specs.Opened.{text_of};
ghost use Rattle.bit_c.specs.declared.texts.Text.{Text as TextTold};

use crate::handle::{BsHandle, handle_of, take_out};
use crate::home::{HeldText, Home};
use crate::keys::BsKeys;
use crate::left_out::{BsLeftOut, asked_of};
use crate::limits::BsLimits;
use crate::outcome::{BsFault, Outcome};
use crate::room::hand_out;
use crate::room_sink::RoomSink;
use crate::texts::{Text, make};
use bit_fields::Limits;
use bit_norm::Info;
use std::alloc::Global;

/// Puts a text into a closed handle.
fn put_behind(alloc: Global, text: Vec<u8>, handle: &mut BsHandle) -> Outcome
    requires { handle.old.inner.home ≡ None }
    ensures { PutsBehind text.items handle.new.inner.home result }
{
    match Box::new(alloc, Home::Text(HeldText { text, taken: 0 })) {
        Ok(home) => {
            *handle = handle_of(home);
            Outcome::Done
        }
        Err(_) => Outcome::Memory,
    }
}

/// Puts the text that a sink kept into a closed handle.
fn put_kept(alloc: Global, made: RoomSink, handle: &mut BsHandle) -> Outcome
    requires { handle.old.inner.home ≡ None }
    ensures { PutsBehind made.took.bytes handle.new.inner.home result }
{
    match made.into_kept() {
        Some(text) => put_behind(alloc, text, handle),
        // A sink for the largest room keeps every text.
        None => Outcome::Memory,
    }
}

/// Makes a text of some bytes, and puts it into a closed handle.
fn hold(
    alloc: Global,
    bytes: &[u8],
    limits: Limits,
    text: Text,
    info: Info<'_>,
    handle: &mut BsHandle,
) -> Outcome
    requires { handle.old.inner.home ≡ None }
    ensures { Holds text (setting_of info.entry) limits bytes.now handle.new.inner.home result }
{
    let (outcome, made) = make(alloc, bytes, limits, text, info, usize::MAX);
    match outcome {
        Outcome::Done => put_kept(alloc, made, handle),
        other => other,
    }
}

/// The report, with limits that may be past their caps, and with a handle that may be open.
pub(crate) fn hold_report_within(
    alloc: Global,
    bytes: &[u8],
    limits: &BsLimits,
    keys: BsKeys,
    handle: &mut BsHandle,
) -> Outcome
    ensures { let l = limits_told limits.now in let new = handle.new.inner.home
        in Within l (new ≡ None) (Holds (TextTold.Report keys) keep l bytes.now new) result }
{
    let _ = take_out(alloc, handle);
    match limits.to_limits() {
        Some(limits) => hold(alloc, bytes, limits, Text::Report(keys), Info::Keep, handle),
        None => Outcome::Limits,
    }
}

/// A text of what is not left out, with limits and names that may be unfit, and with a handle that may be open.
pub(crate) fn hold_asked(
    alloc: Global,
    bytes: &[u8],
    limits: &BsLimits,
    left_out: &BsLeftOut<'_>,
    text: Text,
    handle: &mut BsHandle,
) -> Outcome
    ensures { let l = limits_told limits.now in let new = handle.new.inner.home
        in AsksWithin l left_out.now (new ≡ None)
        (Holds text (setting_told left_out.now) l bytes.now new) result }
{
    let _ = take_out(alloc, handle);
    match asked_of(alloc, limits, left_out) {
        Ok(asked) => hold(alloc, bytes, asked.limits, text, asked.setting(), handle),
        Err(outcome) => outcome,
    }
}

/// Makes the normal form of some bytes, whole or without what is left out, and puts it into a handle. An open handle is
/// closed first.
#[unsafe(no_mangle)]
pub extern "C" fn bs_hold_normal(
    alloc: Global,
    bytes: &[u8],
    limits: &BsLimits,
    left_out: &BsLeftOut<'_>,
    handle: &mut BsHandle,
    fault: &mut BsFault,
) -> u32
    ensures { let l = limits_told limits.now in let new = handle.new.inner.home
        in EndsCall result fault.new (AsksWithin l left_out.now (new ≡ None)
        (Holds TextTold.Form (setting_told left_out.now) l bytes.now new)) }
{
    hold_asked(alloc, bytes, limits, left_out, Text::Form, handle).tell(fault)
}

/// The same for the report of an analysis of bytes.
#[unsafe(no_mangle)]
pub extern "C" fn bs_hold_report(
    alloc: Global,
    bytes: &[u8],
    limits: &BsLimits,
    handle: &mut BsHandle,
    fault: &mut BsFault,
    keys: &BsKeys,
) -> u32
    ensures { let l = limits_told limits.now in let new = handle.new.inner.home
        in EndsCall result fault.new (Within l (new ≡ None)
        (Holds (TextTold.Report keys.now) keep l bytes.now new)) }
{
    hold_report_within(alloc, bytes, limits, *keys, handle).tell(fault)
}

/// The same for the listing of bytes, whole or without what is left out.
#[unsafe(no_mangle)]
pub extern "C" fn bs_hold_show(
    alloc: Global,
    bytes: &[u8],
    limits: &BsLimits,
    left_out: &BsLeftOut<'_>,
    handle: &mut BsHandle,
    fault: &mut BsFault,
) -> u32
    ensures { let l = limits_told limits.now in let new = handle.new.inner.home
        in EndsCall result fault.new (AsksWithin l left_out.now (new ≡ None)
        (Holds TextTold.Listing (setting_told left_out.now) l bytes.now new)) }
{
    hold_asked(alloc, bytes, limits, left_out, Text::Listing, handle).tell(fault)
}

/// Hands out the text in a handle.
fn tell_in(home: &Home, room: &mut [u8], needed: &mut usize) -> Outcome
    ensures { TellsText (text_of (Some home.now)) room.old needed.new room.new result }
{
    match home {
        Home::Text(held) => hand_out(held.text.as_slice(), room, needed),
        Home::Reading(_) | Home::Writing(_) | Home::Input(_) => {
            *needed = 0;
            Outcome::Closed
        }
    }
}

/// The same for a handle, which does not change.
fn tell_of(alloc: Global, handle: &mut BsHandle, room: &mut [u8], needed: &mut usize) -> Outcome
    ensures kept { handle.new.inner.home ≡ handle.old.inner.home }
    ensures tells { TellsText (text_of handle.old.inner.home) room.old needed.new room.new result }
{
    match take_out(alloc, handle) {
        Some(home) => {
            let outcome = tell_in(&home, room, needed);
            *handle = handle_of(home);
            outcome
        }
        None => {
            *needed = 0;
            Outcome::Closed
        }
    }
}

/// Puts the text in a handle into the caller's room, and reports its length in bytes. The handle stays open.
#[unsafe(no_mangle)]
pub extern "C" fn bs_text(
    alloc: Global,
    handle: &mut BsHandle,
    room: &mut [u8],
    needed: &mut usize,
    fault: &mut BsFault,
) -> u32
    ensures kept { handle.new.inner.home ≡ handle.old.inner.home }
    ensures tells { EndsCall result fault.new
        (TellsText (text_of handle.old.inner.home) room.old needed.new room.new) }
{
    tell_of(alloc, handle, room, needed).tell(fault)
}
