//! An input that C passes in pieces, and the calls on the input that a handle gathered.

ghost use Rattle.std.specs.Prelude.{◌≡◌, None, Some};
ghost use Rattle.bit_grammar.specs.Setting.{setting_of};
ghost use Rattle.bit_c.specs.Ending.{EndsCall};
ghost use Rattle.bit_c.specs.Feeding.{AnalysesFed, BeginsInput, ChecksFed, Feeds, FeedsIn, HoldsFed, KeepsMade, MakesFed, MakesReport, MakesText, MakesUnder, ReportsFed, ReportsIn};
ghost use Rattle.bit_c.specs.Limiting.{limits_told};
ghost use Rattle.bit_c.specs.declared.texts.Text.{Text as TextTold};

use crate::analysing::{BsBlockRow, BsCodeRow, BsTally, NO_TALLY, analyse_within};
use crate::checking::judge_within;
use crate::handle::{BsHandle, handle_of, take_out};
use crate::holding::{hold_asked, hold_report_within};
use crate::home::{HeldText, Home};
use crate::keys::BsKeys;
use crate::left_out::{BsLeftOut, asked_of};
use crate::limits::BsLimits;
use crate::outcome::{BsFault, Outcome};
use crate::room_sink::kept_of;
use crate::texts::{Text, make};
use bit_fields::Limits;
use bit_norm::Info;
use std::alloc::Global;

/// Begins an input of one piece in a closed handle.
fn begin_with(alloc: Global, piece: &[u8], handle: &mut BsHandle) -> Outcome
    requires { handle.old.inner.home ≡ None }
    ensures { BeginsInput piece.now handle.new.inner.home result }
{
    let Ok(bytes) = Vec::from_slice(alloc, piece) else {
        return Outcome::Memory;
    };
    match Box::new(alloc, Home::Input(bytes)) {
        Ok(home) => {
            *handle = handle_of(home);
            Outcome::Done
        }
        Err(_) => Outcome::Memory,
    }
}

/// Adds a piece to the input of a handle's object.
fn feed_in(home: &mut Home, piece: &[u8]) -> Outcome
    ensures { FeedsIn piece.now home.old home.new result }
{
    match home {
        Home::Input(bytes) => match bytes.extend_from_slice(piece) {
            Ok(()) => Outcome::Done,
            Err(_) => Outcome::Memory,
        },
        Home::Reading(_) | Home::Text(_) | Home::Writing(_) => Outcome::Closed,
    }
}

/// Adds a piece to the input of a handle. If the handle is closed, the piece begins an input.
fn feed_of(alloc: Global, handle: &mut BsHandle, piece: &[u8]) -> Outcome
    ensures { Feeds piece.now handle.old.inner.home handle.new.inner.home result }
{
    match take_out(alloc, handle) {
        Some(mut home) => {
            let outcome = feed_in(&mut home, piece);
            *handle = handle_of(home);
            outcome
        }
        None => begin_with(alloc, piece, handle),
    }
}

/// Adds a piece to the input that a handle gathers. A closed handle begins an input.
#[unsafe(no_mangle)]
pub extern "C" fn bs_feed(
    alloc: Global,
    handle: &mut BsHandle,
    piece: &[u8],
    fault: &mut BsFault,
) -> u32
    ensures { EndsCall result fault.new
        (Feeds piece.now handle.old.inner.home handle.new.inner.home) }
{
    feed_of(alloc, handle, piece).tell(fault)
}

/// Judges the input of a handle's object.
fn check_in(alloc: Global, home: &Home, limits: &BsLimits) -> Outcome
    ensures { ChecksFed (limits_told limits.now) (Some home.now) result }
{
    match home {
        Home::Input(bytes) => judge_within(alloc, bytes.as_slice(), limits),
        Home::Reading(_) | Home::Text(_) | Home::Writing(_) => Outcome::Closed,
    }
}

/// The same for a handle, which does not change.
fn check_of(alloc: Global, handle: &mut BsHandle, limits: &BsLimits) -> Outcome
    ensures kept { handle.new.inner.home ≡ handle.old.inner.home }
    ensures checks { ChecksFed (limits_told limits.now) handle.old.inner.home result }
{
    match take_out(alloc, handle) {
        Some(home) => {
            let outcome = check_in(alloc, &home, limits);
            *handle = handle_of(home);
            outcome
        }
        None => judge_within(alloc, &[], limits),
    }
}

/// Whether the input that a handle gathered is accepted. The handle keeps the input.
#[unsafe(no_mangle)]
pub extern "C" fn bs_fed_check(
    alloc: Global,
    handle: &mut BsHandle,
    limits: &BsLimits,
    fault: &mut BsFault,
) -> u32
    ensures kept { handle.new.inner.home ≡ handle.old.inner.home }
    ensures checks { EndsCall result fault.new
        (ChecksFed (limits_told limits.now) handle.old.inner.home) }
{
    check_of(alloc, handle, limits).tell(fault)
}

/// Analyses the input of a handle's object.
fn analyse_in(
    alloc: Global,
    home: &Home,
    limits: &BsLimits,
    keys: BsKeys,
    tally: &mut BsTally,
    block_room: &mut [BsBlockRow],
    code_room: &mut [BsCodeRow],
) -> Outcome
    ensures { AnalysesFed (limits_told limits.now) (Some home.now) tally.new block_room.old
        block_room.new code_room.old code_room.new result }
{
    match home {
        Home::Input(bytes) => {
            analyse_within(
                alloc,
                bytes.as_slice(),
                limits,
                keys,
                tally,
                block_room,
                code_room,
            )
        }
        Home::Reading(_) | Home::Text(_) | Home::Writing(_) => {
            *tally = NO_TALLY;
            Outcome::Closed
        }
    }
}

/// The same for a handle, which does not change.
fn analyse_of(
    alloc: Global,
    handle: &mut BsHandle,
    limits: &BsLimits,
    keys: BsKeys,
    tally: &mut BsTally,
    block_room: &mut [BsBlockRow],
    code_room: &mut [BsCodeRow],
) -> Outcome
    ensures kept { handle.new.inner.home ≡ handle.old.inner.home }
    ensures tells { AnalysesFed (limits_told limits.now) handle.old.inner.home tally.new
        block_room.old block_room.new code_room.old code_room.new result }
{
    match take_out(alloc, handle) {
        Some(home) => {
            let outcome = analyse_in(alloc, &home, limits, keys, tally, block_room, code_room);
            *handle = handle_of(home);
            outcome
        }
        None => analyse_within(alloc, &[], limits, keys, tally, block_room, code_room),
    }
}

/// Analyses the input that a handle gathered, as `bs_analyse` does. The handle keeps the input.
#[unsafe(no_mangle)]
pub extern "C" fn bs_fed_analyse(
    alloc: Global,
    handle: &mut BsHandle,
    limits: &BsLimits,
    tally: &mut BsTally,
    block_room: &mut [BsBlockRow],
    code_room: &mut [BsCodeRow],
    fault: &mut BsFault,
    keys: &BsKeys,
) -> u32
    ensures kept { handle.new.inner.home ≡ handle.old.inner.home }
    ensures tells { EndsCall result fault.new (AnalysesFed (limits_told limits.now)
        handle.old.inner.home tally.new block_room.old block_room.new code_room.old
        code_room.new) }
{
    analyse_of(alloc, handle, limits, *keys, tally, block_room, code_room).tell(fault)
}

/// Makes a text of some bytes.
fn make_under(
    alloc: Global,
    bytes: &[u8],
    limits: Limits,
    text: Text,
    info: Info<'_>,
) -> Result<Vec<u8>, Outcome>
    ensures { MakesUnder text (setting_of info.entry) limits bytes.now result }
{
    let (outcome, made) = make(alloc, bytes, limits, text, info, usize::MAX);
    match outcome {
        Outcome::Done => kept_of(made),
        other => Err(other),
    }
}

/// The same with limits and names that may be unfit.
fn make_asked(
    alloc: Global,
    bytes: &[u8],
    limits: &BsLimits,
    left_out: &BsLeftOut<'_>,
    text: Text,
) -> Result<Vec<u8>, Outcome>
    ensures { MakesText text (limits_told limits.now) left_out.now bytes.now result }
{
    match asked_of(alloc, limits, left_out) {
        Ok(asked) => make_under(alloc, bytes, asked.limits, text, asked.setting()),
        Err(outcome) => Err(outcome),
    }
}

/// The same for the input of a handle's object.
fn make_in(
    alloc: Global,
    home: &Home,
    limits: &BsLimits,
    left_out: &BsLeftOut<'_>,
    text: Text,
) -> Result<Vec<u8>, Outcome>
    ensures { MakesFed text (limits_told limits.now) left_out.now home.now result }
{
    match home {
        Home::Input(bytes) => make_asked(alloc, bytes.as_slice(), limits, left_out, text),
        Home::Reading(_) | Home::Text(_) | Home::Writing(_) => Err(Outcome::Closed),
    }
}

/// Replaces a handle's object with a text.
fn keep_made(home: &mut Home, made: Result<Vec<u8>, Outcome>) -> Outcome
    ensures { KeepsMade home.old made home.new result }
{
    match made {
        Ok(text) => {
            *home = Home::Text(HeldText { text, taken: 0 });
            Outcome::Done
        }
        Err(outcome) => outcome,
    }
}

/// Makes a text of the input of a handle. The text replaces the input.
fn hold_of(
    alloc: Global,
    handle: &mut BsHandle,
    limits: &BsLimits,
    left_out: &BsLeftOut<'_>,
    text: Text,
) -> Outcome
    ensures { HoldsFed text (limits_told limits.now) left_out.now handle.old.inner.home
        handle.new.inner.home result }
{
    match take_out(alloc, handle) {
        Some(mut home) => {
            let made = make_in(alloc, &home, limits, left_out, text);
            let outcome = keep_made(&mut home, made);
            *handle = handle_of(home);
            outcome
        }
        None => hold_asked(alloc, &[], limits, left_out, text, handle),
    }
}

/// Makes the normal form of the input that a handle gathered, whole or without what is left out. The handle then holds it instead
/// of the input.
#[unsafe(no_mangle)]
pub extern "C" fn bs_fed_normal(
    alloc: Global,
    handle: &mut BsHandle,
    limits: &BsLimits,
    left_out: &BsLeftOut<'_>,
    fault: &mut BsFault,
) -> u32
    ensures { EndsCall result fault.new (HoldsFed TextTold.Form (limits_told limits.now)
        left_out.now handle.old.inner.home handle.new.inner.home) }
{
    hold_of(alloc, handle, limits, left_out, Text::Form).tell(fault)
}

/// Makes the report of some bytes, with limits that may be past their caps.
fn report_within(
    alloc: Global,
    bytes: &[u8],
    limits: &BsLimits,
    keys: BsKeys,
) -> Result<Vec<u8>, Outcome>
    ensures { MakesReport keys (limits_told limits.now) bytes.now result }
{
    match limits.to_limits() {
        Some(limits) => make_under(alloc, bytes, limits, Text::Report(keys), Info::Keep),
        None => Err(Outcome::Limits),
    }
}

/// The same for the input of a handle's object.
fn report_in(
    alloc: Global,
    home: &Home,
    limits: &BsLimits,
    keys: BsKeys,
) -> Result<Vec<u8>, Outcome>
    ensures { ReportsIn keys (limits_told limits.now) home.now result }
{
    match home {
        Home::Input(bytes) => report_within(alloc, bytes.as_slice(), limits, keys),
        Home::Reading(_) | Home::Text(_) | Home::Writing(_) => Err(Outcome::Closed),
    }
}

/// Makes the report of the input of a handle. It replaces the input.
fn hold_report_of(alloc: Global, handle: &mut BsHandle, limits: &BsLimits, keys: BsKeys) -> Outcome
    ensures { ReportsFed keys (limits_told limits.now) handle.old.inner.home handle.new.inner.home
        result }
{
    match take_out(alloc, handle) {
        Some(mut home) => {
            let made = report_in(alloc, &home, limits, keys);
            let outcome = keep_made(&mut home, made);
            *handle = handle_of(home);
            outcome
        }
        None => hold_report_within(alloc, &[], limits, keys, handle),
    }
}

/// The same for the report of an analysis.
#[unsafe(no_mangle)]
pub extern "C" fn bs_fed_report(
    alloc: Global,
    handle: &mut BsHandle,
    limits: &BsLimits,
    fault: &mut BsFault,
    keys: &BsKeys,
) -> u32
    ensures { EndsCall result fault.new
        (ReportsFed keys.now (limits_told limits.now) handle.old.inner.home handle.new.inner.home) }
{
    hold_report_of(alloc, handle, limits, *keys).tell(fault)
}

/// The same for the listing, whole or without what is left out.
#[unsafe(no_mangle)]
pub extern "C" fn bs_fed_show(
    alloc: Global,
    handle: &mut BsHandle,
    limits: &BsLimits,
    left_out: &BsLeftOut<'_>,
    fault: &mut BsFault,
) -> u32
    ensures { EndsCall result fault.new (HoldsFed TextTold.Listing (limits_told limits.now)
        left_out.now handle.old.inner.home handle.new.inner.home) }
{
    hold_of(alloc, handle, limits, left_out, Text::Listing).tell(fault)
}
