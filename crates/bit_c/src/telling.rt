//! A tree that C writes call by call, and its normal form.

ghost use Rattle.std.specs.Prelude.{◌≡◌, None};
ghost use Rattle.bit_norm.specs.Telling.{begins, ends, holds, place_of};
ghost use Rattle.bit_c.specs.Ending.{EndsCall};
ghost use Rattle.bit_c.specs.Limiting.{Within, limits_told};
ghost use Rattle.bit_c.specs.Telling.{EndsHandle, EndsIn, EndsWriter, MakesForm, OpensWriter, TellsHandle, TellsIn, TellsWriter, call_of};

use crate::asking::BsMagicBytes;
use crate::handle::{BsHandle, handle_of, take_out};
use crate::home::{HeldText, Home, no_text};
use crate::limits::BsLimits;
use crate::outcome::{BsFault, Outcome};
use crate::room_sink::{RoomSink, kept_of};
use bit_fields::{Fault, Limits};
use bit_norm::{FormWriter, Untold};
use std::alloc::Global;
use std::mem;

/// A call to a writer.
#[derive(Clone, Copy)]
pub(crate) enum Told<'a> {
    Enter(u32),
    Record(u64, &'a [u64]),
    Leave,
}

/// Begins a tree in a closed handle.
fn open_at(alloc: Global, magic: [u8; 4], limits: Limits, handle: &mut BsHandle) -> Outcome
    requires { handle.old.inner.home ≡ None }
    ensures { OpensWriter limits magic handle.new.inner.home result }
{
    let Some(writer) = FormWriter::new(alloc, magic, limits) else {
        return Outcome::Unfit;
    };
    match Box::new(alloc, Home::Writing(writer)) {
        Ok(home) => {
            *handle = handle_of(home);
            Outcome::Done
        }
        Err(_) => Outcome::Memory,
    }
}

/// The same with limits that may be past their caps, and with a handle that may be open.
fn open_within(
    alloc: Global,
    magic: &BsMagicBytes,
    limits: &BsLimits,
    handle: &mut BsHandle,
) -> Outcome
    ensures { let l = limits_told limits.now in let new = handle.new.inner.home
        in Within l (new ≡ None) (OpensWriter l magic.now.bytes new) result }
{
    let _ = take_out(alloc, handle);
    match limits.to_limits() {
        Some(limits) => open_at(alloc, magic.bytes, limits, handle),
        None => Outcome::Limits,
    }
}

/// Begins a tree with a magic. An open handle is closed first.
#[unsafe(no_mangle)]
pub extern "C" fn bs_write_open(
    alloc: Global,
    magic: &BsMagicBytes,
    limits: &BsLimits,
    handle: &mut BsHandle,
    fault: &mut BsFault,
) -> u32
    ensures { let l = limits_told limits.now in let new = handle.new.inner.home
        in EndsCall result fault.new (Within l (new ≡ None) (OpensWriter l magic.now.bytes new)) }
{
    open_within(alloc, magic, limits, handle).tell(fault)
}

/// Passes a call to a writer.
fn tell_writer(writer: &mut FormWriter, told: Told<'_>) -> Outcome
    ensures { TellsWriter (call_of told.entry) writer.old writer.new result }
{
    let answer = match told {
        Told::Enter(id) => writer.enter(id),
        Told::Record(code, values) => writer.record(code, values),
        Told::Leave => writer.leave(),
    };
    match answer {
        Ok(()) => Outcome::Done,
        Err(Untold::Misplaced) => Outcome::Unfit,
        Err(Untold::Memory) => Outcome::Memory,
    }
}

/// Passes a call to the object of a handle.
fn tell_in(home: &mut Home, told: Told<'_>) -> Outcome
    ensures { TellsIn (call_of told.entry) home.old home.new result }
{
    match home {
        Home::Writing(writer) => tell_writer(writer, told),
        Home::Reading(_) | Home::Text(_) | Home::Input(_) => Outcome::Closed,
    }
}

/// Passes a call to the writer of a handle. If an allocation fails, the handle is closed.
fn tell_of(alloc: Global, handle: &mut BsHandle, told: Told<'_>) -> Outcome
    ensures { TellsHandle (call_of told.entry) handle.old.inner.home handle.new.inner.home result }
{
    let Some(mut home) = take_out(alloc, handle) else {
        return Outcome::Closed;
    };
    match tell_in(&mut home, told) {
        Outcome::Memory => Outcome::Memory,
        outcome => {
            *handle = handle_of(home);
            outcome
        }
    }
}

/// Begins a block.
#[unsafe(no_mangle)]
pub extern "C" fn bs_write_enter(
    alloc: Global,
    handle: &mut BsHandle,
    id: u32,
    fault: &mut BsFault,
) -> u32
    ensures { EndsCall result fault.new
        (TellsHandle (begins id) handle.old.inner.home handle.new.inner.home) }
{
    tell_of(alloc, handle, Told::Enter(id)).tell(fault)
}

/// Adds a record to the innermost block.
#[unsafe(no_mangle)]
pub extern "C" fn bs_write_record(
    alloc: Global,
    handle: &mut BsHandle,
    code: u64,
    values: &[u64],
    fault: &mut BsFault,
) -> u32
    ensures { EndsCall result fault.new
        (TellsHandle (holds code values.now) handle.old.inner.home handle.new.inner.home) }
{
    tell_of(alloc, handle, Told::Record(code, values)).tell(fault)
}

/// Ends the innermost block.
#[unsafe(no_mangle)]
pub extern "C" fn bs_write_leave(alloc: Global, handle: &mut BsHandle, fault: &mut BsFault) -> u32
    ensures { EndsCall result fault.new
        (TellsHandle ends handle.old.inner.home handle.new.inner.home) }
{
    tell_of(alloc, handle, Told::Leave).tell(fault)
}

/// The normal form of a writer's tree.
fn form_of(alloc: Global, writer: FormWriter) -> Result<Vec<u8>, Outcome>
    requires { (place_of writer).depth ≡ 0 }
    ensures { MakesForm writer result }
{
    let (answer, sink) = writer.finish(RoomSink::new(alloc, usize::MAX));
    match answer {
        Ok(_) => kept_of(sink),
        Err(Fault::OutputTooLong) => Err(Outcome::TooLong),
        // A sink in memory fails only if it cannot grow.
        Err(_) => Err(Outcome::Memory),
    }
}

/// Ends the writer in a handle. The form replaces it.
fn end_writer(alloc: Global, writer: FormWriter) -> (Outcome, Home)
    ensures { EndsWriter writer result.1 result.0 }
{
    if !writer.is_complete() {
        return (Outcome::Unfit, Home::Writing(writer));
    }
    match form_of(alloc, writer) {
        Ok(text) => (Outcome::Done, Home::Text(HeldText { text, taken: 0 })),
        Err(outcome) => (outcome, no_text(alloc)),
    }
}

/// Ends the object of a handle.
fn end_in(alloc: Global, home: &mut Home) -> Outcome
    ensures { EndsIn home.old home.new result }
{
    match mem::replace(home, no_text(alloc)) {
        Home::Writing(writer) => {
            let (outcome, new) = end_writer(alloc, writer);
            *home = new;
            outcome
        }
        other => {
            *home = other;
            Outcome::Closed
        }
    }
}

/// Ends the writer of a handle. If it wrote nothing, the handle is closed.
fn end_of(alloc: Global, handle: &mut BsHandle) -> Outcome
    ensures { EndsHandle handle.old.inner.home handle.new.inner.home result }
{
    let Some(mut home) = take_out(alloc, handle) else {
        return Outcome::Closed;
    };
    match end_in(alloc, &mut home) {
        Outcome::Memory => Outcome::Memory,
        Outcome::TooLong => Outcome::TooLong,
        outcome => {
            *handle = handle_of(home);
            outcome
        }
    }
}

/// Ends the tree. The handle then holds its normal form, as after `bs_hold_normal`.
#[unsafe(no_mangle)]
pub extern "C" fn bs_write_finish(alloc: Global, handle: &mut BsHandle, fault: &mut BsFault) -> u32
    ensures { EndsCall result fault.new (EndsHandle handle.old.inner.home handle.new.inner.home) }
{
    end_of(alloc, handle).tell(fault)
}
