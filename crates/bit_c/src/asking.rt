//! Queries to the reader of events between two of them.

ghost use Rattle.std.specs.Prelude.{◌≡◌, Some};
ghost use Rattle.bit_c.specs.Ending.{EndsCall};
ghost use Rattle.bit_c.specs.Opened.{reading_of};
ghost use Rattle.bit_c.specs.Stepping.{Lists, ListsOf, TellsMagic, operands_held, values_held};

use crate::handle::{BsHandle, handle_of, take_out};
use crate::home::{Home, Reading};
use crate::operand::BsOperand;
use crate::outcome::{BsFault, Outcome};
use crate::room::{hand_out, hand_out_values};
use std::alloc::Global;

/// The magic of a stream, its first byte first.
#[repr(C)]
#[derive(Clone, Copy)]
pub struct BsMagicBytes {
    pub bytes: [u8; 4],
}

/// Hands out the values of the record returned last.
fn values(reading: &Reading, room: &mut [u64], needed: &mut usize) -> Outcome
    ensures { Lists values_held reading.now room.old needed.new room.new result }
{
    if let Some(fault) = reading.fault {
        *needed = 0;
        return Outcome::of(0, fault);
    }
    hand_out_values(reading.events.values(), room, needed)
}

/// The same for the object of a handle.
fn values_in(home: &Home, room: &mut [u64], needed: &mut usize) -> Outcome
    ensures { ListsOf values_held (reading_of (Some home.now)) room.old needed.new room.new result }
{
    match home {
        Home::Reading(reading) => values(reading, room, needed),
        Home::Text(_) | Home::Writing(_) | Home::Input(_) => {
            *needed = 0;
            Outcome::Closed
        }
    }
}

/// The same for a handle, which does not change.
fn values_of(alloc: Global, handle: &mut BsHandle, room: &mut [u64], needed: &mut usize) -> Outcome
    ensures kept { handle.new.inner.home ≡ handle.old.inner.home }
    ensures lists { ListsOf values_held (reading_of handle.old.inner.home) room.old needed.new room.new
        result }
{
    match take_out(alloc, handle) {
        Some(home) => {
            let outcome = values_in(&home, room, needed);
            *handle = handle_of(home);
            outcome
        }
        None => {
            *needed = 0;
            Outcome::Closed
        }
    }
}

/// Puts the values of the record returned last into the caller's room, and reports their number.
#[unsafe(no_mangle)]
pub extern "C" fn bs_values(
    alloc: Global,
    handle: &mut BsHandle,
    room: &mut [u64],
    needed: &mut usize,
    fault: &mut BsFault,
) -> u32
    ensures kept { handle.new.inner.home ≡ handle.old.inner.home }
    ensures lists { EndsCall result fault.new
        (ListsOf values_held (reading_of handle.old.inner.home) room.old needed.new room.new) }
{
    values_of(alloc, handle, room, needed).tell(fault)
}

/// Hands out the operands of the event returned last: none if it is no definition.
fn operands(reading: &Reading, room: &mut [BsOperand], needed: &mut usize) -> Outcome
    ensures { Lists operands_held reading.now room.old needed.new room.new result }
{
    if let Some(fault) = reading.fault {
        *needed = 0;
        return Outcome::of(0, fault);
    }
    hand_out(reading.operands.as_slice(), room, needed)
}

/// The same for the object of a handle.
fn operands_in(home: &Home, room: &mut [BsOperand], needed: &mut usize) -> Outcome
    ensures { ListsOf operands_held (reading_of (Some home.now)) room.old needed.new room.new result }
{
    match home {
        Home::Reading(reading) => operands(reading, room, needed),
        Home::Text(_) | Home::Writing(_) | Home::Input(_) => {
            *needed = 0;
            Outcome::Closed
        }
    }
}

/// The same for a handle, which does not change.
fn operands_of(
    alloc: Global,
    handle: &mut BsHandle,
    room: &mut [BsOperand],
    needed: &mut usize,
) -> Outcome
    ensures kept { handle.new.inner.home ≡ handle.old.inner.home }
    ensures lists { ListsOf operands_held (reading_of handle.old.inner.home) room.old needed.new room.new
        result }
{
    match take_out(alloc, handle) {
        Some(home) => {
            let outcome = operands_in(&home, room, needed);
            *handle = handle_of(home);
            outcome
        }
        None => {
            *needed = 0;
            Outcome::Closed
        }
    }
}

/// Puts the operands of the definition returned last into the caller's room, and reports their number: none if the event
/// returned last is no definition.
#[unsafe(no_mangle)]
pub extern "C" fn bs_operands(
    alloc: Global,
    handle: &mut BsHandle,
    room: &mut [BsOperand],
    needed: &mut usize,
    fault: &mut BsFault,
) -> u32
    ensures kept { handle.new.inner.home ≡ handle.old.inner.home }
    ensures lists { EndsCall result fault.new
        (ListsOf operands_held (reading_of handle.old.inner.home) room.old needed.new room.new) }
{
    operands_of(alloc, handle, room, needed).tell(fault)
}

/// Sets the magic of the stream whose events a handle holds.
fn magic_in(home: &Home, magic: &mut BsMagicBytes) -> Outcome
    ensures { TellsMagic (reading_of (Some home.now)) magic.old magic.new result }
{
    match home {
        Home::Reading(reading) => {
            *magic = BsMagicBytes {
                bytes: reading.events.head().magic,
            };
            Outcome::Done
        }
        Home::Text(_) | Home::Writing(_) | Home::Input(_) => Outcome::Closed,
    }
}

/// The same for a handle, which does not change.
fn magic_of(alloc: Global, handle: &mut BsHandle, magic: &mut BsMagicBytes) -> Outcome
    ensures kept { handle.new.inner.home ≡ handle.old.inner.home }
    ensures tells { TellsMagic (reading_of handle.old.inner.home) magic.old magic.new result }
{
    match take_out(alloc, handle) {
        Some(home) => {
            let outcome = magic_in(&home, magic);
            *handle = handle_of(home);
            outcome
        }
        None => Outcome::Closed,
    }
}

/// Sets the magic of the stream whose events were begun. It is available from the beginning on, and also after a fault.
#[unsafe(no_mangle)]
pub extern "C" fn bs_magic(
    alloc: Global,
    handle: &mut BsHandle,
    magic: &mut BsMagicBytes,
    fault: &mut BsFault,
) -> u32
    ensures kept { handle.new.inner.home ≡ handle.old.inner.home }
    ensures tells { EndsCall result fault.new
        (TellsMagic (reading_of handle.old.inner.home) magic.old magic.new) }
{
    magic_of(alloc, handle, magic).tell(fault)
}
