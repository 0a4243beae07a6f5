//! A held text, handed out piece by piece.

ghost use Rattle.std.specs.Prelude.{◌≡◌};
ghost use Rattle.bit_c.specs.Ending.{EndsCall};
ghost use Rattle.bit_c.specs.Taking.{Takes, TakesIn, TakesNext};

use crate::handle::{BsHandle, handle_of, take_out};
use crate::home::{HeldText, Home};
use crate::outcome::{BsFault, Outcome};
use crate::room::put;
use std::alloc::Global;

/// Puts the next bytes of a text at the start of the caller's room: as many as fit, or all remaining ones.
fn take_next(held: &mut HeldText, room: &mut [u8]) -> usize
    ensures { TakesNext held.old room.old result room.new held.new }
{
    let from = held.taken.min(held.text.len());
    let rest = &held.text[from..];
    let count = rest.len().min(room.len());
    put(&rest[..count], room);
    held.taken = from + count;
    count
}

/// The same for the object of a handle.
fn take_in(home: &mut Home, room: &mut [u8], taken: &mut usize) -> Outcome
    ensures { TakesIn home.old room.old taken.new room.new home.new result }
{
    match home {
        Home::Text(held) => {
            *taken = take_next(held, room);
            Outcome::Done
        }
        Home::Reading(_) | Home::Writing(_) | Home::Input(_) => {
            *taken = 0;
            Outcome::Closed
        }
    }
}

/// The same for a handle.
fn take_of(alloc: Global, handle: &mut BsHandle, room: &mut [u8], taken: &mut usize) -> Outcome
    ensures { Takes handle.old.inner.home room.old taken.new room.new handle.new.inner.home result }
{
    match take_out(alloc, handle) {
        Some(mut home) => {
            let outcome = take_in(&mut home, room, taken);
            *handle = handle_of(home);
            outcome
        }
        None => {
            *taken = 0;
            Outcome::Closed
        }
    }
}

/// Puts the next bytes of the text in a handle into the caller's room, and reports their number: 0 if none remain. The text stays
/// whole.
#[unsafe(no_mangle)]
pub extern "C" fn bs_take(
    alloc: Global,
    handle: &mut BsHandle,
    room: &mut [u8],
    taken: &mut usize,
    fault: &mut BsFault,
) -> u32
    ensures { EndsCall result fault.new (Takes handle.old.inner.home room.old taken.new room.new
        handle.new.inner.home) }
{
    take_of(alloc, handle, room, taken).tell(fault)
}
