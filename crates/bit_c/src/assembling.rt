//! The normal form of the tree that a listing spells.

ghost use Rattle.bit_c.specs.Assembling.{FailsListing, IsFormOf};
ghost use Rattle.bit_c.specs.Ending.{EndsCall};
ghost use Rattle.bit_c.specs.Handing.{HandsText, LeavesRoom, Makes};
ghost use Rattle.bit_c.specs.Limiting.{Within, limits_told};
ghost use Rattle.bit_grammar.specs.Normal.{Capped};

use crate::limits::BsLimits;
use crate::outcome::{BsFault, Outcome};
use crate::room::hand;
use crate::room_sink::RoomSink;
use bit_fields::{Limits, Sink, SliceSource};
use bit_text::assemble;
use std::alloc::Global;

/// Makes the normal form of the tree of a listing, for a room of `room` bytes.
fn assembled_of(alloc: Global, text: &[u8], limits: Limits, room: usize) -> (Outcome, RoomSink)
    requires { Capped limits }
    ensures { Makes (IsFormOf limits text.now) (FailsListing limits text.now) result.0
        (⟦<RoomSink as Sink>⟧.outgoing result.1).bytes }
{
    let sink = RoomSink::new(alloc, room);
    let (answer, _, sink) = assemble(alloc, SliceSource::new(text), sink, limits);
    match answer {
        Ok(_) => (Outcome::Done, sink),
        Err(fault) => (Outcome::of_listing(fault), sink),
    }
}

/// Hands out the normal form of the tree of a listing.
fn give_assembled(
    alloc: Global,
    text: &[u8],
    limits: Limits,
    room: &mut [u8],
    needed: &mut usize,
) -> Outcome
    requires { Capped limits }
    ensures { HandsText (IsFormOf limits text.now) (FailsListing limits text.now) room.old needed.new
        room.new result }
{
    let (outcome, made) = assembled_of(alloc, text, limits, room.len());
    hand(outcome, &made, room, needed)
}

/// The same with limits that may be past their caps.
fn assemble_within(
    alloc: Global,
    text: &[u8],
    limits: &BsLimits,
    room: &mut [u8],
    needed: &mut usize,
) -> Outcome
    ensures { let l = limits_told limits.now in Within l (LeavesRoom room.old needed.new room.new)
        (HandsText (IsFormOf l text.now) (FailsListing l text.now) room.old needed.new room.new)
        result }
{
    match limits.to_limits() {
        Some(limits) => give_assembled(alloc, text, limits, room, needed),
        None => {
            *needed = 0;
            Outcome::Limits
        }
    }
}

/// Puts the normal form of the tree that a listing spells into the caller's room, and reports its length in bytes.
#[unsafe(no_mangle)]
pub extern "C" fn bs_assemble(
    alloc: Global,
    text: &[u8],
    limits: &BsLimits,
    room: &mut [u8],
    needed: &mut usize,
    fault: &mut BsFault,
) -> u32
    ensures { let l = limits_told limits.now in EndsCall result fault.new
        (Within l (LeavesRoom room.old needed.new room.new)
        (HandsText (IsFormOf l text.now) (FailsListing l text.now) room.old needed.new room.new)) }
{
    assemble_within(alloc, text, limits, room, needed).tell(fault)
}
