//! The caller's room.

ghost use Rattle.std.specs.Prelude.{◌≤◌, length, true};
ghost use Rattle.bit_c.specs.Handing.{FillsRoom, Hands, HandsKept, HandsOut};

use crate::outcome::Outcome;
use crate::room_sink::RoomSink;
use bit_fields::{PackedValues, Sink};

/// Puts items at the start of the caller's room.
pub(crate) fn put<T: Copy>(items: &[T], room: &mut [T])
    requires { length items.now ≤ length room.old }
    ensures { FillsRoom items.now room.old true room.new }
{
    room[..items.len()].copy_from_slice(items);
}

/// Puts items at the start of the caller's room if they fit, and reports their number.
pub(crate) fn hand_out<T: Copy>(items: &[T], room: &mut [T], needed: &mut usize) -> Outcome
    ensures { HandsOut items.now room.old needed.new room.new result }
{
    *needed = items.len();
    if items.len() > room.len() {
        return Outcome::Room;
    }
    put(items, room);
    Outcome::Done
}

/// The same for the values of a record.
pub(crate) fn hand_out_values(
    values: &PackedValues,
    room: &mut [u64],
    needed: &mut usize,
) -> Outcome
    ensures { HandsOut values.now room.old needed.new room.new result }
{
    *needed = values.len() as usize;
    if *needed > room.len() {
        return Outcome::Room;
    }
    values.copy_to(&mut room[..*needed]);
    Outcome::Done
}

/// Puts the bytes that a sink for the caller's room kept at the start of the room if they fit, and reports how many bytes the sink
/// took.
fn hand_kept(made: &RoomSink, room: &mut [u8], needed: &mut usize) -> Outcome
    ensures { HandsKept made.now.took.bytes room.old needed.new room.new result }
{
    if let Some(text) = made.kept() {
        return hand_out(text, room, needed);
    }
    if made.taken() > room.len() {
        *needed = made.taken();
        return Outcome::Room;
    }
    // A sink for this room keeps each text that fits it.
    *needed = 0;
    Outcome::Memory
}

/// Puts the result of a call at the start of the caller's room if the call succeeded; otherwise leaves the room unchanged.
pub(crate) fn hand(
    outcome: Outcome,
    made: &RoomSink,
    room: &mut [u8],
    needed: &mut usize,
) -> Outcome
    ensures { Hands outcome (⟦<RoomSink as Sink>⟧.outgoing made.now).bytes room.old needed.new
        room.new result }
{
    match outcome {
        Outcome::Done => hand_kept(made, room, needed),
        other => {
            *needed = 0;
            other
        }
    }
}
