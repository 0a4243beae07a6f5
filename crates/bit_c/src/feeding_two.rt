//! Two inputs that C passes in pieces, compared.

ghost use Rattle.std.specs.Prelude.{◌≡◌, ◌≤◌, None, Some, MatchOption};
ghost use Rattle.bit_c.specs.Differing.{DiffersFed};
ghost use Rattle.bit_c.specs.Comparing.{SamesFed};
ghost use Rattle.bit_c.specs.Ending.{EndsCall};
ghost use Rattle.bit_c.specs.Limiting.{limits_told};
ghost use Rattle.bit_c.specs.Opened.{gathered_by, home_in};

use crate::comparing::{compare_asked, find_asked};
use crate::difference::{BsDifference, BsOpenBlock, NO_DIFFERENCE};
use crate::handle::{BsHandle, put_back, take_out};
use crate::home::Home;
use crate::left_out::BsLeftOut;
use crate::limits::BsLimits;
use crate::outcome::{BsFault, Outcome};
use std::alloc::Global;

/// The input that the object of a handle gathers. Without an object it has no bytes.
fn input_in(home: &Option<Box<Home>>) -> Option<&[u8]>
    ensures { MatchOption result (gathered_by (home_in home.now) ≡ None)
        (λ input. gathered_by (home_in home.now) ≡ Some input.now) }
{
    let Some(home) = home else {
        return Some(&[]);
    };
    match &**home {
        Home::Input(bytes) => Some(bytes.as_slice()),
        Home::Reading(_) | Home::Text(_) | Home::Writing(_) => None,
    }
}

/// Compares the inputs of the objects of two handles.
fn same_in(
    alloc: Global,
    first: &Option<Box<Home>>,
    second: &Option<Box<Home>>,
    limits: &BsLimits,
    left_out: &BsLeftOut<'_>,
) -> Outcome
    ensures { SamesFed (limits_told limits.now) left_out.now (gathered_by (home_in first.now))
        (gathered_by (home_in second.now)) result }
{
    match (input_in(first), input_in(second)) {
        (Some(first), Some(second)) => compare_asked(alloc, first, second, limits, left_out),
        _ => Outcome::Closed,
    }
}

/// The same for two handles, which do not change.
fn same_of(
    alloc: Global,
    first: &mut BsHandle,
    second: &mut BsHandle,
    limits: &BsLimits,
    left_out: &BsLeftOut<'_>,
) -> Outcome
    ensures first { first.new.inner.home ≡ first.old.inner.home }
    ensures second { second.new.inner.home ≡ second.old.inner.home }
    ensures compares { SamesFed (limits_told limits.now) left_out.now
        (gathered_by first.old.inner.home) (gathered_by second.old.inner.home) result }
{
    let one = take_out(alloc, first);
    let other = take_out(alloc, second);
    let outcome = same_in(alloc, &one, &other, limits, left_out);
    put_back(first, one);
    put_back(second, other);
    outcome
}

/// Whether the inputs that two handles gathered have the same magic and the same blocks and records, whole or without what is left
/// out. Both handles keep their inputs.
#[unsafe(no_mangle)]
pub extern "C" fn bs_fed_same(
    alloc: Global,
    first: &mut BsHandle,
    second: &mut BsHandle,
    limits: &BsLimits,
    left_out: &BsLeftOut<'_>,
    fault: &mut BsFault,
) -> u32
    ensures first { first.new.inner.home ≡ first.old.inner.home }
    ensures second { second.new.inner.home ≡ second.old.inner.home }
    ensures compares { EndsCall result fault.new (SamesFed (limits_told limits.now) left_out.now
        (gathered_by first.old.inner.home) (gathered_by second.old.inner.home)) }
{
    same_of(alloc, first, second, limits, left_out).tell(fault)
}

/// Compares the inputs of the objects of two handles, and reports where they first differ.
fn find_in(
    alloc: Global,
    first: &Option<Box<Home>>,
    second: &Option<Box<Home>>,
    limits: &BsLimits,
    left_out: &BsLeftOut<'_>,
    difference: &mut BsDifference,
    open_room: &mut [BsOpenBlock],
) -> Outcome
    ensures { DiffersFed (limits_told limits.now) left_out.now (gathered_by (home_in first.now))
        (gathered_by (home_in second.now)) difference.new open_room.old open_room.new result }
{
    match (input_in(first), input_in(second)) {
        (Some(first), Some(second)) => find_asked(
            alloc, first, second, limits, left_out, difference, open_room,
        ),
        _ => {
            *difference = NO_DIFFERENCE;
            Outcome::Closed
        }
    }
}

/// The same for two handles, which do not change.
fn find_of(
    alloc: Global,
    first: &mut BsHandle,
    second: &mut BsHandle,
    limits: &BsLimits,
    left_out: &BsLeftOut<'_>,
    difference: &mut BsDifference,
    open_room: &mut [BsOpenBlock],
) -> Outcome
    ensures first { first.new.inner.home ≡ first.old.inner.home }
    ensures second { second.new.inner.home ≡ second.old.inner.home }
    ensures tells { DiffersFed (limits_told limits.now) left_out.now
        (gathered_by first.old.inner.home) (gathered_by second.old.inner.home) difference.new
        open_room.old open_room.new result }
{
    let one = take_out(alloc, first);
    let other = take_out(alloc, second);
    let outcome = find_in(alloc, &one, &other, limits, left_out, difference, open_room);
    put_back(first, one);
    put_back(second, other);
    outcome
}

/// Compares the inputs that two handles gathered as `bs_fed_same` does, and reports where they first differ, as
/// `bs_first_difference` does. Both handles keep their inputs.
#[unsafe(no_mangle)]
pub extern "C" fn bs_fed_first_difference(
    alloc: Global,
    first: &mut BsHandle,
    second: &mut BsHandle,
    limits: &BsLimits,
    left_out: &BsLeftOut<'_>,
    difference: &mut BsDifference,
    open_room: &mut [BsOpenBlock],
    fault: &mut BsFault,
) -> u32
    ensures first { first.new.inner.home ≡ first.old.inner.home }
    ensures second { second.new.inner.home ≡ second.old.inner.home }
    ensures depth { difference.new.depth ≤ limits.now.depth }
    ensures tells { EndsCall result fault.new (DiffersFed (limits_told limits.now) left_out.now
        (gathered_by first.old.inner.home) (gathered_by second.old.inner.home) difference.new
        open_room.old open_room.new) }
{
    find_of(
        alloc, first, second, limits, left_out, difference, open_room,
    )
    .tell(fault)
}
