//! Whether two inputs hold the same, and where they first differ.

ghost use Rattle.std.specs.Prelude.{◌≡◌, ◌≤◌, ⊤};
ghost use Rattle.bit_grammar.specs.Setting.{setting_of};
ghost use Rattle.bit_c.specs.Comparing.{Sames, input_of};
ghost use Rattle.bit_c.specs.Differing.{Differences, no_difference};
ghost use Rattle.bit_c.specs.Ending.{EndsCall};
ghost use Rattle.bit_c.specs.Limiting.{AsksWithin, limits_told, setting_told};

use crate::difference::{BsDifference, BsOpenBlock, NO_DIFFERENCE, give_difference};
use crate::left_out::{BsLeftOut, asked_of};
use crate::limits::BsLimits;
use crate::outcome::{BsFault, Outcome};
use bit_fields::{Limits, SliceSource};
use bit_norm::{Info, Which, first_difference_from, same_as};
use std::alloc::Global;

/// The number of an input.
fn input_of(which: Which) -> u32
    ensures { result ≡ input_of which }
{
    match which {
        Which::First => 0,
        Which::Second => 1,
    }
}

/// Compares two inputs.
fn compare(alloc: Global, first: &[u8], second: &[u8], limits: Limits, info: Info<'_>) -> Outcome
    ensures { Sames (setting_of info.entry) limits first.now second.now result }
{
    let (answer, _) = same_as(alloc, first, SliceSource::new(second), limits, info);
    match answer {
        Ok(true) => Outcome::Done,
        Ok(false) => Outcome::Different,
        Err(misread) => Outcome::of(input_of(misread.which), misread.fault),
    }
}

/// The same with limits and names that may be unfit.
pub(crate) fn compare_asked(
    alloc: Global,
    first: &[u8],
    second: &[u8],
    limits: &BsLimits,
    left_out: &BsLeftOut<'_>,
) -> Outcome
    ensures { let l = limits_told limits.now in AsksWithin l left_out.now ⊤
        (Sames (setting_told left_out.now) l first.now second.now) result }
{
    match asked_of(alloc, limits, left_out) {
        Ok(asked) => compare(alloc, first, second, asked.limits, asked.setting()),
        Err(outcome) => outcome,
    }
}

/// Whether two inputs have the same magic and the same blocks and records, whole or without what is left out.
#[unsafe(no_mangle)]
pub extern "C" fn bs_same(
    alloc: Global,
    first: &[u8],
    second: &[u8],
    limits: &BsLimits,
    left_out: &BsLeftOut<'_>,
    fault: &mut BsFault,
) -> u32
    ensures { let l = limits_told limits.now in EndsCall result fault.new
        (AsksWithin l left_out.now ⊤ (Sames (setting_told left_out.now) l first.now second.now)) }
{
    compare_asked(alloc, first, second, limits, left_out).tell(fault)
}

/// Compares two inputs, and reports where they first differ.
fn find(
    alloc: Global,
    first: &[u8],
    second: &[u8],
    limits: Limits,
    info: Info<'_>,
    difference: &mut BsDifference,
    open_room: &mut [BsOpenBlock],
) -> Outcome
    ensures { Differences (setting_of info.entry) limits first.now second.now difference.new
        open_room.old open_room.new result }
{
    *difference = NO_DIFFERENCE;
    let (answer, _) = first_difference_from(alloc, first, SliceSource::new(second), limits, info);
    match answer {
        Ok(Some(found)) => give_difference(alloc, &found, difference, open_room),
        Ok(None) => Outcome::Done,
        Err(misread) => Outcome::of(input_of(misread.which), misread.fault),
    }
}

/// The same with limits and names that may be unfit.
pub(crate) fn find_asked(
    alloc: Global,
    first: &[u8],
    second: &[u8],
    limits: &BsLimits,
    left_out: &BsLeftOut<'_>,
    difference: &mut BsDifference,
    open_room: &mut [BsOpenBlock],
) -> Outcome
    ensures { let l = limits_told limits.now in AsksWithin l left_out.now
        ((difference.new ≡ no_difference) × (open_room.new ≡ open_room.old))
        (Differences (setting_told left_out.now) l first.now second.now difference.new open_room.old
        open_room.new) result }
{
    match asked_of(alloc, limits, left_out) {
        Ok(asked) => {
            let info = asked.setting();
            find(
                alloc,
                first,
                second,
                asked.limits,
                info,
                difference,
                open_room,
            )
        }
        Err(outcome) => {
            *difference = NO_DIFFERENCE;
            outcome
        }
    }
}

/// Compares two inputs as `bs_same` does, and reports where they first differ. The blocks that are open there, the outermost first,
/// go into the caller's room, all of them or none; there are at most as many as the limit on depth.
#[unsafe(no_mangle)]
pub extern "C" fn bs_first_difference(
    alloc: Global,
    first: &[u8],
    second: &[u8],
    limits: &BsLimits,
    left_out: &BsLeftOut<'_>,
    difference: &mut BsDifference,
    open_room: &mut [BsOpenBlock],
    fault: &mut BsFault,
) -> u32
    ensures depth { difference.new.depth ≤ limits.now.depth }
    ensures tells { let l = limits_told limits.now in EndsCall result fault.new
        (AsksWithin l left_out.now ((difference.new ≡ no_difference)
        × (open_room.new ≡ open_room.old)) (Differences (setting_told left_out.now) l first.now
        second.now difference.new open_room.old open_room.new)) }
{
    find_asked(
        alloc, first, second, limits, left_out, difference, open_room,
    )
    .tell(fault)
}
