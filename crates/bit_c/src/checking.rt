//! Whether an input is accepted.

ghost use Rattle.std.specs.Prelude.{⊤};
ghost use Rattle.bit_c.specs.Calls.{Checks};
ghost use Rattle.bit_c.specs.Ending.{EndsCall};
ghost use Rattle.bit_c.specs.Limiting.{Within, limits_told};

use crate::limits::BsLimits;
use crate::outcome::{BsFault, Outcome};
use bit_events::check;
use bit_fields::{Limits, SliceSource};
use std::alloc::Global;

/// Judges bytes under limits.
fn judge(alloc: Global, bytes: &[u8], limits: Limits) -> Outcome
    ensures { Checks limits bytes.now result }
{
    let (answer, _) = check(alloc, SliceSource::new(bytes), limits);
    match answer {
        Ok(()) => Outcome::Done,
        Err(fault) => Outcome::of(0, fault),
    }
}

/// Judges bytes with limits that may be past their caps.
pub(crate) fn judge_within(alloc: Global, bytes: &[u8], limits: &BsLimits) -> Outcome
    ensures { Within (limits_told limits.now) ⊤ (Checks (limits_told limits.now) bytes.now) result }
{
    match limits.to_limits() {
        Some(limits) => judge(alloc, bytes, limits),
        None => Outcome::Limits,
    }
}

/// Whether bytes are accepted.
#[unsafe(no_mangle)]
pub extern "C" fn bs_check(
    alloc: Global,
    bytes: &[u8],
    limits: &BsLimits,
    fault: &mut BsFault,
) -> u32
    ensures { EndsCall result fault.new (Within (limits_told limits.now) ⊤
        (Checks (limits_told limits.now) bytes.now)) }
{
    judge_within(alloc, bytes, limits).tell(fault)
}
