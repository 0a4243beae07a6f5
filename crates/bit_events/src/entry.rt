//! Reading the code and the values of a record by its abbreviation id, from any source of bits.

ghost use Rattle.std.specs.Prelude.{◌≡◌, ◌≢◌, ◌≤◌, true, List};
ghost use Rattle.std.specs.Option.{option_copied};
ghost use Rattle.bit_grammar.specs.declared.op.Op.{Op};
ghost use Rattle.bit_grammar.specs.Blocks.{entry};
ghost use Rattle.bit_abbrev.specs.Bits.{Answers};
ghost use Rattle.bit_abbrev.specs.Values.{AddsWithin, Gains, Keeps};
ghost use Rattle.bit_events.specs.Runs.{IsDefinition};

use bit_abbrev::{Abbrev, Runs, read_plain, read_record};
use bit_fields::{Reason, ValueTaker};

/// Reads the code and the values of a record after its abbreviation id: gives the values to the value sink and returns the code.
/// `abbrev` is the definition of the id, if one was found; it is not looked at for a record without one. The record began at the bit `first`, and may have `room` values. If it fails,
/// some of its values may have been added. For `U` see `read_record`. Source: "Abbreviation IDs".
#[inline(always)]
pub(crate) fn read_entry<U, B: Runs, V: ValueTaker>(
    bits: &mut B,
    abbrev: Option<&Abbrev>,
    room: u64,
    id: u32,
    first: u64,
    values: &mut V,
) -> Result<u64, B::Miss>
    requires live { (B.as_reader bits.old).live ≡ true }
    requires id { 3 ≤ id }
    ensures adds { (definitions : List (List Op))
        → (id ≢ 3 → IsDefinition B.faults definitions id (option_copied «abbrev».entry))
        → Answers B.faults (λ r. Gains V.took values.old values.new
        (AddsWithin (entry room first id definitions) room (B.as_reader bits.old)
        r (B.as_reader bits.new))) result }
    ensures keeps { Keeps V.took values.old values.new }
{
    if id == 3 {
        return read_plain::<U, B, V>(bits, room, values);
    }
    let Some(abbrev) = abbrev else {
        bits.judge(false, Reason::UndefinedAbbrev, first)?;
        unreachable!();
    };
    bits.judge(abbrev.is_usable(), Reason::AbbrevShape, first)?;
    read_record::<U, B, V>(bits, abbrev, first, room, values)
}
