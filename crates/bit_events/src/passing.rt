//! Records that are passed over, since only the number of their values is wanted.

ghost use Rattle.std.specs.Prelude.{◌≡◌, ◌+◌, ◌<◌, ◌≤◌, true, false, ℕ, List, [], IfSome, IfOk, length};
ghost use Rattle.bit_grammar.specs.declared.op.Op.{Op};
ghost use Rattle.bit_grammar.specs.Blocks.{entry};
ghost use Rattle.bit_grammar.specs.Marks.{RecordMark};
ghost use Rattle.bit_grammar.specs.Fields.{fixed};
ghost use Rattle.bit_fields.specs.Buffered.{Reads, beyond};
ghost use Rattle.bit_fields.specs.PlacedView.{placed};
ghost use Rattle.bit_abbrev.specs.Plans.{PassesOver};
ghost use Rattle.bit_events.specs.Passing.{CountsOne, PassesOn, PassesRecords, StepsOn, mark_of};

use bit_abbrev::{Definitions, InForce, MARGIN, Passed, pass_by_operands, pass_plain};
use bit_fields::PlacedBits;
use std::alloc::AllocError;

/// Records that were passed over: the bit after them, how many values may still come, and whether an item comes there that is no
/// record.
#[derive(Clone, Copy)]
pub struct PassedRun {
    pub after: u64,
    pub room: u64,
    pub is_over: bool,
}

impl PassedRun {
    /// No record.
    #[inline(always)]
    pub fn none(bits: PlacedBits<'_>, room: u64) -> PassedRun
        ensures { (width : ℕ) (definitions : List (List Op))
            → PassesRecords width definitions room (placed bits.entry) [] result }
    {
        PassedRun {
            after: bits.position(),
            room,
            is_over: false,
        }
    }
}

/// A record of which only the number of values is known.
#[derive(Clone, Copy)]
pub struct CountedRecord {
    pub id: u64,
    pub code: u64,
    pub count: u64,
    pub first: u64,
    pub after: u64,
}

/// Counts records that are passed over.
pub trait RunCounter {
    ghost use Rattle.std.specs.Prelude.{List};
    ghost use Rattle.bit_grammar.specs.Marks.{RecordMark};

    // Whether counting these records, in order, turns the one into the other.
    ghost counted: { Self → List RecordMark → Self → Type 0 };

    /// Counts a record, or returns `false` and leaves it: then it is not passed over.
    fn count(&mut self, passed: CountedRecord) -> Result<bool, AllocError>
        requires { passed.first ≤ passed.after }
        ensures counts { IfOk result (λ counts. counts ≡ true → (list : List ℕ)
            → length list ≡ passed.count → CountsOne counted self.old (mark_of passed list) self.new) }
        ensures leaves { IfOk result (λ counts. counts ≡ false → self.new ≡ self.old) };
}

/// Counts nothing.
#[derive(Clone, Copy)]
pub struct Uncounted;

impl RunCounter for Uncounted {
    ghost counted = { λ _ _ _. Unit {0} };

    #[inline(always)]
    fn count(&mut self, _passed: CountedRecord) -> Result<bool, AllocError> {
        Ok(true)
    }
}

/// Passes over one record.
trait PassOne: Copy {
    ghost use Rattle.std.specs.Prelude.{List};
    ghost use Rattle.bit_grammar.specs.declared.op.Op.{Op};

    // Whether these definitions are in force.
    ghost knows: { Self → List (List Op) → Type 0 };

    /// Passes over the fields of a record after its id, which has this width. `None` passes over nothing: the record is then read.
    fn pass_one(self, bits: PlacedBits<'_>, width: u32, id: u64, room: u64) -> Option<Passed>
        requires width { width ≤ 32 }
        requires id { 4 ≤ id }
        requires there { 2240 ≤ length (placed bits).bits }
        ensures passes { IfSome result (λ passed. (first : ℕ) (definitions : List (List Op))
            → knows self definitions → passed.count ≤ room
            → PassesOver (entry room first id definitions) (beyond (placed bits.entry) width) passed) }
        ensures within { IfSome result (λ passed. width + passed.len ≤ length (placed bits.entry).bits) };
}

/// By plans of definitions.
#[derive(Clone, Copy)]
struct ByPlans<'a> {
    definitions: &'a Definitions<'a>,
}

impl<'a> PassOne for ByPlans<'a> {
    ghost knows = { λ by definitions. by.definitions.now ≡ definitions };

    #[inline(always)]
    fn pass_one(self, bits: PlacedBits<'_>, width: u32, id: u64, room: u64) -> Option<Passed> {
        let fields = bits.load().after(width);
        let abbrev = self.definitions.get((id - 4) as usize)?;
        abbrev.plan().pass(fields, room)
    }
}

/// By the operands of definitions.
#[derive(Clone, Copy)]
struct ByOperands<'a> {
    definitions: &'a Definitions<'a>,
}

impl<'a> PassOne for ByOperands<'a> {
    ghost knows = { λ by definitions. by.definitions.now ≡ definitions };

    #[inline(always)]
    fn pass_one(self, bits: PlacedBits<'_>, width: u32, id: u64, room: u64) -> Option<Passed> {
        let abbrev = self.definitions.get((id - 4) as usize)?;
        pass_by_operands(bits.after(u64::from(width)), abbrev, room)
    }
}

/// Records that were passed over: the bits behind them, how many values may still come, and whether an item comes there that is no
/// record.
#[derive(Clone, Copy)]
struct Passing<'a> {
    bits: PlacedBits<'a>,
    room: u64,
    is_over: bool,
}

/// Counts a record that was passed over, and returns the bits behind it and how many values may still come. `None` if it has too many
/// values or is not counted.
#[inline(always)]
fn count_one<'a, C: RunCounter>(
    bits: PlacedBits<'a>,
    width: u32,
    id: u64,
    passed: Passed,
    room: u64,
    counter: &mut C,
) -> Result<Option<(PlacedBits<'a>, u64)>, AllocError>
    requires id { 3 ≤ id }
    requires reads { Reads (fixed width) (placed bits) id (beyond (placed bits) width) }
    requires within { width + passed.len ≤ length (placed bits).bits }
    ensures steps { IfOk result (λ step. (definitions : List (List Op))
        → ((first : ℕ) → passed.count ≤ room
        → PassesOver (entry room first id definitions) (beyond (placed bits.entry) width) passed)
        → StepsOn C.counted width definitions counter.old room (placed bits.entry) counter.new step) }
    ensures moves { IfOk result (λ step. IfSome step (λ next.
        length (placed next.0).bits < length (placed bits.entry).bits)) }
{
    if passed.count > room {
        return Ok(None);
    }
    let after = bits.after(u64::from(width) + passed.len);
    let counts = counter.count(CountedRecord {
        id,
        code: passed.code,
        count: passed.count,
        first: bits.position(),
        after: after.position(),
    })?;
    if !counts {
        return Ok(None);
    }
    Ok(Some((after, room - passed.count)))
}

/// Passes over a record with this abbreviation id and counts it. `None` if it is not passed over.
#[inline(always)]
fn pass_next<'a, C: RunCounter, P: PassOne>(
    bits: PlacedBits<'a>,
    width: u32,
    id: u64,
    by: P,
    room: u64,
    counter: &mut C,
) -> Result<Option<(PlacedBits<'a>, u64)>, AllocError>
    requires width { width ≤ 32 }
    requires id { 3 ≤ id }
    requires there { 2240 ≤ length (placed bits).bits }
    requires reads { Reads (fixed width) (placed bits) id (beyond (placed bits) width) }
    ensures steps { IfOk result (λ step. (definitions : List (List Op)) → P.knows by definitions
        → StepsOn C.counted width definitions counter.old room (placed bits.entry) counter.new step) }
    ensures moves { IfOk result (λ step. IfSome step (λ next.
        length (placed next.0).bits < length (placed bits.entry).bits)) }
{
    // Each kind of record has its own copy of the counter's code, which knows the kind.
    if id == 3 {
        let Some(passed) = pass_plain(bits.load().after(width)) else {
            return Ok(None);
        };
        return count_one(bits, width, id, passed, room, counter);
    }
    let Some(passed) = by.pass_one(bits, width, id, room) else {
        return Ok(None);
    };
    count_one(bits, width, id, passed, room, counter)
}

/// Passes over records with abbreviation ids of a width, as long as they are not odd and a margin of bits is there. They have at most
/// `room` values.
#[inline(never)]
fn pass_run<'a, C: RunCounter, P: PassOne>(
    bits: PlacedBits<'a>,
    width: u32,
    by: P,
    room: u64,
    counter: &mut C,
) -> Result<Passing<'a>, AllocError>
    requires width { width ≤ 32 }
    ensures passes { IfOk result (λ run. (definitions : List (List Op)) → P.knows by definitions
        → PassesOn C.counted width definitions counter.old room (placed bits.entry) counter.new run.room
        (placed run.bits)) }
{
    let mut bits = bits;
    let mut room = room;
    let mut is_over = false;
    while bits.has(MARGIN) {
        let id = bits.fixed(width);
        if id < 3 {
            is_over = true;
            break;
        }
        let Some((after, left)) = pass_next(bits, width, id, by, room, counter)? else {
            break;
        };
        room = left;
        bits = after;
    }
    Ok(Passing {
        bits,
        room,
        is_over,
    })
}

/// Passes over records with abbreviation ids of a width, as long as they are not odd and a margin of bits is there: first by plans of
/// definitions, then by their operands. They have at most `room` values.
#[inline(always)]
pub fn pass_records<C: RunCounter>(
    bits: PlacedBits<'_>,
    width: u32,
    definitions: &InForce,
    room: u64,
    counter: &mut C,
) -> Result<PassedRun, AllocError>
    requires width { width ≤ 32 }
    requires none { C.counted counter.old [] counter.old }
    ensures passes { IfOk result (λ run. (records : List RecordMark) × C.counted counter.old records counter.new
        × PassesRecords width definitions.now.all room (placed bits.entry) records run) }
{
    let all = definitions.all();
    let mut run = pass_run(bits, width, ByPlans { definitions: &all }, room, counter)?;
    if !run.is_over {
        let by = ByOperands { definitions: &all };
        run = pass_run(run.bits, width, by, run.room, counter)?;
    }
    Ok(PassedRun {
        after: run.bits.position(),
        room: run.room,
        is_over: run.is_over,
    })
}
