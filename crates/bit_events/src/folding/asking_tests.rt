//! A fold asks its source for bytes where a fold did that read blocks with the exact reader alone, also where the source fails.

ghost use Rattle.bit_events.specs.MachineView.{TookSome};

use super::asking_inputs::{held, made, wide};
use super::{gather_next, hand_on};
use crate::events_tests::{Pieces, pieces_of};
use crate::folding_tests::Text;
use crate::machine::Machine;
use crate::passing::{CountedRecord, PassedRun, RunCounter, pass_records};
use crate::running::{gather_odd, gather_records};
use crate::with_first::WithFirst;
use crate::{Gatherer, fold};
use bit_abbrev::{Abbrev, InForce};
use bit_fields::{
    BitReader, BufSource, Buffered, Fault, FrontSource, KeptSource, Limits, PlacedBits,
    SliceSource, Source, ValueCount, ValueTaker,
};
use std::alloc::{AllocError, Global};
use std::io;
use std::io::{BufReader, Error, ErrorKind, Read};
use std::process::Abort;

/// More events than an input here has.
const MOST_EVENTS: u32 = 10_000;

// ---- the fold as it was

/// A stream that is being read, and the gatherer of its events.
#[derive(Drop)]
struct Folding<S: Source, G: Gatherer> {
    reader: BitReader<S>,
    machine: Machine,
    gatherer: G,
}

impl<S: Source, G: Gatherer> Folding<S, G> {
    /// Gathers completely buffered records of the innermost block, possibly none.
    fn gather_records_only(&mut self, limits: &Limits, values: &mut G::Values) -> Result<(), Fault>
        requires took { TookSome G.Values.took values.old }
        ensures took { TookSome G.Values.took values.new }
    {
        let Some(frame) = self.machine.frames.last() else {
            return Ok(());
        };
        if frame.info.is_some() {
            return Ok(());
        }
        let parts = self.reader.buffered_parts()?;
        let (start, loaded) = (parts.position(), parts.loaded());
        let (used, gatherer) = (&mut self.machine.used, &mut self.gatherer);
        let gathered = if frame.definitions.has_held() {
            gather_records(parts, start, loaded, frame, limits, used, gatherer, values)
        } else {
            gather_odd(Buffered::new(parts), frame, limits, used, gatherer, values).map(
                |run| run.after,
            )
        };
        match gathered {
            Ok(after) => self.reader.catch_up(after.saturating_sub(start)),
            Err(_) => Err(self.reader.fail(Fault::Memory)),
        }
    }

    /// Gathers a run of records and the event after it, and returns whether there was one.
    fn gather_some(&mut self, alloc: Global, limits: &Limits) -> Result<bool, Fault> {
        let mut values = WithFirst::new(self.gatherer.values());
        self.gather_records_only(limits, &mut values.taker)?;
        let is_aligned = self.reader.position() % 8 == 0;
        if !self.reader.is_live() || self.machine.is_outside() && !is_aligned {
            return Err(Fault::Failed);
        }
        gather_next(
            alloc,
            &mut self.reader,
            &mut self.machine,
            limits,
            &mut self.gatherer,
            &mut values,
        )
    }

    /// Gathers all events.
    fn gather_by_records(&mut self, alloc: Global, limits: &Limits) -> Result<(), Fault> {
        for _ in 0..MOST_EVENTS {
            if !self.gather_some(alloc, limits)? {
                return Ok(());
            }
        }
        Err(Fault::Failed)
    }
}

/// Why an input is refused, if it is, the gatherer, and the source.
fn fold_by_records<S: Source, G: Gatherer>(
    alloc: Global,
    source: S,
    limits: Limits,
    gatherer: G,
) -> (Result<(), Fault>, G, S) {
    let (reader, _) = match BitReader::start(source, limits) {
        Ok(begun) => begun,
        Err((fault, source)) => return (Err(fault), gatherer, source),
    };
    let mut folding = Folding {
        reader,
        machine: Machine::new(alloc, false),
        gatherer,
    };
    let done = folding.gather_by_records(alloc, &limits);
    let Folding {
        reader,
        gatherer,
        machine: _,
    } = folding;
    (done, gatherer, reader.into_source())
}

// ---- the comparison

/// A reader that gives at most so many bytes at its reads, by turns; 0 means that it is interrupted.
#[derive(Drop)]
struct Uneven<'a> {
    pieces: Pieces<'a>,
    sizes: &'static [usize],
}

impl<'a> Read for Uneven<'a> {
    fn read(&mut self, buf: &mut [u8]) -> io::Result<usize> {
        let reads = self.pieces.reads();
        let turn = reads.checked_rem(self.sizes.len() as u64).unwrap_or(0) as usize;
        let most = self.sizes.get(turn).copied().unwrap_or(1).min(buf.len());
        let count = self.pieces.read(&mut buf[..most])?;
        if most == 0 && !buf.is_empty() {
            return Err(Error::from(ErrorKind::Interrupted));
        }
        Ok(count)
    }
}

/// As many bytes as are asked for.
static WHOLE: [usize; 1] = [usize::MAX];

/// A source with a buffer over a reader.
type Lender<'a> = BufSource<BufReader<Uneven<'a>>>;

fn lender<'a>(rt: &impl Abort, alloc: Global, bytes: &'a [u8], case: &Case) -> Lender<'a> {
    let reader = Uneven {
        pieces: pieces_of(bytes, case.room, case.fails_at),
        sizes: case.sizes,
    };
    BufSource::new(BufReader::with_capacity(alloc, case.room, reader).expect(rt, "memory"))
}

/// How often a source was read, and how many bytes it still has: in its buffer, and behind.
fn state_of(source: Lender<'_>) -> (u64, usize, usize) {
    let reader = source.into_inner();
    let pieces = &reader.get_ref().pieces;
    (pieces.reads(), reader.buffer().len(), pieces.left())
}

/// The limits of two folds, the room of the buffer of their source, what its reader gives by turns, the read at which that fails, if
/// it is not 0, the number of events after which the gatherer fails, and for how long it counts at a time.
#[derive(Clone, Copy, Debug)]
struct Case {
    limits: Limits,
    room: usize,
    sizes: &'static [usize],
    fails_at: u64,
    events: u32,
    turn: u32,
}

/// A gatherer counts always, or never: by whether the read is even at which its source fails.
fn always_or_never(fails_at: u64) -> u32 {
    if fails_at % 2 == 0 { u32::MAX } else { 0 }
}

/// Checks that two sources are in the same state.
fn same_state(rt: &impl Abort, case: &Case, new: Lender<'_>, old: Lender<'_>) {
    let (state, was) = (state_of(new), state_of(old));
    assert!(rt; state == was, "{case:?}: {state:?}, not {was:?}");
}

/// Checks that both folds return the same text and leave the source in the same state.
fn asks_alike(rt: &impl Abort, alloc: Global, bytes: &[u8], case: &Case) {
    let text = || Text {
        alloc,
        text: String::new(alloc),
        room: case.events,
    };
    let source = lender(rt, alloc, bytes, case);
    let (new, source) = fold(alloc, source, case.limits, text());
    let read = lender(rt, alloc, bytes, case);
    let (old, gathered, read) = fold_by_records(alloc, read, case.limits, text());
    same_state(rt, case, source, read);
    match (new, old) {
        (Ok(new), Ok(())) => assert!(rt; new.gatherer.text.as_str() == gathered.text.as_str()),
        (Err(new), Err(old)) => assert!(rt; new == old, "{case:?}"),
        _ => assert!(rt; false, "{case:?}"),
    }
}

/// Checks that both folds return the same from sources of the same bytes: the one to a gatherer that counts the values for some time,
/// the other to one that never does. Returns the sources.
fn counts_alike<S: Source>(
    rt: &impl Abort,
    alloc: Global,
    case: &Case,
    source: S,
    read: S,
) -> (S, S) {
    let counts = Counted::failing_after(case.events, case.turn);
    let reads = Counted::failing_after(case.events, 0);
    let (new, source) = fold(alloc, source, case.limits, counts);
    let (old, gathered, read) = fold_by_records(alloc, read, case.limits, reads);
    match (new, old) {
        (Ok(new), Ok(())) => assert!(rt; new.gatherer.told() == gathered.told(), "{case:?}"),
        (Err(new), Err(old)) => assert!(rt; new == old, "{case:?}"),
        _ => assert!(rt; false, "{case:?}"),
    }
    (source, read)
}

/// Checks the same of sources that lend, which are then in the same state.
fn lends_alike(rt: &impl Abort, alloc: Global, bytes: &[u8], case: &Case) {
    let source = || lender(rt, alloc, bytes, case);
    let (new, old) = counts_alike(rt, alloc, case, source(), source());
    same_state(rt, case, new, old);
}

/// Checks the same of the first bytes of sources.
fn front_alike(rt: &impl Abort, alloc: Global, bytes: &[u8], case: &Case) {
    let count = bytes.len() as u64 / 4 * 3;
    let front = || FrontSource::new(lender(rt, alloc, bytes, case), count);
    let (new, old) = counts_alike(rt, alloc, case, front(), front());
    same_state(rt, case, new.into_inner(), old.into_inner());
}

/// Checks the same of sources whose bytes are kept: they are the same bytes.
fn keeps_alike(rt: &impl Abort, alloc: Global, bytes: &[u8], case: &Case) {
    let kept = || KeptSource::new(alloc, lender(rt, alloc, bytes, case));
    let (new, old) = counts_alike(rt, alloc, case, kept(), kept());
    let ((kept, new), (were, old)) = (new.into_parts(), old.into_parts());
    let (kept, were) = (kept.expect(rt, "memory"), were.expect(rt, "memory"));
    assert!(rt; kept.as_slice() == were.as_slice(), "{case:?}");
    same_state(rt, case, new, old);
}

// ---- a gatherer that counts

/// How many values there were, a number that depends on the kinds and places of all events, how many more events it takes before it
/// fails for want of memory, and how many steps it counts and then does not, by turns: none, if that is 0.
#[derive(Clone, Copy)]
struct Counted {
    values: u64,
    trace: u64,
    room: u32,
    turn: u32,
    steps: u32,
}

impl Counted {
    /// No values and no events. It fails after so many events, or earlier.
    fn failing_after(events: u32, turn: u32) -> Counted {
        Counted {
            values: 0,
            trace: 0,
            room: events,
            turn,
            steps: 0,
        }
    }

    /// What it gathered.
    fn told(self) -> (u64, u64, u32) {
        (self.values, self.trace, self.room)
    }

    fn add(&mut self, kind: u64, place: u64) -> Result<(), AllocError> {
        self.room = self.room.checked_sub(1).ok_or(AllocError)?;
        let event = place.wrapping_mul(256).wrapping_add(kind);
        self.trace = self.trace.wrapping_mul(31).wrapping_add(event);
        self.steps = self.steps.wrapping_add(1);
        Ok(())
    }
}

impl Gatherer for Counted {
    type Values = ValueCount;

    ghost gathered = { λ first events last. Unit {0} };

    fn values(&self) -> ValueCount {
        ValueCount::new()
    }

    fn enter(&mut self, id: u32, width: u8, first: u64, body: u64) -> Result<(), AllocError> {
        self.add(u64::from(id), first)?;
        self.add(u64::from(width), body)
    }

    fn define(&mut self, _abbrev: &Abbrev, first: u64, after: u64) -> Result<(), AllocError> {
        self.add(2, first)?;
        self.add(2, after)
    }

    fn record(
        &mut self,
        id: u32,
        code: u64,
        values: &mut ValueCount,
        first: u64,
        after: u64,
    ) -> Result<(), AllocError> {
        self.values = self.values.saturating_add(values.count());
        self.add(u64::from(id), first)?;
        self.add(code, after)
    }

    fn passes(&self) -> bool {
        match self.steps.checked_div(self.turn) {
            Some(turns) => turns % 2 == 0,
            None => false,
        }
    }

    fn pass(
        &mut self,
        bits: PlacedBits<'_>,
        width: u32,
        definitions: &InForce,
        room: u64,
    ) -> Result<PassedRun, AllocError> {
        pass_records(bits, width, definitions, room, self)
    }

    fn leave(&mut self, after: u64) -> Result<(), AllocError> {
        self.add(0, after)
    }
}

impl RunCounter for Counted {
    ghost counted = { λ first records last. Unit {0} };

    fn count(&mut self, passed: CountedRecord) -> Result<bool, AllocError> {
        if !self.passes() {
            return Ok(false);
        }
        self.values = self.values.saturating_add(passed.count);
        self.add(passed.id, passed.first)?;
        self.add(passed.code, passed.after)?;
        Ok(true)
    }
}

// ---- the tests

/// The usual limits, or for every third input a limit on bytes at which it goes on.
fn limits_of(rt: &impl Abort, seed: u64, bytes: &[u8]) -> Limits {
    if seed % 3 > 0 {
        return Limits::usual();
    }
    Limits::new(bytes.len() as u64 * 2 / 3, 64, 1000).expect(rt, "limits within their caps")
}

#[test]
fn a_fold_asks_as_it_did(rt: HostRuntime) {
    for seed in 0..200 {
        let bytes = made(rt.alloc(), seed).expect(&rt, "memory");
        let limits = limits_of(&rt, seed, &bytes);
        for room in [24, 31, 40, 64, 100, 400] {
            for fails_at in 0..6 {
                let case = Case {
                    limits,
                    room,
                    sizes: &WHOLE,
                    fails_at,
                    events: u32::MAX,
                    turn: 0,
                };
                asks_alike(&rt, rt.alloc(), &bytes, &case);
            }
            let case = Case {
                limits,
                room,
                sizes: &WHOLE,
                fails_at: 0,
                events: (seed % 40) as u32,
                turn: 0,
            };
            asks_alike(&rt, rt.alloc(), &bytes, &case);
        }
    }
}

/// How many values an input has, or 20 if it is refused.
fn values_in(alloc: Global, bytes: &[u8]) -> u64 {
    let none = Counted::failing_after(u32::MAX, 0);
    match fold(alloc, SliceSource::new(bytes), Limits::usual(), none) {
        (Ok(folded), _) => folded.gatherer.values,
        (Err(_), _) => 20,
    }
}

/// Limits for an input: the usual ones, or one on bytes, values or depth at which it goes on.
fn narrow(rt: &impl Abort, alloc: Global, seed: u64, bytes: &[u8]) -> Limits {
    let (most, depth, values) = match seed % 5 {
        0 => (bytes.len() as u64 * 2 / 3, 64, 100_000),
        1 => (100_000, 1 + (seed % 3) as u32, 100_000),
        2 | 3 => {
            let values = values_in(alloc, bytes).saturating_mul(seed % 7) / 7;
            (100_000, 64, values.min(100_000))
        }
        _ => (100_000, 64, 100_000),
    };
    Limits::new(most.min(100_000), depth, values).expect(rt, "limits within their caps")
}

/// Compares the folds of an input with a gatherer that counts, and perhaps with the text of all events.
fn both_alike(rt: &impl Abort, alloc: Global, bytes: &[u8], case: &Case, with_text: bool) {
    lends_alike(rt, alloc, bytes, case);
    if with_text {
        asks_alike(rt, alloc, bytes, case);
    }
}

/// Compares the folds of an input over a buffer of some room, with a failure at each of the reads, and with a gatherer that fails.
/// The text of all events is compared at every eighth of these.
fn all_reads_alike(
    rt: &impl Abort,
    alloc: Global,
    bytes: &[u8],
    limits: Limits,
    room: usize,
    events: u32,
) {
    let reads = bytes.len().checked_div(room).unwrap_or(0).saturating_add(3);
    for fails_at in 0..reads {
        let case = Case {
            limits,
            room,
            sizes: &WHOLE,
            fails_at: fails_at as u64,
            events: u32::MAX,
            turn: always_or_never(fails_at as u64),
        };
        both_alike(rt, alloc, bytes, &case, fails_at % 8 == 0);
    }
    let case = Case {
        limits,
        room,
        sizes: &WHOLE,
        fails_at: 0,
        events,
        turn: u32::MAX,
    };
    both_alike(rt, alloc, bytes, &case, true);
}

#[test]
fn a_fold_of_definitions_asks_as_it_did(rt: HostRuntime) {
    for seed in 0..30 {
        let bytes = wide(rt.alloc(), seed, 40).expect(&rt, "memory");
        let limits = narrow(&rt, rt.alloc(), seed, &bytes);
        let events = (seed % 40) as u32;
        for room in [24, 31, 40, 64, 100, 400, 4096] {
            all_reads_alike(&rt, rt.alloc(), &bytes, limits, room, events);
        }
    }
}

#[test]
fn a_fold_of_held_definitions_asks_as_it_did(rt: HostRuntime) {
    for seed in 0..8 {
        let bytes = held(rt.alloc(), seed).expect(&rt, "memory");
        let limits = narrow(&rt, rt.alloc(), seed, &bytes);
        let events = 272 + (seed % 40) as u32;
        for room in [64, 400, 4096] {
            all_reads_alike(&rt, rt.alloc(), &bytes, limits, room, events);
        }
    }
}

#[test]
fn a_limit_on_values_asks_as_it_did(rt: HostRuntime) {
    for seed in [1, 3, 5] {
        let bytes = wide(rt.alloc(), seed, 40).expect(&rt, "memory");
        for values in 0..40 {
            let limits = Limits::new(100_000, 64, values).expect(&rt, "limits within their caps");
            for room in [100, 4096] {
                all_reads_alike(&rt, rt.alloc(), &bytes, limits, room, 9);
            }
        }
    }
}

/// Buffers, and what their readers give by turns.
static UNEVEN: [(usize, &[usize]); 6] = [
    (24, &[24, 0, 5]),
    (32, &[7, 32, 32]),
    (40, &[7]),
    (64, &[64, 1, 0]),
    (100, &[100, 33]),
    (400, &[1, 300, 0]),
];

/// Compares the folds of an input over readers that give less than they are asked for, or are interrupted, with a failure at one of
/// the reads.
fn uneven_alike(
    rt: &impl Abort,
    alloc: Global,
    bytes: &[u8],
    limits: Limits,
    fails_at: u64,
    turn: u32,
) {
    for (room, sizes) in &UNEVEN {
        let case = Case {
            limits,
            room: *room,
            sizes,
            fails_at,
            events: u32::MAX,
            turn,
        };
        lends_alike(rt, alloc, bytes, &case);
        front_alike(rt, alloc, bytes, &case);
        keeps_alike(rt, alloc, bytes, &case);
    }
}

#[test]
fn a_fold_of_uneven_reads_asks_as_it_did(rt: HostRuntime) {
    for seed in 0..16 {
        let bytes = wide(rt.alloc(), seed, 40).expect(&rt, "memory");
        let limits = narrow(&rt, rt.alloc(), seed, &bytes);
        for fails_at in 0..20 {
            let turn = always_or_never(fails_at);
            uneven_alike(&rt, rt.alloc(), &bytes, limits, fails_at, turn);
        }
    }
}

#[test]
fn a_gatherer_and_a_source_fail_as_they_did(rt: HostRuntime) {
    for seed in 0..16 {
        let bytes = wide(rt.alloc(), seed, 40).expect(&rt, "memory");
        for fails_at in 1..12 {
            for events in 0..30 {
                let case = Case {
                    limits: Limits::usual(),
                    room: 40,
                    sizes: &WHOLE,
                    fails_at,
                    events,
                    turn: always_or_never(fails_at),
                };
                lends_alike(&rt, rt.alloc(), &bytes, &case);
            }
        }
    }
}

/// Compares the folds of a slice, with a gatherer that counts by turns.
fn slices_alike(rt: &impl Abort, alloc: Global, bytes: &[u8], limits: Limits, turn: u32) {
    let case = Case {
        limits,
        room: 0,
        sizes: &WHOLE,
        fails_at: 0,
        events: u32::MAX,
        turn,
    };
    let source = || SliceSource::new(bytes);
    counts_alike(rt, alloc, &case, source(), source());
}

#[test]
fn a_gatherer_counts_by_turns(rt: HostRuntime) {
    for seed in 0..16 {
        let bytes = wide(rt.alloc(), seed, 40).expect(&rt, "memory");
        let limits = narrow(&rt, rt.alloc(), seed, &bytes);
        for turn in 1..24 {
            slices_alike(&rt, rt.alloc(), &bytes, limits, turn);
            uneven_alike(&rt, rt.alloc(), &bytes, limits, seed % 4, turn);
        }
    }
}
