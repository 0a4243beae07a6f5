//! Reading a whole input into a `Gatherer`.

ghost use Rattle.std.specs.Prelude.{◌≡◌, ◌<◌, ◌≤◌, ◌+◌, ◌-◌, ◌%◌, true, ℕ, List, [], IsSome, OnOk, OnErr, IfOk, length, vec_len};
ghost use Rattle.bit_fields.specs.Buffered.{beyond};
ghost use Rattle.bit_fields.specs.BufferedParts.{bits_of_parts, AreParts};
ghost use Rattle.bit_fields.specs.Opening.{head_told};
ghost use Rattle.bit_events.specs.Folding.{Lost, TakesRun, TakesNext, TakesAll, Gathered};
ghost use Rattle.bit_events.specs.Gathering.{FailsAt, Gathers};
ghost use Rattle.bit_events.specs.MachineView.{newest, step_shown, HoldsDefinition, TookSome};
ghost use Rattle.bit_events.specs.declared.machine.Step.TheVariants.{Define};
ghost use Rattle.bit_events.specs.Reading.{ReadsWhole};
ghost use Rattle.bit_events.specs.Runs.{GathersUpTo, StopsOn};

#[cfg(test)]
pub(crate) mod asking_inputs;
#[cfg(test)]
mod asking_tests;

use crate::gatherer::Gatherer;
use crate::machine::{Machine, Step};
use crate::running::{gather_records, loaded_at};
use crate::with_first::WithFirst;
use bit_fields::{BitReader, BufferedParts, Fault, FieldWidth, Head, Limits, PlacedBits, Source};
use std::alloc::{AllocError, Global};

/// The result of reading a whole input: its head, the gatherer of its events, and the bit after its stream.
#[derive(Debug, Drop)]
pub struct Folded<G> {
    pub head: Head,
    pub gatherer: G,
    pub after: u64,
}

/// Gives the gatherer the newest definition, with its operands only if it wants them.
fn hand_definition<G: Gatherer>(
    gatherer: &mut G,
    machine: &Machine,
    first: u64,
    after: u64,
) -> Result<(), AllocError>
    requires { IsSome (newest machine.now.frames.items) }
    ensures gathers { OnOk result (Gathers G.gathered gatherer.old
        (step_shown machine.now [] (Define first after)) gatherer.new) }
    ensures fails { OnErr result (FailsAt G.fails gatherer.old
        (step_shown machine.now [] (Define first after)) gatherer.new) }
{
    let taken = gatherer.defined(first, after)?;
    if taken {
        return Ok(());
    }
    let made = machine.newest_made()?;
    match machine.newest(&made) {
        Some(abbrev) => gatherer.define(abbrev, first, after),
        None => unreachable!(),
    }
}

/// Gives the gatherer the event of a step, and the values of a record.
#[inline(always)]
fn hand_on<G: Gatherer>(
    gatherer: &mut G,
    machine: &Machine,
    step: Step,
    values: &mut G::Values,
) -> Result<(), AllocError>
    requires holds { HoldsDefinition machine.now (step_shown machine.now [] step) }
    requires took { TookSome G.Values.took values.old }
    ensures gathers { OnOk result ((list : List ℕ) → G.Values.took values.old list
        → Gathers G.gathered gatherer.old (step_shown machine.now list step) gatherer.new) }
    ensures fails { OnErr result ((list : List ℕ) → G.Values.took values.old list
        → FailsAt G.fails gatherer.old (step_shown machine.now list step) gatherer.new) }
    ensures took { TookSome G.Values.took values.new }
{
    match step {
        Step::Enter {
            id,
            width,
            first,
            body,
        } => gatherer.enter(id, width, first, body),
        Step::Define { first, after } => hand_definition(gatherer, machine, first, after),
        Step::Record(head) => gatherer.record(
            head.abbrev,
            head.code,
            values,
            head.first,
            head.after,
        ),
        Step::Leave { after } => gatherer.leave(after),
    }
}

/// How many bits must be buffered for the beginning or the end of a block to be read from the buffer: more than 64 after the longest
/// beginning, which has fields of 32, 8, 4, 31 and 32 bits.
const MARGIN: u64 = 192;

/// Whether the item at a bit is seen to be no record: then no record has to be looked for.
#[inline(always)]
fn comes_apart(parts: BufferedParts<'_>, first: u64, width: u8) -> bool
    requires lawful { AreParts parts }
    requires width { width ≤ 32 }
    requires there { first ≤ (bits_of_parts parts).position + length (bits_of_parts parts).bits }
{
    match PlacedBits::new(parts, first) {
        Some(bits) => bits.has(MARGIN) && bits.fixed(u32::from(width)) < 3,
        None => false,
    }
}

/// Gathers completely buffered records of the innermost block from a bit on, possibly none, and returns the bit after them. Whether
/// the last ones are read depends on where the window ends: so it ends at `loaded`, as that of an exact reader. Where a block has just
/// `ended`, another one often begins or ends at once.
#[inline(always)]
fn gather_innermost<G: Gatherer>(
    parts: BufferedParts<'_>,
    first: u64,
    loaded: u64,
    ended: bool,
    machine: &mut Machine,
    limits: &Limits,
    gatherer: &mut G,
    values: &mut G::Values,
) -> Result<u64, AllocError>
    requires lawful { AreParts parts }
    requires least { (bits_of_parts parts).position ≤ first }
    requires there { first - (bits_of_parts parts).position ≤ length (bits_of_parts parts).bits }
    requires took { TookSome G.Values.took values.old }
    requires aligned { vec_len machine.old.frames ≡ 0 → first % 8 ≡ 0 }
    ensures took { TookSome G.Values.took values.new }
    ensures gathers { IfOk result (λ after. GathersUpTo G.gathered limits.now machine.old
        (beyond (bits_of_parts parts.entry) (first - (bits_of_parts parts.entry).position))
        gatherer.old machine.new after gatherer.new) }
    ensures stops { OnErr result (StopsOn G.gathered G.fails limits.now machine.old
        (beyond (bits_of_parts parts.entry) (first - (bits_of_parts parts.entry).position))
        gatherer.old gatherer.new) }
{
    let Some(frame) = machine.frames.last() else {
        return Ok(first);
    };
    if frame.info.is_some() {
        return Ok(first);
    }
    if ended && comes_apart(parts, first, frame.head.width) {
        return Ok(first);
    }
    let used = &mut machine.used;
    gather_records(parts, first, loaded, frame, limits, used, gatherer, values)
}

/// Gathers buffered records, and beginnings and ends of blocks, as long as they are complete, and returns the bit after the last
/// one. Readers of all sources share it.
///
/// The exact reader then loads the same bytes as if it had read the blocks itself, so it asks its source at the same places: a source
/// may fail, or wait. That holds for sources that lend the same bytes until they are taken, and take as many as they are asked.
/// `loaded` is up to which bit that reader has loaded bytes, and if no memory is left, at the event that needed it.
#[inline(never)]
fn gather_buffered<G: Gatherer>(
    alloc: Global,
    parts: BufferedParts<'_>,
    machine: &mut Machine,
    limits: &Limits,
    gatherer: &mut G,
    values: &mut G::Values,
    loaded: &mut u64,
) -> Result<u64, AllocError>
    requires lawful { AreParts parts }
    requires some { 0 < vec_len machine.old.frames }
    requires took { TookSome G.Values.took values.old }
    ensures took { TookSome G.Values.took values.new }
    ensures gathers { IfOk result (λ after. GathersUpTo G.gathered limits.now machine.old
        (bits_of_parts parts.entry) gatherer.old machine.new after gatherer.new) }
    ensures stops { OnErr result (StopsOn G.gathered G.fails limits.now machine.old
        (bits_of_parts parts.entry) gatherer.old gatherer.new) }
{
    let mut held = parts.loaded();
    let done = gather_blocks(alloc, parts, machine, limits, gatherer, values, &mut held);
    *loaded = held;
    done
}

/// The same, with `loaded` at hand.
#[inline(always)]
fn gather_blocks<G: Gatherer>(
    alloc: Global,
    parts: BufferedParts<'_>,
    machine: &mut Machine,
    limits: &Limits,
    gatherer: &mut G,
    values: &mut G::Values,
    loaded: &mut u64,
) -> Result<u64, AllocError>
    requires lawful { AreParts parts }
    requires some { 0 < vec_len machine.old.frames }
    requires took { TookSome G.Values.took values.old }
    ensures took { TookSome G.Values.took values.new }
    ensures gathers { IfOk result (λ after. GathersUpTo G.gathered limits.now machine.old
        (bits_of_parts parts.entry) gatherer.old machine.new after gatherer.new) }
    ensures stops { OnErr result (StopsOn G.gathered G.fails limits.now machine.old
        (bits_of_parts parts.entry) gatherer.old gatherer.new) }
{
    let mut first = parts.position();
    let mut ended = false;
    loop {
        first = gather_innermost(
            parts, first, *loaded, ended, machine, limits, gatherer, values,
        )?;
        *loaded = loaded_at(first, *loaded);
        let Some(bits) = PlacedBits::new(parts, first) else {
            return Ok(first);
        };
        if !bits.has(MARGIN) {
            return Ok(first);
        }
        let Some(step) = machine.placed_block(alloc, bits, loaded, limits)? else {
            return Ok(first);
        };
        first = step.after();
        ended = step.is_end();
        hand_on(gatherer, machine, step, values)?;
    }
}

/// How many bits are loaded from a bit on, at most 64.
#[inline(always)]
fn held_from(position: u64, loaded: u64) -> u32
    ensures { result ≤ 64 }
{
    loaded.saturating_sub(position).min(64) as u32
}

/// Fails because no memory was left, after the reader took some bits: those that an exact reader would have loaded. Only the state of
/// the source depends on them.
fn out_of_memory<S: Source>(reader: &mut BitReader<S>, bits: u64) -> Fault
    requires live { reader.old.live ≡ true }
    ensures { Lost reader.old result reader.new }
{
    match reader.catch_up(bits) {
        Err(Fault::Read) => Fault::Read,
        _ => reader.fail(Fault::Memory),
    }
}

/// Gathers what is buffered from the innermost block on, possibly nothing. It does not begin in a BLOCKINFO block or at the top:
/// each record of the one may set the described block, and at the other the source is asked whether it has ended.
fn gather_run<S: Source, G: Gatherer>(
    alloc: Global,
    reader: &mut BitReader<S>,
    machine: &mut Machine,
    limits: &Limits,
    gatherer: &mut G,
    values: &mut G::Values,
) -> Result<(), Fault>
    requires live { reader.old.live ≡ true }
    requires took { TookSome G.Values.took values.old }
    requires aligned { vec_len machine.old.frames ≡ 0 → reader.old.position % 8 ≡ 0 }
    ensures took { TookSome G.Values.took values.new }
    ensures takes { TakesRun G.gathered G.fails limits.now machine.old reader.old gatherer.old result
        machine.new reader.new gatherer.new }
{
    let Some(frame) = machine.frames.last() else {
        return Ok(());
    };
    if frame.info.is_some() {
        return Ok(());
    }
    let parts = reader.buffered_parts()?;
    // A definition: nothing is gathered before it.
    if parts.starts_with(FieldWidth::of(frame.head.width), 2) {
        return Ok(());
    }
    let start = parts.position();
    let mut loaded = start;
    match gather_buffered(alloc, parts, machine, limits, gatherer, values, &mut loaded) {
        Ok(after) => reader.catch_up_holding(after - start, held_from(after, loaded)),
        Err(_) => Err(out_of_memory(reader, loaded.saturating_sub(start))),
    }
}

/// Gathers the next event, and returns whether there was one.
#[tactic(auto, using(crate::proofs::Folds::one_event, crate::proofs::Folds::none_left, crate::proofs::Folds::none_found))]
fn gather_next<S: Source, G: Gatherer>(
    alloc: Global,
    reader: &mut BitReader<S>,
    machine: &mut Machine,
    limits: &Limits,
    gatherer: &mut G,
    values: &mut WithFirst<G::Values>,
) -> Result<bool, Fault>
    requires live { reader.old.live ≡ true }
    requires took { TookSome G.Values.took values.old.taker }
    requires aligned { vec_len machine.old.frames ≡ 0 → reader.old.position % 8 ≡ 0 }
    ensures took { TookSome G.Values.took values.new.taker }
    ensures takes { TakesNext G.gathered G.fails limits.now machine.old reader.old gatherer.old result
        machine.new reader.new gatherer.new }
{
    let Some(step) = machine.next(alloc, reader, limits, values)? else {
        return Ok(false);
    };
    match hand_on(gatherer, machine, step, &mut values.taker) {
        Ok(()) => Ok(true),
        Err(AllocError) => Err(reader.fail(Fault::Memory)),
    }
}

/// Gathers all remaining events: what is buffered by runs, and the events between them one by one.
pub(crate) fn gather_rest<S: Source, G: Gatherer>(
    alloc: Global,
    reader: &mut BitReader<S>,
    machine: &mut Machine,
    limits: &Limits,
    gatherer: &mut G,
) -> Result<(), Fault>
    requires live { reader.old.live ≡ true }
    requires aligned { vec_len machine.old.frames ≡ 0 → reader.old.position % 8 ≡ 0 }
    ensures { TakesAll G.gathered G.fails limits.now machine.old reader.old gatherer.old result
        machine.new reader.new gatherer.new }
{
    let mut values = WithFirst::new(gatherer.values());
    'events: loop {
        gather_run(alloc, reader, machine, limits, gatherer, &mut values.taker)?;
        // Positions are below 2^64 and rise, so the events end.
        let _position = reader.position();
        if !gather_next(alloc, reader, machine, limits, gatherer, &mut values)? {
            return Ok(());
        }
    }
}

/// Reads an input, from the first byte that its source still has to the last, and gathers its events.
///
/// It takes no byte past the first one after the limit on bytes. `Refused` has the one reason and bit at which the input breaks the
/// rules. The source is returned in its present state. Even if the bytes of the source are not known, the gathered events are those
/// of a marked tree that some bytes spell.
pub fn fold<S: Source, G: Gatherer + Drop>(
    alloc: Global,
    source: S,
    limits: Limits,
    gatherer: G,
) -> (Result<Folded<G>, Fault>, S)
    requires { G.gathered gatherer [] gatherer }
    ensures whole { ReadsWhole (λ bytes folded. Gathered G.gathered limits bytes gatherer
        (head_told folded.head) folded.gatherer folded.after) limits (S.incoming source) result.0
        (S.incoming result.1) }
    ensures some { IfOk result.0 (λ folded. (bytes : List ℕ) × Gathered G.gathered limits bytes gatherer
        (head_told folded.head) folded.gatherer folded.after) }
{
    // The cap of the limit is below 2^64 - 1, the end of a stream without a wrapper.
    let _bytes = limits.bytes();
    let (reader, head) = match BitReader::start(source, limits) {
        Ok(begun) => begun,
        Err((fault, source)) => return (Err(fault), source),
    };
    let mut reader = reader;
    let mut gatherer = gatherer;
    let planned = gatherer.passes() && gatherer.by_plans();
    let mut machine = Machine::new(alloc, planned);
    let done = gather_rest(alloc, &mut reader, &mut machine, &limits, &mut gatherer);
    let after = reader.position();
    let source = reader.into_source();
    match done {
        Ok(()) => (
            Ok(Folded {
                head,
                gatherer,
                after,
            }),
            source,
        ),
        Err(fault) => (Err(fault), source),
    }
}
