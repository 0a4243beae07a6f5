//! Records that are completely buffered, before a reader takes them.

ghost use Rattle.std.specs.Prelude.{◌≡◌, ◌<◌, ◌≤◌, ◌-◌, ◌+◌, false, ℕ, List, [], ◌∷◌, None, IfSome, OnSome, IfOk, OnErr, length};
ghost use Rattle.bit_grammar.specs.Fields.{fixed};
ghost use Rattle.bit_grammar.specs.Blocks as blocks;
ghost use Rattle.bit_grammar.specs.Blocks.{Handed};
ghost use Rattle.bit_grammar.specs.Machine as machine;
ghost use Rattle.bit_grammar.specs.Machine.{step_of};
ghost use Rattle.bit_fields.specs.Buffered.{Reads, beyond};
ghost use Rattle.bit_fields.specs.BufferedParts.{bits_of_parts, AreParts};
ghost use Rattle.bit_fields.specs.PlacedView.{placed};
ghost use Rattle.bit_abbrev.specs.Values.{Gains, Has, Keeps};
ghost use Rattle.bit_events.specs.FrameView.{frame_shown};
ghost use Rattle.bit_events.specs.MachineView.{record_of, TookSome};
ghost use Rattle.bit_events.specs.Runs.{AddsBehind, GathersRun, ReadsTo, SeesRecord, StopsRun};

use crate::entry::read_entry;
use crate::frame::Frame;
use crate::gatherer::Gatherer;
use bit_abbrev::{Abbrev, FEW, Found, InForce, Layout, MARGIN, read_few, read_held_record};
use bit_fields::{Buffered, BufferedParts, FieldWidth, Limits, PlacedBits, ValueTaker};
use std::alloc::AllocError;

/// Reads one buffered record after its id, which began at `first`, and returns its code and the bit after it. `values` then has
/// only the values of this record. It takes the buffer by value. With `()` it calls its own copy of the functions, not the one of
/// `SliceEvents`.
#[inline(never)]
pub(crate) fn buffered_record<V: ValueTaker>(
    buffered: Buffered<'_>,
    definitions: &InForce,
    room: u64,
    id: u32,
    first: u64,
    values: &mut V,
) -> Option<(u64, u64)>
    requires id { 3 ≤ id }
    requires none { V.took values.old [] }
    ensures reads { IfSome result (λ read. Has V.took values.new (λ list.
        ReadsTo definitions.now.all room id first buffered.entry read.0 list read.1)) }
    ensures took { TookSome V.took values.new }
{
    let mut buffered = buffered;
    let abbrev = definitions.get(id.saturating_sub(4) as usize);
    match read_entry::<(), Buffered<'_>, V>(&mut buffered, abbrev, room, id, first, values) {
        Ok(code) => Some((code, buffered.position())),
        Err(_) => None,
    }
}

/// Reads the id of a buffered record. `None` if the next item is no record, or its id is not buffered.
#[inline(always)]
fn record_id(buffered: &mut Buffered<'_>, frame: &Frame) -> Option<u32>
    ensures three { IfSome result (λ id. 3 ≤ id) }
    ensures reads { IfSome result (λ id. Reads (fixed frame.now.head.width) buffered.old id buffered.new) }
    ensures moves { OnSome result (buffered.old.position < buffered.new.position) }
{
    let id = buffered.fixed(FieldWidth::of(frame.head.width))?;
    if id < 3 {
        return None;
    }
    Some(id as u32)
}

/// Reads a buffered record and its id, in a block that is no BLOCKINFO block, and returns the id and the code. If the item is no
/// record, the values stay. For `U` see `read_record`.
#[inline(always)]
pub(crate) fn buffered_item<U, V: ValueTaker>(
    buffered: &mut Buffered<'_>,
    frame: &Frame,
    room: u64,
    values: &mut V,
) -> Option<(u32, u64)>
    requires took { TookSome V.took values.old }
    requires plain { frame.now.info ≡ None }
    ensures sees { IfSome result (λ read. Gains V.took values.old values.new
        (AddsBehind (λ list. (length list ≤ room)
        × SeesRecord frame.now room buffered.old read list buffered.new))) }
    ensures keeps { Keeps V.took values.old values.new }
    ensures moves { OnSome result (buffered.old.position < buffered.new.position) }
{
    let first = buffered.position();
    let id = record_id(buffered, frame)?;
    let abbrev = frame.definitions.get(id.saturating_sub(4) as usize);
    match read_entry::<U, Buffered<'_>, V>(buffered, abbrev, room, id, first, values) {
        Ok(code) => Some((id, code)),
        Err(_) => None,
    }
}

/// Records that were gathered: the bit after the last one, and whether no record comes there that is buffered.
#[derive(Clone, Copy)]
pub(crate) struct GatheredRun {
    pub(crate) after: u64,
    is_over: bool,
}

/// Whether a record with this id, of this definition, may be passed over.
#[inline(always)]
fn may_pass(id: u32, abbrev: Option<&Abbrev>) -> bool {
    id == 3
        || match abbrev {
            Some(abbrev) => abbrev.layout() != Layout::Odd,
            None => false,
        }
}

/// Gathers buffered records one by one, until one comes that may be passed over. The first is read in any case.
#[inline(never)]
pub(crate) fn gather_odd<G: Gatherer>(
    buffered: Buffered<'_>,
    frame: &Frame,
    limits: &Limits,
    used: &mut u64,
    gatherer: &mut G,
    values: &mut G::Values,
) -> Result<GatheredRun, AllocError>
    requires took { TookSome G.Values.took values.old }
    requires plain { frame.now.info ≡ None }
    ensures took { TookSome G.Values.took values.new }
    ensures gathers { IfOk result (λ run. GathersRun G.gathered limits.now frame.now used.old
        buffered.entry gatherer.old used.new run.after gatherer.new) }
    ensures moves { IfOk result (λ run. run.is_over ≡ false → buffered.entry.position < run.after) }
    ensures stops { OnErr result (StopsRun G.gathered G.fails limits.now frame.now used.old
        buffered.entry gatherer.old gatherer.new) }
{
    let mut buffered = buffered;
    let mut first = buffered.position();
    let mut spent = *used;
    let mut room = limits.values().saturating_sub(spent);
    let mut is_first = true;
    let definitions = frame.definitions.all();
    loop {
        values.truncate(0);
        let passes = !is_first && buffered.len() >= MARGIN;
        let Some(id) = record_id(&mut buffered, frame) else {
            *used = spent;
            return Ok(GatheredRun {
                after: first,
                is_over: true,
            });
        };
        let abbrev = definitions.get(id.saturating_sub(4) as usize);
        let passes = passes && (gatherer.passes() || gatherer.takes_few());
        if passes && may_pass(id, abbrev) {
            *used = spent;
            return Ok(GatheredRun {
                after: first,
                is_over: false,
            });
        }
        let Ok(code) = read_entry::<(G,), Buffered<'_>, G::Values>(
            &mut buffered,
            abbrev,
            room,
            id,
            first,
            values,
        ) else {
            *used = spent;
            return Ok(GatheredRun {
                after: first,
                is_over: true,
            });
        };
        let after = buffered.position();
        let count = values.count();
        spent += count;
        room = room.saturating_sub(count);
        gatherer.record(id, code, values, first, after)?;
        first = after;
        is_first = false;
    }
}

/// The bit up to which a reader has loaded bytes once it has caught up to `first`, if these were those up to `loaded` before. It
/// passes whole bytes over, and asks for eight from the byte on in which `first` lies; there may be fewer.
#[inline(always)]
pub(crate) fn loaded_at(first: u64, loaded: u64) -> u64 {
    if first <= loaded {
        return loaded;
    }
    if first % 8 == 0 {
        return first;
    }
    (first & !7).wrapping_add(64)
}

/// Gathers records of few values which come first in these bits.
#[inline(never)]
fn gather_few<G: Gatherer>(
    bits: PlacedBits<'_>,
    frame: &Frame,
    limits: &Limits,
    used: &mut u64,
    gatherer: &mut G,
) -> Result<GatheredRun, AllocError>
    requires plain { frame.now.info ≡ None }
    ensures gathers { IfOk result (λ run. GathersRun G.gathered limits.now frame.now used.old
        (placed bits.entry) gatherer.old used.new run.after gatherer.new) }
    ensures stops { OnErr result (StopsRun G.gathered G.fails limits.now frame.now used.old
        (placed bits.entry) gatherer.old gatherer.new) }
{
    let width = u32::from(frame.head.width);
    let definitions = frame.definitions.all();
    let mut few = [0; FEW];
    let mut bits = bits;
    let mut spent = *used;
    let mut room = limits.values().saturating_sub(spent);
    let mut is_over = false;
    while bits.has(MARGIN) {
        let id = bits.fixed(width);
        if id < 3 {
            is_over = true;
            break;
        }
        let fields = bits.after(u64::from(width));
        let Some(read) = read_few(fields, id, &definitions, room, &mut few) else {
            break;
        };
        let after = fields.after(read.len);
        let values = &few[..read.count as usize];
        if !gatherer.few(
            id as u32,
            read.code,
            values,
            bits.position(),
            after.position(),
        )? {
            break;
        }
        spent += read.count;
        room -= read.count;
        bits = after;
    }
    *used = spent;
    Ok(GatheredRun {
        after: bits.position(),
        is_over,
    })
}

/// Lets the gatherer pass over records from a bit on, if the bits are there as bytes.
#[inline(always)]
fn pass_placed<G: Gatherer>(
    parts: BufferedParts<'_>,
    first: u64,
    frame: &Frame,
    limits: &Limits,
    used: &mut u64,
    gatherer: &mut G,
) -> Result<GatheredRun, AllocError>
    requires lawful { AreParts parts }
    requires least { (bits_of_parts parts).position ≤ first }
    requires there { first - (bits_of_parts parts).position ≤ length (bits_of_parts parts).bits }
    requires plain { frame.now.info ≡ None }
    ensures gathers { IfOk result (λ run. GathersRun G.gathered limits.now frame.now used.old
        (beyond (bits_of_parts parts.entry) (first - (bits_of_parts parts.entry).position))
        gatherer.old used.new run.after gatherer.new) }
    ensures stops { OnErr result (StopsRun G.gathered G.fails limits.now frame.now used.old
        (beyond (bits_of_parts parts.entry) (first - (bits_of_parts parts.entry).position))
        gatherer.old gatherer.new) }
{
    let Some(bits) = PlacedBits::new(parts, first) else {
        return Ok(GatheredRun {
            after: first,
            is_over: false,
        });
    };
    if gatherer.takes_few() {
        return gather_few(bits, frame, limits, used, gatherer);
    }
    if !gatherer.passes() {
        return Ok(GatheredRun {
            after: first,
            is_over: false,
        });
    }
    let room = limits.values().saturating_sub(*used);
    let run = gatherer.pass(bits, u32::from(frame.head.width), &frame.definitions, room)?;
    *used += room - run.room;
    Ok(GatheredRun {
        after: run.after,
        is_over: run.is_over,
    })
}

/// The buffered bits from a bit on, with a window that ends at `loaded`.
#[inline(always)]
pub(crate) fn buffered_from<'a>(parts: BufferedParts<'a>, first: u64, loaded: u64) -> Buffered<'a>
    requires lawful { AreParts parts }
    requires least { (bits_of_parts parts).position ≤ first }
    requires there { first - (bits_of_parts parts).position ≤ length (bits_of_parts parts).bits }
    ensures { result ≡ beyond (bits_of_parts parts.entry)
        (first - (bits_of_parts parts.entry).position) }
{
    let mut buffered = Buffered::new(parts);
    buffered.skip(first - parts.position());
    buffered.divide(parts, loaded);
    buffered
}

/// Reads a buffered record by a definition that is held in few bytes, and its id, in a block that is no BLOCKINFO block, and returns
/// the id and the code. If the item is no such record, the values stay. For `U` see `read_record`.
#[inline(always)]
fn held_item<U, V: ValueTaker>(
    buffered: &mut Buffered<'_>,
    frame: &Frame,
    room: u64,
    values: &mut V,
) -> Option<(u32, u64)>
    requires took { TookSome V.took values.old }
    requires plain { frame.now.info ≡ None }
    ensures sees { IfSome result (λ read. Gains V.took values.old values.new
        (AddsBehind (λ list. (length list ≤ room)
        × SeesRecord frame.now room buffered.old read list buffered.new))) }
    ensures keeps { Keeps V.took values.old values.new }
    ensures moves { OnSome result (buffered.old.position < buffered.new.position) }
{
    let first = buffered.position();
    let id = record_id(buffered, frame)?;
    if id == 3 {
        return None;
    }
    let Some(Found::Held(ops)) = frame.definitions.find((id - 4) as usize) else {
        return None;
    };
    match read_held_record::<U, Buffered<'_>, V>(buffered, ops, first, room, values) {
        Ok(code) => Some((id, code)),
        Err(_) => None,
    }
}

/// Gathers buffered records by definitions that are held in few bytes, one by one, until another item comes.
#[cold]
#[inline(never)]
fn gather_held<G: Gatherer>(
    buffered: Buffered<'_>,
    frame: &Frame,
    limits: &Limits,
    used: &mut u64,
    gatherer: &mut G,
    values: &mut G::Values,
) -> Result<GatheredRun, AllocError>
    requires took { TookSome G.Values.took values.old }
    requires plain { frame.now.info ≡ None }
    ensures took { TookSome G.Values.took values.new }
    ensures gathers { IfOk result (λ run. GathersRun G.gathered limits.now frame.now used.old
        buffered.entry gatherer.old used.new run.after gatherer.new) }
    ensures moves { IfOk result (λ run. run.is_over ≡ false → buffered.entry.position < run.after) }
    ensures stops { OnErr result (StopsRun G.gathered G.fails limits.now frame.now used.old
        buffered.entry gatherer.old gatherer.new) }
{
    let mut buffered = buffered;
    let mut first = buffered.position();
    let mut spent = *used;
    let mut room = limits.values().saturating_sub(spent);
    let mut is_over = true;
    loop {
        values.truncate(0);
        let found = held_item::<((G,),), G::Values>(&mut buffered, frame, room, values);
        let Some((id, code)) = found else {
            *used = spent;
            return Ok(GatheredRun {
                after: first,
                is_over,
            });
        };
        let after = buffered.position();
        let count = values.count();
        spent += count;
        room = room.saturating_sub(count);
        gatherer.record(id, code, values, first, after)?;
        first = after;
        is_over = false;
    }
}

/// Gathers records from a bit on one by one, until one comes that may be passed over. The first is read in any case. Whether the last
/// ones are read depends on where the window ends: so it ends at `loaded`, as that of an exact reader.
#[inline(always)]
fn gather_each<G: Gatherer>(
    parts: BufferedParts<'_>,
    start: u64,
    loaded: u64,
    frame: &Frame,
    limits: &Limits,
    used: &mut u64,
    gatherer: &mut G,
    values: &mut G::Values,
) -> Result<GatheredRun, AllocError>
    requires lawful { AreParts parts }
    requires least { (bits_of_parts parts).position ≤ start }
    requires there { start - (bits_of_parts parts).position ≤ length (bits_of_parts parts).bits }
    requires took { TookSome G.Values.took values.old }
    requires plain { frame.now.info ≡ None }
    ensures took { TookSome G.Values.took values.new }
    ensures gathers { IfOk result (λ run. GathersRun G.gathered limits.now frame.now used.old
        (beyond (bits_of_parts parts.entry) (start - (bits_of_parts parts.entry).position))
        gatherer.old used.new run.after gatherer.new) }
    ensures moves { IfOk result (λ run. run.is_over ≡ false → start < run.after) }
    ensures stops { OnErr result (StopsRun G.gathered G.fails limits.now frame.now used.old
        (beyond (bits_of_parts parts.entry) (start - (bits_of_parts parts.entry).position))
        gatherer.old gatherer.new) }
{
    let buffered = buffered_from(parts, start, loaded);
    let run = gather_odd(buffered, frame, limits, used, gatherer, values)?;
    if !run.is_over || !frame.definitions.has_held() {
        return Ok(run);
    }
    let buffered = buffered_from(parts, run.after, loaded_at(run.after, loaded));
    gather_held(buffered, frame, limits, used, gatherer, values)
}

/// Gathers records of a block that is no BLOCKINFO block from a bit on, as long as they are completely buffered, and returns the bit
/// after the last one. The gatherer passes over what it can.
#[inline(always)]
pub(crate) fn gather_records<G: Gatherer>(
    parts: BufferedParts<'_>,
    start: u64,
    loaded: u64,
    frame: &Frame,
    limits: &Limits,
    used: &mut u64,
    gatherer: &mut G,
    values: &mut G::Values,
) -> Result<u64, AllocError>
    requires lawful { AreParts parts }
    requires least { (bits_of_parts parts).position ≤ start }
    requires there { start - (bits_of_parts parts).position ≤ length (bits_of_parts parts).bits }
    requires took { TookSome G.Values.took values.old }
    requires plain { frame.now.info ≡ None }
    ensures took { TookSome G.Values.took values.new }
    ensures gathers { IfOk result (λ after. GathersRun G.gathered limits.now frame.now used.old
        (beyond (bits_of_parts parts.entry) (start - (bits_of_parts parts.entry).position))
        gatherer.old used.new after gatherer.new) }
    ensures stops { OnErr result (StopsRun G.gathered G.fails limits.now frame.now used.old
        (beyond (bits_of_parts parts.entry) (start - (bits_of_parts parts.entry).position))
        gatherer.old gatherer.new) }
{
    let run = pass_placed(parts, start, frame, limits, used, gatherer)?;
    if run.is_over {
        return Ok(run.after);
    }
    gather_on(
        parts, run.after, loaded, frame, limits, used, gatherer, values,
    )
}

/// The same, if the next record is odd.
#[inline(never)]
fn gather_on<G: Gatherer>(
    parts: BufferedParts<'_>,
    start: u64,
    loaded: u64,
    frame: &Frame,
    limits: &Limits,
    used: &mut u64,
    gatherer: &mut G,
    values: &mut G::Values,
) -> Result<u64, AllocError>
    requires lawful { AreParts parts }
    requires least { (bits_of_parts parts).position ≤ start }
    requires there { start - (bits_of_parts parts).position ≤ length (bits_of_parts parts).bits }
    requires took { TookSome G.Values.took values.old }
    requires plain { frame.now.info ≡ None }
    ensures took { TookSome G.Values.took values.new }
    ensures gathers { IfOk result (λ after. GathersRun G.gathered limits.now frame.now used.old
        (beyond (bits_of_parts parts.entry) (start - (bits_of_parts parts.entry).position))
        gatherer.old used.new after gatherer.new) }
    ensures stops { OnErr result (StopsRun G.gathered G.fails limits.now frame.now used.old
        (beyond (bits_of_parts parts.entry) (start - (bits_of_parts parts.entry).position))
        gatherer.old gatherer.new) }
{
    let mut first = start;
    let mut window = loaded;
    loop {
        window = loaded_at(first, window);
        let run = gather_each(parts, first, window, frame, limits, used, gatherer, values)?;
        first = run.after;
        if run.is_over {
            return Ok(first);
        }
        let run = pass_placed(parts, first, frame, limits, used, gatherer)?;
        first = run.after;
        if run.is_over {
            return Ok(first);
        }
    }
}
