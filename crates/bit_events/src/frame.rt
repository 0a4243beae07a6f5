ghost use Rattle.std.specs.Prelude.{◌≡◌, ◌-◌, ◌+◌, ◌<◌, ◌≤◌, true, [], ℕ, List, Some, OnOk, IsSome, length, unwrap_or, slice_get, IfOk};
ghost use Rattle.std.specs.Option.{option_copied};
ghost use Rattle.bit_grammar.specs.Blocks as blocks;
ghost use Rattle.bit_grammar.specs.Blocks.{Handed, defined, define, describe, entry, record_after, may_define};
ghost use Rattle.bit_grammar.specs.Definition.{operands};
ghost use Rattle.bit_grammar.specs.declared.op.Place.TheVariants.{First};
ghost use Rattle.bit_grammar.specs.Machine.{scope_of};
ghost use Rattle.bit_fields.specs.Reader.{Takes, told_by};
ghost use Rattle.bit_abbrev.specs.Defining.{AddsRead};
ghost use Rattle.bit_abbrev.specs.Ready.{either};
ghost use Rattle.bit_abbrev.specs.Values.{AddsWithin, Gains, Has, Keeps};
ghost use Rattle.bit_events.specs.Firsts.{TookWithFirst};
ghost use Rattle.bit_events.specs.FrameView.{describing_shown, info_shown, described_value, frame_shown, newest_in, ready_in, AddsDefinition};

use crate::entry::read_entry;
use crate::head::BlockHead;
use crate::heads::or_memory_fault;
use crate::with_first::WithFirst;
use bit_abbrev::{Abbrev, Found, InForce, InfoBuilder, read_count, read_held_record, read_ops};
use bit_fields::{BitReader, Fault, Reason, Shapes, Source, ValueTaker};
use bit_grammar::SET_BID;
use std::alloc::{AllocError, Global};

/// In a BLOCKINFO block: the id of the described block, and the table that is being made.
#[derive(Drop)]
pub(crate) struct Describing {
    pub(crate) described: Option<u32>,
    pub(crate) made: InfoBuilder,
}

/// An open block: its head, the definitions in force, and in a BLOCKINFO block the block that it describes.
#[derive(Drop)]
pub(crate) struct Frame {
    pub(crate) head: BlockHead,
    pub(crate) definitions: InForce,
    pub(crate) info: Option<Describing>,
}

impl Frame {
    /// Whether a definition may come now.
    fn may_define(&self) -> bool
        ensures { result ≡ may_define (info_shown self.now.info) }
    {
        match &self.info {
            None => true,
            Some(info) => info.described.is_some(),
        }
    }

    /// The last definition that the block made, if there is one and it is ready.
    pub(crate) fn newest_ready(&self) -> Option<&Abbrev>
        ensures { option_copied result ≡ ready_in self.now }
    {
        match &self.info {
            None => self.definitions.newest_ready(),
            Some(info) => info.made.newest_ready(),
        }
    }

    /// The last definition that the block made, made anew, if there is one and it is not ready.
    pub(crate) fn newest_made(&self) -> Result<Option<Abbrev>, AllocError>
        ensures { IfOk result (λ made. either made (ready_in self.now) ≡ newest_in self.now) }
    {
        match &self.info {
            None => self.definitions.newest_made(),
            Some(info) => info.made.newest_made(),
        }
    }

    /// Adds a definition: to the block's own, or in a BLOCKINFO block to those of the described block.
    #[tactic(auto, using(crate::proofs::Framing::put_described))]
    fn put(&mut self, abbrev: Abbrev) -> Result<(), AllocError>
        requires { may_define (info_shown self.old.info) ≡ true }
        ensures defined { OnOk result ((handed : Handed)
            → scope_of (frame_shown self.new) handed
            ≡ defined (info_shown self.old.info) «abbrev»
            (scope_of (frame_shown self.old) handed)) }
        ensures newest { OnOk result (newest_in self.new ≡ Some «abbrev») }
        ensures head { self.new.head ≡ self.old.head }
    {
        match &mut self.info {
            None => self.definitions.define(abbrev),
            Some(info) => match info.described {
                Some(id) => info.made.define(id, abbrev),
                None => Ok(()),
            },
        }
    }

    /// Whether a definition of so many operands would be ready.
    fn has_room(&self, count: u64) -> bool {
        match &self.info {
            None => self.definitions.has_room(count),
            Some(info) => info.made.has_room(count),
        }
    }

    /// Reads the operands of a definition, after their number, and adds it as `put` does. It is held in few bytes.
    #[cold]
    #[inline(never)]
    #[tactic(auto, using(crate::proofs::Framing::put_described))]
    fn read_held<S: Source>(
        &mut self,
        reader: &mut BitReader<S>,
        shapes: Shapes,
        count: u64,
    ) -> Result<(), Fault>
        requires describes { may_define (info_shown self.old.info) ≡ true }
        requires some { 0 < count }
        requires live { reader.old.live ≡ true }
        ensures reads { AddsRead (operands shapes count First) reader.old result reader.new
            (AddsDefinition self.old self.new) }
        ensures head { self.new.head ≡ self.old.head }
    {
        match &mut self.info {
            None => self.definitions.read_held(reader, shapes, count),
            Some(info) => match info.described {
                Some(id) => info.made.read_held(id, reader, shapes, count),
                None => unreachable!(),
            },
        }
    }

    /// Reads the operands of a definition, after their number, and adds it, with a plan if it is to have one.
    #[inline(always)]
    fn read<S: Source>(
        &mut self,
        alloc: Global,
        reader: &mut BitReader<S>,
        shapes: Shapes,
        count: u64,
        planned: bool,
    ) -> Result<(), Fault>
        requires describes { may_define (info_shown self.old.info) ≡ true }
        requires some { 0 < count }
        requires live { reader.old.live ≡ true }
        ensures reads { AddsRead (operands shapes count First) reader.old result reader.new
            (AddsDefinition self.old self.new) }
        ensures head { self.new.head ≡ self.old.head }
    {
        if !self.has_room(count) {
            return self.read_held(reader, shapes, count);
        }
        let abbrev = read_ops(alloc, reader, shapes, count)?;
        or_memory_fault(reader, self.put(planned_if(planned, abbrev)))?;
        Ok(())
    }
}

/// The definition, with a plan if it is to have one.
#[inline(always)]
fn planned_if(planned: bool, definition: Abbrev) -> Abbrev
    ensures { result ≡ definition }
{
    if planned {
        return definition.planned();
    }
    definition
}

/// Reads a definition, after its id, which began at `first`, and returns the bit after it. It is then the newest one, with a plan if
/// it is to have one.
pub(crate) fn define<S: Source>(
    alloc: Global,
    reader: &mut BitReader<S>,
    shapes: Shapes,
    frame: &mut Frame,
    planned: bool,
    first: u64,
) -> Result<u64, Fault>
    requires { reader.old.live ≡ true }
    ensures takes { (handed : Handed) → Takes
        (define shapes first (scope_of (frame_shown frame.old) handed)) reader.old
        (told_by (λ after. (
          record {
            ops = unwrap_or (newest_in frame.new) [];
            first = first;
            after = after;
          },
          scope_of (frame_shown frame.new) handed,
        )) result) reader.new }
    ensures newest { OnOk result (IsSome (newest_in frame.new)) }
    ensures head { frame.new.head ≡ frame.old.head }
{
    reader.judge(frame.may_define(), Reason::NoBlockSet, first)?;
    let count = read_count(reader)?;
    frame.read(alloc, reader, shapes, count, planned)?;
    Ok(reader.position())
}

/// The first value of a record as a block id, if there is one and it fits.
fn described_id(value: Option<u64>) -> Option<u32>
    ensures { result ≡ described_value value }
{
    match value {
        Some(id) => { if id < 1 << 32 { Some(id as u32) } else { None } }
        None => None,
    }
}

/// Finds the described block after a record of a BLOCKINFO block, which began at `first`.
fn describe_by<S: Source>(
    reader: &mut BitReader<S>,
    info: &mut Describing,
    first: u64,
    code: u64,
    value: Option<u64>,
) -> Result<(), Fault>
    requires { reader.old.live ≡ true }
    ensures { (values : List ℕ) → value ≡ slice_get values 0
        → Takes (describe (Some (describing_shown info.old)) first
        (record { code = code; values = values })) reader.old
        (told_by (λ _. Some (describing_shown info.new)) result) reader.new }
{
    if code != SET_BID {
        reader.judge(info.described.is_some(), Reason::NoBlockSet, first)?;
        return Ok(());
    }
    let id = described_id(value);
    reader.judge(id.is_some(), Reason::BadSetBid, first)?;
    info.described = id;
    Ok(())
}

/// Finds the described block after a record, if it is in a BLOCKINFO block.
fn describe<S: Source>(
    reader: &mut BitReader<S>,
    info: &mut Option<Describing>,
    first: u64,
    code: u64,
    value: Option<u64>,
) -> Result<(), Fault>
    requires { reader.old.live ≡ true }
    ensures { (list : List ℕ) → value ≡ slice_get list 0
        → Takes (describe (info_shown info.old) first (record { code = code; values = list }))
        reader.old (told_by (λ _. info_shown info.new) result) reader.new }
{
    match info {
        Some(info) => describe_by(reader, info, first, code, value),
        None => Ok(()),
    }
}

/// Like `read_entry`, by the definition of the id, if there is one.
#[inline(always)]
fn entry_in<S: Source, V: ValueTaker>(
    reader: &mut BitReader<S>,
    definitions: &InForce,
    room: u64,
    id: u32,
    first: u64,
    values: &mut WithFirst<V>,
) -> Result<u64, Fault>
    requires live { reader.old.live ≡ true }
    requires id { 3 ≤ id }
    ensures adds { Gains (TookWithFirst V.took) values.old values.new
        (AddsWithin (entry room first id definitions.now.all) room reader.old result reader.new) }
    ensures keeps { Keeps (TookWithFirst V.took) values.old values.new }
{
    let found = if id == 3 {
        None
    } else {
        definitions.find((id - 4) as usize)
    };
    let ready = match found {
        Some(Found::Held(ops)) => {
            return read_held_record::<V, _, _>(reader, ops, first, room, values);
        }
        Some(Found::Ready(ready)) => Some(ready),
        None => None,
    };
    read_entry::<V, _, _>(reader, ready, room, id, first, values)
}

/// Reads a record, after its id, which began at `first`, and returns its code and the bit after it. The value sink is empty before.
pub(crate) fn record_after<S: Source, V: ValueTaker>(
    reader: &mut BitReader<S>,
    frame: &mut Frame,
    room: u64,
    values: &mut WithFirst<V>,
    id: u32,
    first: u64,
) -> Result<(u64, u64), Fault>
    requires live { reader.old.live ≡ true }
    requires none { TookWithFirst V.took values.old [] }
    requires id { 3 ≤ id }
    ensures takes { Has V.took values.new.taker
        (λ list. (limit : ℕ) (handed : Handed) → limit - handed.used ≡ room
        → Takes (record_after limit first id (scope_of (frame_shown frame.old) handed)) reader.old
        (told_by (λ r. (
          record {
            abbreviation = id;
            code = r.0;
            values = list;
            first = first;
            after = r.1;
          },
          scope_of (frame_shown frame.new)
              (record { table = handed.table; used = handed.used + length list }),
        )) result) reader.new) }
    ensures few { Has V.took values.new.taker (λ list. OnOk result (length list ≤ room)) }
    ensures head { frame.new.head ≡ frame.old.head }
{
    let code = entry_in(reader, &frame.definitions, room, id, first, values)?;
    let after = reader.position();
    describe(reader, &mut frame.info, first, code, values.first)?;
    Ok((code, after))
}
