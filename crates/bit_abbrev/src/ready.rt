//! Definitions that are ready to be read by, and those behind them.

ghost use Rattle.std.specs.Prelude.{◌≡◌, ◌<◌, ◌≤◌, ◌++◌, ◌∷◌, [], ℕ, List, true, IfOk, OnOk, OnErr, Some};
ghost use Rattle.bit_grammar.specs.Definition.{operands};
ghost use Rattle.bit_grammar.specs.declared.op.Op.{Op};
ghost use Rattle.bit_grammar.specs.declared.op.Place.TheVariants.{First};
ghost use Rattle.bit_grammar.specs.Terms.{defined_at};
ghost use Rattle.bit_abbrev.specs.Defining.{AddsRead};
ghost use Rattle.bit_abbrev.specs.Groups.{IsPlaceOf, ready_at, ready_for};
ghost use Rattle.bit_abbrev.specs.HeldLists.{held_for, InOrder};
ghost use Rattle.bit_abbrev.specs.Ready.{either, last_one, later_list, newest_of, newest_ready_of};

use crate::Abbrev;
use crate::held::HeldList;
use bit_fields::{BitReader, Fault, Shapes, Source};
use std::alloc::{AllocError, Global};
use std::boxed::Box;
use std::marker::Model;

/// How many definitions of a table, or own ones of a block, are ready at most. More would take much memory, and real files have
/// fewer.
const MOST_READY: u16 = 256;

/// How many operands they have at most.
const MOST_OPERANDS: u16 = 2048;

/// How many more definitions may be ready.
#[derive(Clone, Copy, Drop)]
pub(crate) struct Room {
    definitions: u16,
    operands: u16,
}

impl Room {
    /// For all of them.
    pub(crate) fn all() -> Room {
        Room {
            definitions: MOST_READY,
            operands: MOST_OPERANDS,
        }
    }

    /// Whether there is room for a definition with so many operands.
    #[inline(always)]
    pub(crate) fn has(&self, operands: u64) -> bool
        ensures { result ≡ true → (0 < self.now.definitions) × (operands ≤ self.now.operands)
            × (operands ≤ 65535) }
    {
        self.definitions > 0 && operands <= u64::from(self.operands)
    }

    /// Takes the room of a definition with so many operands, if it is there.
    #[inline(always)]
    pub(crate) fn take(&mut self, operands: usize) -> bool {
        if !self.has(operands as u64) {
            return false;
        }
        self.definitions -= 1;
        self.operands -= operands as u16;
        true
    }
}

/// The definitions for a block id that are ready.
#[derive(Drop)]
pub(crate) struct ReadyGroup {
    id: u32,
    ready: Vec<Abbrev>,
}

impl Model for ReadyGroup {
    ghost use Rattle.std.specs.Prelude.{ℕ, List};
    ghost use Rattle.bit_grammar.specs.declared.op.Op.{Op};

    ghost Value = { ℕ × List (List Op) };

    ghost view = { λ group. (group.id, group.ready.items) };
}

impl ReadyGroup {
    /// A group without definitions, with room for one.
    fn new(alloc: Global, id: u32) -> Result<ReadyGroup, AllocError>
        ensures { IfOk result (λ group. group ≡ (id, [])) }
    {
        Ok(ReadyGroup {
            id,
            ready: Vec::with_capacity(alloc, 1)?,
        })
    }

    /// The block id.
    #[inline(always)]
    pub(crate) fn id(&self) -> u32
        ensures { result ≡ self.now.0 }
    {
        self.id
    }

    /// The definitions.
    #[inline(always)]
    pub(crate) fn ready(&self) -> &[Abbrev]
        ensures { result.now ≡ self.now.1 }
    {
        self.ready.as_slice()
    }

    /// Adds a definition.
    fn add(&mut self, abbrev: Abbrev) -> Result<(), AllocError>
        ensures ok { OnOk result (self.new ≡ (self.old.0, self.old.1 ++ «abbrev» ∷ [])) }
        ensures err { OnErr result (self.new ≡ self.old) }
    {
        self.ready.push(abbrev)?;
        Ok(())
    }
}

/// The place of the first group for a block id, or the number of groups if there is none.
#[inline(always)]
pub(crate) fn place_of(groups: &[ReadyGroup], id: u32) -> usize
    ensures { IsPlaceOf groups.now id result }
{
    for (place, group) in groups.iter().enumerate() {
        if group.id() == id {
            return place;
        }
    }
    groups.len()
}

/// Adds a definition to those for a block id, and returns the place of their group.
pub(crate) fn add_ready(
    alloc: Global,
    groups: &mut Vec<ReadyGroup>,
    id: u32,
    abbrev: Abbrev,
) -> Result<usize, AllocError>
    ensures ok { IfOk result (λ place. (other : ℕ) → ready_for groups.new.items other
        ≡ defined_at id «abbrev» (ready_for groups.old.items) other) }
    ensures newest { IfOk result (λ place. last_one (ready_at groups.new.items place) ≡ Some «abbrev») }
    ensures err { OnErr result (groups.new.items ≡ groups.old.items) }
{
    let place = place_of(groups.as_slice(), id);
    if place < groups.len() {
        groups[place].add(abbrev)?;
        return Ok(place);
    }
    let mut group = ReadyGroup::new(alloc, id)?;
    group.add(abbrev)?;
    groups.push(group)?;
    Ok(place)
}

/// Adds a definition for a block id behind those that are ready. If an allocation fails, nothing changes.
#[cold]
#[inline(never)]
pub(crate) fn add_later(
    later: &mut Option<Box<HeldList>>,
    alloc: Global,
    id: u32,
    abbrev: &Abbrev,
) -> Result<(), AllocError>
    ensures list { OnOk result (later_list later.new ≡ later_list later.old ++ (id, «abbrev».now) ∷ []) }
    ensures newest { OnOk result (newest_of [] later.new ≡ Some «abbrev».now) }
    ensures err { OnErr result (later.new ≡ later.old) }
{
    if let Some(list) = later {
        return list.add(id, abbrev);
    }
    let mut list = HeldList::new(alloc);
    list.add(id, abbrev)?;
    *later = Some(Box::new(alloc, list)?);
    Ok(())
}

/// Reads a definition of `count` operands for a block id, and adds it behind those that are ready.
#[cold]
#[inline(never)]
pub(crate) fn read_later<S: Source>(
    later: &mut Option<Box<HeldList>>,
    alloc: Global,
    id: u32,
    reader: &mut BitReader<S>,
    shapes: Shapes,
    count: u64,
) -> Result<(), Fault>
    requires some { 0 < count }
    requires live { reader.old.live ≡ true }
    ensures { AddsRead (operands shapes count First) reader.old result reader.new
        (λ ops. (later_list later.new ≡ later_list later.old ++ (id, ops) ∷ [])
        × (newest_of [] later.new ≡ Some ops)) }
{
    if let Some(list) = later {
        return list.read(id, reader, shapes, count);
    }
    let mut list = HeldList::new(alloc);
    list.read(id, reader, shapes, count)?;
    match Box::new(alloc, list) {
        Ok(list) => *later = Some(list),
        Err(_) => return Err(reader.fail(Fault::Memory)),
    }
    Ok(())
}

/// The last one of the definitions behind those that are ready, if there is one.
pub(crate) fn last_later(
    later: &Option<Box<HeldList>>,
    alloc: Global,
) -> Result<Option<Abbrev>, AllocError>
    ensures { (ready : List (List Op)) → IfOk result (λ made. either made (newest_ready_of ready later.now)
        ≡ newest_of ready later.now) }
{
    match later {
        Some(list) => list.last(alloc),
        None => Ok(None),
    }
}

/// The definitions in the order of block ids. Those for one id stay in their order.
pub(crate) fn in_order(later: Option<Box<HeldList>>, alloc: Global) -> Result<HeldList, AllocError>
    ensures order { IfOk result InOrder }
    ensures same { IfOk result (λ list. (id : ℕ) → held_for list id ≡ held_for (later_list later) id) }
{
    match later {
        Some(list) => Box::into_inner(list).in_order(),
        None => Ok(HeldList::new(alloc)),
    }
}
