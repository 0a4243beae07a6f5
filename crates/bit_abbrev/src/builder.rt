//! The table that a BLOCKINFO block makes.

ghost use Rattle.std.specs.Prelude.{◌≡◌, ◌<◌, true, None, Some, IfOk, OnOk, OnErr};
ghost use Rattle.std.specs.Option.{option_copied};
ghost use Rattle.bit_grammar.specs.Definition.{operands};
ghost use Rattle.bit_grammar.specs.declared.op.Place.TheVariants.{First};
ghost use Rattle.bit_grammar.specs.Terms.{defined_at, no_definitions};
ghost use Rattle.bit_abbrev.specs.Defining.{AddsRead};
ghost use Rattle.bit_abbrev.specs.Ready.{either, table_of};

use crate::Abbrev;
use crate::held::HeldList;
use crate::ready::{ReadyGroup, Room, add_later, add_ready, last_later, read_later};
use bit_fields::{BitReader, Fault, Shapes, Source};
use std::alloc::{AllocError, Global};
use std::boxed::Box;
use std::marker::Model;

/// Makes the table of a BLOCKINFO block: the definitions for each block id in the order in which they are made.
///
/// The first 256, with at most 2,048 operands, are ready to be read by. All others are held in two bytes for an operand, and eight for
/// each.
#[derive(Drop)]
pub struct InfoBuilder {
    pub(crate) alloc: Global,
    pub(crate) groups: Vec<ReadyGroup>,
    room: Room,
    /// The place of the group of the last definition that is ready.
    place: usize,
    pub(crate) later: Option<Box<HeldList>>,
}

impl Model for InfoBuilder {
    ghost use Rattle.bit_abbrev.specs.Groups.{ready_at};
    ghost use Rattle.bit_abbrev.specs.Ready.{InfoMade, later_list, newest_of, newest_ready_of};

    ghost Value = { InfoMade };

    ghost view = { λ builder. record {
      made = record { ready = builder.groups.items; later = later_list builder.later };
      newest = newest_of (ready_at builder.groups.items builder.place) builder.later;
      ready = newest_ready_of (ready_at builder.groups.items builder.place) builder.later;
    } };
}

impl InfoBuilder {
    /// A table without definitions. It allocates nothing.
    pub fn new(alloc: Global) -> InfoBuilder
        ensures made { table_of result.made ≡ no_definitions }
        ensures newest { result.newest ≡ None }
    {
        InfoBuilder {
            alloc,
            groups: Vec::new(alloc),
            room: Room::all(),
            place: 0,
            later: None,
        }
    }

    /// Adds a definition to those for a block id. If an allocation fails, it is dropped.
    pub fn define(&mut self, id: u32, abbrev: Abbrev) -> Result<(), AllocError>
        ensures made { OnOk result (table_of self.new.made ≡ defined_at id «abbrev» (table_of self.old.made)) }
        ensures newest { OnOk result (self.new.newest ≡ Some «abbrev») }
        ensures err { OnErr result (self.new ≡ self.old) }
    {
        if self.later.is_none() && self.room.take(abbrev.ops().len()) {
            self.place = add_ready(self.alloc, &mut self.groups, id, abbrev)?;
            return Ok(());
        }
        add_later(&mut self.later, self.alloc, id, &abbrev)
    }

    /// Whether a definition of so many operands would be ready.
    #[inline(always)]
    pub fn has_room(&self, count: u64) -> bool {
        self.later.is_none() && self.room.has(count)
    }

    /// Reads the operands of a definition for a block id, after their number, and adds it behind those that are ready.
    pub fn read_held<S: Source>(
        &mut self,
        id: u32,
        reader: &mut BitReader<S>,
        shapes: Shapes,
        count: u64,
    ) -> Result<(), Fault>
        requires some { 0 < count }
        requires live { reader.old.live ≡ true }
        ensures { AddsRead (operands shapes count First) reader.old result reader.new
            (λ ops. (table_of self.new.made ≡ defined_at id ops (table_of self.old.made))
            × (self.new.newest ≡ Some ops)) }
    {
        read_later(&mut self.later, self.alloc, id, reader, shapes, count)
    }

    /// The last definition that was added, if there is one and it is ready.
    pub fn newest_ready(&self) -> Option<&Abbrev>
        ensures { option_copied result ≡ self.now.ready }
    {
        match &self.later {
            Some(_) => None,
            None => self.groups.get(self.place)?.ready().last(),
        }
    }

    /// The last definition that was added, made anew, if there is one and it is not ready.
    pub fn newest_made(&self) -> Result<Option<Abbrev>, AllocError>
        ensures { IfOk result (λ made. either made self.now.ready ≡ self.now.newest) }
    {
        last_later(&self.later, self.alloc)
    }
}
