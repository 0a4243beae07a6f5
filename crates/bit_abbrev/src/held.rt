//! Definitions that are held in few bytes.

ghost use Rattle.std.specs.Prelude.{◌≡◌, ◌<◌, ◌^◌, ◌++◌, ◌∷◌, [], ℕ, true, Some, IfOk, IfSome, IfNone, OnOk, OnErr, length, slice_get};
ghost use Rattle.bit_grammar.specs.Definition.{operands};
ghost use Rattle.bit_grammar.specs.declared.op.Place.TheVariants.{First};
ghost use Rattle.bit_grammar.specs.FormatDefinition.{Definable};
ghost use Rattle.bit_abbrev.specs.HeldLists.{all_of, held_for, InOrder, IsRunOf};
ghost use Rattle.bit_abbrev.specs.HeldOps.{more, ops_in, Extends, Holds};
ghost use Rattle.bit_abbrev.specs.declared.held.Head.{Head};
ghost use Rattle.bit_abbrev.specs.declared.held_op.HeldOp.TheVariants.{End};
ghost use Rattle.bit_abbrev.specs.Defining.{AddsRead};
ghost use Rattle.bit_abbrev.specs.Ready.{last_one};

use crate::abbrev::{Abbrev, Ops};
use crate::definition::read_operands;
use crate::held_op::{HeldOp, push};
use crate::op_taker::OpTaker;
use bit_fields::{BitReader, Fault, Shapes, Source};
use bit_grammar::Op;
use std::alloc::{AllocError, Global};
use std::marker::Model;

/// A definition among others: the id of the blocks that it is for in a table, and 0 in a block; where its operands begin in the list
/// of all.
#[derive(Clone, Copy, Drop)]
pub(crate) struct Head {
    id: u32,
    start: u32,
}

/// Definitions one after another among others: the index of the first one, and the index after the last one.
#[derive(Clone, Copy, Drop)]
pub(crate) struct Run {
    pub(crate) start: usize,
    pub(crate) end: usize,
}

/// The operands of a definition that is held in few bytes.
#[derive(Drop)]
pub struct HeldOps<'a> {
    pub(crate) held: &'a [HeldOp],
}

impl<'a> Model for HeldOps<'a> {
    ghost use Rattle.std.specs.Prelude.{List};
    ghost use Rattle.bit_grammar.specs.declared.op.Op.{Op};
    ghost use Rattle.bit_grammar.specs.FormatDefinition.{Definable};
    ghost use Rattle.bit_abbrev.specs.HeldOps.{ops_in};

    ghost Value = { List Op };

    ghost view = { λ ops. ops_in ops.held.now };

    ghost invariant = { λ ops. Definable (ops_in ops.held.now) };
}

/// What the further bytes of a literal add to it, in units of 256.
fn more(held: &[HeldOp]) -> u64
    ensures { result ≡ more held.now }
{
    match held {
        [HeldOp::More(byte), rest @ ..] => (u64::from(*byte) + 256 * more(rest)) % (1 << 56),
        _ => 0,
    }
}

/// The first operand, if there is one, and what is held behind it.
#[inline(always)]
pub(crate) fn first_in(held: &[HeldOp]) -> Option<(Op, &[HeldOp])>
    ensures some { IfSome result (λ found. ops_in held.now ≡ found.0 ∷ ops_in found.1.now) }
    ensures none { IfNone result (ops_in held.now ≡ []) }
    ensures shorter { IfSome result (λ found. length found.1.now < length held.now) }
{
    let mut left = held;
    while let [first, rest @ ..] = left {
        let op = match *first {
            HeldOp::Literal(value) => Op::Literal(u64::from(value)),
            HeldOp::Great(byte) => Op::Literal(u64::from(byte) + 256 * more(rest)),
            HeldOp::Fixed(width) => Op::Fixed(width),
            HeldOp::Vbr(width) => Op::Vbr(width),
            HeldOp::Array => Op::Array,
            HeldOp::Char6 => Op::Char6,
            HeldOp::Blob => Op::Blob,
            HeldOp::End => return None,
            HeldOp::More(_) => {
                left = rest;
                continue;
            }
        };
        return Some((op, rest));
    }
    None
}

impl<'a> HeldOps<'a> {
    /// The definition with these operands.
    pub fn copy(self, alloc: Global) -> Result<Abbrev, AllocError>
        ensures { IfOk result (λ copy. copy ≡ self.entry) }
    {
        let mut ops = Ops::new(alloc);
        let mut left = self.held;
        while let Some((op, rest)) = first_in(left) {
            ops.push(op)?;
            left = rest;
        }
        Ok(Abbrev::from_definable(ops))
    }
}

/// Definitions in order, each with the id of the blocks that it is for; or those of one block.
///
/// Their operands stand in one list, two bytes for each, and eight bytes tell where those of a definition begin.
#[derive(Drop)]
pub(crate) struct HeldList {
    held: Vec<HeldOp>,
    heads: Vec<Head>,
}

impl Model for HeldList {
    ghost use Rattle.std.specs.Prelude.{ℕ, List};
    ghost use Rattle.bit_grammar.specs.declared.op.Op.{Op};
    ghost use Rattle.bit_abbrev.specs.Heads.{AreHeld};
    ghost use Rattle.bit_abbrev.specs.HeldLists.{held_shown};

    ghost Value = { List (ℕ × List Op) };

    ghost view = { λ list. held_shown list.held.items list.heads.items };

    ghost invariant = { λ list. AreHeld list.held.items list.heads.items };
}

/// Adds operands at the end of a list. If there is no memory for all, some may be there.
fn hold(held: &mut Vec<HeldOp>, ops: &[Op]) -> Result<(), AllocError>
    ensures ok { OnOk result (Holds held.old.items held.new.items ops.now) }
    ensures err { OnErr result (Extends held.old.items held.new.items) }
{
    for op in ops {
        push(held, *op)?;
    }
    Ok(())
}

impl OpTaker for Vec<HeldOp> {
    ghost use Rattle.bit_abbrev.specs.HeldOps.{Holds};

    ghost added = { λ first ops last. Holds first.items last.items ops };

    #[inline(always)]
    fn take(&mut self, op: Op) -> Result<(), AllocError> {
        push(self, op)
    }
}

/// Ends a definition for a block id, whose operands begin at `start`. If an allocation fails, or all have 2^32 operands, there is no
/// definition more.
fn close(
    held: &mut Vec<HeldOp>,
    heads: &mut Vec<Head>,
    id: u32,
    start: usize,
) -> Result<(), AllocError>
    ensures held { OnOk result (held.new.items ≡ held.old.items ++ End ∷ []) }
    ensures heads { OnOk result (heads.new.items ≡ heads.old.items ++ record { id = id; start = start } ∷ []) }
    ensures more { OnErr result (Extends held.old.items held.new.items) }
    ensures same { OnErr result (heads.new.items ≡ heads.old.items) }
{
    if start > u32::MAX as usize {
        return Err(AllocError);
    }
    held.push(HeldOp::End)?;
    heads.push(Head {
        id,
        start: start as u32,
    })?;
    Ok(())
}

impl HeldList {
    /// No definitions. It allocates nothing.
    pub(crate) fn new(alloc: Global) -> HeldList
        ensures { result ≡ [] }
    {
        HeldList {
            held: Vec::new(alloc),
            heads: Vec::new(alloc),
        }
    }

    /// How many there are.
    pub(crate) fn len(&self) -> usize
        ensures len { result ≡ length self.now }
        ensures few { result < 2 ^ 63 }
    {
        self.heads.len()
    }

    /// Adds a definition for a block id. If an allocation fails, or all have 2^32 operands, nothing changes.
    pub(crate) fn add(&mut self, id: u32, abbrev: &Abbrev) -> Result<(), AllocError>
        ensures ok { OnOk result (self.new ≡ self.old ++ (id, «abbrev».now) ∷ []) }
        ensures err { OnErr result (self.new ≡ self.old) }
    {
        let start = self.held.len();
        hold(&mut self.held, abbrev.ops())?;
        close(&mut self.held, &mut self.heads, id, start)?;
        Ok(())
    }

    /// Reads a definition of `count` operands for a block id, and adds it.
    pub(crate) fn read<S: Source>(
        &mut self,
        id: u32,
        reader: &mut BitReader<S>,
        shapes: Shapes,
        count: u64,
    ) -> Result<(), Fault>
        requires some { 0 < count }
        requires live { reader.old.live ≡ true }
        ensures { AddsRead (operands shapes count First) reader.old result reader.new
            (λ ops. self.new ≡ self.old ++ (id, ops) ∷ []) }
    {
        let start = self.held.len();
        read_operands(reader, shapes, count, &mut self.held)?;
        match close(&mut self.held, &mut self.heads, id, start) {
            Ok(()) => {}
            Err(_) => return Err(reader.fail(Fault::Memory)),
        }
        Ok(())
    }

    /// The same definitions in the order of block ids. Those for one id stay in their order.
    pub(crate) fn in_order(self) -> Result<HeldList, AllocError>
        ensures order { IfOk result InOrder }
        ensures same { IfOk result (λ list. (id : ℕ) → held_for list id ≡ held_for self id) }
    {
        let HeldList { held, mut heads } = self;
        heads.sort_by_key(|head| head.id)?;
        Ok(HeldList { held, heads })
    }

    /// Where the definitions for a block id are, if all are in the order of ids.
    pub(crate) fn run_of(&self, id: u32) -> Run
        requires { InOrder self.now }
        ensures { IsRunOf self.now id result }
    {
        let heads = self.heads.as_slice();
        Run {
            start: heads.partition_point(|head| head.id < id),
            end: heads.partition_point(|head| head.id <= id),
        }
    }

    /// The operands of the definition at an index.
    pub(crate) fn at(&self, index: usize) -> HeldOps<'_>
        requires { index < length self.now }
        ensures { slice_get (all_of self.now) index ≡ Some result }
    {
        let start = self.heads[index].start as usize;
        HeldOps {
            held: &self.held[start..],
        }
    }

    /// The last definition, if there is one.
    pub(crate) fn last(&self, alloc: Global) -> Result<Option<Abbrev>, AllocError>
        ensures { IfOk result (λ last. last ≡ last_one (all_of self.now)) }
    {
        match self.len() {
            0 => Ok(None),
            len => Ok(Some(self.at(len - 1).copy(alloc)?)),
        }
    }
}
