//! Reading definitions.

ghost use Rattle.std.specs.Prelude.{◌≡◌, ◌-◌, ◌<◌, [], IfOk, OnOk, OnErr, true};
ghost use Rattle.bit_grammar.specs.Definition.{kind, passes, valued, operand, operands, definition};
ghost use Rattle.bit_grammar.specs.declared.shapes.Shapes.{Shapes};
ghost use Rattle.bit_grammar.specs.declared.op.Place.TheVariants.{First};
ghost use Rattle.bit_grammar.specs.FormatDefinition.{HasLawfulValue, Definable};
ghost use Rattle.bit_fields.specs.Reader.{Takes, IsOnly, told_by};
ghost use Rattle.bit_abbrev.specs.Defining.{AddsOps, TakesCount};

use crate::abbrev::{Abbrev, Ops, fits, place_after};
use crate::op_row::{OpRow, ROW};
use crate::op_taker::OpTaker;
use crate::short_op::short_op;
use crate::widths::{is_fixed_width, is_vbr_width};
use bit_fields::{BitReader, Fault, Source};
use bit_grammar::{Kind, Op, Place, Reason, Shapes};
use smallvec::SmallVec;
use std::alloc::{AllocError, Global};

/// Reads the flag of an operand, and its encoding if it has one. For `U` see `read_record`.
#[tactic(auto, unfolding(bit_grammar::specs::Definition::kind))]
fn read_kind<U, S: Source>(reader: &mut BitReader<S>) -> Result<Kind, Fault>
    ensures { Takes kind reader.old result reader.new }
{
    if reader.fixed(1)? == 1 {
        return Ok(Kind::Literal);
    }
    let first = reader.position();
    match reader.fixed(3)? {
        1 => Ok(Kind::Fixed),
        2 => Ok(Kind::Vbr),
        3 => Ok(Kind::Array),
        4 => Ok(Kind::Char6),
        5 => Ok(Kind::Blob),
        _ => Err(reader.fail(Fault::Refused {
            reason: Reason::AbbrevEncoding,
            bit: first,
        })),
    }
}

/// Reads the value of an operand of this kind.
#[tactic(auto, unfolding(bit_grammar::specs::Definition::valued))]
fn read_value<U, S: Source>(reader: &mut BitReader<S>, kind: Kind) -> Result<Op, Fault>
    requires { reader.old.live ≡ true }
    ensures takes { Takes (valued kind) reader.old result reader.new }
    ensures lawful { IfOk result HasLawfulValue }
{
    match kind {
        Kind::Literal => Ok(Op::Literal(reader.vbr(8)?)),
        Kind::Fixed => {
            let first = reader.position();
            let width = reader.vbr(5)?;
            reader.judge(is_fixed_width(width), Reason::FieldWidth, first)?;
            Ok(Op::Fixed(width as u8))
        }
        Kind::Vbr => {
            let first = reader.position();
            let width = reader.vbr(5)?;
            reader.judge(is_vbr_width(width), Reason::FieldWidth, first)?;
            Ok(Op::Vbr(width as u8))
        }
        Kind::Array => Ok(Op::Array),
        Kind::Char6 => Ok(Op::Char6),
        Kind::Blob => Ok(Op::Blob),
    }
}

/// Whether the shape of an operand passes where it is defined: if shapes are judged at their use, it always does.
pub(crate) fn passes(shapes: Shapes, fits: bool) -> bool
    ensures { result ≡ passes shapes fits }
{
    match shapes {
        Shapes::AtDefinition => fits,
        Shapes::AtUse => true,
    }
}

/// Reads an operand at a place, with `after` operands after it, field by field.
#[tactic(auto, unfolding(bit_grammar::specs::Definition::operand))]
#[cold]
#[inline(never)]
fn read_fields<U, S: Source>(
    reader: &mut BitReader<S>,
    shapes: Shapes,
    place: Place,
    after: u64,
) -> Result<Op, Fault>
    ensures takes { Takes (operand shapes place after) reader.old result reader.new }
    ensures lawful { IfOk result HasLawfulValue }
{
    let first = reader.position();
    let kind = read_kind::<U, S>(reader)?;
    let passed = passes(shapes, fits(place, after, kind));
    reader.judge(passed, Reason::AbbrevShape, first)?;
    read_value::<U, S>(reader, kind)
}

/// Reads an operand at a place, with `after` operands after it. One of few bits that the reader holds is read at once: its fields
/// would ask the source for nothing either.
#[inline(always)]
fn read_operand<U, S: Source>(
    reader: &mut BitReader<S>,
    shapes: Shapes,
    place: Place,
    after: u64,
) -> Result<Op, Fault>
    ensures takes { Takes (operand shapes place after) reader.old result reader.new }
    ensures lawful { IfOk result HasLawfulValue }
{
    if let Some(bits) = reader.peek(9) {
        if let Some(short) = short_op(bits, shapes, place, after) {
            reader.fixed(short.bits)?;
            return Ok(short.op);
        }
    }
    read_fields::<U, S>(reader, shapes, place, after)
}

/// Many operands while they are read.
type Gathered = SmallVec<Op, 8>;

/// How many operands are copied at most: a list that is made smaller leaves gaps in memory, and a copy of a long one costs as much
/// again.
const COPIED: usize = 4096;

impl OpTaker for Gathered {
    ghost use Rattle.std.specs.Prelude.{◌≡◌, ◌++◌};

    ghost added = { λ first ops last. last.items ≡ first.items ++ ops };

    #[inline(always)]
    fn take(&mut self, op: Op) -> Result<(), AllocError> {
        match self.push(op) {
            Ok(()) => Ok(()),
            Err(_) => Err(AllocError),
        }
    }
}

/// Reads `count` operands into a list. If it fails, some may have been added.
#[inline(always)]
pub(crate) fn read_operands<S: Source, T: OpTaker>(
    reader: &mut BitReader<S>,
    shapes: Shapes,
    count: u64,
    list: &mut T,
) -> Result<(), Fault>
    requires some { 0 < count }
    requires live { reader.old.live ≡ true }
    requires none { T.added list.old [] list.old }
    ensures { AddsOps T.added list.old list.new (λ ops. OnOk result (Definable ops)
        × Takes (operands shapes count First) reader.old (told_by (λ _. ops) result) reader.new) }
{
    let mut place = Place::First;
    for i in 0..count {
        let op = read_operand::<T, S>(reader, shapes, place, count - 1 - i)?;
        place = place_after(op);
        match list.take(op) {
            Ok(()) => {}
            Err(_) => return Err(reader.fail(Fault::Memory)),
        }
    }
    Ok(())
}

/// The same operands, without room for more.
#[cold]
#[inline(never)]
fn shrunk(gathered: Gathered) -> Result<Ops, AllocError>
    ensures { IfOk result (λ ops. ops.items ≡ gathered.items) }
{
    let mut ops = gathered.into_vec()?;
    ops.shrink_to_fit();
    Ok(Ops::from_vec(ops))
}

/// Reads the number of operands of a definition, after its abbreviation id.
#[inline(always)]
pub fn read_count<S: Source>(reader: &mut BitReader<S>) -> Result<u64, Fault>
    ensures takes { (shapes : Shapes) → TakesCount shapes reader.old result reader.new }
    ensures live { OnOk result (reader.new.live ≡ true) }
    ensures some { IfOk result (λ count. 0 < count) }
{
    let first = reader.position();
    let count = reader.vbr(5)?;
    reader.judge(count != 0, Reason::AbbrevEmpty, first)?;
    Ok(count)
}

/// Reads `count` operands.
#[inline(always)]
fn read_gathered<S: Source>(
    alloc: Global,
    reader: &mut BitReader<S>,
    shapes: Shapes,
    count: u64,
) -> Result<Gathered, Fault>
    requires some { 0 < count }
    requires live { reader.old.live ≡ true }
    ensures takes { Takes (operands shapes count First) reader.old
        (told_by (λ ops. ops.items) result) reader.new }
    ensures definable { IfOk result (λ ops. Definable ops.items) }
{
    let mut gathered = SmallVec::new(alloc);
    read_operands(reader, shapes, count, &mut gathered)?;
    Ok(gathered)
}

/// Reads the operands of a definition, after their number.
#[cold]
#[inline(never)]
fn read_many<S: Source>(
    alloc: Global,
    reader: &mut BitReader<S>,
    shapes: Shapes,
    count: u64,
) -> Result<Abbrev, Fault>
    requires some { 0 < count }
    requires live { reader.old.live ≡ true }
    ensures { Takes (operands shapes count First) reader.old result reader.new }
{
    let gathered = read_gathered(alloc, reader, shapes, count)?;
    let ops = if gathered.len() <= COPIED {
        Ops::from_slice(alloc, gathered.as_slice())
    } else {
        shrunk(gathered)
    };
    match ops {
        Ok(ops) => Ok(Abbrev::from_read(ops, shapes)),
        Err(_) => Err(reader.fail(Fault::Memory)),
    }
}

/// Reads the operands of a definition, of which a row has room for all.
#[inline(always)]
fn read_row<S: Source>(
    alloc: Global,
    reader: &mut BitReader<S>,
    shapes: Shapes,
    count: u64,
) -> Result<Abbrev, Fault>
    requires some { 0 < count }
    requires live { reader.old.live ≡ true }
    ensures { Takes (operands shapes count First) reader.old result reader.new }
{
    let mut row = OpRow::new();
    read_operands(reader, shapes, count, &mut row)?;
    match Ops::from_slice(alloc, row.as_slice()) {
        Ok(ops) => Ok(Abbrev::from_read(ops, shapes)),
        Err(_) => Err(reader.fail(Fault::Memory)),
    }
}

/// Reads the operands of a definition, after their number.
#[inline(always)]
pub fn read_ops<S: Source>(
    alloc: Global,
    reader: &mut BitReader<S>,
    shapes: Shapes,
    count: u64,
) -> Result<Abbrev, Fault>
    requires some { 0 < count }
    requires live { reader.old.live ≡ true }
    ensures { Takes (operands shapes count First) reader.old result reader.new }
{
    if count > ROW as u64 {
        return read_many(alloc, reader, shapes, count);
    }
    read_row(alloc, reader, shapes, count)
}

/// Reads the number of operands, and the operands.
fn read_definition<S: Source>(
    alloc: Global,
    reader: &mut BitReader<S>,
    shapes: Shapes,
) -> Result<Abbrev, Fault>
    ensures { Takes (definition shapes) reader.old result reader.new }
{
    let count = read_count(reader)?;
    read_ops(alloc, reader, shapes, count)
}

/// Reads a definition after its abbreviation id. If shapes are judged at their use, operands in any order are read.
///
/// After any fault the reader has failed, at the position where the call began. One or two operands need no allocation.
pub fn read_define<S: Source>(
    alloc: Global,
    reader: &mut BitReader<S>,
    shapes: Shapes,
) -> Result<Abbrev, Fault>
    ensures takes { Takes (definition shapes) reader.old result reader.new }
    ensures only { IsOnly (definition shapes) reader.old result reader.new }
    ensures stays { OnErr result (reader.new.position ≡ reader.old.position) }
{
    let first = reader.position();
    match read_definition(alloc, reader, shapes) {
        Ok(abbrev) => Ok(abbrev),
        Err(fault) => Err(reader.fail_at(fault, first)),
    }
}
