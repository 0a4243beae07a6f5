//! Definitions: which are lawful, how they are laid out, and which are in force.

use bit_abbrev::{Abbrev, InForce, InfoBuilder, InfoTable, Layout, Op, SharedInfo};
use bit_grammar::Reason;
use smallvec::SmallVec;
use std::alloc::{AllocError, Global};
use std::process::Abort;
use std::test::Fail;

/// Lists that are refused: the index of the operand that breaks the rules, and why.
static UNLAWFUL: [(&[Op], usize, Reason); 14] = [
    (&[], 0, Reason::AbbrevEmpty),
    (&[Op::Array, Op::Char6], 0, Reason::AbbrevShape),
    (&[Op::Blob], 0, Reason::AbbrevShape),
    (&[Op::Literal(1), Op::Array], 1, Reason::AbbrevShape),
    (
        &[Op::Literal(1), Op::Array, Op::Literal(0)],
        2,
        Reason::AbbrevShape,
    ),
    (
        &[Op::Literal(1), Op::Array, Op::Blob],
        2,
        Reason::AbbrevShape,
    ),
    (
        &[Op::Literal(1), Op::Array, Op::Char6, Op::Char6],
        1,
        Reason::AbbrevShape,
    ),
    (
        &[Op::Literal(1), Op::Blob, Op::Char6],
        1,
        Reason::AbbrevShape,
    ),
    (&[Op::Fixed(33)], 0, Reason::FieldWidth),
    (&[Op::Vbr(33)], 0, Reason::FieldWidth),
    (&[Op::Vbr(1)], 0, Reason::FieldWidth),
    (
        &[Op::Literal(1), Op::Fixed(33), Op::Vbr(1)],
        1,
        Reason::FieldWidth,
    ),
    (&[Op::Fixed(33), Op::Blob, Op::Char6], 0, Reason::FieldWidth),
    (
        &[Op::Literal(1), Op::Array, Op::Vbr(1)],
        2,
        Reason::FieldWidth,
    ),
];

static LAWFUL: [&[Op]; 6] = [
    &[Op::Fixed(0)],
    &[Op::Vbr(0)],
    &[Op::Literal(1), Op::Array, Op::Char6],
    &[Op::Char6, Op::Array, Op::Fixed(0)],
    &[Op::Literal(u64::MAX), Op::Vbr(32), Op::Fixed(32), Op::Blob],
    &[
        Op::Vbr(6),
        Op::Fixed(1),
        Op::Fixed(2),
        Op::Fixed(3),
        Op::Fixed(4),
        Op::Fixed(5),
        Op::Fixed(6),
        Op::Fixed(7),
        Op::Fixed(8),
        Op::Array,
        Op::Vbr(2),
    ],
];

/// Why a list is refused and where, if it is, and whether it is returned.
fn refusal(alloc: Global, ops: &[Op]) -> Result<Option<(bool, usize, Reason)>, AllocError> {
    match Abbrev::new(SmallVec::from_slice(alloc, ops)?) {
        Ok(_) => Ok(None),
        Err(bad) => Ok(Some((bad.ops.as_slice() == ops, bad.at, bad.reason))),
    }
}

#[test]
fn unlawful_lists_come_back(rt: HostRuntime) -> Result<(), Fail> {
    for (ops, at, reason) in &UNLAWFUL {
        let answer = refusal(rt.alloc(), ops)?;
        assert!(rt; answer == Some((true, *at, *reason)), "{ops:?}");
    }
    Ok(())
}

/// The definition with these operands.
pub(crate) fn abbrev(alloc: Global, ops: &[Op]) -> Result<Abbrev, Fail> {
    match Abbrev::new(SmallVec::from_slice(alloc, ops)?) {
        Ok(made) => Ok(made),
        Err(_) => Err("it is lawful".into()),
    }
}

fn is_kept_and_copied(alloc: Global, ops: &[Op]) -> Result<bool, Fail> {
    let made = abbrev(alloc, ops)?;
    let copy = made.copy(alloc)?;
    Ok(made.ops() == ops && copy.ops() == ops)
}

#[test]
fn lawful_lists_are_kept_and_copied(rt: HostRuntime) -> Result<(), Fail> {
    for ops in &LAWFUL {
        assert!(rt; is_kept_and_copied(rt.alloc(), ops)?, "{ops:?}");
    }
    Ok(())
}

/// Operands that each stand for one value.
static MANY: [Op; 33] = [Op::Literal(1); 33];

/// The layout of a definition and that of its copy, if they are the same.
fn layout_of(alloc: Global, ops: &[Op]) -> Result<Option<Layout>, Fail> {
    let made = abbrev(alloc, ops)?;
    let layout = made.copy(alloc)?.layout();
    Ok(if made.layout() == layout {
        Some(layout)
    } else {
        None
    })
}

#[test]
fn lists_have_their_layout(rt: HostRuntime) -> Result<(), Fail> {
    let layouts: [(&[Op], Layout); 11] = [
        (&[Op::Literal(1)], Layout::Singles),
        (
            &[Op::Literal(1), Op::Vbr(6), Op::Fixed(1), Op::Char6],
            Layout::Singles,
        ),
        (&MANY[..32], Layout::Singles),
        (&MANY, Layout::Odd),
        (&[Op::Fixed(1), Op::Vbr(6)], Layout::Coded),
        (&[Op::Literal(1), Op::Array, Op::Vbr(6)], Layout::List),
        (
            &[Op::Literal(1), Op::Vbr(6), Op::Array, Op::Char6],
            Layout::List,
        ),
        (&[Op::Fixed(1), Op::Array, Op::Vbr(6)], Layout::List),
        (&[Op::Literal(1), Op::Vbr(0)], Layout::Odd),
        (&[Op::Literal(1), Op::Array, Op::Vbr(0)], Layout::Odd),
        (&[Op::Literal(1), Op::Blob], Layout::Odd),
    ];
    for (ops, layout) in &layouts {
        let given = layout_of(rt.alloc(), ops)?;
        assert!(rt; given == Some(*layout), "{ops:?}");
    }
    Ok(())
}

#[test]
fn a_refused_list_says_why(rt: HostRuntime) -> Result<(), Fail> {
    let ops = SmallVec::from_slice(rt.alloc(), &[Op::Literal(1), Op::Array])?;
    let Err(bad) = Abbrev::new(ops) else {
        return Err("it was taken".into());
    };
    let told = format!(in rt.alloc(); "{bad}")?;
    assert!(rt; told.as_str() == "operand 1: AbbrevShape");
    Ok(())
}

/// A definition whose only operand is this literal.
fn constant(alloc: Global, value: u64) -> Result<Abbrev, Fail> {
    abbrev(alloc, &[Op::Literal(value)])
}

/// The literal with which a definition begins; 0 for no definition, and the greatest number for one that begins otherwise.
pub(crate) fn literal(definition: Option<&Abbrev>) -> u64 {
    match definition.map(Abbrev::ops) {
        None => 0,
        Some([Op::Literal(value), ..]) if *value > 0 => *value,
        Some(_) => u64::MAX,
    }
}

/// The literals of an id's definitions, with zeros after them.
fn literals_of(table: &InfoTable, id: u32) -> [u64; 5] {
    let definitions = table.for_block(id);
    let mut values = [0; 5];
    for (index, value) in values.iter_mut().enumerate() {
        *value = literal(definitions.get(index));
    }
    values
}

/// Defines a literal. If an allocation fails, the others stay.
fn define(
    rt: &impl Abort,
    alloc: Global,
    table: &mut InfoTable,
    id: u32,
    value: u64,
) -> Result<(), Fail> {
    let before = literals_of(table, id);
    let definition = constant(alloc, value)?;
    if let Err(refused) = table.define(id, definition) {
        assert!(rt; literals_of(table, id) == before);
        return Err(refused.into());
    }
    Ok(())
}

/// The definitions of four ids.
fn four_ids(table: &InfoTable) -> [[u64; 5]; 4] {
    [
        literals_of(table, 8),
        literals_of(table, 0),
        literals_of(table, u32::MAX),
        literals_of(table, 9),
    ]
}

/// Defines five literals for three ids, in turn.
fn define_five(rt: &impl Abort, alloc: Global, table: &mut InfoTable) -> Result<(), Fail> {
    for (id, value) in [(8, 1), (0, 2), (8, 3), (u32::MAX, 4), (8, 5)] {
        define(rt, alloc, table, id, value)?;
    }
    Ok(())
}

static FOUR_IDS: [[u64; 5]; 4] = [
    [1, 3, 5, 0, 0],
    [2, 0, 0, 0, 0],
    [4, 0, 0, 0, 0],
    [0, 0, 0, 0, 0],
];

#[test]
fn the_table_keeps_the_order_of_each_id(rt: HostRuntime) -> Result<(), Fail> {
    let mut table = InfoTable::new(rt.alloc());
    let before = table.for_block(8).len();
    define_five(&rt, rt.alloc(), &mut table)?;
    let told = four_ids(&table);
    assert!(rt; before == 0 && told == FOUR_IDS);
    Ok(())
}

/// The literals of the definitions in force with zeros after them, and that of the last one which the block added.
fn in_force(definitions: &InForce) -> ([u64; 9], u64) {
    let mut values = [0; 9];
    for (index, value) in values.iter_mut().enumerate() {
        *value = literal(definitions.get(index));
    }
    (values, literal(definitions.newest_ready()))
}

/// Adds a definition to a table.
pub(crate) fn put(alloc: Global, table: &mut InfoBuilder, id: u32, value: u64) -> Result<(), Fail> {
    table.define(id, constant(alloc, value)?)?;
    Ok(())
}

/// A table that has these literals for this id.
fn table_of(alloc: Global, id: u32, values: &[u64]) -> Result<InfoBuilder, Fail> {
    let mut table = InfoBuilder::new(alloc);
    for value in values {
        put(alloc, &mut table, id, *value)?;
    }
    Ok(table)
}

fn shared_of(alloc: Global, id: u32, values: &[u64]) -> Result<SharedInfo, Fail> {
    let table = table_of(alloc, id, values)?;
    Ok(SharedInfo::share(alloc, table)?)
}

/// Adds a definition to a block.
pub(crate) fn add(alloc: Global, definitions: &mut InForce, value: u64) -> Result<(), Fail> {
    definitions.define(constant(alloc, value)?)?;
    Ok(())
}

/// Enters a block, and adds these definitions.
fn begun(alloc: Global, shared: &SharedInfo, id: u32, values: &[u64]) -> Result<InForce, Fail> {
    let mut definitions = shared.enter(alloc, id)?;
    for value in values {
        add(alloc, &mut definitions, *value)?;
    }
    Ok(definitions)
}

/// Blocks that are open at the same time: their ids, and the literals that each adds.
static OPEN: [(u32, &[u64]); 3] = [(8, &[3]), (8, &[]), (9, &[])];

fn all_begun(alloc: Global, shared: &SharedInfo) -> Result<Vec<InForce>, Fail> {
    let mut blocks = Vec::new(alloc);
    for (id, values) in &OPEN {
        blocks.push(begun(alloc, shared, *id, values)?)?;
    }
    Ok(blocks)
}

/// The open blocks, after another table has replaced theirs.
fn open_blocks(alloc: Global, shared: &mut SharedInfo) -> Result<Vec<InForce>, Fail> {
    let blocks = all_begun(alloc, shared)?;
    *shared = shared_of(alloc, 9, &[4])?;
    Ok(blocks)
}

/// The definitions in force where a block begins.
fn in_force_at(alloc: Global, shared: &SharedInfo, id: u32) -> Result<([u64; 9], u64), Fail> {
    let definitions = shared.enter(alloc, id)?;
    Ok(in_force(&definitions))
}

/// The same of a block 8 and a block 9.
fn in_force_at_two(alloc: Global, shared: &SharedInfo) -> Result<[([u64; 9], u64); 2], Fail> {
    Ok([
        in_force_at(alloc, shared, 8)?,
        in_force_at(alloc, shared, 9)?,
    ])
}

/// The definitions in force in three blocks.
fn in_three(blocks: &[InForce]) -> Option<[([u64; 9], u64); 3]> {
    match blocks {
        [outer, inner, other] => Some([in_force(outer), in_force(inner), in_force(other)]),
        _ => None,
    }
}

/// The definitions in force in blocks whose table was replaced, after one more definition in the outer one; and in blocks that are
/// entered then.
fn in_force_after(
    alloc: Global,
) -> Result<(Option<[([u64; 9], u64); 3]>, [([u64; 9], u64); 2]), Fail> {
    let mut shared = shared_of(alloc, 8, &[1, 2])?;
    let mut blocks = open_blocks(alloc, &mut shared)?;
    if let Some(outer) = blocks.first_mut() {
        add(alloc, outer, 5)?;
    }
    let later = in_force_at_two(alloc, &shared)?;
    Ok((in_three(&blocks), later))
}

static KEPT: [([u64; 9], u64); 3] = [
    ([1, 2, 3, 5, 0, 0, 0, 0, 0], 5),
    ([1, 2, 0, 0, 0, 0, 0, 0, 0], 0),
    ([0, 0, 0, 0, 0, 0, 0, 0, 0], 0),
];

static LATER: [([u64; 9], u64); 2] = [
    ([0, 0, 0, 0, 0, 0, 0, 0, 0], 0),
    ([4, 0, 0, 0, 0, 0, 0, 0, 0], 0),
];

#[test]
fn open_blocks_keep_what_they_had(rt: HostRuntime) -> Result<(), Fail> {
    let (told, later) = in_force_after(rt.alloc())?;
    assert!(rt; told == Some(KEPT) && later == LATER);
    Ok(())
}

#[test]
fn nothing_is_in_force_at_first(rt: HostRuntime) -> Result<(), Fail> {
    let shared = SharedInfo::new();
    let told = in_force_at(rt.alloc(), &shared, 8)?;
    assert!(rt; told == ([0; 9], 0));
    Ok(())
}

/// Adds a definition to a block. If an allocation fails, the others stay.
fn add_or_keep(
    rt: &impl Abort,
    alloc: Global,
    definitions: &mut InForce,
    value: u64,
) -> Result<(), Fail> {
    let before = in_force(definitions);
    let answer = add(alloc, definitions, value);
    assert!(rt; answer.is_ok() || in_force(definitions) == before);
    answer
}

#[test]
fn a_refused_definition_leaves_the_others(rt: HostRuntime) -> Result<(), Fail> {
    let mut definitions = InForce::new(rt.alloc());
    for value in 1..9 {
        add_or_keep(&rt, rt.alloc(), &mut definitions, value)?;
    }
    let told = in_force(&definitions);
    assert!(rt; told == ([1, 2, 3, 4, 5, 6, 7, 8, 0], 8));
    Ok(())
}
