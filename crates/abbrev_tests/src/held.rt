//! Definitions that are held in few bytes, behind those that are ready.

use crate::definitions::{abbrev, add, literal, put};
use crate::plans::made;
use bit_abbrev::{
    Abbrev, Found, InForce, InfoBuilder, Op, SharedInfo, read_held_record, read_record,
};
use bit_fields::{BitReader, Fault, Limits, SliceSource};
use std::alloc::Global;
use std::test::Fail;

/// How many definitions are made for each of two ids, and by each block: more than are ready.
const MADE: u32 = 300;

/// The literal of the definition with this number for an id: of one byte, of two, or of more.
fn many_at(id: u32, number: u32) -> u64 {
    let value = 1 + 2 * u64::from(number) + u64::from(id % 2);
    match number % 3 {
        0 => value,
        1 => value << 8,
        _ => value << 40,
    }
}

/// A table with many definitions for the ids 9 and 8, by turns.
fn many_for_two(alloc: Global) -> Result<SharedInfo, Fail> {
    let mut table = InfoBuilder::new(alloc);
    for number in 0..MADE {
        put(alloc, &mut table, 9, many_at(9, number))?;
        put(alloc, &mut table, 8, many_at(8, number))?;
    }
    Ok(SharedInfo::share(alloc, table)?)
}

/// A block with this id that adds as many.
fn many_in_force(alloc: Global, shared: &SharedInfo, id: u32) -> Result<InForce, Fail> {
    let mut definitions = shared.enter(alloc, id)?;
    for number in 0..MADE {
        add(alloc, &mut definitions, many_at(id ^ 1, number))?;
    }
    Ok(definitions)
}

/// A copy of the definition that is found at an index.
fn copy_at(alloc: Global, definitions: &InForce, index: usize) -> Result<Option<Abbrev>, Fail> {
    match definitions.find(index) {
        Some(Found::Ready(ready)) => Ok(Some(ready.copy(alloc)?)),
        Some(Found::Held(ops)) => Ok(Some(ops.copy(alloc)?)),
        None => Ok(None),
    }
}

/// The literal of the definition that is found at an index; 0 for none.
fn literal_at(alloc: Global, definitions: &InForce, index: usize) -> Result<u64, Fail> {
    let found = copy_at(alloc, definitions, index)?;
    Ok(literal(found.as_ref()))
}

/// Whether all definitions of a block are found, in their order.
fn are_in_order(alloc: Global, definitions: &InForce, id: u32) -> Result<bool, Fail> {
    for number in 0..MADE {
        let shared = literal_at(alloc, definitions, number as usize)?;
        let own = literal_at(alloc, definitions, MADE as usize + number as usize)?;
        if shared != many_at(id, number) || own != many_at(id ^ 1, number) {
            return Ok(false);
        }
    }
    Ok(true)
}

/// Indices of the first and the last definitions that are ready, and of those behind them: 128 of the table, since it has two ids,
/// and 256 of the block.
static PLACES: [usize; 7] = [0, 127, 128, 299, 300, 555, 556];

/// Whether the definitions at these indices are ready.
fn ready_at(definitions: &InForce) -> [bool; 7] {
    let mut ready = [false; 7];
    for (place, is_ready) in PLACES.iter().zip(ready.iter_mut()) {
        *is_ready = definitions.get(*place).is_some();
    }
    ready
}

/// Of a block with many definitions: whether all are found in order, which are ready, the last one, and what is behind all.
fn many_told(alloc: Global, id: u32) -> Result<(bool, [bool; 7], u64, u64), Fail> {
    let definitions = many_in_force(alloc, &many_for_two(alloc)?, id)?;
    let found = are_in_order(alloc, &definitions, id)?;
    let ready = ready_at(&definitions);
    let behind = literal_at(alloc, &definitions, 2 * MADE as usize)?;
    let made = definitions.newest_made()?;
    Ok((found, ready, literal(made.as_ref()), behind))
}

static READY: [bool; 7] = [true, true, false, false, true, true, false];

#[test]
fn many_definitions_are_found(rt: HostRuntime) -> Result<(), Fail> {
    let eight = many_told(rt.alloc(), 8)?;
    let nine = many_told(rt.alloc(), 9)?;
    let alike = eight == (true, READY, many_at(9, MADE - 1), 0);
    assert!(rt; alike && nine == (true, READY, many_at(8, MADE - 1), 0));
    Ok(())
}

/// A definition of a literal and as many Char6 operands as are asked.
fn long_definition(alloc: Global, value: u64, chars: usize) -> Result<Abbrev, Fail> {
    let mut ops = Vec::new(alloc);
    ops.push(Op::Literal(value))?;
    for _index in 0..chars {
        ops.push(Op::Char6)?;
    }
    abbrev(alloc, ops.as_slice())
}

/// How many operands the definition at an index has, and its literal, if it is found; and whether it is ready.
fn length_at(
    alloc: Global,
    definitions: &InForce,
    index: usize,
) -> Result<(usize, u64, bool), Fail> {
    let ready = definitions.get(index).is_some();
    match copy_at(alloc, definitions, index)? {
        Some(found) => Ok((found.ops().len(), literal(Some(&found)), ready)),
        None => Ok((0, 0, ready)),
    }
}

#[test]
fn a_long_definition_and_those_behind_it_are_held(rt: HostRuntime) -> Result<(), Fail> {
    let mut definitions = InForce::new(rt.alloc());
    add(rt.alloc(), &mut definitions, 1)?;
    definitions.define(long_definition(rt.alloc(), 2, 2100)?)?;
    add(rt.alloc(), &mut definitions, 3)?;
    let first = length_at(rt.alloc(), &definitions, 0)?;
    let second = length_at(rt.alloc(), &definitions, 1)?;
    let third = length_at(rt.alloc(), &definitions, 2)?;
    assert!(rt; first == (1, 1, true) && second == (2101, 2, false) && third == (1, 3, false));
    Ok(())
}

/// Operands of each kind, in lawful orders.
static LISTS: [&[Op]; 7] = [
    &[Op::Fixed(0)],
    &[
        Op::Literal(70_000),
        Op::Literal(300),
        Op::Vbr(6),
        Op::Fixed(7),
        Op::Char6,
    ],
    &[Op::Fixed(3), Op::Array, Op::Char6],
    &[Op::Vbr(6), Op::Vbr(0), Op::Array, Op::Vbr(5)],
    &[Op::Literal(1), Op::Fixed(2), Op::Array, Op::Fixed(0)],
    &[Op::Char6, Op::Literal(u64::MAX), Op::Blob],
    &[Op::Literal(3), Op::Array, Op::Fixed(9)],
];

/// Two definitions with these operands, one that is ready and one that is held in few bytes, with others between them.
fn ready_and_held(alloc: Global, ops: &[Op]) -> Result<InForce, Fail> {
    let mut definitions = InForce::new(alloc);
    definitions.define(abbrev(alloc, ops)?)?;
    definitions.define(long_definition(alloc, 2, 2100)?)?;
    definitions.define(abbrev(alloc, ops)?)?;
    Ok(definitions)
}

/// The values of a record by a definition with at most `room` values, its code or why it is refused, and the position after it.
type Read = (Vec<u64>, Result<u64, Fault>, u64);

/// What is read from these bytes, behind their first 32 bits.
fn read_by(alloc: Global, bytes: &[u8], found: Option<Found<'_>>, room: u64) -> Result<Read, Fail> {
    let Ok((mut reader, _)) = BitReader::start(SliceSource::new(bytes), Limits::usual()) else {
        return Err("they have no magic".into());
    };
    let mut values = Vec::new(alloc);
    let first = reader.position();
    let id = reader.fixed(32);
    let code = match found {
        Some(Found::Held(ops)) if id.is_ok() => {
            read_held_record::<(), _, _>(&mut reader, ops, first, room, &mut values)
        }
        Some(Found::Ready(ready)) if id.is_ok() && ready.is_usable() => {
            read_record::<(), _, _>(&mut reader, ready, first, room, &mut values)
        }
        _ => return Err("there is none".into()),
    };
    Ok((values, code, reader.position()))
}

/// Whether a record is the same by the first definition and by the last one, and whether it was read.
fn is_same_by_both(
    alloc: Global,
    bytes: &[u8],
    definitions: &InForce,
    room: u64,
) -> Result<(bool, bool), Fail> {
    let ready = read_by(alloc, bytes, definitions.find(0), room)?;
    let held = read_by(alloc, bytes, definitions.find(2), room)?;
    let alike = ready.0.as_slice() == held.0.as_slice() && ready.1 == held.1 && ready.2 == held.2;
    Ok((alike, ready.1.is_ok()))
}

#[test]
fn records_by_held_definitions_are_the_same(rt: HostRuntime) -> Result<(), Fail> {
    let mut read = 0u32;
    for ops in &LISTS {
        let definitions = ready_and_held(rt.alloc(), ops)?;
        for seed in 0..24u64 {
            let (alike, is_read) = is_same_by_both(
                rt.alloc(),
                &made(seed),
                &definitions,
                seed * seed,
            )?;
            assert!(rt; alike, "{ops:?} after the seed {seed}");
            read = read.saturating_add(u32::from(is_read));
        }
    }
    assert!(rt; read > 60, "{read}");
    Ok(())
}
