//! Where two inputs first differ, as C sees it.

ghost use Rattle.std.specs.Prelude.{◌≡◌, map, IfOk};
ghost use Rattle.bit_norm.specs.Entries.{difference_shown, place_shown, standing_shown};
ghost use Rattle.bit_c.specs.Differing.{GivesDifference, Stands, Tells, block_told, items_before, open_in, place_number, value_difference_told};

use crate::outcome::Outcome;
use crate::room::put;
use bit_norm::{Difference, OpenBlock, Place, Standing, ValueDifference, What};
use std::alloc::{AllocError, Global};

const MAGIC: u32 = 1;

const BLOCK: u32 = 2;

const RECORD: u32 = 3;

const END: u32 = 4;

/// An open block.
#[repr(C)]
#[derive(Clone, Copy)]
pub struct BsOpenBlock {
    pub id: u32,
    /// The number of items of the tree before it in the block around it, or at the top.
    pub items: u64,
}

/// The item at a place of an input, and its first bit. Fields that its kind does not have are 0.
#[repr(C)]
#[derive(Clone, Copy)]
pub struct BsStanding {
    /// Counted from the first bit of the input. An end begins where the last item of the tree before it in its block ended. If
    /// there is no such item, it begins after the length of the block, or after the magic.
    pub bit: u64,
    /// 1 for the magic, 2 for a block, 3 for a record, 4 for the end of the innermost open block, or of the stream.
    pub kind: u32,
    /// The magic of the stream, its first byte first.
    pub magic: [u8; 4],
    /// Of a block.
    pub id: u32,
    /// Of a record.
    pub code: u64,
    /// The number of values of a record, the code not counted.
    pub count: u64,
}

/// The first values of two records that differ. All zeros if none differ.
#[repr(C)]
#[derive(Clone, Copy)]
pub struct BsValueDifference {
    /// Whether values differ. They do not if one list of values is a prefix of the other.
    pub differ: bool,
    /// Counted from 0.
    pub index: u64,
    pub first: u64,
    pub second: u64,
}

/// Where two inputs first differ. All zeros if they do not differ.
#[repr(C)]
#[derive(Clone, Copy)]
pub struct BsDifference {
    /// 0 for no place, 1 for the magics, 2 for a place in blocks or at the top.
    pub place: u32,
    /// The number of open blocks at the place.
    pub depth: usize,
    /// The number of items of the tree before the place in the innermost of them, or at the top.
    pub items: u64,
    /// The item there in the first input.
    pub first: BsStanding,
    /// The item there in the second.
    pub second: BsStanding,
    /// For two records with the same code.
    pub values: BsValueDifference,
}

const NO_STANDING: BsStanding = BsStanding {
    bit: 0,
    kind: 0,
    magic: [0; 4],
    id: 0,
    code: 0,
    count: 0,
};

const NO_VALUES: BsValueDifference = BsValueDifference {
    differ: false,
    index: 0,
    first: 0,
    second: 0,
};

/// No difference.
pub(crate) const NO_DIFFERENCE: BsDifference = BsDifference {
    place: 0,
    depth: 0,
    items: 0,
    first: NO_STANDING,
    second: NO_STANDING,
    values: NO_VALUES,
};

/// The item at a place, as C sees it.
fn standing_of(standing: Standing) -> BsStanding
    ensures { Stands (standing_shown standing) result }
{
    let there = BsStanding {
        bit: standing.bit,
        ..NO_STANDING
    };
    match standing.what {
        What::Magic(magic) => BsStanding {
            kind: MAGIC,
            magic,
            ..there
        },
        What::Block(id) => BsStanding {
            kind: BLOCK,
            id,
            ..there
        },
        What::Record { code, count } => BsStanding {
            kind: RECORD,
            code,
            count,
            ..there
        },
        What::End => BsStanding { kind: END, ..there },
    }
}

/// The first values that differ, as C sees them.
fn values_of(value: Option<ValueDifference>) -> BsValueDifference
    ensures { result ≡ value_difference_told value }
{
    match value {
        Some(value) => BsValueDifference {
            differ: true,
            index: value.index,
            first: value.first,
            second: value.second,
        },
        None => NO_VALUES,
    }
}

/// The open blocks at a place.
fn open_at(place: &Place) -> &[OpenBlock]
    ensures { result.now ≡ open_in (place_shown place.now) }
{
    match place {
        Place::Magic => &[],
        Place::Item { open, .. } => open,
    }
}

/// The number of a place, and the number of items before it.
fn place_of(place: &Place) -> (u32, u64)
    ensures number { result.0 ≡ place_number (place_shown place.now) }
    ensures items { result.1 ≡ items_before (place_shown place.now) }
{
    match place {
        Place::Magic => (1, 0),
        Place::Item { items, .. } => (2, *items),
    }
}

/// A first difference, as C sees it.
fn difference_of(difference: &Difference) -> BsDifference
    ensures { Tells (difference_shown difference.now) result }
{
    let (place, items) = place_of(&difference.place);
    BsDifference {
        place,
        depth: open_at(&difference.place).len(),
        items,
        first: standing_of(difference.first),
        second: standing_of(difference.second),
        values: values_of(difference.value),
    }
}

/// Open blocks, as C sees them.
fn open_blocks(alloc: Global, blocks: &[OpenBlock]) -> Result<Vec<BsOpenBlock>, AllocError>
    ensures { IfOk result (λ out. out.items ≡ map block_told blocks.now) }
{
    let mut out = Vec::new(alloc);
    for block in blocks.iter() {
        out.push(BsOpenBlock {
            id: block.id,
            items: block.items,
        })?;
    }
    Ok(out)
}

/// Sets a first difference, and puts the open blocks into the caller's room, if all of them fit.
pub(crate) fn give_difference(
    alloc: Global,
    found: &Difference,
    difference: &mut BsDifference,
    room: &mut [BsOpenBlock],
) -> Outcome
    ensures { GivesDifference (difference_shown found.now) difference.new room.old room.new result }
{
    *difference = NO_DIFFERENCE;
    let Ok(open) = open_blocks(alloc, open_at(&found.place)) else {
        return Outcome::Memory;
    };
    *difference = difference_of(found);
    if room.len() < open.len() {
        return Outcome::Room;
    }
    put(&open, room);
    Outcome::Different
}
