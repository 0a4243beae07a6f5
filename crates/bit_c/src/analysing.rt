//! The analysis of an input, as rows.

ghost use Rattle.std.specs.Prelude.{◌≡◌, ◌++◌, map, IfOk, OnOk};
ghost use Rattle.bit_scan.specs.CodesView.{code_tallies};
ghost use Rattle.bit_scan.specs.Rows.{block_tally, block_tallies};
ghost use Rattle.bit_c.specs.Ending.{EndsCall};
ghost use Rattle.bit_c.specs.Limiting.{Within, limits_told};
ghost use Rattle.bit_c.specs.Rows.{Analyses, GivesRows, GivesTally, LeavesRows, code_told, codes_told, no_tally, row_told};

use crate::keys::BsKeys;
use crate::limits::BsLimits;
use crate::outcome::{BsFault, Outcome};
use crate::room::put;
use bit_fields::{Limits, SliceSource};
use bit_scan::{Analysis, BlockRow, Codes, analyse_with_hasher};
use indexmap::IndexMap;
use std::alloc::{AllocError, Global};

/// The totals of a stream, and the numbers of rows of its analysis. All zeros if there is no analysis.
#[repr(C)]
#[derive(Clone, Copy)]
pub struct BsTally {
    /// The magic of the stream, its first byte first.
    pub magic: [u8; 4],
    /// The bits of the stream, from its magic to its end, without a wrapper.
    pub bits: u64,
    /// The number of rows of block ids.
    pub blocks: usize,
    /// The number of rows of codes, over all block ids.
    pub codes: usize,
}

/// Totals of the blocks with one id. No number counts the items of blocks inside them.
#[repr(C)]
#[derive(Clone, Copy)]
pub struct BsBlockRow {
    pub id: u32,
    pub blocks: u64,
    pub bits: u64,
    pub definitions: u64,
    pub records: u64,
    pub abbreviated: u64,
    pub values: u64,
    /// The number of rows of codes for this row. They follow those of the row before.
    pub codes: usize,
}

/// Totals of the records with one code, in blocks with one id.
#[repr(C)]
#[derive(Clone, Copy)]
pub struct BsCodeRow {
    pub code: u64,
    pub count: u64,
    pub bits: u64,
}

pub(crate) const NO_TALLY: BsTally = BsTally {
    magic: [0; 4],
    bits: 0,
    blocks: 0,
    codes: 0,
};

/// Rows of an analysis that are found by keys.
type Rows = IndexMap<u32, BlockRow<BsKeys>, BsKeys>;

/// A row as C sees it.
fn block_row(id: u32, row: &BlockRow<BsKeys>) -> BsBlockRow
    ensures { result ≡ row_told (block_tally (id, row.now)) }
{
    BsBlockRow {
        id,
        blocks: row.blocks,
        bits: row.bits,
        definitions: row.definitions,
        records: row.records,
        abbreviated: row.abbreviated,
        values: row.values,
        codes: row.codes.0.len(),
    }
}

/// The rows of block ids, as C sees them.
fn block_rows(alloc: Global, rows: &Rows) -> Result<Vec<BsBlockRow>, AllocError>
    ensures { IfOk result (λ out. out.items ≡ map row_told (block_tallies rows.now.entries)) }
{
    let mut out = Vec::new(alloc);
    for (id, row) in rows.iter() {
        out.push(block_row(*id, row))?;
    }
    Ok(out)
}

/// Adds the rows of codes of a block id, as C sees them.
fn add_codes(out: &mut Vec<BsCodeRow>, codes: &Codes<BsKeys>) -> Result<(), AllocError>
    ensures { OnOk result
        (out.new.items ≡ out.old.items ++ map code_told (code_tallies codes.now)) }
{
    for (code, row) in codes.0.iter() {
        out.push(BsCodeRow {
            code: *code,
            count: row.count,
            bits: row.bits,
        })?;
    }
    Ok(())
}

/// The rows of codes of all block ids, as C sees them.
fn code_rows(alloc: Global, rows: &Rows) -> Result<Vec<BsCodeRow>, AllocError>
    ensures { IfOk result (λ out. out.items ≡ codes_told (block_tallies rows.now.entries)) }
{
    let mut out = Vec::new(alloc);
    for (_, row) in rows.iter() {
        add_codes(&mut out, &row.codes)?;
    }
    Ok(out)
}

/// Puts rows into the caller's room, if all of them fit.
fn give_rows(
    blocks: &[BsBlockRow],
    codes: &[BsCodeRow],
    block_room: &mut [BsBlockRow],
    code_room: &mut [BsCodeRow],
) -> Outcome
    ensures { GivesRows blocks.now codes.now block_room.old block_room.new code_room.old
        code_room.new result }
{
    if block_room.len() < blocks.len() || code_room.len() < codes.len() {
        return Outcome::Room;
    }
    put(blocks, block_room);
    put(codes, code_room);
    Outcome::Done
}

/// Sets an analysis, and hands out its rows.
fn give_tally(
    alloc: Global,
    analysis: &Analysis<BsKeys>,
    tally: &mut BsTally,
    block_room: &mut [BsBlockRow],
    code_room: &mut [BsCodeRow],
) -> Outcome
    ensures { GivesTally analysis.now tally.new block_room.old block_room.new code_room.old
        code_room.new result }
{
    *tally = NO_TALLY;
    let Ok(blocks) = block_rows(alloc, analysis.rows()) else {
        return Outcome::Memory;
    };
    let Ok(codes) = code_rows(alloc, analysis.rows()) else {
        return Outcome::Memory;
    };
    *tally = BsTally {
        magic: analysis.magic(),
        bits: analysis.bits(),
        blocks: blocks.len(),
        codes: codes.len(),
    };
    give_rows(&blocks, &codes, block_room, code_room)
}

/// Analyses bytes, sets the totals, and hands out the rows.
fn analyse_under(
    alloc: Global,
    bytes: &[u8],
    limits: Limits,
    keys: BsKeys,
    tally: &mut BsTally,
    block_room: &mut [BsBlockRow],
    code_room: &mut [BsCodeRow],
) -> Outcome
    ensures { Analyses limits bytes.now tally.new block_room.old block_room.new code_room.old
        code_room.new result }
{
    let (answer, _) = analyse_with_hasher(alloc, SliceSource::new(bytes), limits, keys);
    match answer {
        Ok(analysis) => give_tally(alloc, &analysis, tally, block_room, code_room),
        Err(fault) => {
            *tally = NO_TALLY;
            Outcome::of(0, fault)
        }
    }
}

/// The same with limits that may be past their caps.
pub(crate) fn analyse_within(
    alloc: Global,
    bytes: &[u8],
    limits: &BsLimits,
    keys: BsKeys,
    tally: &mut BsTally,
    block_room: &mut [BsBlockRow],
    code_room: &mut [BsCodeRow],
) -> Outcome
    ensures { let l = limits_told limits.now in Within l
        ((tally.new ≡ no_tally) × LeavesRows block_room.old block_room.new code_room.old
        code_room.new) (Analyses l bytes.now tally.new block_room.old block_room.new code_room.old
        code_room.new) result }
{
    match limits.to_limits() {
        Some(limits) => analyse_under(alloc, bytes, limits, keys, tally, block_room, code_room),
        None => {
            *tally = NO_TALLY;
            Outcome::Limits
        }
    }
}

/// Analyses bytes, and sets the magic, the bits and the numbers of rows. The rows go into the caller's rooms, all of them
/// or none.
#[unsafe(no_mangle)]
pub extern "C" fn bs_analyse(
    alloc: Global,
    bytes: &[u8],
    limits: &BsLimits,
    tally: &mut BsTally,
    block_room: &mut [BsBlockRow],
    code_room: &mut [BsCodeRow],
    fault: &mut BsFault,
    keys: &BsKeys,
) -> u32
    ensures { let l = limits_told limits.now in EndsCall result fault.new
        (Within l ((tally.new ≡ no_tally) × LeavesRows block_room.old block_room.new code_room.old
        code_room.new) (Analyses l bytes.now tally.new block_room.old block_room.new code_room.old
        code_room.new)) }
{
    analyse_within(alloc, bytes, limits, *keys, tally, block_room, code_room).tell(fault)
}
