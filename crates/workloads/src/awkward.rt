//! Units that no compiler writes: great numbers, narrow and wide arrays, long records, a definition for each block, deep and empty
//! blocks.

use crate::random::Random;
use crate::unit::Unit;
use bit_fields::{BitWriter, Fault, VecSink};
use std::alloc::Global;

/// The magic of these units.
const MAGIC: u32 = 0xDEC0_4342;

/// The width of ids in all their blocks.
const ID: u32 = 4;

/// Writes the blocks of a unit.
#[derive(Drop)]
struct Author {
    writer: BitWriter<VecSink>,
    random: Random,
}

impl Author {
    /// Writes a number in a fixed width.
    fn fixed(&mut self, width: u32, value: u64) -> Result<(), Fault> {
        if self.writer.position() >= 1 << 62 || width == 0 || width > 32 || value >> width != 0 {
            return Err(Fault::OutputTooLong);
        }
        self.writer.fixed(width, value)
    }

    /// Writes a number in chunks.
    fn vbr(&mut self, width: u32, value: u64) -> Result<(), Fault> {
        if self.writer.position() >= 1 << 62 || width < 2 || width > 32 {
            return Err(Fault::OutputTooLong);
        }
        self.writer.vbr(width, value)
    }

    /// Writes zeros up to a whole word.
    fn pad(&mut self) -> Result<(), Fault> {
        for _ in 0..32 {
            if self.writer.position() % 32 == 0 {
                break;
            }
            self.fixed(1, 0)?;
        }
        Ok(())
    }

    /// A record without a definition, of numbers of so many bits.
    fn record(&mut self, count: u64, bits: u32) -> Result<(), Fault> {
        self.fixed(ID, 3)?;
        self.vbr(6, 7)?;
        self.vbr(6, count)?;
        for _ in 0..count {
            let number = self.random.next() >> (64 - bits.clamp(1, 63));
            self.vbr(6, number | 1)?;
        }
        Ok(())
    }

    /// Records of several numbers each.
    fn records(&mut self, records: u64, count: u64, bits: u32) -> Result<(), Fault> {
        for _ in 0..records {
            self.record(count, bits)?;
        }
        Ok(())
    }

    /// A definition: a literal, and an array of elements in a fixed width.
    fn define_array(&mut self, width: u32) -> Result<(), Fault> {
        self.fixed(ID, 2)?;
        self.vbr(5, 3)?;
        self.fixed(1, 1)?;
        self.vbr(8, 9)?;
        self.fixed(1, 0)?;
        self.fixed(3, 3)?;
        self.fixed(1, 0)?;
        self.fixed(3, 1)?;
        self.vbr(5, u64::from(width))
    }

    /// A record by the first definition, whose array has so many elements.
    fn array(&mut self, width: u32, count: u64) -> Result<(), Fault> {
        self.fixed(ID, 4)?;
        self.vbr(6, count)?;
        for _ in 0..count {
            let number = self.random.next() >> (64 - width.clamp(1, 32));
            self.fixed(width, number)?;
        }
        Ok(())
    }

    /// A definition of an array and records by it.
    fn arrays(&mut self, width: u32, records: u64, count: u64) -> Result<(), Fault> {
        self.define_array(width)?;
        for _ in 0..records {
            self.array(width, count)?;
        }
        Ok(())
    }
}

/// What a block contains.
#[derive(Clone, Copy)]
enum Content {
    /// So many records of so many numbers of so many bits each.
    Records(u64, u64, u32),
    /// Arrays of elements in a fixed width: so many of so many.
    Arrays(u32, u64, u64),
}

/// The bytes of what a block contains and its end, whole words.
fn body(alloc: Global, content: Content, random: &mut Random) -> Result<Vec<u8>, Fault> {
    let mut author = Author {
        writer: BitWriter::new(VecSink::new(alloc)),
        random: Random::new(random.next()),
    };
    match content {
        Content::Records(records, count, bits) => author.records(records, count, bits)?,
        Content::Arrays(width, records, count) => author.arrays(width, records, count)?,
    }
    author.fixed(ID, 0)?;
    author.pad()?;
    let mut writer = author.writer;
    if writer.position() % 8 != 0 {
        return Err(Fault::OutputTooLong);
    }
    writer.finish()?;
    bytes_of(alloc, writer.into_sink().bytes())
}

/// A copy of bytes.
fn bytes_of(alloc: Global, bytes: &[u8]) -> Result<Vec<u8>, Fault> {
    bytes.to_vec(alloc).map_err(|_| Fault::Memory)
}

/// Appends bytes.
fn append(bytes: &mut Vec<u8>, more: &[u8]) -> Result<(), Fault> {
    bytes.extend_from_slice(more).map_err(|_| Fault::Memory)
}

/// Appends a block with an id below 128 at the top, or within a block, of what it contains and its end.
fn append_block(bytes: &mut Vec<u8>, at_top: bool, id: u8, body: &[u8]) -> Result<(), Fault> {
    let id = u32::from(id % 128);
    let head = if at_top {
        1 | (id << 2) | (ID << 10)
    } else {
        1 | (id << ID) | (ID << (ID + 8))
    };
    append(bytes, &head.to_le_bytes())?;
    append(
        bytes,
        &((body.len() / 4 % 4_294_967_296) as u32).to_le_bytes(),
    )?;
    append(bytes, body)
}

/// Appends so many blocks at the top, each with this content.
fn append_blocks(
    bytes: &mut Vec<u8>,
    alloc: Global,
    count: u32,
    content: Content,
    random: &mut Random,
) -> Result<(), Fault> {
    for _ in 0..count {
        let body = body(alloc, content, random)?;
        append_block(bytes, true, 17, body.as_slice())?;
    }
    Ok(())
}

/// Appends so many empty blocks.
fn append_empty(bytes: &mut Vec<u8>, count: u32) -> Result<(), Fault> {
    for _ in 0..count {
        append_block(bytes, true, 18, &[0; 4])?;
    }
    Ok(())
}

/// Appends a block with so many blocks in one another, the innermost with records.
fn append_deep(
    bytes: &mut Vec<u8>,
    alloc: Global,
    depth: u8,
    random: &mut Random,
) -> Result<(), Fault> {
    let mut inner = body(alloc, Content::Records(9, 5, 20), random)?;
    for id in 0..depth {
        let mut around = Vec::new(alloc);
        append_block(&mut around, false, 20 + id % 100, inner.as_slice())?;
        append(&mut around, &[0; 4])?;
        inner = around;
    }
    append_block(bytes, true, 19, inner.as_slice())
}

/// The kinds of units.
const KINDS: u32 = 8;

/// The bytes of a unit of a kind.
fn sample(alloc: Global, kind: u32, random: &mut Random) -> Result<Vec<u8>, Fault> {
    let mut bytes = bytes_of(alloc, &MAGIC.to_le_bytes())?;
    match kind {
        0 => append_blocks(&mut bytes, alloc, 4, Content::Records(500, 6, 63), random)?,
        1 => append_blocks(&mut bytes, alloc, 2, Content::Arrays(1, 3, 50_000), random)?,
        2 => append_blocks(&mut bytes, alloc, 2, Content::Arrays(32, 2, 4_000), random)?,
        3 => append_blocks(
            &mut bytes,
            alloc,
            1,
            Content::Records(1, 100_000, 14),
            random,
        )?,
        4 => append_blocks(&mut bytes, alloc, 900, Content::Arrays(7, 2, 6), random)?,
        5 => append_blocks(&mut bytes, alloc, 900, Content::Records(2, 4, 11), random)?,
        6 => append_empty(&mut bytes, 3000)?,
        _ => {
            for _ in 0..20 {
                append_deep(&mut bytes, alloc, 60, random)?;
            }
        }
    }
    Ok(bytes)
}

/// A unit of each kind, by a seed.
pub fn units(alloc: Global, seed: u64) -> Result<Vec<Unit>, Fault> {
    let mut random = Random::new(seed);
    let mut units = Vec::new(alloc);
    for kind in 0..KINDS {
        let bytes = sample(alloc, kind, &mut random)?;
        if units.push(Unit::of(alloc, bytes.as_slice())?).is_err() {
            return Err(Fault::Memory);
        }
    }
    Ok(units)
}
