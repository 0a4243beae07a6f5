//! What inputs are made of: the blocks of a sample.

use crate::tails::{Tail, Tails};
use bit_events::Events;
use bit_fields::{Fault, Limits, SliceSource, VecSink};
use bit_norm::{Info, normalise};
use std::alloc::Global;

/// The magic of a precompiled header of Clang.
const HEADER: [u8; 4] = *b"CPCH";

/// The limits for inputs with a magic. Clang's precompiled headers have a definition that only the late judging accepts.
pub fn limits_for(magic: [u8; 4]) -> Limits {
    if magic == HEADER {
        Limits::usual().shapes_at_use()
    } else {
        Limits::usual()
    }
}

/// The first of five bits of a value that may be changed, in the blocks of a sample and in those of its normal form.
#[derive(Clone, Copy)]
pub struct Chunk {
    pub bit: usize,
    pub in_form: usize,
}

/// The blocks of a sample, which are whole words.
#[derive(Drop)]
pub struct Unit {
    pub magic: [u8; 4],
    pub blocks: Vec<u8>,
    /// The blocks of the normal form.
    pub form: Vec<u8>,
    /// Of the last values of records, but for those of BLOCKINFO blocks.
    pub chunks: Vec<Chunk>,
}

/// The tails of the records of an input, in order.
fn tails_of(alloc: Global, bytes: &[u8], limits: Limits) -> Result<Vec<Tail>, Fault> {
    let mut events = Events::start(alloc, SliceSource::new(bytes), limits).map_err(|(
        fault,
        _,
    )| fault)?;
    let mut tails = Tails::new(alloc);
    while let Some(event) = events.next()? {
        if tails.take(event).is_err() {
            return Err(Fault::Memory);
        }
    }
    Ok(tails.into_tails())
}

/// The bit so many bits before the end of a record, counted from the end of the magic.
fn bit_before(after: u64, back: u64) -> usize {
    after.saturating_sub(32).saturating_sub(back) as usize
}

/// The values that may be changed, by the tails in a sample and in its form.
fn chunks_of(alloc: Global, tails: &[Tail], in_form: &[Tail]) -> Result<Vec<Chunk>, Fault> {
    let mut chunks = Vec::new(alloc);
    for (tail, formed) in tails.iter().zip(in_form) {
        if let Some(back) = tail.back {
            let chunk = Chunk {
                bit: bit_before(tail.after, back.here),
                in_form: bit_before(formed.after, back.in_form),
            };
            if chunks.push(chunk).is_err() {
                return Err(Fault::Memory);
            }
        }
    }
    Ok(chunks)
}

/// A copy of the bytes after a magic.
fn blocks_of(alloc: Global, bytes: &[u8]) -> Result<Vec<u8>, Fault> {
    match bytes.get(4..) {
        Some(blocks) => blocks.to_vec(alloc).map_err(|_| Fault::Memory),
        None => Ok(Vec::new(alloc)),
    }
}

impl Unit {
    /// The unit of the bytes of a sample, which has no wrapper.
    pub fn of(alloc: Global, bytes: &[u8]) -> Result<Unit, Fault> {
        let magic = match bytes {
            [a, b, c, d, ..] => [*a, *b, *c, *d],
            _ => [0; 4],
        };
        let limits = limits_for(magic);
        let sink = VecSink::new(alloc);
        let (written, _, form) = normalise(
            alloc,
            SliceSource::new(bytes),
            sink,
            limits,
            Info::Keep,
        );
        written?;
        let tails = tails_of(alloc, bytes, limits)?;
        let in_form = tails_of(alloc, form.bytes(), limits)?;
        Ok(Unit {
            magic,
            blocks: blocks_of(alloc, bytes)?,
            form: blocks_of(alloc, form.bytes())?,
            chunks: chunks_of(alloc, &tails, &in_form)?,
        })
    }
}
