//! Inputs of units, in an order and with values that a seed gives.

use crate::random::Random;
use crate::unit::{Chunk, Unit};
use std::alloc::{AllocError, Global};

/// In how many of the chunks that may be changed one is changed.
const CHANGED: usize = 16;

/// The first bytes of a block that is its own normal form, with a record of eight numbers of five bits each.
const SALT: [u8; 8] = [0x91, 0x09, 0, 0, 2, 0, 0, 0];

/// An input: a magic, a block with numbers of the seed, so that no other input is the same, and units.
#[derive(Drop)]
pub struct Input {
    pub magic: [u8; 4],
    pub bytes: Vec<u8>,
    /// Its normal form, if it was asked for.
    pub form: Vec<u8>,
    /// The byte at which a unit in its middle begins, and the place of that unit in the maker.
    pub middle: usize,
    place: usize,
}

/// A number for five bits of a value: not 0, and of four bits at most, as the last chunk of a number of 64 bits has.
fn payload(random: &mut Random) -> u16 {
    ((random.next() & 15) as u16).max(1)
}

/// Sets five bits, whose first bit is counted from a byte, to a number of 1 to 15, or to another one if they are that number.
fn set_chunk(bytes: &mut [u8], at: usize, bit: usize, payload: u16) {
    let place = at.saturating_add(bit / 8);
    let shift = (bit % 8) as u32;
    if place < bytes.len() && bytes.len() - place >= 2 {
        let mask = 31u16 << shift;
        let pair = u16::from_le_bytes([bytes[place], bytes[place + 1]]);
        let payload = if (pair & mask) >> shift == payload {
            payload % 15 + 1
        } else {
            payload
        };
        let set = (pair & !mask) | ((payload << shift) & mask);
        let [low, high] = set.to_le_bytes();
        bytes[place] = low;
        bytes[place + 1] = high;
    }
}

/// Changes one of several values of a unit that was appended to an input at a byte of it, and of its form.
fn change(random: &mut Random, input: &mut Input, at: usize, at_form: usize, chunks: &[Chunk]) {
    let mut next = random.below(CHANGED);
    for (index, chunk) in chunks.iter().enumerate() {
        if index == next {
            let payload = payload(random);
            set_chunk(input.bytes.as_mut_slice(), at, chunk.bit, payload);
            set_chunk(input.form.as_mut_slice(), at_form, chunk.in_form, payload);
            next = next
                .saturating_add(random.below(2 * CHANGED))
                .saturating_add(1);
        }
    }
}

/// The record of a salt and the end of its block: eight numbers of one chunk each.
fn salt(random: &mut Random) -> [u8; 8] {
    let numbers = random.next() & 0x1F7D_F7DF_7DF7_C000;
    (numbers | 0x0807).to_le_bytes()
}

/// Makes inputs.
#[derive(Drop)]
pub struct Maker {
    alloc: Global,
    random: Random,
    units: Vec<Unit>,
    /// By how much the sizes of inputs are divided.
    part: usize,
}

impl Maker {
    /// A maker of inputs of units by a seed, of a part of the sizes that are asked for.
    pub fn new(alloc: Global, units: Vec<Unit>, seed: u64, part: usize) -> Maker {
        Maker {
            alloc,
            random: Random::new(seed),
            units,
            part,
        }
    }

    /// The magic of the unit at a place, counted on from the first one after the last one.
    pub fn magic(&self, place: usize) -> [u8; 4] {
        if self.units.is_empty() {
            return [0; 4];
        }
        match self.units.get(place % self.units.len()) {
            Some(unit) => unit.magic,
            None => [0; 4],
        }
    }

    /// A number by the seed.
    pub fn number(&mut self) -> u64 {
        self.random.next()
    }

    /// Appends a unit to an input, and to its form if that is asked for, with some of its values changed.
    fn append(&mut self, input: &mut Input, place: usize, formed: bool) -> Result<(), AllocError> {
        let Some(unit) = self.units.get(place) else {
            return Ok(());
        };
        let (at, at_form) = (input.bytes.len(), input.form.len());
        input.bytes.extend_from_slice(unit.blocks.as_slice())?;
        if formed {
            input.form.extend_from_slice(unit.form.as_slice())?;
        }
        change(&mut self.random, input, at, at_form, unit.chunks.as_slice());
        Ok(())
    }

    /// An input with a magic and no units.
    fn begun(&mut self, magic: [u8; 4]) -> Result<Input, AllocError> {
        let mut bytes = magic.to_vec(self.alloc)?;
        bytes.extend_from_slice(&SALT)?;
        bytes.extend_from_slice(&salt(&mut self.random))?;
        Ok(Input {
            magic,
            form: bytes.as_slice().to_vec(self.alloc)?,
            middle: bytes.len(),
            place: 0,
            bytes,
        })
    }

    /// An input with a magic and at least so many bytes, of units with this magic, with its form if that is asked for.
    pub fn make(
        &mut self,
        magic: [u8; 4],
        least: usize,
        formed: bool,
    ) -> Result<Input, AllocError> {
        let least = least / self.part.max(1);
        let mut input = self.begun(magic)?;
        for _ in 0..least {
            let place = self.random.below(self.units.len());
            if matches!(self.units.get(place), Some(unit) if unit.magic == magic) {
                if input.bytes.len() <= least / 2 {
                    input.middle = input.bytes.len();
                    input.place = place;
                }
                self.append(&mut input, place, formed)?;
            }
            if input.bytes.len() >= least {
                break;
            }
        }
        Ok(input)
    }

    /// Where a value of the unit in an input's middle may be changed, or else one of its salt.
    fn changeable(&mut self, input: &Input) -> (usize, usize) {
        if let Some(unit) = self.units.get(input.place) {
            let chunk = self.random.below(unit.chunks.len());
            if let Some(chunk) = unit.chunks.get(chunk) {
                return (input.middle, chunk.bit);
            }
        }
        (4 + SALT.len(), 14)
    }

    /// The bytes of an input with one value changed in the unit in its middle, or in its salt if that has none.
    pub fn altered(&mut self, input: &Input) -> Result<Vec<u8>, AllocError> {
        let mut bytes = input.bytes.as_slice().to_vec(self.alloc)?;
        let (at, bit) = self.changeable(input);
        let payload = payload(&mut self.random);
        set_chunk(bytes.as_mut_slice(), at, bit, payload);
        Ok(bytes)
    }

    /// Changes a bit near the end of an input.
    pub fn damage(&mut self, input: &mut Input) {
        let length = input.bytes.len();
        let back = self.random.below(length / 16);
        let bit = (self.random.next() % 8) as u32;
        if let Some(byte) = input
            .bytes
            .get_mut(length.saturating_sub(1).saturating_sub(back))
        {
            *byte ^= 1 << bit;
        }
    }

    /// The bytes of an input with a unit more in its middle.
    pub fn longer(&mut self, input: &Input) -> Result<Vec<u8>, AllocError> {
        let (front, back) = input
            .bytes
            .as_slice()
            .split_at(input.middle.min(input.bytes.len()));
        let mut longer = Input {
            magic: input.magic,
            bytes: front.to_vec(self.alloc)?,
            form: Vec::new(self.alloc),
            middle: 0,
            place: 0,
        };
        self.append(&mut longer, input.place, false)?;
        longer.bytes.extend_from_slice(back)?;
        Ok(longer.bytes)
    }
}
