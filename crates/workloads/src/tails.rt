//! Where the records of an input end, and which of their values may be changed.

use bit_abbrev::Abbrev;
use bit_events::Event;
use bit_grammar::Op;
use std::alloc::{AllocError, Global};

/// The first id of an abbreviation that is defined.
const FIRST_DEFINED: u32 = 4;

/// The code of a record in a BLOCKINFO block that names a block id.
const SETBID: u64 = 1;

/// How many bits before the end of a record are five bits of its last value: where it is, and in its normal form. With any number of
/// 1 to 15 in their place the value takes as many bits as before.
#[derive(Clone, Copy)]
pub struct Back {
    pub here: u64,
    pub in_form: u64,
}

/// The bit after a record, and the place of its changeable bits, if it has some.
#[derive(Clone, Copy)]
pub struct Tail {
    pub after: u64,
    pub back: Option<Back>,
}

/// How many chunks a number takes if each has so many bits of it.
fn chunks(number: u64, bits: u32) -> u32 {
    (63 - (number | 1).leading_zeros().min(63)) / bits.max(1) + 1
}

/// The bits of the last value of a record that may be changed, if the value has this operand.
fn back_of(op: Op, last: u64) -> Option<Back> {
    let here = match op {
        Op::Fixed(width) if width >= 5 => u64::from(width),
        Op::Vbr(width) if width >= 6 => {
            let width = u32::from(width);
            u64::from(width) * u64::from(chunks(last, width - 1))
        }
        _ => return None,
    };
    let in_form = 6 * u64::from(chunks(last, 5));
    Some(Back { here, in_form })
}

/// The last operand of a definition, if it is that of one value.
fn last_of(abbrev: &Abbrev) -> Option<Op> {
    match abbrev.ops() {
        [.., Op::Array, _] | [] => None,
        [.., last] => Some(*last),
    }
}

/// Notes the tails of records, from the events of an input.
#[derive(Drop)]
pub struct Tails {
    alloc: Global,
    tails: Vec<Tail>,
    /// The last operands of the definitions in BLOCKINFO blocks, each with the block id that it is for.
    shared: Vec<(u64, Option<Op>)>,
    /// For each open block, the last operands of the definitions in force.
    open: Vec<Vec<Option<Op>>>,
    in_info: bool,
    /// The block id that the last SETBID named.
    named: u64,
}

impl Tails {
    /// Before all events.
    pub fn new(alloc: Global) -> Tails {
        Tails {
            alloc,
            tails: Vec::new(alloc),
            shared: Vec::new(alloc),
            open: Vec::new(alloc),
            in_info: false,
            named: 0,
        }
    }

    /// The tails of the records, in order.
    pub fn into_tails(self) -> Vec<Tail> {
        self.tails
    }

    fn enter(&mut self, id: u32) -> Result<(), AllocError> {
        self.in_info = id == 0;
        let mut own = Vec::new(self.alloc);
        for (block, last) in &self.shared {
            if *block == u64::from(id) {
                own.push(*last)?;
            }
        }
        self.open.push(own)?;
        Ok(())
    }

    fn define(&mut self, last: Option<Op>) -> Result<(), AllocError> {
        if self.in_info {
            self.shared.push((self.named, last))?;
        } else if let Some(own) = self.open.last_mut() {
            own.push(last)?;
        }
        Ok(())
    }

    /// The changeable bits of a record with these values.
    fn back(&self, id: u32, values: &[u64]) -> Option<Back> {
        let last = *values.last()?;
        if self.in_info {
            return None;
        }
        if id < FIRST_DEFINED {
            // Those of the last chunk: the last one of a number of 64 bits has four.
            return Some(Back {
                here: 6,
                in_form: 6,
            });
        }
        let op = *self.open.last()?.get((id - FIRST_DEFINED) as usize)?;
        back_of(op?, last)
    }

    /// Takes the next event.
    pub fn take(&mut self, event: Event<'_>) -> Result<(), AllocError> {
        match event {
            Event::Enter { id, .. } => self.enter(id),
            Event::Define { abbrev, .. } => self.define(last_of(abbrev)),
            Event::Record {
                abbrev,
                code,
                values,
                after,
                ..
            } => {
                if self.in_info && code == SETBID {
                    self.named = values.first().copied().unwrap_or(0);
                }
                let back = self.back(abbrev, values);
                self.tails.push(Tail { after, back })?;
                Ok(())
            }
            Event::Leave { .. } => {
                self.in_info = false;
                let _ = self.open.pop();
                Ok(())
            }
        }
    }
}
