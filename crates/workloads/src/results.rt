//! What the calls return, digested with all that it says: each kind begins with a number of its own.

use crate::digest::Digest;
use bit_abbrev::Abbrev;
use bit_events::Event;
use bit_fields::Fault;
use bit_grammar::Op;
use bit_norm::{Difference, Place, SameFault, Standing, What, Which};
use bit_text::AssembleFault;

impl Digest {
    /// Takes a fault.
    pub fn fault(&mut self, fault: Fault) {
        match fault {
            Fault::Refused { reason, bit } => {
                self.fields(&[10, bit]);
                self.text(reason.name().as_bytes());
            }
            Fault::Read => self.number(11),
            Fault::Write => self.number(12),
            Fault::Memory => self.number(13),
            Fault::OutputTooLong => self.number(14),
            Fault::Failed => self.number(15),
        }
    }

    /// Takes how a call ended.
    pub fn ended(&mut self, answer: Result<(), Fault>) {
        match answer {
            Ok(()) => self.number(20),
            Err(fault) => self.fault(fault),
        }
    }

    /// Takes how a call ended that returns a number.
    pub fn counted(&mut self, answer: Result<u64, Fault>) {
        match answer {
            Ok(count) => self.fields(&[21, count]),
            Err(fault) => self.fault(fault),
        }
    }

    /// Takes how a listing was read.
    pub fn assembled(&mut self, answer: Result<u64, AssembleFault>) {
        match answer {
            Ok(length) => self.counted(Ok(length)),
            Err(AssembleFault::Fault(fault)) => self.fault(fault),
            Err(AssembleFault::Refused { reason, line }) => {
                self.fields(&[22, line]);
                self.text(reason.name().as_bytes());
            }
        }
    }

    fn place(&mut self, place: &Place) {
        match place {
            Place::Magic => self.number(30),
            Place::Item { open, items } => {
                self.fields(&[31, *items, open.len() as u64]);
                for block in open {
                    self.fields(&[u64::from(block.id), block.items]);
                }
            }
        }
    }

    fn standing(&mut self, standing: Standing) {
        self.number(standing.bit);
        match standing.what {
            What::Magic(magic) => self.fields(&[40, u64::from(u32::from_le_bytes(magic))]),
            What::Block(id) => self.fields(&[41, u64::from(id)]),
            What::Record { code, count } => self.fields(&[42, code, count]),
            What::End => self.number(43),
        }
    }

    fn difference(&mut self, found: &Difference) {
        self.place(&found.place);
        self.standing(found.first);
        self.standing(found.second);
        match found.value {
            Some(value) => self.fields(&[50, value.index, value.first, value.second]),
            None => self.number(51),
        }
    }

    /// Takes how a comparison ended.
    pub fn compared(&mut self, answer: &Result<Option<Difference>, SameFault>) {
        match answer {
            Ok(None) => self.number(60),
            Ok(Some(difference)) => {
                self.number(61);
                self.difference(difference);
            }
            Err(SameFault { which, fault }) => {
                let which = match which {
                    Which::First => 62,
                    Which::Second => 63,
                };
                self.number(which);
                self.fault(*fault);
            }
        }
    }

    fn op(&mut self, op: Op) {
        match op {
            Op::Literal(value) => self.fields(&[70, value]),
            Op::Fixed(width) => self.fields(&[71, u64::from(width)]),
            Op::Vbr(width) => self.fields(&[72, u64::from(width)]),
            Op::Array => self.number(73),
            Op::Char6 => self.number(74),
            Op::Blob => self.number(75),
        }
    }

    fn definition(&mut self, abbrev: &Abbrev) {
        self.number(abbrev.ops().len() as u64);
        for op in abbrev.ops() {
            self.op(*op);
        }
    }

    /// Takes an event.
    pub fn event(&mut self, event: Event<'_>) {
        match event {
            Event::Enter {
                id,
                width,
                first,
                body,
            } => self.fields(&[80, u64::from(id), u64::from(width), first, body]),
            Event::Define {
                abbrev,
                first,
                after,
            } => {
                self.fields(&[81, first, after]);
                self.definition(abbrev);
            }
            Event::Record {
                abbrev,
                code,
                values,
                first,
                after,
            } => {
                self.fields(&[82, u64::from(abbrev), code, first, after]);
                self.list(values);
            }
            Event::Leave { after } => self.fields(&[83, after]),
        }
    }
}
