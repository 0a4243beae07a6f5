//! The jobs. Each digests what the calls return.

use crate::digest::Digest;
use crate::maker::{Input, Maker};
use crate::pieces::{Flow, Pieces, Pipe, buffered, left_in};
use crate::unit::limits_for;
use bit_events::{Events, check};
use bit_fields::{Fault, Limits, ReadSource, SliceSource, VecSink};
use bit_norm::{
    Difference, Info, SameFault, first_difference, first_difference_from,
    first_difference_in_parts, normalise,
};
use bit_scan::{EventStyle, Format, ValueDisplay, write_events, write_report, write_show};
use bit_text::assemble;
use std::alloc::Global;
use std::mem;

/// What an input is compared with.
#[derive(Clone, Copy)]
pub enum Other {
    /// The same bytes.
    Itself,
    /// One with a unit more in its middle.
    Longer,
    /// One with another value in its middle.
    Altered,
    /// Its normal form.
    Form,
}

impl Other {
    /// Whether its tree differs.
    fn differs(self) -> bool {
        matches!(self, Other::Longer | Other::Altered)
    }
}

/// Does jobs, and digests their results.
#[derive(Drop)]
pub struct Worker {
    alloc: Global,
    maker: Maker,
    /// The place of the unit whose magic the next input has.
    place: usize,
    pub digest: Digest,
}

impl Worker {
    /// A worker on inputs of a maker.
    pub fn new(alloc: Global, maker: Maker) -> Worker {
        Worker {
            alloc,
            maker,
            place: 0,
            digest: Digest::new(),
        }
    }

    /// The next inputs have the magic of the unit at a place.
    pub fn turn_to(&mut self, place: usize) {
        self.place = place;
    }

    /// The next input, of at least so many bytes.
    fn input(&mut self, least: usize, formed: bool) -> Result<Input, Fault> {
        let magic = self.maker.magic(self.place);
        self.maker
            .make(magic, least, formed)
            .map_err(|_| Fault::Memory)
    }

    /// Makes an input and does not read it.
    pub fn inputs(&mut self, least: usize) -> Result<(), Fault> {
        let input = self.input(least, false)?;
        self.digest.number(input.bytes.len() as u64);
        Ok(())
    }

    /// Judges an input, which may be damaged near its end.
    pub fn check(&mut self, least: usize, damaged: bool) -> Result<(), Fault> {
        let mut input = self.input(least, false)?;
        if damaged {
            self.maker.damage(&mut input);
        }
        let source = buffered(self.alloc, input.bytes.as_slice())?;
        let (answer, source) = check(self.alloc, source, limits_for(input.magic));
        self.digest.ended(answer);
        self.digest.number(left_in(source) as u64);
        Ok(())
    }

    /// Makes the normal form of an input.
    pub fn normal(&mut self, least: usize) -> Result<(), Fault> {
        let input = self.input(least, false)?;
        let source = buffered(self.alloc, input.bytes.as_slice())?;
        let limits = limits_for(input.magic);
        let (written, _, form) = normalise(
            self.alloc,
            source,
            VecSink::new(self.alloc),
            limits,
            Info::Keep,
        );
        self.digest.text(form.bytes());
        self.digest.counted(written);
        Ok(())
    }

    /// Writes the report of an input's analysis.
    pub fn analyse(&mut self, least: usize) -> Result<(), Fault> {
        let input = self.input(least, false)?;
        let source = buffered(self.alloc, input.bytes.as_slice())?;
        let sink = VecSink::new(self.alloc);
        let (written, _, report) = write_report(self.alloc, source, sink, limits_for(input.magic));
        self.digest.text(report.bytes());
        self.digest.ended(written);
        Ok(())
    }

    /// Digests how a comparison ended. It has to find what the pair was made for.
    fn compared(
        &mut self,
        answer: &Result<Option<Difference>, SameFault>,
        other: Other,
    ) -> Result<(), Fault> {
        self.digest.compared(answer);
        match answer {
            Ok(found) if found.is_some() == other.differs() => Ok(()),
            _ => Err(Fault::Failed),
        }
    }

    /// The next input, of at least so many bytes, and what it is compared with.
    fn pair(&mut self, least: usize, other: Other) -> Result<(Input, Vec<u8>), Fault> {
        let mut input = self.input(least, matches!(other, Other::Form))?;
        let second = match other {
            Other::Itself => input.bytes.as_slice().to_vec(self.alloc),
            Other::Longer => self.maker.longer(&input),
            Other::Altered => self.maker.altered(&input),
            Other::Form => Ok(mem::replace(&mut input.form, Vec::new(self.alloc))),
        };
        match second {
            Ok(second) => Ok((input, second)),
            Err(_) => Err(Fault::Memory),
        }
    }

    /// Compares an input in memory with another one, or both if they have the same bytes, from buffers.
    pub fn same(&mut self, least: usize, other: Other) -> Result<(), Fault> {
        let (input, second) = self.pair(least, other)?;
        let limits = limits_for(input.magic);
        let first = input.bytes.as_slice();
        let source = buffered(self.alloc, second.as_slice())?;
        let answer = match other {
            Other::Itself => {
                let first = buffered(self.alloc, first)?;
                first_difference(self.alloc, first, source, limits, Info::Keep).0
            }
            _ => first_difference_from(self.alloc, first, source, limits, Info::Keep).0,
        };
        self.compared(&answer, other)
    }

    /// Compares two inputs that come from one pipe, one after the other, as the program does.
    pub fn pipes(&mut self, least: usize, other: Other, flow: Flow) -> Result<(), Fault> {
        let (input, second) = self.pair(least, other)?;
        let limits = limits_for(input.magic);
        let first = input.bytes.len() as u64;
        let mut both = input.bytes;
        if both.extend_from_slice(second.as_slice()).is_err() {
            return Err(Fault::Memory);
        }
        let pipe = Pipe::new(both.as_slice(), flow, self.maker.number());
        let source = buffered(self.alloc, pipe)?;
        let (answer, source) = first_difference_in_parts(
            self.alloc,
            source,
            first,
            limits,
            Info::Keep,
        );
        self.digest.number(left_in(source) as u64);
        self.compared(&answer, other)
    }

    /// Reads a listing back.
    fn back(&mut self, listing: &[u8], limits: Limits) -> Result<(), Fault> {
        let source = buffered(self.alloc, listing)?;
        let (answer, _, form) = assemble(self.alloc, source, VecSink::new(self.alloc), limits);
        self.digest.text(form.bytes());
        self.digest.assembled(answer);
        Ok(())
    }

    /// Lists an input.
    pub fn show(&mut self, least: usize, back: bool) -> Result<(), Fault> {
        let input = self.input(least, false)?;
        let limits = limits_for(input.magic);
        let source = buffered(self.alloc, input.bytes.as_slice())?;
        let sink = VecSink::new(self.alloc);
        let (written, _, listing) = write_show(self.alloc, source, sink, limits, Info::Keep);
        self.digest.text(listing.bytes());
        self.digest.ended(written);
        if back {
            self.back(listing.bytes(), limits)
        } else {
            Ok(())
        }
    }

    /// Writes the events of an input.
    pub fn events(&mut self, least: usize, format: Format) -> Result<(), Fault> {
        let input = self.input(least, false)?;
        let source = buffered(self.alloc, input.bytes.as_slice())?;
        let style = EventStyle {
            format,
            values: ValueDisplay::Shown,
        };
        let sink = VecSink::new(self.alloc);
        let limits = limits_for(input.magic);
        let (written, _, text) = write_events(self.alloc, source, sink, limits, style);
        self.digest.text(text.bytes());
        self.digest.ended(written);
        Ok(())
    }

    /// Walks through the events of an input that comes in small pieces.
    pub fn walk(&mut self, least: usize) -> Result<(), Fault> {
        let input = self.input(least, false)?;
        let source = ReadSource::new(Pieces::new(input.bytes.as_slice()));
        let mut events = Events::start(self.alloc, source, limits_for(input.magic)).map_err(|(
            fault,
            _,
        )| fault)?;
        while let Some(event) = events.next()? {
            self.digest.event(event);
        }
        Ok(())
    }

    /// Judges an input in a wrapper, in small pieces, whose last word is wrong.
    pub fn refuse(&mut self, least: usize) -> Result<(), Fault> {
        let mut input = self.input(least, false)?;
        let length = input.bytes.len();
        if let Some(last) = input.bytes.get_mut(length.saturating_sub(4)) {
            *last = 0xFF;
        }
        let mut wrapped = Vec::new(self.alloc);
        let size = (length % 4_294_967_296) as u32;
        for word in [0x0B17_C0DE, 0, 20, size, 7] {
            if wrapped.extend_from_slice(&u32::to_le_bytes(word)).is_err() {
                return Err(Fault::Memory);
            }
        }
        if wrapped.extend_from_slice(input.bytes.as_slice()).is_err() {
            return Err(Fault::Memory);
        }
        let source = ReadSource::new(Pieces::new(wrapped.as_slice()));
        let (answer, _) = check(self.alloc, source, limits_for(input.magic));
        self.digest.ended(answer);
        let (answer, _, _) = normalise(
            self.alloc,
            SliceSource::new(wrapped.as_slice()),
            VecSink::new(self.alloc),
            limits_for(input.magic),
            Info::Drop,
        );
        self.digest.counted(answer);
        Ok(())
    }
}
