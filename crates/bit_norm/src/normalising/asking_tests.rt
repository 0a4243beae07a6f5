//! `normalise` asks its source for bytes where it did when it read the values of each record, also where the source fails.

ghost use Rattle.std.specs.Prelude.{◌<◌, ◌^◌, length};

use crate::form_builder::FormBuilder;
use crate::form_values::FormValues;
use crate::lendings::{LENDINGS, Lending, State, front_state, kept_state, state_of};
use crate::{Info, RecordName, normalise};
use bit_abbrev::Abbrev;
use bit_events::{Gatherer, fold};
use bit_fields::{BitText, BitWriter, Fault, FrontSource, KeptSource, Limits, Source, VecSink};
use std::alloc::{AllocError, Global};
use std::process::Abort;

// ---- the normal form by values

/// Builds a form from the values of each record: it takes none as its bits.
#[derive(Drop)]
struct ByValues<'a> {
    builder: FormBuilder<'a>,
}

impl<'a> Gatherer for ByValues<'a> {
    type Values = FormValues;

    ghost gathered = { λ first events last. Unit {0} };

    fn values(&self) -> FormValues {
        self.builder.values()
    }

    fn enter(&mut self, id: u32, width: u8, first: u64, body: u64) -> Result<(), AllocError> {
        self.builder.enter(id, width, first, body)
    }

    fn define(&mut self, abbrev: &Abbrev, first: u64, after: u64) -> Result<(), AllocError> {
        self.builder.define(abbrev, first, after)
    }

    fn record(
        &mut self,
        id: u32,
        code: u64,
        values: &mut FormValues,
        first: u64,
        after: u64,
    ) -> Result<(), AllocError> {
        self.builder.record(id, code, values, first, after)
    }

    fn leave(&mut self, after: u64) -> Result<(), AllocError> {
        self.builder.leave(after)
    }
}

/// The bytes of a text.
fn bytes_of_text(alloc: Global, text: BitText) -> Result<VecSink, Fault>
    requires { length text < 2 ^ 38 }
{
    let mut writer = BitWriter::new(VecSink::new(alloc));
    text.write(&mut writer)?;
    if writer.position() % 8 == 0 {
        writer.finish()?;
    }
    Ok(writer.into_sink())
}

/// A sink with the normal form of an input after its magic, or the fault; and the source.
fn form_by_values<S: Source>(
    alloc: Global,
    source: S,
    limits: Limits,
    info: Info<'_>,
) -> (Result<VecSink, Fault>, S) {
    let builder = FormBuilder::new(alloc, info, limits);
    let (answer, source) = fold(alloc, source, limits, ByValues { builder });
    match answer {
        Ok(folded) => match folded.gatherer.builder.finish() {
            Some(text) => (bytes_of_text(alloc, text), source),
            None => (Err(Fault::OutputTooLong), source),
        },
        Err(fault) => (Err(fault), source),
    }
}

// ---- the comparison

/// The limits, and what is left out.
#[derive(Clone, Copy)]
struct Case<'a> {
    limits: Limits,
    info: Info<'a>,
}

/// Checks that both ways return the same form or fault, and returns both sources.
fn formed_alike<S: Source + Drop>(
    rt: &impl Abort,
    alloc: Global,
    case: &Case<'_>,
    by_bits: S,
    by_values: S,
) -> (S, S) {
    let sink = VecSink::new(alloc);
    let (answer, by_bits, sink) = normalise(alloc, by_bits, sink, case.limits, case.info);
    let (wanted, by_values) = form_by_values(alloc, by_values, case.limits, case.info);
    match (answer, wanted) {
        (Ok(_), Ok(form)) => {
            assert!(rt; sink.bytes().get(4..) == Some(form.bytes()));
        }
        (Err(new), Err(old)) => assert!(rt; new == old),
        (new, _) => assert!(rt; false, "{new:?}"),
    }
    (by_bits, by_values)
}

/// Checks it for an input from a source.
fn asks_alike(rt: &impl Abort, alloc: Global, bytes: &[u8], case: &Case<'_>, lending: Lending) {
    let source = || lending.source(rt, alloc, bytes);
    let (new, old) = formed_alike(rt, alloc, case, source(), source());
    let states: (State, State) = (state_of(new), state_of(old));
    assert!(rt; states.0 == states.1, "{lending:?}: {states:?}");
}

/// Checks it for a source that keeps the bytes, and for one that gives the first ones alone.
fn kinds_alike(rt: &impl Abort, alloc: Global, bytes: &[u8], case: &Case<'_>, lending: Lending) {
    let kept = || KeptSource::new(alloc, lending.source(rt, alloc, bytes));
    let (new, old) = formed_alike(rt, alloc, case, kept(), kept());
    let states: (State, State) = (kept_state(new), kept_state(old));
    assert!(rt; states.0 == states.1, "kept: {lending:?}: {states:?}");
    let count = bytes.len().saturating_sub(5) as u64;
    let front = || FrontSource::new(lending.source(rt, alloc, bytes), count);
    let (new, old) = formed_alike(rt, alloc, case, front(), front());
    let states: (State, State) = (front_state(new), front_state(old));
    assert!(rt; states.0 == states.1, "front: {lending:?}: {states:?}");
}

// ---- the inputs

/// The bytes of an input that is made, and how many bits they are.
#[derive(Drop)]
struct Maker {
    bytes: Vec<u8>,
    bits: u64,
    random: u64,
}

impl Maker {
    /// A number below n, from a generator by shifts ("Xorshift RNGs", Marsaglia).
    fn below(&mut self, n: u64) -> u64
        requires { 0 < n }
        ensures { result < n }
    {
        self.random ^= self.random << 13;
        self.random ^= self.random >> 7;
        self.random ^= self.random << 17;
        self.random % n
    }

    /// Appends the low n bits of a number.
    fn push(&mut self, value: u64, n: u32) -> Result<(), AllocError> {
        for place in 0..n {
            if self.bits % 8 == 0 {
                self.bytes.push(0)?;
            }
            let bit = value.checked_shr(place).unwrap_or(0) & 1;
            if let Some(last) = self.bytes.last_mut() {
                *last |= (bit as u8) << (self.bits % 8) as u32;
            }
            self.bits = self.bits.wrapping_add(1);
        }
        Ok(())
    }

    /// Appends zeros up to a multiple of 32 bits.
    fn align(&mut self) -> Result<(), AllocError> {
        let zeros = (32 - self.bits % 32) % 32;
        self.push(0, zeros as u32)
    }

    /// Appends a number in chunks of six bits, seldom with a chunk too much.
    fn number(&mut self, value: u64) -> Result<(), AllocError> {
        let mut left = value;
        for _ in 0..12 {
            if left < 32 {
                break;
            }
            self.push(left % 32 + 32, 6)?;
            left /= 32;
        }
        if self.below(50) == 0 {
            self.push(left | 32, 6)?;
            left = 0;
        }
        self.push(left, 6)
    }

    /// Appends a record with an id of `width` bits. A number has a chunk, or seldom up to thirteen.
    fn record(&mut self, width: u32) -> Result<(), AllocError> {
        let code = self.below(3);
        let count = self.below(24);
        self.push(3, width)?;
        self.number(code)?;
        self.number(count)?;
        for _ in 0..count {
            let bits = match self.below(5) {
                0 => self.below(64),
                _ => 59,
            };
            let value = self.random >> bits;
            self.number(value)?;
        }
        Ok(())
    }
}

/// An input of a block of records whose ids have `width` bits. Every second one has one bit changed.
fn made(alloc: Global, seed: u64, width: u32) -> Result<Vec<u8>, AllocError> {
    let mut made = Maker {
        bytes: Vec::new(alloc),
        bits: 0,
        random: seed.wrapping_mul(0x9E37_79B9_7F4A_7C15) | 1,
    };
    made.push(0xDEC0_4342, 32)?;
    made.push(0x21, 10)?;
    if width < 8 {
        made.push(u64::from(width), 4)?;
    } else {
        made.push(u64::from(width % 8 + 8), 4)?;
        made.push(u64::from(width / 8), 4)?;
    }
    made.align()?;
    let place = made.bytes.len();
    made.push(0, 32)?;
    for _ in 0..20 {
        made.record(width)?;
    }
    made.push(0, width)?;
    made.align()?;
    let words = (made.bytes.len().saturating_sub(place) / 4).saturating_sub(1);
    for (part, byte) in (words as u64).to_le_bytes().iter().enumerate() {
        if let Some(length) = made.bytes.get_mut(place.saturating_add(part)) {
            *length |= *byte;
        }
    }
    let changed = made.below(400) as usize;
    if seed % 2 == 0 {
        if let Some(byte) = made.bytes.get_mut(changed) {
            *byte ^= 1 << (seed % 8) as u32;
        }
    }
    Ok(made.bytes)
}

/// Checks an input over some buffers, with a failure at some of the reads.
fn all_asked_alike(rt: &impl Abort, alloc: Global, bytes: &[u8], case: &Case<'_>) {
    for (room, sizes) in &LENDINGS {
        let lending = |fails_at| Lending {
            room: *room,
            sizes,
            fails_at,
        };
        for fails_at in [0, 2, 5] {
            asks_alike(rt, alloc, bytes, case, lending(fails_at));
        }
        kinds_alike(rt, alloc, bytes, case, lending(3));
    }
}

#[test]
fn a_form_asks_as_it_did(rt: HostRuntime) {
    let without = Info::Without {
        blocks: &[],
        records: &[RecordName { block: 8, code: 1 }],
    };
    for seed in 0..12 {
        for width in [2, 5, 32] {
            let bytes = made(rt.alloc(), seed, width).expect(&rt, "memory");
            let most = if seed % 3 == 0 {
                bytes.len() as u64 * 2 / 3
            } else {
                100_000
            };
            let case = Case {
                limits: Limits::new(most.min(100_000), 64, 300).expect(
                    &rt,
                    "limits within their caps",
                ),
                info: if seed % 4 == 1 { without } else { Info::Keep },
            };
            all_asked_alike(&rt, rt.alloc(), &bytes, &case);
        }
    }
}
