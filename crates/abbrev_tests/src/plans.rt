//! Records that are passed over by plans, and the same records read field by field.

ghost use Rattle.std.specs.Prelude.{◌≤◌, length, IfSome};
ghost use Rattle.bit_fields.specs.BufferedParts.{AreParts};
ghost use Rattle.bit_fields.specs.PlacedView.{loaded};

use bit_abbrev::{Abbrev, MARGIN, Op, Passed, pass_plain, read_plain, read_record};
use bit_fields::{
    BitReader, Buffered, BufferedParts, Limits, LoadedBits, PlacedBits, SliceSource, ValueCount,
    ValueTaker,
};
use smallvec::SmallVec;
use std::alloc::Global;
use std::process::Abort;
use std::test::Fail;

/// The bytes of an input: its magic, and bits of which each fourth is a one, or after an odd seed three of four, so that numbers are
/// long. They come from a generator by shifts ("Xorshift RNGs", Marsaglia).
pub(crate) fn made(seed: u64) -> [u8; 700] {
    let mut random = seed.wrapping_mul(0x9E37_79B9_7F4A_7C15) | 1;
    let mut bytes = [0; 700];
    for byte in &mut bytes {
        random ^= random << 13;
        random ^= random >> 7;
        random ^= random << 17;
        let (one, other) = (random >> 40, random >> 20);
        let mixed = if seed % 2 == 0 {
            one & other
        } else {
            one | other
        };
        *byte = (mixed & 0xFF) as u8;
    }
    bytes
}

/// The bits behind the first ones of an input, buffered and loaded.
fn behind<'a>(parts: BufferedParts<'a>, skipped: u64) -> Option<(Buffered<'a>, LoadedBits<'a>)>
    requires { AreParts parts }
    ensures { IfSome result (λ found. 2208 ≤ length (loaded found.1).bits) }
{
    let mut buffered = Buffered::new(parts);
    if buffered.len() < skipped {
        return None;
    }
    buffered.skip(skipped);
    let bits = PlacedBits::new(parts, buffered.position())?;
    if !bits.has(MARGIN) {
        return None;
    }
    Some((buffered, bits.load()))
}

/// Whether a record was read as it was passed over: its code, how many values it has, and the bit after it.
fn same(passed: Passed, code: u64, values: &ValueCount, len: u64) -> bool {
    (passed.code, passed.count, passed.len) == (code, values.count(), len)
}

/// The operands of some definitions: fields of each kind, numbers that share a pass and numbers that do not, and arrays of each
/// element.
static DEFINITIONS: [&[Op]; 11] = [
    &[
        Op::Literal(3),
        Op::Literal(9),
        Op::Fixed(1),
        Op::Fixed(32),
        Op::Char6,
    ],
    &[
        Op::Literal(4),
        Op::Vbr(6),
        Op::Vbr(6),
        Op::Vbr(6),
        Op::Vbr(6),
        Op::Vbr(6),
    ],
    &[
        Op::Literal(5),
        Op::Vbr(8),
        Op::Vbr(6),
        Op::Fixed(4),
        Op::Vbr(6),
        Op::Vbr(8),
        Op::Vbr(8),
    ],
    &[
        Op::Literal(6),
        Op::Fixed(32),
        Op::Fixed(31),
        Op::Vbr(2),
        Op::Vbr(32),
        Op::Vbr(0),
        Op::Fixed(3),
    ],
    &[Op::Literal(7), Op::Vbr(6), Op::Array, Op::Vbr(6)],
    &[Op::Literal(8), Op::Fixed(7), Op::Array, Op::Char6],
    &[Op::Literal(9), Op::Array, Op::Fixed(1)],
    &[Op::Literal(10), Op::Vbr(4), Op::Array, Op::Fixed(32)],
    &[Op::Literal(11), Op::Array, Op::Vbr(8)],
    &[Op::Literal(12), Op::Vbr(13), Op::Array, Op::Vbr(3)],
    &[
        Op::Literal(20),
        Op::Vbr(6),
        Op::Fixed(7),
        Op::Vbr(4),
        Op::Fixed(1),
    ],
];

/// A definition with a plan.
fn planned(alloc: Global, ops: &[Op]) -> Result<Abbrev, Fail> {
    let Ok(abbrev) = Abbrev::new(SmallVec::from_slice(alloc, ops)?) else {
        return Err("it is lawful".into());
    };
    Ok(abbrev.planned())
}

/// Whether the record by a definition at a bit of an input is passed over by its plan. It is then passed over as it is read.
fn is_passed(rt: &impl Abort, abbrev: &Abbrev, bytes: &[u8], skipped: u64) -> bool {
    let Ok((mut reader, _)) = BitReader::start(SliceSource::new(bytes), Limits::usual()) else {
        return false;
    };
    if !abbrev.is_usable() {
        return false;
    }
    let parts = reader.buffered_parts().ok().expect(rt, "a live reader");
    let (mut buffered, fields) = behind(parts, skipped).expect(rt, "bits enough");
    let Some(passed) = abbrev.plan().pass(fields, 1000) else {
        return false;
    };
    let first = buffered.position();
    let mut values = ValueCount::new();
    let read = read_record::<(), Buffered, ValueCount>(
        &mut buffered,
        abbrev,
        first,
        1000,
        &mut values,
    );
    let code = read.ok().expect(rt, "a record");
    assert!(rt;
        same(
            passed,
            code,
            &values,
            buffered.position().wrapping_sub(first)
        ),
        "{skipped}"
    );
    true
}

/// The same of a record that is not abbreviated.
fn is_plain_passed(rt: &impl Abort, bytes: &[u8], skipped: u64) -> bool {
    let Ok((mut reader, _)) = BitReader::start(SliceSource::new(bytes), Limits::usual()) else {
        return false;
    };
    let parts = reader.buffered_parts().ok().expect(rt, "a live reader");
    let (mut buffered, fields) = behind(parts, skipped).expect(rt, "bits enough");
    let Some(passed) = pass_plain(fields) else {
        return false;
    };
    let first = buffered.position();
    let mut values = ValueCount::new();
    let read = read_plain::<(), Buffered, ValueCount>(&mut buffered, 100_000, &mut values);
    let code = read.ok().expect(rt, "a record");
    assert!(rt;
        same(
            passed,
            code,
            &values,
            buffered.position().wrapping_sub(first)
        ),
        "{skipped}"
    );
    true
}

/// How many records by such a definition are passed over in some inputs.
fn count_passed(rt: &impl Abort, abbrev: &Abbrev) -> u64 {
    let mut passed: u64 = 0;
    for seed in 0..40 {
        let bytes = made(seed);
        for skipped in 70..110 {
            if is_passed(rt, abbrev, &bytes, skipped) {
                passed = passed.wrapping_add(1);
            }
        }
    }
    passed
}

#[test]
fn records_are_passed_as_they_are_read(rt: HostRuntime) -> Result<(), Fail> {
    for ops in &DEFINITIONS {
        let passed = count_passed(&rt, &planned(rt.alloc(), ops)?);
        assert!(rt; passed > 100, "{ops:?}: {passed}");
    }
    Ok(())
}

#[test]
fn plain_records_are_passed_as_they_are_read(rt: HostRuntime) {
    let mut passed: u64 = 0;
    for seed in 0..40 {
        let bytes = made(seed);
        for skipped in 70..110 {
            if is_plain_passed(&rt, &bytes, skipped) {
                passed = passed.wrapping_add(1);
            }
        }
    }
    assert!(rt; passed > 100, "{passed}");
}
