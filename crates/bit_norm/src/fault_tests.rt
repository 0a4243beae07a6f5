//! Inputs that have no normal form, devices that fail, and limits.

use crate::input_tests::{Cuts, bytes_of, form_of};
use crate::tests::{MAGIC, Pieces, within};
use crate::{Info, normalise};
use bit_fields::{Fault, Limits, SliceSource, Source};
use std::alloc::{AllocError, Global};
use std::process::Abort;

/// A fault as text; none if an allocation failed.
pub(crate) fn told_of_fault(alloc: Global, fault: Fault) -> Result<String, AllocError> {
    match fault {
        Fault::Memory => Err(AllocError),
        fault => fault.to_string(alloc),
    }
}

/// The length of the normal form of an input, or the fault, as text.
fn length_text<S: Source + Drop>(
    rt: &impl Abort,
    alloc: Global,
    source: S,
    limits: Limits,
    info: Info,
) -> Result<String, AllocError> {
    match form_of(rt, alloc, source, limits, info) {
        Ok(form) => form.len().to_string(alloc),
        Err(fault) => told_of_fault(alloc, fault),
    }
}

/// Checks that a text is the wanted one.
pub(crate) fn agrees(rt: &impl Abort, told: Result<String, AllocError>, wanted: &str, row: &str) {
    let told = told.expect(rt, "memory");
    assert!(rt; told.as_str() == wanted, "{row}: {told}, not {wanted}");
}

/// Checks the result for an input under limits, with BLOCKINFO blocks kept and dropped.
fn is_told(rt: &impl Abort, alloc: Global, input: &[u8], limits: Limits, wanted: &str) {
    let source = SliceSource::new(input);
    agrees(
        rt,
        length_text(rt, alloc, source, limits, Info::Keep),
        wanted,
        "kept",
    );
    let source = SliceSource::new(input);
    agrees(
        rt,
        length_text(rt, alloc, source, limits, Info::Drop),
        wanted,
        "dropped",
    );
}

#[test]
fn cut_magics(rt: HostRuntime) {
    for count in 0..4 {
        let wanted = "refused: Truncated at bit 0";
        is_told(&rt, rt.alloc(), &MAGIC[..count], Limits::usual(), wanted);
    }
}

/// Inputs and their faults, with a '=' between them.
static REFUSED: &str = "\
    M 21 08 00 00 01 00 00 00 00 00 00 80 =refused: DirtyPadding at bit 127\n\
    M 21 08 00 00 02 00 00 00 00 00 00 00 =refused: BlockLength at bit 64\n\
    M 21 0C 00 00 01 00 00 00 04 00 00 00 =refused: UndefinedAbbrev at bit 96\n\
    M E 0A 0A 0A 0A =refused: TopLevel at bit 128\n\
    M 21 00 00 00 =refused: AbbrevWidth at bit 42\n\
    M 01 08 00 00 01 00 00 00 0B 00 00 00 =refused: NoBlockSet at bit 96\n\
    M 01 08 00 00 01 00 00 00 02 00 00 00 =refused: NoBlockSet at bit 96\n\
    M 01 08 00 00 01 00 00 00 07 00 00 00 =refused: BadSetBid at bit 96\n\
    M 01 08 00 00 01 00 00 00 01 00 00 00 =refused: NestedInBlockInfo at bit 96\n\
    M 21 08 00 00 03 00 00 00 07 FF FF FF FF FF FF FF FF FF 0F 00 =refused: TooManyValues at bit 104\n\
    M 21 0C 00 00 03 00 00 00 FA FF FF FF FF FF FF FF FF FF 03 00 =refused: AbbrevEncoding at bit 180";

/// Checks the result for an input that a text spells, under limits.
fn is_text_told(rt: &impl Abort, alloc: Global, text: &str, limits: Limits, wanted: &str) {
    let input = bytes_of(alloc, text).expect(rt, "memory");
    is_told(rt, alloc, &input, limits, wanted);
}

#[test]
fn refused_inputs(rt: HostRuntime) {
    let mut count: usize = 0;
    for line in REFUSED.lines() {
        if let Some((text, wanted)) = line.split_once('=') {
            is_text_told(&rt, rt.alloc(), text, Limits::usual(), wanted);
            count = count.saturating_add(1);
        }
    }
    assert!(rt; count == 11);
}

/// Limits on bytes, depth and values.
fn limits_of(rt: &impl Abort, (bytes, depth, values): (u64, u32, u64)) -> Limits {
    Limits::new(bytes, depth, values).expect(rt, "limits within their caps")
}

/// A record with an array of two million values that take no bits.
const ZEROS: &str = "M 21 0C 00 00 03 00 00 00 1A 01 4C 00 41 32 EC 03 00 00 00 00";

/// Limits on bytes, depth and values, inputs, and their faults or the lengths of their forms.
static LIMITED: [((u64, u32, u64), &str, &str); 9] = [
    ((1000, 64, 13), "M S", "refused: TooManyValues at bit 179"),
    ((24, 64, 14), "M S", "the normal form is too long"),
    ((27, 64, 14), "M S", "the normal form is too long"),
    ((28, 1, 14), "M S", "28"),
    ((1_500_020, 1, 2_000_000), ZEROS, "1500020"),
    (
        (1_500_019, 1, 2_000_000),
        ZEROS,
        "the normal form is too long",
    ),
    ((15, 64, 0), "M E", "refused: TooLong at bit 120"),
    ((16, 0, 0), "M E", "refused: TooDeep at bit 32"),
    (
        (1000, 1, 0),
        "M 21 04 00 00 04 00 00 00 13 04 00 00 01 00 00 00 00 00 00 00 00 00 00 00",
        "refused: TooDeep at bit 96",
    ),
];

#[test]
fn limits_are_kept(rt: HostRuntime) {
    for (limits, text, wanted) in &LIMITED {
        is_text_told(&rt, rt.alloc(), text, limits_of(&rt, *limits), wanted);
    }
}

#[test]
fn a_form_of_the_setting_is_measured(rt: HostRuntime) {
    let input = bytes_of(rt.alloc(), "M D").expect(&rt, "memory");
    let source = SliceSource::new(&input);
    let told = length_text(&rt, rt.alloc(), source, within(&rt, 32), Info::Drop);
    agrees(&rt, told, "16", "dropped");
}

/// Sets `count` bits, from `first` on, `step` apart.
fn set_bits(bytes: &mut [u8], first: usize, step: usize, count: usize) {
    let mut bit = first;
    for _ in 0..count {
        if let Some(byte) = bytes.get_mut(bit / 8) {
            *byte |= 1 << (bit % 8);
        }
        bit = bit.saturating_add(step);
    }
}

/// A block 8 of width 3 with a definition of 1,001 literals of value 0, which is used `uses` times. A literal has nine bits, of
/// which the first is set, and the id 4 has three bits, of which the last is set.
fn bomb(alloc: Global, uses: usize) -> Result<Vec<u8>, AllocError> {
    let mut bytes = bytes_of(alloc, "M 21 0C 00 00 24 01 00 00 CA 7E")?;
    bytes.resize(1180, 0)?;
    set_bits(&mut bytes, 114, 9, 1001);
    set_bits(&mut bytes, 9125, 3, uses);
    Ok(bytes)
}

/// How often the definition is used, a limit on bytes, and the result. A refusal comes first even if it is after the place at which
/// the form passes the limit.
static BOMBS: [(usize, u64, &str); 4] = [
    (100, 75_264, "75264"),
    (100, 75_263, "the normal form is too long"),
    (101, 75_264, "refused: TooManyValues at bit 9423"),
    (101, 1_500, "refused: TooManyValues at bit 9423"),
];

#[test]
fn bombs(rt: HostRuntime) {
    for (uses, bytes, wanted) in &BOMBS {
        let input = bomb(rt.alloc(), *uses).expect(&rt, "memory");
        let limits = limits_of(&rt, (*bytes, 64, 100_000));
        is_told(&rt, rt.alloc(), &input, limits, wanted);
    }
}

/// Blocks nested `depth` deep, each in its normal form.
fn nested_blocks(alloc: Global, depth: u32) -> Result<Vec<u8>, AllocError> {
    let mut bytes = Vec::from_slice(alloc, &MAGIC)?;
    for level in (0..depth).rev() {
        bytes.extend_from_slice(&[0x21, 8, 0, 0])?;
        bytes.extend_from_slice(&level.wrapping_mul(3).wrapping_add(1).to_le_bytes())?;
    }
    for _ in 0..depth {
        bytes.extend_from_slice(&[0; 4])?;
    }
    Ok(bytes)
}

/// The depth of nested blocks, a limit on depth, and the result.
static DEEP: [(u32, u32, &str); 2] = [
    (255, 255, "3064"),
    (256, 255, "refused: TooDeep at bit 16352"),
];

#[test]
fn deep_blocks(rt: HostRuntime) {
    for (depth, limit, wanted) in &DEEP {
        let input = nested_blocks(rt.alloc(), *depth).expect(&rt, "memory");
        let limits = limits_of(&rt, (10_000, *limit, 0));
        is_told(&rt, rt.alloc(), &input, limits, wanted);
    }
    let input = nested_blocks(rt.alloc(), 65).expect(&rt, "memory");
    let wanted = "refused: TooDeep at bit 4128";
    is_told(&rt, rt.alloc(), &input, Limits::usual(), wanted);
}

/// Checks that an input from a source is its own normal form.
fn is_form<S: Source + Drop>(
    rt: &impl Abort,
    alloc: Global,
    source: S,
    limits: Limits,
    input: &[u8],
) {
    let answer = form_of(rt, alloc, source, limits, Info::Keep);
    let form = answer.expect(rt, "a normal form");
    assert!(rt; form.as_slice() == input);
}

#[test]
fn deep_forms(rt: HostRuntime) {
    let input = nested_blocks(rt.alloc(), 255).expect(&rt, "memory");
    assert!(rt; input.len() == 3064);
    let limits = limits_of(&rt, (10_000, 255, 0));
    is_form(&rt, rt.alloc(), SliceSource::new(&input), limits, &input);
}

#[test]
fn a_source_fails(rt: HostRuntime) {
    let input = bytes_of(rt.alloc(), "M T").expect(&rt, "memory");
    for fails_at in 1..18 {
        let source = Cuts::source(&input, 1, fails_at);
        let told = length_text(&rt, rt.alloc(), source, Limits::usual(), Info::Keep);
        agrees(&rt, told, "the source failed", "a source that fails");
    }
    let source = Cuts::source(&input, 1, 18);
    is_form(&rt, rt.alloc(), source, Limits::usual(), &input);
}

/// Checks that a sink that takes at most `most` bytes a put, and fails after some puts, has a prefix of the form and is not called
/// again. Returns the length of the prefix in bytes.
fn kept_front(rt: &impl Abort, alloc: Global, form: &[u8], most: usize, puts: u64) -> usize {
    let sink = Pieces::new(alloc, most, puts);
    let source = SliceSource::new(form);
    let (answer, _, sink) = normalise(alloc, source, sink, Limits::usual(), Info::Keep);
    assert!(rt;
        answer == Err(Fault::Write) && sink.failures == 1 && form.starts_with(&sink.bytes),
        "{puts} puts"
    );
    sink.bytes.len()
}

#[test]
fn a_sink_fails(rt: HostRuntime) {
    let form = bytes_of(rt.alloc(), "M T").expect(&rt, "memory");
    for puts in 0..16usize {
        let count = kept_front(&rt, rt.alloc(), &form, 1, puts as u64);
        assert!(rt; count == puts, "{puts} puts of a byte");
    }
    let count = kept_front(&rt, rt.alloc(), &form, 5, 1);
    assert!(rt; count > 0 && count <= 5, "a put of five bytes or fewer");
}
