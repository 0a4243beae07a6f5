//! Whether two inputs have the same tree.

use crate::fault_tests::agrees;
use crate::input_tests::{Cuts, bytes_of};
use crate::tests::within;
use crate::{Info, RecordName, SameFault, Which, same, same_as};
use bit_fields::{Fault, Limits, Reason, SliceSource, Source};
use std::alloc::{AllocError, Global};
use std::process::Abort;

/// A result as text; none if an allocation failed.
fn text_of(alloc: Global, answer: Result<bool, SameFault>) -> Result<String, AllocError> {
    match answer {
        Ok(are_same) => are_same.to_string(alloc),
        Err(
            SameFault {
                which: _,
                fault: Fault::Memory,
            },
        ) => Err(AllocError),
        Err(fault) => fault.to_string(alloc),
    }
}

/// The result for two inputs, as text.
fn answer_text<A: Source + Drop, B: Source + Drop>(
    alloc: Global,
    a: A,
    b: B,
    limits: Limits,
    info: Info,
) -> Result<String, AllocError> {
    let (answer, _, _) = same(alloc, a, b, limits, info);
    text_of(alloc, answer)
}

/// The result for bytes and an input, as text.
fn told_as(alloc: Global, a: &[u8], b: &[u8], info: Info) -> Result<String, AllocError> {
    let (answer, _) = same_as(alloc, a, SliceSource::new(b), Limits::usual(), info);
    text_of(alloc, answer)
}

/// Checks the result for two inputs.
fn is_told(rt: &impl Abort, alloc: Global, a: &[u8], b: &[u8], info: Info, wanted: &str) {
    let (first, second) = (SliceSource::new(a), SliceSource::new(b));
    let told = answer_text(alloc, first, second, Limits::usual(), info);
    agrees(rt, told, wanted, "two inputs");
    agrees(rt, told_as(alloc, a, b, info), wanted, "bytes and an input");
}

/// Checks the result for two inputs, and the one the other way round.
fn are_told(
    rt: &impl Abort,
    alloc: Global,
    (a, b): (&str, &str),
    info: Info,
    there: &str,
    back: &str,
) {
    let a = bytes_of(alloc, a).expect(rt, "memory");
    let b = bytes_of(alloc, b).expect(rt, "memory");
    is_told(rt, alloc, &a, &b, info, there);
    is_told(rt, alloc, &b, &a, info, back);
}

/// Two records in one block.
const TWO: &str = "M 21 08 00 00 02 00 00 00 07 81 77 10 78 00 00 00";

/// A block in a block.
const NESTED: &str = "M 21 08 00 00 04 00 00 00 25 08 00 00 01 00 00 00 00 00 00 00 00 00 00 00";

/// Pairs of inputs, the result if BLOCKINFO blocks are kept, and the one the other way round.
static PAIRS: [(&str, &str, &str, &str); 22] = [
    ("M", "M", "true", "true"),
    ("M T", "M W", "true", "true"),
    ("M B", "M A", "true", "true"),
    ("M S", "M S", "true", "true"),
    ("M E T", "M E T", "true", "true"),
    ("M D", "M F", "true", "true"),
    ("M N", "M N", "true", "true"),
    ("44 49 41 47", "44 49 41 47", "true", "true"),
    ("M T", "M H", "false", "false"),
    ("M T", "M E", "false", "false"),
    ("M E", "M", "false", "false"),
    ("M E", NESTED, "false", "false"),
    ("M T", NESTED, "false", "false"),
    ("M S", "M T", "false", "false"),
    (TWO, "M T", "false", "false"),
    ("M D", "M H", "false", "false"),
    ("M E T", "M E H", "false", "false"),
    ("M E T", "M E", "false", "false"),
    ("M", "44 49 41 47", "false", "false"),
    // the input that is refused is named
    (
        "M",
        "",
        "second: refused: Truncated at bit 0",
        "first: refused: Truncated at bit 0",
    ),
    (
        "",
        "M E 0A 0A 0A 0A",
        "first: refused: Truncated at bit 0",
        "first: refused: TopLevel at bit 128",
    ),
    (
        "M",
        "M E 0A 0A 0A 0A",
        "second: refused: TopLevel at bit 128",
        "first: refused: TopLevel at bit 128",
    ),
];

#[test]
fn inputs_are_compared(rt: HostRuntime) {
    for (a, b, there, back) in &PAIRS {
        are_told(&rt, rt.alloc(), (a, b), Info::Keep, there, back);
    }
}

/// Pairs of inputs, and the result both ways if BLOCKINFO blocks are dropped.
static WITHOUT_INFO: [(&str, &str, &str); 8] = [
    (TWO, TWO, "true"),
    ("M D", "M H", "true"),
    ("M E D", "M E H", "true"),
    ("M D E", "M H E", "true"),
    ("M D D", "M H H", "true"),
    ("M N", "M N", "true"),
    ("M D T", "M D E", "false"),
    ("M D", "M D T", "false"),
];

#[test]
fn blockinfo_is_dropped(rt: HostRuntime) {
    for (a, b, wanted) in &WITHOUT_INFO {
        are_told(&rt, rt.alloc(), (a, b), Info::Drop, wanted, wanted);
    }
}

/// Pairs of inputs, and the result both ways without blocks 0 and 9, and the records with code 1 of blocks 8.
static WITHOUT_NAMED: [(&str, &str, &str); 5] = [
    ("M T", "M H", "true"),
    ("M E", NESTED, "true"),
    ("M D", "M E", "true"),
    ("M N", "M 21 08 00 00 04 00 00 00 E 00 00 00 00", "true"),
    ("M N", "M E", "false"),
];

#[test]
fn what_is_named_is_dropped(rt: HostRuntime) {
    let named = Info::Without {
        blocks: &[9, 0],
        records: &[RecordName { block: 8, code: 1 }],
    };
    for (a, b, wanted) in &WITHOUT_NAMED {
        are_told(&rt, rt.alloc(), (a, b), named, wanted, wanted);
    }
}

#[test]
fn no_normal_form_has_to_fit(rt: HostRuntime) {
    let input = bytes_of(rt.alloc(), "M S").expect(&rt, "memory");
    let (a, b) = (SliceSource::new(&input), SliceSource::new(&input));
    let told = answer_text(rt.alloc(), a, b, within(&rt, 24), Info::Keep);
    agrees(&rt, told, "true", "24 bytes");
}

/// Checks the result if one of the sources fails at a pull of a byte.
fn are_cut(rt: &impl Abort, alloc: Global, input: &[u8], fails_at: u64) {
    let (a, b) = (Cuts::source(input, 1, fails_at), SliceSource::new(input));
    agrees(
        rt,
        answer_text(alloc, a, b, Limits::usual(), Info::Keep),
        "first: the source failed",
        "a",
    );
    let (a, b) = (SliceSource::new(input), Cuts::source(input, 1, fails_at));
    agrees(
        rt,
        answer_text(alloc, a, b, Limits::usual(), Info::Keep),
        "second: the source failed",
        "b",
    );
}

/// Checks that two sources have the same tree, if one gives `most` bytes at once and the other five.
fn are_same_by(rt: &impl Abort, alloc: Global, input: &[u8], most: usize) {
    let (a, b) = (Cuts::source(input, most, 0), Cuts::source(input, 5, 0));
    agrees(
        rt,
        answer_text(alloc, a, b, Limits::usual(), Info::Keep),
        "true",
        "pieces",
    );
}

#[test]
fn sources_give_pieces_or_fail(rt: HostRuntime) {
    let input = bytes_of(rt.alloc(), "M T").expect(&rt, "memory");
    for fails_at in 1..18 {
        are_cut(&rt, rt.alloc(), &input, fails_at);
    }
    for most in [1, 3, 4] {
        are_same_by(&rt, rt.alloc(), &input, most);
    }
}

#[test]
fn the_second_waits(rt: HostRuntime) {
    let input = bytes_of(rt.alloc(), "M T").expect(&rt, "memory");
    let a = SliceSource::new(&[]);
    let b = Cuts::source(&input, 1, 0);
    let (answer, _, b) = same(rt.alloc(), a, b, Limits::usual(), Info::Keep);
    assert!(rt; answer.is_err() && b.into_inner().reads() == 0);
}

/// Checks how a fault of one of two inputs is shown.
fn is_shown(rt: &impl Abort, alloc: Global, which: Which, fault: Fault, wanted: &str) {
    let told = SameFault { which, fault }.to_string(alloc);
    agrees(rt, told, wanted, "a fault");
}

#[test]
fn faults_are_shown(rt: HostRuntime) {
    let fault = Fault::Refused {
        reason: Reason::Truncated,
        bit: 0,
    };
    let wanted = "first: refused: Truncated at bit 0";
    is_shown(&rt, rt.alloc(), Which::First, fault, wanted);
    let wanted = "second: the source failed";
    is_shown(&rt, rt.alloc(), Which::Second, Fault::Read, wanted);
}
