//! Inputs whose bytes begin alike.

use crate::fault_tests::agrees;
use crate::input_tests::{Cuts, bytes_of};
use crate::{Info, first_difference, first_difference_from, first_difference_in_parts};
use bit_fields::{BufSource, Limits, SliceSource, Source};
use std::alloc::{AllocError, Global};
use std::io;
use std::io::BufReader;
use std::process::Abort;

/// A source over a reader with a buffer of `room` bytes, which gets at most five at once and fails at one of its reads.
fn buffered(
    alloc: Global,
    bytes: &[u8],
    room: usize,
    fails_at: u64,
) -> io::Result<BufSource<BufReader<Cuts<'_>>>> {
    let reader = Cuts::source(bytes, 5, fails_at).into_inner();
    Ok(BufSource::new(BufReader::with_capacity(alloc, room, reader)?))
}

/// The result for bytes and an input, as text.
fn told<S: Source + Drop>(alloc: Global, first: &[u8], source: S) -> Result<String, AllocError> {
    let (answer, _) = first_difference_from(alloc, first, source, Limits::usual(), Info::Keep);
    format!(in alloc; "{answer:?}")
}

/// The result for two inputs, as text.
fn told_of_two<S: Source + Drop>(
    alloc: Global,
    first: &[u8],
    source: S,
) -> Result<String, AllocError> {
    let first = SliceSource::new(first);
    let (answer, _, _) = first_difference(alloc, first, source, Limits::usual(), Info::Keep);
    format!(in alloc; "{answer:?}")
}

/// The result for two inputs from one source, as text.
fn told_in_parts(
    rt: &impl Abort,
    alloc: Global,
    first: &[u8],
    second: &[u8],
    room: usize,
) -> Result<String, AllocError> {
    let mut both = Vec::from_slice(alloc, first)?;
    both.extend_from_slice(second)?;
    let source = buffered(alloc, &both, room, 0).expect(rt, "memory");
    let count = first.len() as u64;
    let (answer, _) = first_difference_in_parts(alloc, source, count, Limits::usual(), Info::Keep);
    format!(in alloc; "{answer:?}")
}

/// Checks that bytes that are lent are compared as those of a source that lends none.
fn are_told(rt: &impl Abort, alloc: Global, first: &[u8], second: &[u8], fails_at: u64) {
    let unlent = told(alloc, first, Cuts::source(second, 5, fails_at)).expect(rt, "memory");
    for room in [1, 2, 3, 8, 64] {
        let source = buffered(alloc, second, room, fails_at).expect(rt, "memory");
        agrees(rt, told(alloc, first, source), &unlent, "bytes");
        let source = buffered(alloc, second, room, fails_at).expect(rt, "memory");
        agrees(rt, told_of_two(alloc, first, source), &unlent, "two");
        if fails_at == 0 {
            let parts = told_in_parts(rt, alloc, first, second, room);
            agrees(rt, parts, &unlent, "parts");
        }
    }
    if fails_at == 0 {
        agrees(
            rt,
            told(alloc, first, SliceSource::new(second)),
            &unlent,
            "slices",
        );
    }
}

/// Pairs of inputs with the same first bytes.
static PAIRS: [(&str, &str); 10] = [
    ("M", "M"),
    ("M T", "M T"),
    ("M E S E", "M E S E"),
    ("M E T", "M E H"),
    ("M E T", "M E T E"),
    ("M E T E", "M E T"),
    ("M E T", "M E T 0A 0A 0A 0A"),
    ("M E T", "M E T 0A"),
    ("M E T", "M E 21 08"),
    ("M T", ""),
];

#[test]
fn the_same_first_bytes(rt: HostRuntime) {
    for (first, second) in &PAIRS {
        let first = bytes_of(rt.alloc(), first).expect(&rt, "memory");
        let second = bytes_of(rt.alloc(), second).expect(&rt, "memory");
        are_told(&rt, rt.alloc(), &first, &second, 0);
    }
}

#[test]
fn failures_after_the_same_bytes(rt: HostRuntime) {
    let first = bytes_of(rt.alloc(), "M E S E").expect(&rt, "memory");
    for fails_at in 1..9 {
        are_told(&rt, rt.alloc(), &first, &first, fails_at);
    }
}

#[test]
fn equal_inputs_are_told(rt: HostRuntime) {
    let first = bytes_of(rt.alloc(), "M E S E").expect(&rt, "memory");
    for room in [1, 8, 64] {
        let source = buffered(rt.alloc(), &first, room, 0).expect(&rt, "memory");
        agrees(
            &rt,
            told(rt.alloc(), &first, source),
            "Ok(None)",
            "the same",
        );
        let source = buffered(rt.alloc(), &first, room, 9).expect(&rt, "memory");
        let wanted = "Err(SameFault { which: Second, fault: Read })";
        agrees(&rt, told(rt.alloc(), &first, source), wanted, "no end");
    }
}
