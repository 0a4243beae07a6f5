//! Runs whose devices fail.

use crate::tests::{End, LONG, ends_with, is_end, run_over, words_of};
use std::alloc::{AllocError, Global};
use std::io;
use std::io::{BufRead, Read, Write};
use std::process::Abort;
use std::test::Fail;

/// A writer that takes `room` bytes and then fails, and may fail when it is flushed.
#[derive(Drop)]
struct Room {
    bytes: Vec<u8>,
    room: usize,
    flushes: bool,
}

impl Room {
    fn new(alloc: Global, room: usize, flushes: bool) -> Room {
        Room {
            bytes: Vec::new(alloc),
            room,
            flushes,
        }
    }
}

impl Write for Room {
    fn write(&mut self, from: &[u8]) -> io::Result<usize> {
        let count = from.len().min(self.room);
        if count == 0 && !from.is_empty() {
            return Err(io::Error::from(io::ErrorKind::Other));
        }
        self.bytes.extend_from_slice(&from[..count])?;
        self.room -= count;
        Ok(count)
    }

    fn flush(&mut self) -> io::Result<()> {
        if self.flushes {
            Ok(())
        } else {
            Err(io::Error::from(io::ErrorKind::Other))
        }
    }
}

/// A reader that gives some bytes, at most three at once, and then fails.
#[derive(Drop)]
struct Broken<'a> {
    bytes: &'a [u8],
}

impl<'a> Read for Broken<'a> {
    fn read(&mut self, into: &mut [u8]) -> io::Result<usize> {
        if self.bytes.is_empty() {
            return Err(io::Error::from(io::ErrorKind::Other));
        }
        let most = into.len().min(3);
        self.bytes.read(&mut into[..most])
    }
}

/// It shows at most three bytes at once.
impl<'a> BufRead for Broken<'a> {
    fn fill_buf(&mut self) -> io::Result<&[u8]> {
        if self.bytes.is_empty() {
            return Err(io::Error::from(io::ErrorKind::Other));
        }
        let most = self.bytes.len().min(3);
        Ok(&self.bytes[..most])
    }

    fn consume(&mut self, amount: usize) {
        let count = amount.min(self.bytes.len());
        self.bytes = &self.bytes[count..];
    }
}

/// A run with such a room for its output ends so.
fn ends_in(
    rt: &impl Abort,
    alloc: Global,
    line: &str,
    output: Room,
    expected: End,
) -> Result<(), AllocError> {
    let input = LONG;
    let words = words_of(alloc, line)?;
    let ran = run_over(alloc, words, input.as_slice(), output, Vec::new(alloc));
    let end = (
        ran.status,
        ran.output.bytes.as_slice(),
        ran.errors.as_slice(),
    );
    is_end(rt, line, end, expected);
    Ok(())
}

/// Words, the room for the output and whether it flushes, and how the run ends.
static OUTPUTS_THAT_FAIL: [(&str, (usize, bool), (u8, &[u8], &str)); 8] = [
    (
        "",
        (5, true),
        (3, &[0x42, 0x43, 0xc0, 0xde, 0x21], "fault: write failed\n"),
    ),
    ("check", (4, true), (3, b"acce", "fault: write failed\n")),
    ("--help", (0, true), (3, b"", "fault: write failed\n")),
    (
        "check",
        (100, false),
        (3, b"accepted\n", "fault: write failed\n"),
    ),
    (
        "analyse",
        (20, true),
        (3, b"magic 4243c0de bits ", "fault: write failed\n"),
    ),
    (
        "show",
        (20, true),
        (3, b"magic 4243c0de\nblock", "fault: write failed\n"),
    ),
    // The line is that of the failure alone.
    (
        "check --bytes 1",
        (100, false),
        (3, b"", "fault: write failed\n"),
    ),
    (
        "check --bytes 1",
        (0, true),
        (
            1,
            b"",
            "refused: TooLong at bit 8\n  tip: '--bytes N' permits a longer input, of at most 17179869180 bytes\n",
        ),
    ),
];

#[test]
fn outputs_that_fail(rt: HostRuntime) -> Result<(), Fail> {
    for (line, (room, flushes), end) in &OUTPUTS_THAT_FAIL {
        let output = Room::new(rt.alloc(), *room, *flushes);
        ends_in(&rt, rt.alloc(), line, output, *end)?;
    }
    Ok(())
}

static ALL_COMMANDS: [&str; 7] = [
    "",
    "check",
    "normal",
    "same --first 16",
    "same --first 64",
    "analyse",
    "show",
];

/// A run with room for three bytes of its errors leaves a prefix of its line there.
fn errors_fail(rt: &impl Abort, alloc: Global, line: &str) -> Result<(), AllocError> {
    let input = LONG;
    let words = words_of(alloc, line)?;
    let errors = Room::new(alloc, 3, true);
    let ran = run_over(alloc, words, input.as_slice(), Vec::new(alloc), errors);
    let end = (
        ran.status,
        ran.output.as_slice(),
        ran.errors.bytes.as_slice(),
    );
    is_end(rt, line, end, (1, b"", "ref"));
    Ok(())
}

#[test]
fn inputs_and_errors_that_fail(rt: HostRuntime) -> Result<(), Fail> {
    let failed = (3, b"".as_slice(), "fault: read failed\n");
    for line in &ALL_COMMANDS {
        ends_with(&rt, rt.alloc(), line, Broken { bytes: &LONG }, failed)?;
    }
    errors_fail(&rt, rt.alloc(), "check --bytes 1")?;
    Ok(())
}
