//! Listings and what they are assembled to.

use bit_fields::{Fault, Limits, ReadSource, SliceSource, VecSink};
use bit_norm::FormWriter;
use bit_text::{AssembleFault, TextReason, assemble};
use std::alloc::Global;
use std::io;
use std::io::Read;
use std::process::Abort;

/// Assembles a text under limits of 100 bytes, depth 2 and 3 values.
fn assembled(
    rt: &impl Abort,
    alloc: Global,
    text: &str,
    bytes: u64,
) -> (Result<u64, AssembleFault>, VecSink) {
    let limits = Limits::new(bytes, 2, 3).expect(rt, "limits within their caps");
    let source = SliceSource::new(text.as_bytes());
    let (answer, _, sink) = assemble(alloc, source, VecSink::new(alloc), limits);
    (answer, sink)
}

/// One block with one record of code 1 and the value 30.
const FORM: [u8; 16] = [
    0x42, 0x43, 0xC0, 0xDE, 0x21, 8, 0, 0, 1, 0, 0, 0, 7, 0x81, 7, 0,
];

/// Spellings of that block.
static SPELLINGS: [&str; 4] = [
    "magic 4243c0de\nblock 8\n  record 1 30\n",
    "magic 4243c0de\nblock 8\n  record 1 30",
    "\n  # none\n#\nmagic 4243c0de\n   \nblock 0x8\n# x\n  record 0x01 0x1E\n \n  # end",
    "magic 4243c0de\nblock 0008\n  record 01 0x000000000000000000000000001e\n",
];

#[test]
fn spellings(rt: HostRuntime) {
    for text in SPELLINGS.iter() {
        let (answer, sink) = assembled(&rt, rt.alloc(), text, 16);
        assert!(rt; answer == Ok(16) && sink.bytes() == FORM.as_slice());
    }
}

/// Numbers of one to seven digits, which are read at once up to six of them, and the same in hexadecimal, which are not.
static LENGTHS: [(&str, &str); 2] = [
    (
        "magic 4243c0de\nblock 8\n  record 9 99 999 9999\n# behind\n",
        "magic 4243c0de\nblock 8\n  record 0x9 0x63 0x3e7 0x270f\n# behind\n",
    ),
    (
        "magic 4243c0de\nblock 8\n  record 99999 999999 1000000 9999999\n# behind\n",
        "magic 4243c0de\nblock 8\n  record 0x1869f 0xf423f 0xf4240 0x98967f\n# behind\n",
    ),
];

#[test]
fn lengths_of_numbers(rt: HostRuntime) {
    for (decimal, hexadecimal) in LENGTHS.iter() {
        let (answer, sink) = assembled(&rt, rt.alloc(), decimal, 100);
        let (other, expected) = assembled(&rt, rt.alloc(), hexadecimal, 100);
        assert!(rt; answer.is_ok() && answer == other);
        assert!(rt; sink.bytes() == expected.bytes());
    }
}

#[test]
fn no_blocks(rt: HostRuntime) {
    let (answer, sink) = assembled(&rt, rt.alloc(), "magic 01ab00ff", 4);
    assert!(rt; answer == Ok(4) && sink.bytes() == [0x01, 0xAB, 0x00, 0xFF].as_slice());
}

/// Blocks in blocks, which end where an item is further out.
const NESTED: &str = "magic 4243c0de
block 1
  block 0
    record 1 7
block 4294967295
  record 0xffffffffffffffff
  record 2 3 4
";

/// Texts that are refused, each with its line.
static REFUSED: [(&str, TextReason, u64); 31] = [
    ("", TextReason::NoMagic, 1),
    ("\n\n", TextReason::NoMagic, 3),
    ("# x", TextReason::NoMagic, 1),
    ("\nblock 8\n", TextReason::NoMagic, 2),
    (" magic 4243c0de\n", TextReason::NoMagic, 1),
    ("magic 4243C0de\n", TextReason::NoMagic, 1),
    ("magic 4243c0d\n", TextReason::NoMagic, 1),
    ("magic 4243c0de \n", TextReason::NoMagic, 1),
    ("#\nmagic dec0170b\n", TextReason::WrapperMagic, 2),
    (
        "magic 4243c0de\n#\nmagic 4243c0de\n",
        TextReason::BadLine,
        3,
    ),
    ("magic 4243c0de\nblock\n", TextReason::BadLine, 2),
    ("magic 4243c0de\nblock 8 9\n", TextReason::BadLine, 2),
    ("magic 4243c0de\nblock 8\r\n", TextReason::BadLine, 2),
    (
        "magic 4243c0de\nblock 8\n  record 1  2\n",
        TextReason::BadLine,
        3,
    ),
    (
        "magic 4243c0de\nblock 8\n  record 1 \n# behind\n",
        TextReason::BadLine,
        3,
    ),
    (
        "magic 4243c0de\nblock 8\n  record 1\t2\n# behind\n",
        TextReason::BadLine,
        3,
    ),
    (
        "magic 4243c0de\nblock 8\n  record 1 2:\n# behind\n",
        TextReason::BadLine,
        3,
    ),
    (
        "magic 4243c0de\nblock 8\n  record 1 0x\n",
        TextReason::BadLine,
        3,
    ),
    (
        "magic 4243c0de\nblock 8\n  record 1 2 # x\n",
        TextReason::BadLine,
        3,
    ),
    (
        "magic 4243c0de\nblock 4294967296\n",
        TextReason::NumberTooLarge,
        2,
    ),
    (
        "magic 4243c0de\nblock 8\n  record 18446744073709551616\n",
        TextReason::NumberTooLarge,
        3,
    ),
    ("magic 4243c0de\n block 8\n", TextReason::BadIndentation, 2),
    ("magic 4243c0de\n  block 8\n", TextReason::BadIndentation, 2),
    (
        "magic 4243c0de\nblock 8\n   record 1\n",
        TextReason::BadIndentation,
        3,
    ),
    ("magic 4243c0de\nrecord 1\n", TextReason::Misplaced, 2),
    (
        "magic 4243c0de\nblock 0\n  record 2 7\n",
        TextReason::Misplaced,
        3,
    ),
    (
        "magic 4243c0de\nblock 0\n  record 1\n",
        TextReason::Misplaced,
        3,
    ),
    (
        "magic 4243c0de\nblock 0\n  block 8\n",
        TextReason::Misplaced,
        3,
    ),
    (
        "magic 4243c0de\nblock 1\n  block 1\n    block 1\n",
        TextReason::TooDeep,
        4,
    ),
    (
        "magic 4243c0de\nblock 1\n  record 1 2 3\n  record 1 2 3\n",
        TextReason::TooManyValues,
        4,
    ),
    (
        "magic 4243c0de\nblock 1\n  record 1 2 3 4 5",
        TextReason::TooManyValues,
        3,
    ),
];

#[test]
fn refused(rt: HostRuntime) {
    for (text, reason, line) in REFUSED.iter() {
        let (answer, sink) = assembled(&rt, rt.alloc(), text, 100);
        let wanted = AssembleFault::Refused {
            reason: *reason,
            line: *line,
        };
        assert!(rt; answer == Err(wanted) && sink.bytes().is_empty());
    }
}

/// The form of those blocks.
fn nested_form(rt: &impl Abort, alloc: Global) -> VecSink {
    let limits = Limits::new(100, 2, 3).expect(rt, "limits within their caps");
    let magic = [0x42, 0x43, 0xC0, 0xDE];
    let mut writer = FormWriter::new(alloc, magic, limits).expect(rt, "no wrapper");
    let told = [
        writer.enter(1),
        writer.enter(0),
        writer.record(1, &[7]),
        writer.leave(),
        writer.leave(),
        writer.enter(u32::MAX),
        writer.record(u64::MAX, &[]),
        writer.record(2, &[3, 4]),
        writer.leave(),
    ];
    let complete = writer.is_complete();
    assert!(rt; told == [Ok(()); 9] && complete);
    writer.finish(VecSink::new(alloc)).1
}

#[test]
fn nested_blocks(rt: HostRuntime) {
    let (answer, sink) = assembled(&rt, rt.alloc(), NESTED, 100);
    let wanted = nested_form(&rt, rt.alloc());
    assert!(rt; answer == Ok(sink.bytes().len() as u64) && sink.bytes() == wanted.bytes());
}

#[test]
fn too_long(rt: HostRuntime) {
    let (answer, sink) = assembled(&rt, rt.alloc(), SPELLINGS[0], 15);
    let wanted = AssembleFault::Fault(Fault::OutputTooLong);
    assert!(rt; answer == Err(wanted) && sink.bytes().is_empty());
}

#[test]
fn shown(rt: HostRuntime) {
    let (answer, _) = assembled(&rt, rt.alloc(), "magic 4243c0de\nblock\n", 100);
    let text = match answer {
        Ok(_) => String::new(rt.alloc()),
        Err(fault) => format!(in rt.alloc(); "{fault}").expect(&rt, "memory"),
    };
    assert!(rt; text.as_str() == "refused: BadLine at line 2");
}

/// Words of all lengths, each with its number.
static WORDS: [(&str, u64); 22] = [
    ("7", 7),
    ("10", 10),
    ("99", 99),
    ("100", 100),
    ("999", 999),
    ("1000", 1000),
    ("9999", 9999),
    ("10000", 10000),
    ("99999", 99999),
    ("0", 0),
    ("0000", 0),
    ("00000", 0),
    ("0007", 7),
    ("00007", 7),
    ("123456789012345678", 123456789012345678),
    ("1234567890123456789", 1234567890123456789),
    ("9999999999999999999", 9999999999999999999),
    ("10000000000000000000", 10000000000000000000),
    ("18446744073709551609", 18446744073709551609),
    ("18446744073709551610", 18446744073709551610),
    ("18446744073709551615", u64::MAX),
    ("018446744073709551615", u64::MAX),
];

/// The form of a block with a record of a number twice.
fn twice(rt: &impl Abort, alloc: Global, value: u64) -> VecSink {
    let limits = Limits::new(100, 2, 3).expect(rt, "limits within their caps");
    let magic = [0x42, 0x43, 0xC0, 0xDE];
    let mut writer = FormWriter::new(alloc, magic, limits).expect(rt, "no wrapper");
    let told = [
        writer.enter(8),
        writer.record(value, &[value]),
        writer.leave(),
    ];
    let complete = writer.is_complete();
    assert!(rt; told == [Ok(()); 3] && complete);
    writer.finish(VecSink::new(alloc)).1
}

#[test]
fn words(rt: HostRuntime) {
    for (word, value) in WORDS.iter() {
        let text = format!(in rt.alloc(); "magic 4243c0de\nblock 8\n  record {word} {word}").expect(
            &rt, "memory",
        );
        let (answer, sink) = assembled(&rt, rt.alloc(), text.as_str(), 100);
        let wanted = twice(&rt, rt.alloc(), *value);
        assert!(rt; answer.is_ok() && sink.bytes() == wanted.bytes());
    }
}

/// Lines of 7, 8, 9, 15, 16, 17, 31, 32 and 33 bytes, and others.
const LONG: &str = "magic 4243c0de
# 34567
# 345678
# 3456789
# 3456789012345
# 34567890123456
# 345678901234567
# 34567890123456789012345678901
# 345678901234567890123456789012
# 3456789012345678901234567890123
block 8
  record 1 30
";

/// A reader that gives a text in two pieces.
#[derive(Drop)]
struct Cut<'a> {
    first: &'a [u8],
    second: &'a [u8],
}

impl<'a> Read for Cut<'a> {
    fn read(&mut self, buf: &mut [u8]) -> io::Result<usize> {
        if self.first.is_empty() {
            self.second.read(buf)
        } else {
            self.first.read(buf)
        }
    }
}

#[test]
fn cut_lines(rt: HostRuntime) {
    let limits = Limits::new(100, 2, 3).expect(&rt, "limits within their caps");
    for place in 0..LONG.len() {
        let (first, second) = LONG.as_bytes().split_at(place);
        let source = ReadSource::new(Cut { first, second });
        let (answer, _, sink) = assemble(rt.alloc(), source, VecSink::new(rt.alloc()), limits);
        assert!(rt; answer == Ok(16) && sink.bytes() == FORM.as_slice());
    }
}
