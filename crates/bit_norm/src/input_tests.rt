//! Inputs and their normal forms.

use crate::tests::{MAGIC, Pieces};
use crate::{Info, RecordName, normalise};
use bit_fields::{Fault, Limits, ReadSource, SliceSource, Source, VecSink};
use std::alloc::{AllocError, Global};
use std::io;
use std::io::{Error, ErrorKind, Read};
use std::process::Abort;

/// The value of a hexadecimal digit.
fn digit(byte: u8) -> u8 {
    match byte {
        b'0'..=b'9' => byte - b'0',
        b'A'..=b'F' => byte - b'A' + 10,
        _ => 0,
    }
}

/// Bytes that several inputs share, by a letter:
///
/// - M, the magic of LLVM's bitcode;
/// - E, an empty block 8;
/// - T, `8 { 1 [30] }` in its normal form, and W, the same with ids of three bits and the value in two chunks;
/// - D, a BLOCKINFO block that describes block 8, and a record by its definition, `0 { 1 [8] } 8 { 1 [100] }`; F, its normal form;
///   H, the block 8 of this;
/// - N, `8 { 0 { 1 [8] } 8 { 1 [100] } }` by a definition;
/// - S, a definition of eight literals that is used twice, two records of seven values;
/// - B and A, five bytes as a blob and as an array, and R, their normal form;
/// - Z, twelve zeros.
fn bytes_named(name: u8) -> &'static [u8] {
    match name {
        b'M' => &MAGIC,
        b'E' => &[0x21, 8, 0, 0, 1, 0, 0, 0, 0, 0, 0, 0],
        b'T' => &[0x21, 8, 0, 0, 1, 0, 0, 0, 7, 0x81, 7, 0],
        b'W' => &[0x21, 12, 0, 0, 1, 0, 0, 0, 0xb, 2, 0x1f, 0],
        b'D' => &[
            1, 8, 0, 0, 2, 0, 0, 0, 7, 1, 0xa2, 0x18, 0x20, 7, 0, 0, 0x21, 12, 0, 0, 1, 0, 0, 0,
            0x24, 3, 0, 0,
        ],
        b'F' => &[
            1, 8, 0, 0, 1, 0, 0, 0, 7, 1, 2, 0, 0x21, 8, 0, 0, 1, 0, 0, 0, 7, 1, 0x39, 0,
        ],
        b'H' => &[0x21, 8, 0, 0, 1, 0, 0, 0, 7, 1, 0x39, 0],
        b'N' => &[
            0x21, 12, 0, 0, 8, 0, 0, 0, 1, 0x10, 0, 0, 2, 0, 0, 0, 7, 1, 0xa2, 0x18, 0x20, 7, 0, 0,
            0x41, 0x18, 0, 0, 1, 0, 0, 0, 0x24, 3, 0, 0, 0, 0, 0, 0,
        ],
        b'S' => &[
            0x21, 12, 0, 0, 3, 0, 0, 0, 0x42, 3, 6, 0x14, 0x38, 0x90, 0x60, 0x41, 0x83, 7, 0x24, 0,
        ],
        b'B' => &[
            0x21, 12, 0, 0, 4, 0, 0, 0, 0x12, 3, 0x94, 5, 0x61, 0x62, 0x63, 0x64, 0x65, 0, 0, 0, 0,
            0, 0, 0,
        ],
        b'A' => &[
            0x21, 12, 0, 0, 3, 0, 0, 0, 0x1a, 3, 0x4c, 0x10, 0x8b, 0x30, 0xb1, 0x31, 0xb2, 0x32, 0,
            0,
        ],
        b'R' => &[
            0x21, 8, 0, 0, 3, 0, 0, 0, 7, 0x45, 0x38, 0x88, 0xc3, 0x38, 0x90, 0x43, 0x39, 0, 0, 0,
        ],
        b'Z' => &[0; 12],
        _ => &[],
    }
}

/// The bytes of a text of hexadecimal bytes and letters for `bytes_named`.
pub(crate) fn bytes_of(alloc: Global, text: &str) -> Result<Vec<u8>, AllocError> {
    let mut bytes = Vec::new(alloc);
    for word in text.split_whitespace() {
        match word.as_bytes() {
            [high, low] => bytes.push(digit(*high).wrapping_mul(16).wrapping_add(digit(*low)))?,
            [name] => bytes.extend_from_slice(bytes_named(*name))?,
            _ => {}
        }
    }
    Ok(bytes)
}

/// A reader that gives few bytes at a time and fails at one of its reads.
#[derive(Drop)]
pub(crate) struct Cuts<'a> {
    rest: &'a [u8],
    most: usize,
    reads: u64,
    fails_at: u64,
}

impl<'a> Cuts<'a> {
    pub(crate) fn source(bytes: &'a [u8], most: usize, fails_at: u64) -> ReadSource<Cuts<'a>> {
        ReadSource::new(Cuts {
            rest: bytes,
            most,
            reads: 0,
            fails_at,
        })
    }

    pub(crate) fn reads(&self) -> u64 {
        self.reads
    }
}

impl<'a> Read for Cuts<'a> {
    fn read(&mut self, buf: &mut [u8]) -> io::Result<usize> {
        self.reads = self.reads.saturating_add(1);
        if self.reads == self.fails_at {
            return Err(Error::from(ErrorKind::Other));
        }
        let most = buf.len().min(self.most);
        self.rest.read(&mut buf[..most])
    }
}

/// What an input is normalised to; nothing if an allocation failed.
pub(crate) fn form_of<S: Source + Drop>(
    rt: &impl Abort,
    alloc: Global,
    source: S,
    limits: Limits,
    info: Info,
) -> Result<Vec<u8>, Fault> {
    let sink = Pieces::new(alloc, 8, u64::MAX);
    let (answer, _, sink) = normalise(alloc, source, sink, limits, info);
    match answer {
        Ok(count) => {
            assert!(rt; count == sink.bytes.len() as u64);
            Ok(sink.bytes)
        }
        Err(fault) => {
            assert!(rt; sink.bytes.is_empty() || fault == Fault::Write);
            Err(fault)
        }
    }
}

/// Checks that the input is normalised to this form.
fn has_form(rt: &impl Abort, alloc: Global, input: &[u8], info: Info, form: &[u8]) {
    let source = SliceSource::new(input);
    let answer = form_of(rt, alloc, source, Limits::usual(), info);
    let got = answer.expect(rt, "a normal form");
    assert!(rt; got.as_slice() == form, "{input:?} to {got:?}");
}

/// The same, if the source gives and the sink takes a given number of bytes at once.
fn has_form_by(rt: &impl Abort, alloc: Global, input: &[u8], info: Info, form: &[u8], most: usize) {
    let sink = Pieces::new(alloc, most, u64::MAX);
    let source = Cuts::source(input, most, 0);
    let (answer, _, sink) = normalise(alloc, source, sink, Limits::usual(), info);
    assert!(rt;
        answer == Ok(form.len() as u64) && sink.has(form, 0),
        "{input:?} by {most}"
    );
}

/// The same, whatever the source gives and the sink takes at once, and that the form is its own normal form.
fn is_normalised(rt: &impl Abort, alloc: Global, input: &[u8], info: Info, form: &[u8]) {
    has_form(rt, alloc, input, info, form);
    has_form(rt, alloc, form, info, form);
    for most in [1, 3, 4] {
        has_form_by(rt, alloc, input, info, form, most);
    }
}

/// The same for a line with an input and its form, separated by '='. Returns whether the line has one.
fn is_line_normalised(rt: &impl Abort, alloc: Global, line: &str, info: Info) -> bool {
    match line.split_once('=') {
        Some((input, form)) => {
            let input = bytes_of(alloc, input).expect(rt, "memory");
            let form = bytes_of(alloc, form).expect(rt, "memory");
            is_normalised(rt, alloc, &input, info, &form);
            true
        }
        None => false,
    }
}

/// The same for each line, and that this many lines have a form.
fn are_normalised(rt: &impl Abort, alloc: Global, lines: &str, info: Info, wanted: usize) {
    let mut count: usize = 0;
    for line in lines.lines() {
        if is_line_normalised(rt, alloc, line, info) {
            count = count.saturating_add(1);
        }
    }
    assert!(rt; count == wanted);
}

/// Inputs without BLOCKINFO blocks, and their normal forms; and comments, each after a '#'. This is one text, because a long table
/// of texts takes long to prove.
static PLAIN: &str = "\
    M = M\n\
    M E = M E\n\
    M T = M T\n\
    M W = M T\n\
    # a block in a block\n\
    M 21 04 00 00 04 00 00 00 13 04 00 00 01 00 00 00 00 00 00 00 00 00 00 00 \
        = M 21 08 00 00 04 00 00 00 25 08 00 00 01 00 00 00 00 00 00 00 00 00 00 00\n\
    # a width of 32\n\
    M 21 20 01 00 01 00 00 00 00 00 00 00 = M E\n\
    # characters, an empty array and an empty blob\n\
    M 21 0C 00 00 02 00 00 00 1A 03 0C 39 00 FF 0C 00 = M 21 08 00 00 02 00 00 00 07 43 38 FC 82 2E 00 00\n\
    M 21 0C 00 00 02 00 00 00 1A 03 0C 09 00 00 00 00 = M 21 08 00 00 01 00 00 00 07 00 00 00\n\
    M 21 0C 00 00 02 00 00 00 12 03 94 00 00 00 00 00 = M 21 08 00 00 01 00 00 00 07 00 00 00\n\
    M B = M R\n\
    M A = M R\n\
    M S = M 21 08 00 00 04 00 00 00 07 47 20 0C 44 61 1C 07 47 20 0C 44 61 1C 00 00\n\
    # operands of width 0\n\
    M 21 0C 00 00 01 00 00 00 0A 02 00 00 = M E\n\
    M 21 0C 00 00 01 00 00 00 0A 04 00 00 = M E\n\
    M 21 0C 00 00 01 00 00 00 0A 02 08 00 = M 21 08 00 00 01 00 00 00 03 00 00 00\n\
    M 21 0C 00 00 02 00 00 00 1A 03 08 08 61 02 00 00 = M 21 08 00 00 01 00 00 00 07 02 90 00\n\
    M 21 0C 00 00 02 00 00 00 1A 03 4C 00 07 00 00 00 = M 21 08 00 00 02 00 00 00 07 03 00 00 00 00 00 00\n\
    # wrapped, with bytes behind the stream, and with a gap before it\n\
    DE C0 17 0B 00 00 00 00 14 00 00 00 10 00 00 00 07 00 00 01 M E Z = M E\n\
    DE C0 17 0B 00 00 00 00 18 00 00 00 10 00 00 00 07 00 00 01 FF FF FF FF M E = M E\n\
    # another magic\n\
    44 49 41 47 21 0C 00 00 01 00 00 00 0B 02 1E 00 = 44 49 41 47 21 08 00 00 01 00 00 00 07 01 07 00";

#[test]
fn normal_forms(rt: HostRuntime) {
    are_normalised(&rt, rt.alloc(), PLAIN, Info::Keep, 20);
    are_normalised(&rt, rt.alloc(), PLAIN, Info::Drop, 20);
}

/// Inputs with BLOCKINFO blocks, and their normal forms with these.
static KEPT: &str = "\
    M D = M F\n\
    M N = M 21 08 00 00 07 00 00 00 F 00 00 00 00\n\
    # a definition of the block's own behind the one that describes it\n\
    M 01 08 00 00 02 00 00 00 07 01 A2 18 20 07 00 00 21 0C 00 00 02 00 00 00 12 05 84 90 DC 04 00 00 \
        = M 01 08 00 00 01 00 00 00 07 01 02 00 21 08 00 00 02 00 00 00 07 01 39 2C 04 09 00 00\n\
    # one block is described twice\n\
    M 01 08 00 00 03 00 00 00 07 01 A2 18 20 E7 20 40 14 05 84 00 21 0C 00 00 01 00 00 00 4D 00 00 00 \
        = M 01 08 00 00 02 00 00 00 07 01 72 10 20 00 00 00 21 08 00 00 01 00 00 00 0B 41 02 00";

/// The same, and their normal forms without them.
static DROPPED: &str = "\
    M D = M H\n\
    M 01 08 00 00 02 00 00 00 07 01 A2 18 20 07 00 00 = M\n\
    M N = M 21 08 00 00 04 00 00 00 H 00 00 00 00";

#[test]
fn described_blocks(rt: HostRuntime) {
    are_normalised(&rt, rt.alloc(), KEPT, Info::Keep, 4);
    are_normalised(&rt, rt.alloc(), DROPPED, Info::Drop, 3);
}

/// Inputs, and their normal forms without the records with code 1 of blocks 8.
static UNNAMED: &str = "\
    M T = M E\n\
    M D = M 01 08 00 00 01 00 00 00 07 01 02 00 E\n\
    M N = M 21 08 00 00 07 00 00 00 01 08 00 00 01 00 00 00 07 01 02 00 E 00 00 00 00";

/// The same, and their normal forms without blocks 8.
static GONE: &str = "\
    M T = M\n\
    M D = M 01 08 00 00 01 00 00 00 07 01 02 00\n\
    M N = M";

/// The same, and their normal forms without blocks 9 and the records with code 1 of blocks 8.
static BOTH: &str = "\
    # blocks 8 and 9 in a block 9\n\
    M 25 08 00 00 07 00 00 00 21 08 00 00 01 00 00 00 0B 41 00 00 25 08 00 00 01 00 00 00 0B 81 00 00 00 00 00 00 \
        21 08 00 00 01 00 00 00 0B 41 01 00 = M 21 08 00 00 01 00 00 00 0B 41 01 00\n\
    # a block 9 in a block 9, in a block 8, and a record behind it\n\
    M 21 08 00 00 07 00 00 00 25 08 00 00 04 00 00 00 25 08 00 00 01 00 00 00 00 00 00 00 00 00 00 00 07 81 07 00 = M E\n\
    # records round a block 10 with a record of the same code\n\
    M 21 08 00 00 06 00 00 00 07 81 97 82 00 00 00 00 01 00 00 00 07 01 01 00 0B C1 71 10 78 00 00 00 \
        = M 21 08 00 00 04 00 00 00 29 08 00 00 01 00 00 00 07 01 01 00 0B C1 01 00";

#[test]
fn named_blocks_and_records(rt: HostRuntime) {
    let records = Info::Without {
        blocks: &[9],
        records: &[
            RecordName { block: 8, code: 1 },
            RecordName { block: 0, code: 1 },
        ],
    };
    are_normalised(&rt, rt.alloc(), UNNAMED, records, 3);
    let blocks = Info::Without {
        blocks: &[8],
        records: &[],
    };
    are_normalised(&rt, rt.alloc(), GONE, blocks, 3);
    let both = Info::Without {
        blocks: &[9],
        records: &[RecordName { block: 8, code: 1 }],
    };
    are_normalised(&rt, rt.alloc(), BOTH, both, 3);
}

#[test]
fn a_vector_takes_the_form(rt: HostRuntime) {
    let source = SliceSource::new(&[
        0x44, 0x49, 0x41, 0x47, 0x21, 12, 0, 0, 1, 0, 0, 0, 0xb, 2, 0x1e, 0,
    ]);
    let sink = VecSink::new(rt.alloc());
    let (answer, _, sink) = normalise(rt.alloc(), source, sink, Limits::usual(), Info::Keep);
    let form: &[u8] = &[
        0x44, 0x49, 0x41, 0x47, 0x21, 8, 0, 0, 1, 0, 0, 0, 7, 1, 7, 0,
    ];
    assert!(rt; answer == Ok(16) && sink.bytes() == form);
}
