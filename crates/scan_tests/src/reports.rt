//! Reports and listings of inputs.

ghost use Rattle.std.specs.Prelude.{Some};

use bit_fields::{Fault, Limits, Reason, Sink, SinkFailed, SliceSource, VecSink};
use bit_grammar::{Info, RecordName};
use bit_scan::{Analysis, Format, analyse, push_magic, write_show};
use std::alloc::{AllocError, Global};
use std::process::Abort;
use std::test::Fail;

/// A sink that takes few bytes per put, and fails after some puts.
#[derive(Drop)]
pub(crate) struct Pieces {
    bytes: Vec<u8>,
    most: usize,
    puts_left: u64,
    failures: u64,
}

impl Pieces {
    /// It has room, so that it fails only after its puts.
    pub(crate) fn new(alloc: Global, most: usize, puts_left: u64) -> Result<Pieces, AllocError> {
        Ok(Pieces {
            bytes: Vec::with_capacity(alloc, 50_000)?,
            most,
            puts_left,
            failures: 0,
        })
    }
}

impl Sink for Pieces {
    ghost outgoing = { λ s. record { bytes = Some s.bytes.items; failures = s.failures } };

    fn put(&mut self, from: &[u8]) -> Result<usize, SinkFailed> {
        if self.failures == u64::MAX {
            return Err(SinkFailed);
        }
        if self.puts_left == 0 {
            self.failures += 1;
            return Err(SinkFailed);
        }
        self.puts_left -= 1;
        let count = from.len().min(self.most);
        match self.bytes.extend_from_slice(&from[..count]) {
            Ok(()) => {
                if count == 0 && !from.is_empty() {
                    self.failures += 1;
                }
                Ok(count)
            }
            Err(_) => {
                self.failures += 1;
                Err(SinkFailed)
            }
        }
    }
}

/// The magic of LLVM's bitcode.
static MAGIC: [u8; 4] = [0x42, 0x43, 0xc0, 0xde];

/// The empty stream.
pub(crate) static EMPTY: [u8; 4] = MAGIC;

/// A BLOCKINFO block with a definition for block 8, and a block 8 with a record by it.
pub(crate) static DESCRIBED: [u8; 32] = [
    0x42, 0x43, 0xc0, 0xde, 0x01, 0x08, 0, 0, 0x02, 0, 0, 0, 0x07, 0x01, 0xa2, 0x18, 0x20, 0x07, 0,
    0, 0x21, 0x0c, 0, 0, 0x01, 0, 0, 0, 0x24, 0x03, 0, 0,
];

/// A block 9 in a block 8.
static NESTED: [u8; 28] = [
    0x42, 0x43, 0xc0, 0xde, 0x21, 0x04, 0, 0, 0x04, 0, 0, 0, 0x13, 0x04, 0, 0, 0x01, 0, 0, 0, 0, 0,
    0, 0, 0, 0, 0, 0,
];

/// A record of three values of width 0.
static ZEROS: [u8; 20] = [
    0x42, 0x43, 0xc0, 0xde, 0x21, 0x0c, 0, 0, 0x02, 0, 0, 0, 0x1a, 0x03, 0x4c, 0, 0x07, 0, 0, 0,
];

/// Bytes after the last block.
pub(crate) static TAIL: [u8; 20] = [
    0x42, 0x43, 0xc0, 0xde, 0x21, 0x08, 0, 0, 0x01, 0, 0, 0, 0, 0, 0, 0, 0x0a, 0x0a, 0x0a, 0x0a,
];

/// The analysis of an input within the usual limits.
fn analysis_of(alloc: Global, input: &[u8]) -> Result<Analysis, Fault> {
    analyse(alloc, SliceSource::new(input), Limits::usual()).0
}

/// The number of these bytes, if they are a prefix of a text.
fn front_of(text: &[u8], bytes: &[u8]) -> Option<usize> {
    if text.starts_with(bytes) {
        Some(bytes.len())
    } else {
        None
    }
}

/// The result of a call, the failures of its sink, and how much of a text the sink has.
pub(crate) type Told = (Result<(), Fault>, u64, Option<usize>);

/// Summarises a call that writes a text, from its result and its sink.
pub(crate) fn answer_of(answer: Result<(), Fault>, sink: Pieces, text: &str) -> Told {
    (
        answer,
        sink.failures,
        front_of(text.as_bytes(), &sink.bytes),
    )
}

/// A call has this outcome. If an allocation failed, its sink has a prefix of the text, and no failure.
pub(crate) fn tells(
    rt: &impl Abort,
    told: Result<Told, AllocError>,
    wanted: Told,
) -> Result<(), Fail> {
    match told {
        Err(_) | Ok((Err(Fault::Memory), 0, Some(_))) => Err("no memory".into()),
        Ok(told) => {
            assert!(rt; told == wanted, "{told:?} and not {wanted:?}");
            Ok(())
        }
    }
}

/// The number of bytes that a sink takes per put, and the number of puts after which it fails.
pub(crate) static SINKS: [(usize, u64); 7] = [
    (1, u64::MAX),
    (5, u64::MAX),
    (100, u64::MAX),
    (5, 0),
    (5, 1),
    (5, 2),
    (5, 3),
];

/// The outcome of a call that writes a longer text, with such a sink: all of it, or a prefix if the sink fails.
pub(crate) fn wanted_answer(text: &str, most: usize, puts: u64) -> Told {
    match puts {
        0..=3 => (
            Err(Fault::Write),
            1,
            Some(most.saturating_mul(puts as usize)),
        ),
        _ => (Ok(()), 0, Some(text.len())),
    }
}

/// The outcome of writing the report of an analysis with such a sink.
fn report_told(
    alloc: Global,
    analysis: &Analysis,
    text: &str,
    most: usize,
    puts: u64,
) -> Result<Told, AllocError> {
    let (answer, sink) = analysis.write(Pieces::new(alloc, most, puts)?);
    Ok(answer_of(answer, sink, text))
}

/// The report is this text, however many bytes a sink takes per put. A sink that fails has a prefix of it.
fn is_report(rt: &impl Abort, alloc: Global, analysis: &Analysis, text: &str) -> Result<(), Fail> {
    for (most, puts) in &SINKS {
        let told = report_told(alloc, analysis, text, *most, *puts);
        tells(rt, told, wanted_answer(text, *most, *puts))?;
    }
    Ok(())
}

/// The same of the report of an input.
fn reports(rt: &impl Abort, alloc: Global, input: &[u8], text: &str) -> Result<(), Fail> {
    let analysis = analysis_of(alloc, input)?;
    is_report(rt, alloc, &analysis, text)
}

static DESCRIBED_REPORT: &str = "magic 4243c0de bits 256\n\
    block 0 count 1 bits 128 definitions 1 records 1 abbreviated 0 values 1\n  \
      record 1 count 1 bits 20\n\
    block 8 count 1 bits 96 definitions 0 records 1 abbreviated 1 values 1\n  \
      record 1 count 1 bits 10\n";

static NESTED_REPORT: &str = "magic 4243c0de bits 224\n\
    block 8 count 1 bits 96 definitions 0 records 0 abbreviated 0 values 0\n\
    block 9 count 1 bits 96 definitions 0 records 0 abbreviated 0 values 0\n";

static ZEROS_REPORT: &str = "magic 4243c0de bits 160\n\
    block 8 count 1 bits 128 definitions 1 records 1 abbreviated 1 values 3\n  \
      record 1 count 1 bits 9\n";

static EMPTY_REPORT: &str = "magic 4243c0de bits 32\n";

#[test]
fn reports_of_inputs(rt: HostRuntime) -> Result<(), Fail> {
    reports(&rt, rt.alloc(), &DESCRIBED, DESCRIBED_REPORT)?;
    reports(&rt, rt.alloc(), &NESTED, NESTED_REPORT)?;
    reports(&rt, rt.alloc(), &ZEROS, ZEROS_REPORT)?;
    reports(&rt, rt.alloc(), &EMPTY, EMPTY_REPORT)
}

static DESCRIBED_JSON: &str = "{\"kind\":\"stream\",\"bits\":256,\"magic\":\"4243c0de\"}\n\
    {\"kind\":\"block\",\"id\":0,\"count\":1,\"bits\":128,\"definitions\":1,\"records\":1,\
    \"abbreviated\":0,\"values\":1}\n\
    {\"kind\":\"record\",\"block\":0,\"code\":1,\"count\":1,\"bits\":20}\n\
    {\"kind\":\"block\",\"id\":8,\"count\":1,\"bits\":96,\"definitions\":0,\"records\":1,\
    \"abbreviated\":1,\"values\":1}\n\
    {\"kind\":\"record\",\"block\":8,\"code\":1,\"count\":1,\"bits\":10}\n";

#[test]
fn report_as_json(rt: HostRuntime) -> Result<(), Fail> {
    let alloc = rt.alloc();
    let analysis = analysis_of(alloc, &DESCRIBED)?;
    let (answer, sink) = analysis.write_as(Pieces::new(alloc, 100, u64::MAX)?, Format::JsonLines);
    let told = Ok(answer_of(answer, sink, DESCRIBED_JSON));
    tells(&rt, told, (Ok(()), 0, Some(DESCRIBED_JSON.len())))
}

/// The magic, the bits and the number of rows of the analysis of an input.
fn parts(alloc: Global, input: &[u8]) -> Result<([u8; 4], u64, usize), Fault> {
    let analysis = analysis_of(alloc, input)?;
    Ok((analysis.magic(), analysis.bits(), analysis.rows().len()))
}

/// The outcome of writing the listing of an input with such a sink.
fn listing_told(
    alloc: Global,
    input: &[u8],
    text: &str,
    most: usize,
    puts: u64,
) -> Result<Told, AllocError> {
    let sink = Pieces::new(alloc, most, puts)?;
    let (answer, _, sink) = write_show(
        alloc,
        SliceSource::new(input),
        sink,
        Limits::usual(),
        Info::Keep,
    );
    Ok(answer_of(answer, sink, text))
}

/// What follows the last block is refused at its bit, and nothing is listed.
#[test]
fn parts_and_refusals(rt: HostRuntime) -> Result<(), Fail> {
    let alloc = rt.alloc();
    let fault = Fault::Refused {
        reason: Reason::TopLevel,
        bit: 128,
    };
    let found = (parts(alloc, &DESCRIBED)?, parts(alloc, &TAIL));
    assert!(rt; found == ((MAGIC, 256, 2), Err(fault)));
    let told = listing_told(alloc, &TAIL, "", 100, u64::MAX);
    tells(&rt, told, (Err(fault), 0, Some(0)))
}

/// The listing of an input is this text, however many bytes a sink takes per put. A sink that fails has a prefix of it.
fn lists(rt: &impl Abort, alloc: Global, input: &[u8], text: &str) -> Result<(), Fail> {
    for (most, puts) in &SINKS[..6] {
        let told = listing_told(alloc, input, text, *most, *puts);
        tells(rt, told, wanted_answer(text, *most, *puts))?;
    }
    Ok(())
}

static DESCRIBED_LISTING: &str = "magic 4243c0de\nblock 0\n  record 1 8\nblock 8\n  record 1 100\n";

#[test]
fn listings_of_inputs(rt: HostRuntime) -> Result<(), Fail> {
    let alloc = rt.alloc();
    let nested = "magic 4243c0de\nblock 8\n  block 9\n";
    lists(&rt, alloc, &DESCRIBED, DESCRIBED_LISTING)?;
    lists(&rt, alloc, &NESTED, nested)?;
    lists(&rt, alloc, &[0, 0xff, 9, 0x10], "magic 00ff0910\n")
}

/// The listing of the kept part of an input under a setting is this text.
fn lists_left(
    rt: &impl Abort,
    alloc: Global,
    input: &[u8],
    info: Info<'_>,
    text: &str,
) -> Result<(), Fail> {
    let sink = Pieces::new(alloc, 100, u64::MAX)?;
    let source = SliceSource::new(input);
    let (answer, _, sink) = write_show(alloc, source, sink, Limits::usual(), info);
    tells(
        rt,
        Ok(answer_of(answer, sink, text)),
        (Ok(()), 0, Some(text.len())),
    )
}

#[test]
fn listings_without_blockinfo(rt: HostRuntime) -> Result<(), Fail> {
    let text = "magic 4243c0de\nblock 8\n  record 1 100\n";
    lists_left(&rt, rt.alloc(), &DESCRIBED, Info::Drop, text)
}

/// A block 9 around a block 8 with a record and a block 9. After it a block 8 with a record 1, a block 10 with another one,
/// a record 2 and a record 1.
static ROUND: [u8; 76] = [
    0x42, 0x43, 0xc0, 0xde, 0x25, 0x08, 0, 0, 0x08, 0, 0, 0, 0x21, 0x08, 0, 0, 0x05, 0, 0, 0, 0x0b,
    0x41, 0x50, 0x82, 0, 0, 0, 0, 0x01, 0, 0, 0, 0, 0, 0, 0, 0, 0, 0, 0, 0, 0, 0, 0, 0x21, 0x08, 0,
    0, 0x06, 0, 0, 0, 0x07, 0x81, 0x97, 0x82, 0, 0, 0, 0, 0x01, 0, 0, 0, 0x07, 0x01, 0x01, 0, 0x0b,
    0xc1, 0x71, 0x10, 0x78, 0, 0, 0,
];

#[test]
fn listings_of_what_is_left(rt: HostRuntime) -> Result<(), Fail> {
    let alloc = rt.alloc();
    let records = [
        RecordName { block: 8, code: 1 },
        RecordName { block: 0, code: 1 },
    ];
    let named = Info::Without {
        blocks: &[9],
        records: &records,
    };
    let described = "magic 4243c0de\nblock 0\n  record 1 8\nblock 8\n";
    lists_left(&rt, alloc, &DESCRIBED, named, described)?;
    lists_left(&rt, alloc, &NESTED, named, "magic 4243c0de\nblock 8\n")?;
    let round = "magic 4243c0de\nblock 8\n  block 10\n    record 1 4\n  record 2 7\n";
    lists_left(&rt, alloc, &ROUND, named, round)
}

/// A stream of one block up to the values of its record: 40000 values of 6 bits each.
static LONG: [u8; 16] = [
    0x42, 0x43, 0xc0, 0xde, 0x21, 0x08, 0, 0, 0x4e, 0x1d, 0, 0, 0x1f, 0xa0, 0x78, 0x06,
];

/// The whole stream with values 0: a record whose line is longer than the buffer.
fn long_input(alloc: Global) -> Result<Vec<u8>, AllocError> {
    let mut input = Vec::new(alloc);
    input.extend_from_slice(&LONG)?;
    input.resize(30_020, 0)?;
    Ok(input)
}

/// Its listing: 33 bytes before the values, 2 for each, and the end of the line.
fn long_text(alloc: Global) -> Result<String, AllocError> {
    let mut text = String::from_str(alloc, "magic 4243c0de\nblock 8\n  record 7")?;
    for _ in 0..40_000 {
        text.push_str(" 0")?;
    }
    text.push_str("\n")?;
    Ok(text)
}

/// The outcome of writing its listing with such a sink.
fn long_told(alloc: Global, text: &str, most: usize, puts: u64) -> Result<Told, AllocError> {
    let input = long_input(alloc)?;
    listing_told(alloc, &input, text, most, puts)
}

#[test]
fn long_lines(rt: HostRuntime) -> Result<(), Fail> {
    let text = long_text(rt.alloc())?;
    let told = long_told(rt.alloc(), &text, usize::MAX, u64::MAX);
    tells(&rt, told, (Ok(()), 0, Some(80_034)))?;
    let told = long_told(rt.alloc(), &text, 5000, 15);
    tells(&rt, told, (Err(Fault::Write), 1, Some(70_537)))
}

/// The result of writing the report of the empty stream to a vector, and how much of it the vector has.
fn vector_told(alloc: Global) -> Result<(Result<(), Fault>, Option<usize>), Fault> {
    let analysis = analysis_of(alloc, &EMPTY)?;
    let (answer, sink) = analysis.write(VecSink::new(alloc));
    Ok((answer, front_of(EMPTY_REPORT.as_bytes(), sink.bytes())))
}

/// A vector as the sink: if it cannot grow, it failed, and has a prefix of the text.
#[test]
fn into_vectors(rt: HostRuntime) -> Result<(), Fail> {
    match vector_told(rt.alloc())? {
        (Err(Fault::Memory | Fault::Write), Some(0)) => Err("no memory".into()),
        told => {
            assert!(rt; told == (Ok(()), Some(23)));
            Ok(())
        }
    }
}

/// The text of a magic after earlier text.
fn magic_behind(alloc: Global, front: &str) -> Result<String, AllocError> {
    let mut text = String::from_str(alloc, front)?;
    push_magic(&mut text, [0, 0xff, 9, 0x10])?;
    Ok(text)
}

#[test]
fn texts_of_magics(rt: HostRuntime) -> Result<(), Fail> {
    let text = magic_behind(rt.alloc(), "at ")?;
    assert!(rt; text.as_str() == "at magic 00ff0910");
    Ok(())
}
