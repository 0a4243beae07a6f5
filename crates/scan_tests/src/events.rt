//! The events of inputs as lines.

use crate::reports::{
    DESCRIBED, EMPTY, Pieces, SINKS, TAIL, Told, answer_of, tells, wanted_answer,
};
use bit_fields::{Fault, Limits, ReadSource, Reason, SliceSource, Source};
use bit_scan::{EventStyle, Format, ValueDisplay, write_events};
use std::alloc::{AllocError, Global};
use std::io;
use std::io::{Error, ErrorKind, Read};
use std::process::Abort;
use std::test::Fail;

/// Two definitions with each kind of operand, and records by them, with a block between.
static KINDS: [u8; 52] = [
    0x42, 0x43, 0xc0, 0xde, 0x21, 0x10, 0, 0, 0x0a, 0, 0, 0, 0x52, 0x06, 0xc8, 0x21, 0x63, 0x28,
    0x23, 0xab, 0, 0x2a, 0x91, 0x8b, 0x01, 0x08, 0xfe, 0x48, 0x10, 0, 0, 0, 0x01, 0, 0, 0, 0x1f, 0,
    0, 0, 0x95, 0x09, 0, 0, 0xff, 0, 0, 0, 0, 0, 0, 0,
];

/// An empty block in a wrapper, and bytes after the stream.
static WRAPPED: [u8; 40] = [
    0xde, 0xc0, 0x17, 0x0b, 0, 0, 0, 0, 20, 0, 0, 0, 16, 0, 0, 0, 7, 0, 0, 1, 0x42, 0x43, 0xc0,
    0xde, 0x21, 0x08, 0, 0, 0x01, 0, 0, 0, 0, 0, 0, 0, 0xff, 0xff, 0xff, 0xff,
];

static DESCRIBED_EVENTS: &str = "0 magic 4243c0de\n\
    32 block 0 width 2 body 96\n\
    96   record 1 by 3 count 1 8\n\
    116   define literal 1, fixed 7\n\
    160 end\n\
    160 block 8 width 3 body 224\n\
    224   record 1 by 4 count 1 100\n\
    256 end\n";

static KINDS_EVENTS: &str = "0 magic 4243c0de\n\
    32 block 8 width 4 body 96\n\
    96   define literal 1, fixed 7, vbr 6, array, char6\n\
    140   define literal 300, char6, blob\n\
    174   record 1 by 4 count 5 100 5 97 98 95\n\
    215   block 9 width 2 body 288\n\
    288     record 7 by 3 count 0\n\
    320   end\n\
    320   record 300 by 5 count 3 122 255 0\n\
    416 end\n";

/// The same without values.
static KINDS_COUNTED: &str = "0 magic 4243c0de\n\
    32 block 8 width 4 body 96\n\
    96   define literal 1, fixed 7, vbr 6, array, char6\n\
    140   define literal 300, char6, blob\n\
    174   record 1 by 4 count 5\n\
    215   block 9 width 2 body 288\n\
    288     record 7 by 3 count 0\n\
    320   end\n\
    320   record 300 by 5 count 3\n\
    416 end\n";

/// The same as JSON.
static KINDS_JSON: &str = "{\"kind\":\"magic\",\"bit\":0,\"magic\":\"4243c0de\"}\n\
    {\"kind\":\"block\",\"bit\":32,\"depth\":0,\"id\":8,\"width\":4,\"body\":96}\n\
    {\"kind\":\"define\",\"bit\":96,\"depth\":1,\"operands\":[{\"kind\":\"literal\",\"value\":1},\
    {\"kind\":\"fixed\",\"width\":7},{\"kind\":\"vbr\",\"width\":6},{\"kind\":\"array\"},{\"kind\":\"char6\"}]}\n\
    {\"kind\":\"define\",\"bit\":140,\"depth\":1,\"operands\":[{\"kind\":\"literal\",\"value\":300},\
    {\"kind\":\"char6\"},{\"kind\":\"blob\"}]}\n\
    {\"kind\":\"record\",\"bit\":174,\"depth\":1,\"code\":1,\"abbreviation\":4,\"count\":5,\
    \"values\":[100,5,97,98,95]}\n\
    {\"kind\":\"block\",\"bit\":215,\"depth\":1,\"id\":9,\"width\":2,\"body\":288}\n\
    {\"kind\":\"record\",\"bit\":288,\"depth\":2,\"code\":7,\"abbreviation\":3,\"count\":0,\"values\":[]}\n\
    {\"kind\":\"end\",\"bit\":320,\"depth\":1}\n\
    {\"kind\":\"record\",\"bit\":320,\"depth\":1,\"code\":300,\"abbreviation\":5,\"count\":3,\
    \"values\":[122,255,0]}\n\
    {\"kind\":\"end\",\"bit\":416,\"depth\":0}\n";

/// A block and bytes after it, as JSON without values.
static TAIL_JSON: &str = "{\"kind\":\"magic\",\"bit\":0,\"magic\":\"4243c0de\"}\n\
    {\"kind\":\"block\",\"bit\":32,\"depth\":0,\"id\":8,\"width\":2,\"body\":96}\n\
    {\"kind\":\"end\",\"bit\":128,\"depth\":0}\n\
    {\"kind\":\"refused\",\"bit\":128,\"reason\":\"TopLevel\"}\n";

const TEXT: EventStyle = EventStyle {
    format: Format::Text,
    values: ValueDisplay::Shown,
};

const COUNTED: EventStyle = EventStyle {
    format: Format::Text,
    values: ValueDisplay::LeftOut,
};

const JSON: EventStyle = EventStyle {
    format: Format::JsonLines,
    values: ValueDisplay::Shown,
};

const JSON_COUNTED: EventStyle = EventStyle {
    format: Format::JsonLines,
    values: ValueDisplay::LeftOut,
};

/// What `write_events` returns and writes with such a sink.
fn source_told<S: Source + Drop>(
    alloc: Global,
    source: S,
    style: EventStyle,
    text: &str,
    most: usize,
    puts: u64,
) -> Result<Told, AllocError> {
    let sink = Pieces::new(alloc, most, puts)?;
    let (answer, _, sink) = write_events(alloc, source, sink, Limits::usual(), style);
    Ok(answer_of(answer, sink, text))
}

/// The events of an input have this text, and the call returns this result.
fn has_events(
    rt: &impl Abort,
    alloc: Global,
    input: &[u8],
    style: EventStyle,
    text: &str,
    answer: Result<(), Fault>,
) -> Result<(), Fail> {
    let source = SliceSource::new(input);
    let told = source_told(alloc, source, style, text, 100, u64::MAX);
    tells(rt, told, (answer, 0, Some(text.len())))
}

#[test]
fn events_of_inputs(rt: HostRuntime) -> Result<(), Fail> {
    let alloc = rt.alloc();
    let wrapped = "160 magic 4243c0de\n192 block 8 width 2 body 256\n288 end\n";
    has_events(&rt, alloc, &KINDS, TEXT, KINDS_EVENTS, Ok(()))?;
    has_events(&rt, alloc, &KINDS, COUNTED, KINDS_COUNTED, Ok(()))?;
    has_events(&rt, alloc, &WRAPPED, TEXT, wrapped, Ok(()))?;
    has_events(&rt, alloc, &EMPTY, TEXT, &DESCRIBED_EVENTS[..17], Ok(()))
}

/// A refusal for a reason at a bit.
fn refused(reason: Reason, bit: u64) -> Result<(), Fault> {
    Err(Fault::Refused { reason, bit })
}

/// A truncated input has the lines of its complete events, and so has an input with bytes after the last block.
#[test]
fn events_before_a_fault(rt: HostRuntime) -> Result<(), Fail> {
    let alloc = rt.alloc();
    let tail = "0 magic 4243c0de\n32 block 8 width 2 body 96\n128 end\n";
    has_events(
        &rt,
        alloc,
        &TAIL,
        TEXT,
        tail,
        refused(Reason::TopLevel, 128),
    )?;
    for (bytes, lines, bit) in &[(3, 0, 0), (11, 17, 64), (14, 44, 110), (26, 113, 192)] {
        let answer = refused(Reason::Truncated, *bit);
        has_events(
            &rt,
            alloc,
            &DESCRIBED[..*bytes],
            TEXT,
            &DESCRIBED_EVENTS[..*lines],
            answer,
        )?;
    }
    Ok(())
}

/// As JSON. A refusal has a line of its own, even if the magic is incomplete.
#[test]
fn events_as_json(rt: HostRuntime) -> Result<(), Fail> {
    let alloc = rt.alloc();
    let short = "{\"kind\":\"refused\",\"bit\":0,\"reason\":\"Truncated\"}\n";
    has_events(&rt, alloc, &KINDS, JSON, KINDS_JSON, Ok(()))?;
    has_events(
        &rt,
        alloc,
        &TAIL,
        JSON_COUNTED,
        TAIL_JSON,
        refused(Reason::TopLevel, 128),
    )?;
    has_events(
        &rt,
        alloc,
        &DESCRIBED[..3],
        JSON,
        short,
        refused(Reason::Truncated, 0),
    )
}

/// The text does not depend on how many bytes the sink takes per put. A sink that fails has a prefix of the text.
#[test]
fn events_into_sinks(rt: HostRuntime) -> Result<(), Fail> {
    for (most, puts) in &SINKS {
        let source = SliceSource::new(&DESCRIBED);
        let told = source_told(rt.alloc(), source, TEXT, DESCRIBED_EVENTS, *most, *puts);
        tells(&rt, told, wanted_answer(DESCRIBED_EVENTS, *most, *puts))?;
    }
    Ok(())
}

/// A reader that fails after its bytes.
#[derive(Drop)]
struct Broken<'a> {
    rest: &'a [u8],
}

impl<'a> Read for Broken<'a> {
    fn read(&mut self, buf: &mut [u8]) -> io::Result<usize> {
        if self.rest.is_empty() {
            return Err(Error::from(ErrorKind::Other));
        }
        self.rest.read(buf)
    }
}

/// The events that were read before the source failed have their lines.
#[test]
fn events_of_a_source_that_fails(rt: HostRuntime) -> Result<(), Fail> {
    let source = ReadSource::new(Broken {
        rest: &DESCRIBED[..26],
    });
    let told = source_told(rt.alloc(), source, TEXT, DESCRIBED_EVENTS, 100, u64::MAX);
    tells(&rt, told, (Err(Fault::Read), 0, Some(113)))
}
