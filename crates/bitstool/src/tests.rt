use crate::devices::Output;
use crate::run::run;
use bit_fields::{BufSource, WriteSink};
use std::alloc::{AllocError, Global};
use std::io::{BufRead, Write};
use std::process::Abort;
use std::test::Fail;

/// The magic of LLVM's bitcode, and a block with one record: `8 { 1 [30] }`, of 16 bytes.
const SHORT: [u8; 16] = [
    0x42, 0x43, 0xc0, 0xde, 0x21, 8, 0, 0, 1, 0, 0, 0, 7, 0x81, 7, 0,
];

/// The same tree, with a wider block and the number in two chunks.
pub(crate) const LONG: [u8; 16] = [
    0x42, 0x43, 0xc0, 0xde, 0x21, 0xc, 0, 0, 1, 0, 0, 0, 0xb, 2, 0x1f, 0,
];

/// A BLOCKINFO block that defines an abbreviation for block 8, which uses it.
const INFO: [u8; 32] = [
    0x42, 0x43, 0xc0, 0xde, 1, 8, 0, 0, 2, 0, 0, 0, 7, 1, 0xa2, 0x18, 0x20, 7, 0, 0, 0x21, 0xc, 0,
    0, 1, 0, 0, 0, 0x24, 3, 0, 0,
];

/// Appends a word.
fn add_word(alloc: Global, word: &str, words: &mut Vec<String>) -> Result<(), AllocError> {
    words.push(String::from_str(alloc, word)?)?;
    Ok(())
}

/// Appends the words of a line.
fn add_words(alloc: Global, line: &str, words: &mut Vec<String>) -> Result<(), AllocError> {
    for word in line.split_whitespace() {
        add_word(alloc, word, words)?;
    }
    Ok(())
}

/// The words of a line.
pub(crate) fn words_of(alloc: Global, line: &str) -> Result<Vec<String>, AllocError> {
    let mut words = Vec::new(alloc);
    add_words(alloc, line, &mut words)?;
    Ok(words)
}

/// The status of a run, and the bytes in its writers.
#[derive(Drop)]
pub(crate) struct Finished<W, E> {
    pub(crate) status: u8,
    pub(crate) output: W,
    pub(crate) errors: E,
}

/// A run over a reader and two writers.
pub(crate) fn run_over<R: BufRead + Drop, W: Write, E: Write>(
    alloc: Global,
    words: Vec<String>,
    input: R,
    output: W,
    errors: E,
) -> Finished<W, E> {
    let mut errors = WriteSink::new(errors);
    let ran = run(
        alloc,
        words,
        BufSource::new(input),
        Output::new(output),
        &mut errors,
    );
    Finished {
        status: ran.status,
        output: ran.sink.into_inner(),
        errors: errors.into_inner(),
    }
}

/// The end of a run on these words and this input.
fn ran<R: BufRead + Drop>(
    alloc: Global,
    line: &str,
    input: R,
) -> Result<Finished<Vec<u8>, Vec<u8>>, AllocError> {
    let words = words_of(alloc, line)?;
    let (output, errors) = (Vec::new(alloc), Vec::new(alloc));
    Ok(run_over(alloc, words, input, output, errors))
}

/// A status, an output, and a line on the errors.
pub(crate) type End = (u8, &'static [u8], &'static str);

/// A run on these words ended so.
pub(crate) fn is_end(rt: &impl Abort, line: &str, end: (u8, &[u8], &[u8]), expected: End) {
    let (status, output, errors) = expected;
    assert_eq!(rt; end, (status, output, errors.as_bytes()), "{line}");
}

/// A run with this input ends so.
pub(crate) fn ends_with<R: BufRead + Drop>(
    rt: &impl Abort,
    alloc: Global,
    line: &str,
    input: R,
    expected: End,
) -> Result<(), AllocError> {
    let ran = ran(alloc, line, input)?;
    is_end(rt, line, (ran.status, &ran.output, &ran.errors), expected);
    Ok(())
}

/// The first bytes, and then the others.
fn join(alloc: Global, first: &[u8], second: &[u8]) -> Result<Vec<u8>, AllocError> {
    let mut bytes = Vec::from_slice(alloc, first)?;
    bytes.extend_from_slice(second)?;
    Ok(bytes)
}

/// A run on the bytes of these parts ends so.
fn ends(
    rt: &impl Abort,
    alloc: Global,
    line: &str,
    parts: (&[u8], &[u8]),
    expected: End,
) -> Result<(), AllocError> {
    let input = join(alloc, parts.0, parts.1)?;
    ends_with(rt, alloc, line, input.as_slice(), expected)
}

/// The words of a run, the parts of its input, and how it ends.
type Row = (
    &'static str,
    (&'static [u8], &'static [u8]),
    (u8, &'static [u8], &'static str),
);

/// All of these runs end so.
fn all_end(rt: &impl Abort, alloc: Global, rows: &[Row]) -> Result<(), AllocError> {
    for (line, parts, end) in rows {
        ends(rt, alloc, line, *parts, *end)?;
    }
    Ok(())
}

/// The normal form of another stream with another magic, and that stream.
const OTHER_SHORT: [u8; 16] = [
    0x44, 0x49, 0x41, 0x47, 0x21, 8, 0, 0, 1, 0, 0, 0, 7, 1, 7, 0,
];

const OTHER_LONG: [u8; 16] = [
    0x44, 0x49, 0x41, 0x47, 0x21, 0xc, 0, 0, 1, 0, 0, 0, 0xb, 2, 0x1e, 0,
];

/// The normal form of the stream with a BLOCKINFO block, without that block.
const DROPPED: [u8; 16] = [
    0x42, 0x43, 0xc0, 0xde, 0x21, 8, 0, 0, 1, 0, 0, 0, 7, 1, 0x39, 0,
];

/// A definition of eight literals that two records use: the normal form is longer.
const LITERALS: [u8; 24] = [
    0x42, 0x43, 0xc0, 0xde, 0x21, 0xc, 0, 0, 3, 0, 0, 0, 0x42, 3, 6, 0x14, 0x38, 0x90, 0x60, 0x41,
    0x83, 7, 0x24, 0,
];

static CHECKS_AND_NORMAL_FORMS: [Row; 13] = [
    ("", (&OTHER_LONG, &[]), (0, &OTHER_SHORT, "")),
    ("", (&OTHER_SHORT, &[]), (0, &OTHER_SHORT, "")),
    (
        "",
        (&[], &[]),
        (
            1,
            &[],
            "refused: Truncated at bit 0\n  tip: the input is empty, or has fewer than 4 bytes\n",
        ),
    ),
    ("check", (&LONG, &[]), (0, b"accepted\n", "")),
    (
        "check --bytes 15",
        (&SHORT, &[]),
        (
            1,
            b"",
            "refused: TooLong at bit 120\n  tip: '--bytes N' permits a longer input, of at most 17179869180 bytes\n",
        ),
    ),
    (
        "check --depth 0",
        (&SHORT, &[]),
        (
            1,
            b"",
            "refused: TooDeep at bit 32\n  tip: '--depth N' permits more levels of nested blocks, at most 255\n",
        ),
    ),
    ("normal", (&LONG, &[]), (0, &SHORT, "")),
    (
        "normal --values 1 --bytes=16",
        (&LONG, &[]),
        (0, &SHORT, ""),
    ),
    ("normal --drop-info", (&INFO, &[]), (0, &DROPPED, "")),
    (
        "normal --values 0",
        (&SHORT, &[]),
        (
            1,
            b"",
            "refused: TooManyValues at bit 104\n  tip: '--values N' permits more values, at most 4294967295\n",
        ),
    ),
    (
        "normal --bytes 24",
        (&LITERALS, &[]),
        (
            1,
            b"",
            "refused: normal form longer than 24 bytes\n  tip: '--bytes N' permits a longer normal form, of at most 17179869180 bytes\n",
        ),
    ),
    ("check --bytes 24", (&LITERALS, &[]), (0, b"accepted\n", "")),
    ("normal", (&ZEROS, &[]), (0, &PLAIN_ZEROS, "")),
];

static COMPARISONS: [Row; 9] = [
    ("same --first 16", (&SHORT, &LONG), (0, b"same\n", "")),
    (
        "same --first 16 --bytes 16",
        (&SHORT, &LONG),
        (0, b"same\n", ""),
    ),
    ("same --first 16", (&LONG, &MAGIC), (1, b"different\n", "")),
    (
        "same --first 16",
        (&LONG, &[]),
        (
            1,
            b"",
            "refused: second: Truncated at bit 0\n  tip: the input is empty, or has fewer than 4 bytes\n",
        ),
    ),
    (
        "same --first 17179869180",
        (&LONG, &[]),
        (
            1,
            b"",
            "refused: second: Truncated at bit 0\n  tip: the input is empty, or has fewer than 4 bytes\n",
        ),
    ),
    (
        "same --first 0",
        (&LONG, &[]),
        (
            1,
            b"",
            "refused: first: Truncated at bit 0\n  tip: the input is empty, or has fewer than 4 bytes\n",
        ),
    ),
    (
        "same --first 32 --bytes 15",
        (&SHORT, &LONG),
        (
            1,
            b"",
            "refused: first: TooLong at bit 120\n  tip: '--bytes N' permits a longer input, of at most 17179869180 bytes\n",
        ),
    ),
    (
        "same --first 32",
        (&INFO, &DROPPED),
        (1, b"different\n", ""),
    ),
    (
        "same --first 32 --drop-info",
        (&INFO, &DROPPED),
        (0, b"same\n", ""),
    ),
];

#[test]
fn checks_normal_forms_and_comparisons(rt: HostRuntime) -> Result<(), Fail> {
    let alloc = rt.alloc();
    all_end(&rt, alloc, &CHECKS_AND_NORMAL_FORMS)?;
    all_end(&rt, alloc, &COMPARISONS)?;
    let refused = (1, b"".as_slice(), "refused: Truncated at bit 99\n");
    ends_with(&rt, alloc, "check", &LONG[..13], refused)?;
    Ok(())
}

static PLACES: [Row; 5] = [
    (
        "same --where --first 16",
        (&SHORT, &LONG),
        (0, b"same\n", ""),
    ),
    (
        "same --where --first 16",
        (&SHORT, &OTHER_LONG),
        (
            1,
            b"different\nat magic\nfirst bit 0: magic 4243c0de\nsecond bit 0: magic 44494147\n",
            "",
        ),
    ),
    (
        "same --first 16 --where",
        (&SHORT, &MAGIC),
        (
            1,
            b"different\nat item 0\nfirst bit 32: block 8\nsecond bit 32: end\n",
            "",
        ),
    ),
    (
        "same --json --first 16",
        (&SHORT, &MAGIC),
        (
            1,
            b"{\"kind\":\"different\",\"at\":[{\"kind\":\"item\",\"item\":0}],\"first\":{\"kind\":\"block\",\"bit\":32,\"id\":8},\"second\":{\"kind\":\"end\",\"bit\":32}}\n",
            "",
        ),
    ),
    (
        "same --where --first 32 --drop-info",
        (&INFO, &SHORT),
        (
            1,
            b"different\nat block 8 item 0, item 0\nfirst bit 224: record 1 count 1, value 0 is 100\nsecond bit 96: record 1 count 1, value 0 is 30\n",
            "",
        ),
    ),
];

#[test]
fn where_inputs_first_differ(rt: HostRuntime) -> Result<(), Fail> {
    all_end(&rt, rt.alloc(), &PLACES)?;
    Ok(())
}

/// The part of `INFO` that is kept under names.
static LEFT: [Row; 7] = [
    ("normal --drop-block 0", (&INFO, &[]), (0, &DROPPED, "")),
    (
        "show --drop-info",
        (&INFO, &[]),
        (0, b"magic 4243c0de\nblock 8\n  record 1 100\n", ""),
    ),
    (
        "normal --drop-block=8 --drop-block 0",
        (&INFO, &[]),
        (0, &MAGIC, ""),
    ),
    (
        "show --drop-record 8:1 --drop-record 9:1",
        (&INFO, &[]),
        (0, b"magic 4243c0de\nblock 0\n  record 1 8\nblock 8\n", ""),
    ),
    (
        "same --first 16 --drop-record 8:1",
        (&SHORT, &DROPPED),
        (0, b"same\n", ""),
    ),
    (
        "same --first 16 --drop-record 1:8",
        (&SHORT, &DROPPED),
        (1, b"different\n", ""),
    ),
    (
        "same --where --drop-block 8 --first 16",
        (&SHORT, &NESTED),
        (0, b"same\n", ""),
    ),
];

/// Invalid names, and the usage fault of a run with them.
static NO_NAMES: [Row; 2] = [
    (
        "show --drop-block 8 --drop-block 4294967296",
        (&SHORT, &[]),
        (
            2,
            b"",
            "error: invalid value '4294967296' for '--drop-block <ID>': no ID from 0 to 4294967295\n\nFor more information, try '--help'.\n",
        ),
    ),
    (
        "normal --drop-record 0:1",
        (&SHORT, &[]),
        (
            2,
            b"",
            "error: invalid value '0:1' for '--drop-record <ID:CODE>': no ID from 1 to 4294967295, colon, and CODE from 0 to 18446744073709551615\n\nFor more information, try '--help'.\n",
        ),
    ),
];

#[test]
fn what_is_left_under_names(rt: HostRuntime) -> Result<(), Fail> {
    all_end(&rt, rt.alloc(), &LEFT)?;
    all_end(&rt, rt.alloc(), &NO_NAMES)?;
    Ok(())
}

/// The magic of LLVM's bitcode, alone.
const MAGIC: [u8; 4] = [0x42, 0x43, 0xc0, 0xde];

/// A block 9 in a block 8.
const NESTED: [u8; 28] = [
    0x42, 0x43, 0xc0, 0xde, 0x21, 4, 0, 0, 4, 0, 0, 0, 0x13, 4, 0, 0, 1, 0, 0, 0, 0, 0, 0, 0, 0, 0,
    0, 0,
];

/// A record of three values without bits, which are in an array.
const ZEROS: [u8; 20] = [
    0x42, 0x43, 0xc0, 0xde, 0x21, 0xc, 0, 0, 2, 0, 0, 0, 0x1a, 3, 0x4c, 0, 7, 0, 0, 0,
];

/// The same tree without a definition.
const PLAIN_ZEROS: [u8; 20] = [
    0x42, 0x43, 0xc0, 0xde, 0x21, 8, 0, 0, 2, 0, 0, 0, 7, 3, 0, 0, 0, 0, 0, 0,
];

/// A definition of a field of 0 bits for the code, and a record by it.
const CODE_WITHOUT_BITS: [u8; 16] = [
    0x42, 0x43, 0xc0, 0xde, 0x21, 0xc, 0, 0, 1, 0, 0, 0, 0xa, 2, 8, 0,
];

/// A definition with a variable field of 0 bits before one of 4, and a record by it.
const VALUE_WITHOUT_BITS: [u8; 20] = [
    0x42, 0x43, 0xc0, 0xde, 0x21, 0xc, 0, 0, 2, 0, 0, 0, 0x1a, 3, 8, 8, 0x61, 2, 0, 0,
];

/// A definition with a variable field of 1 bit.
const WIDTH_1: [u8; 16] = [
    0x42, 0x43, 0xc0, 0xde, 0x21, 0xc, 0, 0, 1, 0, 0, 0, 0xa, 0x14, 0, 0,
];

static REPORT: &[u8] = b"magic 4243c0de bits 256
block 0 count 1 bits 128 definitions 1 records 1 abbreviated 0 values 1
  record 1 count 1 bits 20
block 8 count 1 bits 96 definitions 0 records 1 abbreviated 1 values 1
  record 1 count 1 bits 10
";

static LISTING: &[u8] = b"magic 4243c0de
block 0
  record 1 8
block 8
  record 1 100
";

static NESTED_REPORT: &[u8] = b"magic 4243c0de bits 224
block 8 count 1 bits 96 definitions 0 records 0 abbreviated 0 values 0
block 9 count 1 bits 96 definitions 0 records 0 abbreviated 0 values 0
";

static ZEROS_REPORT: &[u8] = b"magic 4243c0de bits 160
block 8 count 1 bits 128 definitions 1 records 1 abbreviated 1 values 3
  record 1 count 1 bits 9
";

/// A report or a listing is the whole output of each of these lines.
fn tell(
    rt: &impl Abort,
    alloc: Global,
    lines: &[&str],
    input: &[u8],
    text: &'static [u8],
) -> Result<(), AllocError> {
    for line in lines {
        ends_with(rt, alloc, line, input, (0, text, ""))?;
    }
    Ok(())
}

static REPORTS: [&str; 2] = ["analyse", "analyse --bytes 32 --depth 1 --values 2"];

static LISTINGS: [&str; 2] = ["show", "show --values=2 --depth=1 --bytes=32"];

#[test]
fn reports(rt: HostRuntime) -> Result<(), Fail> {
    let alloc = rt.alloc();
    tell(&rt, alloc, &REPORTS, &INFO, REPORT)?;
    tell(&rt, alloc, &REPORTS[..1], &NESTED, NESTED_REPORT)?;
    tell(&rt, alloc, &REPORTS[..1], &ZEROS, ZEROS_REPORT)?;
    tell(&rt, alloc, &LISTINGS, &INFO, LISTING)?;
    Ok(())
}

/// The events of `INFO`, by lines.
const EVENTS: &[u8] = b"0 magic 4243c0de
32 block 0 width 2 body 96
96   record 1 by 3 count 1 8
116   define literal 1, fixed 7
160 end
160 block 8 width 3 body 224
224   record 1 by 4 count 1 100
256 end
";

static SHORT_TEXTS: [Row; 13] = [
    (
        "analyse",
        (&MAGIC, &[]),
        (0, b"magic 4243c0de bits 32\n", ""),
    ),
    ("show", (&MAGIC, &[]), (0, b"magic 4243c0de\n", "")),
    (
        "show",
        (&NESTED, &[]),
        (0, b"magic 4243c0de\nblock 8\n  block 9\n", ""),
    ),
    (
        "show",
        (&ZEROS, &[]),
        (0, b"magic 4243c0de\nblock 8\n  record 1 0 0 0\n", ""),
    ),
    (
        "show",
        (&CODE_WITHOUT_BITS, &[]),
        (0, b"magic 4243c0de\nblock 8\n  record 0\n", ""),
    ),
    (
        "show",
        (&VALUE_WITHOUT_BITS, &[]),
        (0, b"magic 4243c0de\nblock 8\n  record 1 0 9\n", ""),
    ),
    ("events", (&INFO, &[]), (0, EVENTS, "")),
    (
        "events --no-values",
        (&SHORT, &[]),
        (
            0,
            b"0 magic 4243c0de\n32 block 8 width 2 body 96\n96   record 1 by 3 count 1\n128 end\n",
            "",
        ),
    ),
    ("check", (&ZEROS, &[]), (0, b"accepted\n", "")),
    (
        "assemble",
        (b"# thirty\nmagic 4243c0de\nblock 8\n  record 1 0x1e\n", &[]),
        (0, &SHORT, ""),
    ),
    (
        "assemble",
        (b"magic 4243c0de\n\nrecord 1\n", &[]),
        (1, b"", "refused: Misplaced at line 3\n"),
    ),
    (
        "analyse --values 2",
        (&ZEROS, &[]),
        (
            1,
            b"",
            "refused: TooManyValues at bit 129\n  tip: '--values N' permits more values, at most 4294967295\n",
        ),
    ),
    (
        "show",
        (&WIDTH_1, &[]),
        (1, b"", "refused: FieldWidth at bit 108\n"),
    ),
];

/// Words with an input that is truncated, and the reason for its refusal.
static WITHOUT_A_REPORT: [(&str, &str); 8] = [
    ("analyse", "refused: Truncated at bit 224\n"),
    ("show", "refused: Truncated at bit 224\n"),
    (
        "analyse --bytes 15",
        "refused: TooLong at bit 120\n  tip: '--bytes N' permits a longer input, of at most 17179869180 bytes\n",
    ),
    (
        "show --bytes 15",
        "refused: TooLong at bit 120\n  tip: '--bytes N' permits a longer input, of at most 17179869180 bytes\n",
    ),
    (
        "analyse --depth 0",
        "refused: TooDeep at bit 32\n  tip: '--depth N' permits more levels of nested blocks, at most 255\n",
    ),
    (
        "show --depth 0",
        "refused: TooDeep at bit 32\n  tip: '--depth N' permits more levels of nested blocks, at most 255\n",
    ),
    (
        "analyse --values 0",
        "refused: TooManyValues at bit 104\n  tip: '--values N' permits more values, at most 4294967295\n",
    ),
    (
        "show --values 0",
        "refused: TooManyValues at bit 104\n  tip: '--values N' permits more values, at most 4294967295\n",
    ),
];

#[test]
fn short_texts_and_inputs_without_a_report(rt: HostRuntime) -> Result<(), Fail> {
    let alloc = rt.alloc();
    all_end(&rt, alloc, &SHORT_TEXTS)?;
    for (line, errors) in &WITHOUT_A_REPORT {
        ends_with(&rt, alloc, line, &INFO[..28], (1, b"", errors))?;
    }
    Ok(())
}

/// The status of a run, whether it wrote a help text, and whether it reported what is wrong with its words.
fn told_by(ran: &Finished<Vec<u8>, Vec<u8>>) -> (u8, bool, bool) {
    let help = ran.output.len() > 100 && ran.errors.is_empty();
    let usage = ran.output.is_empty() && ran.errors.starts_with(b"error: ");
    (ran.status, help, usage)
}

/// The summary of a run on these words.
fn run_answer(alloc: Global, line: &str, input: &[u8]) -> Result<(u8, bool, bool), AllocError> {
    let ran = ran(alloc, line, input)?;
    Ok(told_by(&ran))
}

/// All of these lines, `count` of them, have this summary.
fn all_tell(
    rt: &impl Abort,
    alloc: Global,
    lines: &str,
    count: usize,
    expected: (u8, bool, bool),
) -> Result<(), AllocError> {
    assert!(rt; lines.lines().count() == count);
    for line in lines.lines() {
        let told = run_answer(alloc, line, &SHORT)?;
        assert!(rt; told == expected, "{line}");
    }
    Ok(())
}

static NO_COMMANDS: &str = "analyse --drop-info
events --drop-info
show --no-values
show --first 4
show analyse
--bytes 4
--bytes 4 check
check --drop-info
check --first 4
check FILE
same
same --first
same --first 17179869181
check --bytes 17179869181
check --depth 256
check --values 4294967296
check --values -1
check --values 0x10
check --values 1 --values 2
check normal
help help
check --version
--
";

static HELP: &str = "--help
-h
check --help
normal -h
same --help
analyse --help
show -h
events --help
help
help same
";

/// Inputs that begin like files of other kinds.
static OTHER_KINDS: [Row; 5] = [
    (
        "check",
        (&[0x1f, 0x8b, 8, 0, 0, 0, 0, 0], &[]),
        (
            1,
            b"",
            "refused: TopLevel at bit 32\n  tip: this begins like a gzip file: gunzip it first\n",
        ),
    ),
    (
        "",
        (b"hello, world\n", &[]),
        (
            1,
            b"",
            "refused: TopLevel at bit 32\n  tip: this begins like a text; a listing is for 'bitstool assemble'\n",
        ),
    ),
    (
        "same --first 16",
        (&SHORT, b"hello, world\n"),
        (1, b"", "refused: second: TopLevel at bit 32\n"),
    ),
    (
        "same --first 3",
        (b"hello, world\n", &SHORT),
        (
            1,
            b"",
            "refused: first: Truncated at bit 0\n  tip: the input is empty, or has fewer than 4 bytes\n",
        ),
    ),
    (
        "assemble --depth 0",
        (b"magic 4243c0de\nblock 8\n", &[]),
        (
            1,
            b"",
            "refused: TooDeep at line 2\n  tip: '--depth N' permits more levels of nested blocks, at most 255\n",
        ),
    ),
];

#[test]
fn tips_by_what_an_input_begins_like(rt: HostRuntime) -> Result<(), Fail> {
    all_end(&rt, rt.alloc(), &OTHER_KINDS)?;
    Ok(())
}

/// Events before a fault are on the output, with the line of the refusal on the errors. The version is written.
#[test]
fn events_before_a_fault_and_the_version(rt: HostRuntime) -> Result<(), Fail> {
    let front = b"0 magic 4243c0de\n32 block 8 width 2 body 96\n".as_slice();
    let cut = (1, front, "refused: Truncated at bit 96\n");
    ends_with(&rt, rt.alloc(), "events", &SHORT[..12], cut)?;
    ends_with(
        &rt,
        rt.alloc(),
        "--version",
        MAGIC.as_slice(),
        (0, b"bitstool 1.0.0\nnormal form 1\n", ""),
    )?;
    Ok(())
}

#[test]
fn words_that_are_no_command_and_help(rt: HostRuntime) -> Result<(), Fail> {
    all_tell(&rt, rt.alloc(), NO_COMMANDS, 23, (2, false, true))?;
    all_tell(&rt, rt.alloc(), HELP, 10, (0, true, false))?;
    Ok(())
}
