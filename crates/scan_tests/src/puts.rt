//! Text goes to the sink as soon as 65,536 bytes of it are held: after the head of a record, each of its values, and each end of a
//! line. So the lengths of the puts follow from the text.

use bit_fields::{Fault, Limits, Sink, SinkFailed, SliceSource, VecSink};
use bit_grammar::Info;
use bit_scan::{EventStyle, Format, ValueDisplay, write_events, write_show};
use std::alloc::{AllocError, Global};
use std::process::Abort;

/// A sink that notes the length of each put.
#[derive(Drop)]
struct Noting {
    sink: VecSink,
    lengths: Vec<usize>,
}

impl Sink for Noting {
    ghost outgoing = { λ s. ⟦<VecSink as Sink>⟧.outgoing s.sink };

    fn put(&mut self, from: &[u8]) -> Result<usize, SinkFailed> {
        let _ = self.lengths.push(from.len());
        self.sink.put(from)
    }
}

/// Up to a block of ids of three bits, whose length follows.
static HEAD: [u32; 2] = [0xDEC0_4342, 0x0C21];

/// A definition: the code 1, a field of 11 bits, and an array of chunks of 32 bits. Its count is spelled so that it takes two words.
static DEFINITION: [u32; 2] = [0x3042_10A2, 0x1411_9640];

/// Records by the definition: how many, with how many values of an array each, and their words. The first value of each is a number
/// that moves what follows.
type Records = (u32, u32, &'static [u32]);

/// Lines of few values of 20 digits, long lines of them, and long lines of three digits. A value of 20 digits takes three words.
static RECORDS: [[Records; 2]; 3] = [
    [
        (50, 63, &[0xFFFF_FFFF, 0xFFFF_FFFF, 3]),
        (120, 37, &[0xFFFF_FFFF, 0xFFFF_FFFF, 3]),
    ],
    [(2, 7000, &[0xFFFF_FFFF, 0xFFFF_FFFF, 3]), (1, 40, &[200])],
    [
        (1, 32_000, &[200]),
        (80, 50, &[0xFFFF_FFFF, 0xFFFF_FFFF, 3]),
    ],
];

/// The first word of a record: its id, its first value, and the length of its array in three chunks.
fn head_of(first: u32, count: u32) -> u32 {
    let (low, middle, high) = (count % 32, count / 32 % 32, count / 1024 % 32);
    4 | (first % 2048) << 3 | (low | 32) << 14 | (middle | 32) << 20 | high << 26
}

/// Appends records, of which the first values have one digit to four.
fn append(words: &mut Vec<u32>, records: Records, shift: u32) -> Result<(), AllocError> {
    let (records, count, value) = records;
    for place in 0..records {
        let first = [3, 33, 333, 1333][(shift.wrapping_add(place) % 4) as usize];
        words.push(head_of(first, count))?;
        for _ in 0..count {
            words.extend_from_slice(value)?;
        }
    }
    Ok(())
}

/// The bytes of words.
fn bytes_of(alloc: Global, words: &[u32]) -> Result<Vec<u8>, AllocError> {
    let mut bytes = Vec::new(alloc);
    for word in words {
        bytes.extend_from_slice(&word.to_le_bytes())?;
    }
    Ok(bytes)
}

/// A stream of one block with these words.
fn stream_of(alloc: Global, words: &[u32]) -> Result<Vec<u8>, AllocError> {
    let mut bytes = bytes_of(alloc, &HEAD)?;
    let length = (words.len() % 4_294_967_296) as u32;
    bytes.extend_from_slice(&length.to_le_bytes())?;
    let rest = bytes_of(alloc, words)?;
    bytes.extend_from_slice(&rest)?;
    Ok(bytes)
}

/// A stream of one block with these records.
fn stream(alloc: Global, records: &[Records], shift: u32) -> Result<Vec<u8>, AllocError> {
    let mut words = Vec::from_slice(alloc, &DEFINITION)?;
    for some in records {
        append(&mut words, *some, shift)?;
    }
    words.push(0)?;
    stream_of(alloc, &words)
}

/// Whether text may be put that ends before a place: an end of a line, or of a record's head or value.
fn may_end(text: &[u8], place: usize) -> bool {
    let at = |place: usize| text.get(place).copied().unwrap_or(0);
    let before = if place == 0 { 0 } else { at(place - 1) };
    let next = at(place.saturating_add(1));
    match at(place) {
        b' ' => before.is_ascii_digit(),
        b',' => next.is_ascii_digit() || at(place.saturating_add(2)).is_ascii_digit(),
        b'\n' => before.is_ascii_digit(),
        b']' => true,
        _ => before == b'\n' || before == b'[',
    }
}

/// The lengths in which a text is put.
fn lengths_of(alloc: Global, text: &[u8]) -> Result<Vec<usize>, AllocError> {
    let mut lengths = Vec::new(alloc);
    let mut begin = 0;
    for place in 0..text.len() {
        if place.saturating_sub(begin) >= 65_536 && may_end(text, place) {
            lengths.push(place.saturating_sub(begin))?;
            begin = place;
        }
    }
    lengths.push(text.len().saturating_sub(begin))?;
    Ok(lengths)
}

/// A listing, or the events as JSON.
fn written(alloc: Global, input: &[u8], is_json: bool) -> (Result<(), Fault>, Noting) {
    let source = SliceSource::new(input);
    let sink = Noting {
        sink: VecSink::new(alloc),
        lengths: Vec::new(alloc),
    };
    if is_json {
        let style = EventStyle {
            format: Format::JsonLines,
            values: ValueDisplay::Shown,
        };
        let (answer, _, sink) = write_events(alloc, source, sink, Limits::usual(), style);
        return (answer, sink);
    }
    let (answer, _, sink) = write_show(alloc, source, sink, Limits::usual(), Info::Keep);
    (answer, sink)
}

/// Checks the puts of a text.
fn puts_in_time(rt: &impl Abort, alloc: Global, input: &[u8], is_json: bool) {
    let (answer, sink) = written(alloc, input, is_json);
    let wanted = lengths_of(alloc, sink.sink.bytes()).expect(rt, "memory");
    assert!(rt; answer == Ok(()) && wanted.len() > 1, "{answer:?}");
    let found = sink.lengths.as_slice();
    assert!(rt; found == wanted.as_slice(), "{found:?} and not {wanted:?}");
}

#[test]
fn text_is_put_in_time(rt: HostRuntime) {
    for records in &RECORDS {
        for shift in 0..4 {
            let input = stream(rt.alloc(), records, shift).expect(&rt, "memory");
            puts_in_time(&rt, rt.alloc(), &input, false);
            puts_in_time(&rt, rt.alloc(), &input, true);
        }
    }
}

/// The words of a value of 20 digits.
static LONG: [u32; 3] = [0xFFFF_FFFF, 0xFFFF_FFFF, 3];

/// The words of a value of three.
static SHORT: [u32; 1] = [200];

/// A batch of numbers begins at each place before the border, in steps of 20 bytes: less than a number takes.
#[test]
fn text_is_put_in_time_at_each_border(rt: HostRuntime) {
    for count in (0..400).step_by(5) {
        let records: [Records; 2] = [(1, count, &SHORT), (45, 63, &LONG)];
        let input = stream(rt.alloc(), &records, 0).expect(&rt, "memory");
        puts_in_time(&rt, rt.alloc(), &input, true);
    }
}

/// Numbers on both sides of each number of digits, and of 2^53.
static NUMBERS: [u64; 13] = [
    0,
    9,
    10,
    99,
    100,
    999,
    1_000,
    9_999,
    10_000,
    4_294_967_296,
    9_007_199_254_740_991,
    9_007_199_254_740_992,
    18_446_744_073_709_551_615,
];

/// They as values, and as items of a JSON list. From 2^53 on these are strings.
static VALUES: &str =
    " 0 9 10 99 100 999 1000 9999 10000 4294967296 9007199254740991 9007199254740992 18446744073709551615";

static ITEMS: &str = ",0,9,10,99,100,999,1000,9999,10000,4294967296,9007199254740991,\
    \"9007199254740992\",\"18446744073709551615\"";

/// A stream of one block with a record of the value 3 and these numbers a few times.
fn numbers_of(alloc: Global, times: u32) -> Result<Vec<u8>, AllocError> {
    let mut words = Vec::from_slice(alloc, &DEFINITION)?;
    words.push(head_of(3, times.wrapping_mul(13)))?;
    for _ in 0..times {
        for number in &NUMBERS {
            let mut left = *number;
            for _ in 0..2 {
                if left >= 1 << 31 {
                    words.push((left % (1 << 31)) as u32 | 1 << 31)?;
                    left >>= 31;
                }
            }
            words.push((left % (1 << 31)) as u32)?;
        }
    }
    words.push(0)?;
    stream_of(alloc, &words)
}

/// Checks that a listing, or the events as JSON, has a line with these numbers a few times, and no number behind them.
fn has_numbers(rt: &impl Abort, alloc: Global, times: u32, is_json: bool) {
    let input = numbers_of(alloc, times).expect(rt, "memory");
    let (answer, sink) = written(alloc, &input, is_json);
    let (front, again, end) = if is_json {
        ("\"values\":[3", ITEMS, "]}\n")
    } else {
        ("\n  record 1 3", VALUES, "\n")
    };
    let numbers = again.repeat(alloc, times as usize).expect(rt, "memory");
    let line = format!(in alloc; "{front}{numbers}{end}").expect(rt, "memory");
    let text = str::from_utf8(sink.sink.bytes()).ok().expect(rt, "text");
    assert!(rt; answer == Ok(()) && text.contains(line.as_str()), "{text}");
}

/// In a line that is written at once.
#[test]
fn numbers_in_lines(rt: HostRuntime) {
    has_numbers(&rt, rt.alloc(), 1, false);
}

/// Numbers from 2^53 on are strings.
#[test]
fn numbers_as_json(rt: HostRuntime) {
    has_numbers(&rt, rt.alloc(), 1, true);
}

/// In a line that is written by batches of numbers.
#[test]
fn numbers_in_batches(rt: HostRuntime) {
    has_numbers(&rt, rt.alloc(), 6, false);
    has_numbers(&rt, rt.alloc(), 6, true);
}
