//! Sources of the first bytes of others.

use crate::chopped::{in_steps, shown_source};
use bit_fields::{BitReader, Fault, FrontSource, Limits, Reason, Source};

/// A magic and nine bytes.
const INPUT: [u8; 13] = [
    0x42, 0x43, 0xC0, 0xDE, 0xF1, 0x02, 0xF3, 0x04, 0xF5, 0x06, 0xF7, 0x08, 0xF9,
];

/// How many bytes after the magic a source of the first `count` bytes gives, the fault after them, and the next byte of the
/// other source.
fn given<S: Source + Drop>(source: S, count: u64) -> (u64, Option<Fault>, Option<u8>) {
    let front = FrontSource::new(source, count);
    match BitReader::start(front, Limits::usual()) {
        Ok((mut reader, _)) => {
            let (bytes, fault) = read_bytes(&mut reader);
            (bytes, fault, next_of(reader.into_source().into_inner()))
        }
        Err((fault, front)) => (0, Some(fault), next_of(front.into_inner())),
    }
}

fn read_bytes<S: Source>(reader: &mut BitReader<S>) -> (u64, Option<Fault>) {
    for bytes in 0..99 {
        if let Err(fault) = reader.fixed(8) {
            return (bytes, Some(fault));
        }
    }
    (99, None)
}

fn next_of<S: Source + Drop>(mut source: S) -> Option<u8> {
    let mut next = [0];
    match source.pull(&mut next) {
        Ok(1) => Some(next[0]),
        _ => None,
    }
}

fn truncated(bit: u64) -> Option<Fault> {
    Some(Fault::Refused {
        reason: Reason::Truncated,
        bit,
    })
}

#[test]
fn no_byte_behind_the_front_is_taken(rt: HostRuntime) {
    for step in 1..14 {
        let wanted = (6, truncated(80), Some(0xF7));
        assert!(rt; given(in_steps(&INPUT, step, 0), 10) == wanted, "{step}");
        assert!(rt;
            given(shown_source(&INPUT, step, 0), 10) == wanted,
            "{step}"
        );
        let whole = (9, truncated(104), None);
        assert!(rt; given(shown_source(&INPUT, step, 0), 14) == whole, "{step}");
    }
}

#[test]
fn the_end_of_the_front_asks_for_nothing(rt: HostRuntime) {
    let wanted = (0, truncated(0), None);
    assert!(rt; given(in_steps(&INPUT, 1, 1), 0) == wanted);
    assert!(rt; given(shown_source(&INPUT, 1, 1), 0) == wanted);
    let failed = (0, Some(Fault::Read), Some(0x42));
    assert!(rt; given(in_steps(&INPUT, 1, 1), 4) == failed);
}
