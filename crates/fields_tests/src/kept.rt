//! Sources that keep what they give.

use crate::chopped::{in_steps, shown_source};
use bit_fields::{BitReader, Fault, KeptSource, Limits, Source};
use std::alloc::Global;

/// A magic and nine bytes.
const INPUT: [u8; 13] = [
    0x42, 0x43, 0xC0, 0xDE, 0xF1, 0x02, 0xF3, 0x04, 0xF5, 0x06, 0xF7, 0x08, 0xF9,
];

/// Reads `count` bytes after the magic, and returns the source.
fn read<S: Source + Drop>(source: S, count: u64) -> Option<S> {
    let mut reader = match BitReader::start(source, Limits::usual()) {
        Ok((reader, _)) => reader,
        Err((_, source)) => return Some(source),
    };
    match read_bytes(&mut reader, count) {
        Ok(()) | Err(Fault::Read) => Some(reader.into_source()),
        Err(_) => None,
    }
}

fn read_bytes<S: Source>(reader: &mut BitReader<S>, count: u64) -> Result<(), Fault> {
    for _ in 0..count {
        reader.fixed(8)?;
    }
    Ok(())
}

/// Whether at least `least` leading bytes were kept while `count` bytes were read.
fn keeps<S: Source + Drop>(alloc: Global, source: S, count: u64, least: usize) -> bool {
    let Some(source) = read(KeptSource::new(alloc, source), count) else {
        return false;
    };
    let (bytes, _) = source.into_parts();
    match bytes {
        Ok(bytes) => bytes.len() >= least && INPUT.starts_with(bytes.as_slice()),
        Err(_) => false,
    }
}

#[test]
fn bytes_that_pass_are_kept(rt: HostRuntime) {
    for step in 1..12 {
        let all = keeps(rt.alloc(), in_steps(&INPUT, step, 0), 9, 13);
        let seen = keeps(rt.alloc(), shown_source(&INPUT, step, 0), 9, 13);
        let some = keeps(rt.alloc(), in_steps(&INPUT, step, 0), 2, 6);
        assert!(rt; all && seen && some, "{step}");
    }
}

#[test]
fn what_came_before_a_failure_is_kept(rt: HostRuntime) {
    for fails_at in 1..10 {
        let kept = keeps(
            rt.alloc(),
            in_steps(&INPUT, 2, fails_at),
            9,
            2 * (fails_at as usize - 1),
        );
        assert!(rt; kept == (fails_at < 8), "{fails_at}");
    }
}
