//! The events that settings keep.

use crate::events_tests::agrees;
use crate::{Event, OpenBlocks};
use bit_grammar::{Info, RecordName};
use std::alloc::{AllocError, Global};
use std::process::Abort;

/// A digit begins a block with this id, a letter is a record, of which an `a` has the code 1, and a dot ends a block.
fn event_of(byte: u8) -> Event<'static> {
    match byte {
        b'.' => Event::Leave { after: 0 },
        b'a'..=b'z' => Event::Record {
            abbrev: 3,
            code: u64::from(byte - b'a') + 1,
            values: &[],
            first: 0,
            after: 0,
        },
        _ => Event::Enter {
            id: u32::from(byte.saturating_sub(b'0')),
            width: 2,
            first: 0,
            body: 0,
        },
    }
}

/// The text of events, with a dash for each event that is left out.
fn left_of(alloc: Global, info: Info<'_>, events: &str) -> Result<String, AllocError> {
    let mut blocks = OpenBlocks::new(alloc, info);
    let mut text = String::new(alloc);
    for byte in events.bytes() {
        let is_left = blocks.take(event_of(byte))?;
        text.push(if is_left { char::from(byte) } else { '-' })?;
    }
    Ok(text)
}

/// Checks what is left of these events.
fn are_left(rt: &impl Abort, alloc: Global, info: Info<'_>, events: &str, wanted: &str) {
    agrees(rt, left_of(alloc, info, events), wanted, events);
}

/// Blocks and records that are left out, events, and what is left of them.
static ROWS: [(&[u32], &[RecordName], &str, &str); 5] = [
    // a dropped BLOCKINFO block
    (&[0], &[], "0a.8b0a.b.", "---8b---b."),
    // blocks in one that is left out, and items after it
    (&[9], &[], "8a9b8b.9..ab.9.", "8a--------ab.--"),
    (&[8, 9], &[], "8a9b..7a8.a.", "------7a--a."),
    // records around blocks, and in them
    (&[], &[EIGHT], "8a7a.ab8b.a.", "8-7a.-b8b.-."),
    (&[], &[SEVEN, ZERO], "0a.8a7ab.a.", "0a.8a7-b.a."),
];

/// The records with code 1 of blocks 8, 7 and 0; the last block has no named records.
const EIGHT: RecordName = RecordName { block: 8, code: 1 };

const SEVEN: RecordName = RecordName { block: 7, code: 1 };

const ZERO: RecordName = RecordName { block: 0, code: 1 };

#[test]
fn events_are_left(rt: HostRuntime) {
    are_left(&rt, rt.alloc(), Info::Keep, "0a.8a9b.a.", "0a.8a9b.a.");
    are_left(&rt, rt.alloc(), Info::Drop, "0a.8b0a.b.", "---8b---b.");
    for (blocks, records, events, wanted) in &ROWS {
        let info = Info::Without { blocks, records };
        are_left(&rt, rt.alloc(), info, events, wanted);
    }
}
