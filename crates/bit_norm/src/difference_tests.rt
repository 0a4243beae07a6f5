//! Where two inputs first differ.

use crate::fault_tests::agrees;
use crate::input_tests::bytes_of;
use crate::{
    Difference, Info, Place, RecordName, SameFault, Standing, ValueDifference, Which,
    first_difference, first_difference_in_parts,
};
use bit_fields::{Fault, Limits, Reason, SliceSource, Source};
use std::alloc::{AllocError, Global};
use std::process::Abort;

/// A difference as text: its place, the items there in both inputs, each after the bit at which it begins, and the first value that
/// differs.
fn text_of(
    alloc: Global,
    place: &Place,
    first: Standing,
    second: Standing,
    value: Option<ValueDifference>,
) -> Result<String, AllocError> {
    format!(in alloc;
        "{place:?}: {} {:?}; {} {:?}; {value:?}",
        first.bit, first.what, second.bit, second.what
    )
}

/// The text of a result.
fn text_there(alloc: Global, answer: &Option<Difference>) -> Result<String, AllocError> {
    match answer {
        Some(told) => text_of(alloc, &told.place, told.first, told.second, told.value),
        None => "none".to_string(alloc),
    }
}

/// The text that is wanted of the same inputs the other way round.
fn text_back(alloc: Global, answer: &Option<Difference>) -> Result<String, AllocError> {
    match answer {
        Some(told) => {
            let value = mirror_of(told.value);
            text_of(alloc, &told.place, told.second, told.first, value)
        }
        None => "none".to_string(alloc),
    }
}

/// The same value, if the inputs are the other way round.
fn mirror_of(value: Option<ValueDifference>) -> Option<ValueDifference> {
    let told = value?;
    Some(ValueDifference {
        index: told.index,
        first: told.second,
        second: told.first,
    })
}

/// Where two inputs first differ.
fn difference_of(
    rt: &impl Abort,
    alloc: Global,
    a: &[u8],
    b: &[u8],
    info: Info,
) -> Option<Difference> {
    let (a, b) = (SliceSource::new(a), SliceSource::new(b));
    let (answer, _, _) = first_difference(alloc, a, b, Limits::usual(), info);
    answer.expect(rt, "inputs that are accepted")
}

/// The same of two inputs that come one after the other.
fn difference_in_parts(
    rt: &impl Abort,
    alloc: Global,
    a: &[u8],
    b: &[u8],
    info: Info,
) -> Option<Difference> {
    let mut both = a.to_vec(alloc).expect(rt, "memory");
    both.extend_from_slice(b).expect(rt, "memory");
    let source = SliceSource::new(&both);
    let (answer, _) = first_difference_in_parts(
        alloc,
        source,
        a.len() as u64,
        Limits::usual(),
        info,
    );
    answer.expect(rt, "inputs that are accepted")
}

/// Checks the difference of two inputs, and the same the other way round.
fn is_told(rt: &impl Abort, alloc: Global, a: &[u8], b: &[u8], info: Info, wanted: &str) {
    let there = difference_of(rt, alloc, a, b, info);
    agrees(rt, text_there(alloc, &there), wanted, "there");
    let back = difference_of(rt, alloc, b, a, info);
    agrees(rt, text_back(alloc, &back), wanted, "back");
    let parts = difference_in_parts(rt, alloc, a, b, info);
    agrees(rt, text_there(alloc, &parts), wanted, "in parts");
}

/// Which of the two inputs in these bytes is truncated at bit 0, and how many bytes are left.
fn truncated_part(alloc: Global, bytes: &[u8], first: u64) -> (Option<Which>, usize) {
    let source = SliceSource::new(bytes);
    let (answer, mut source) = first_difference_in_parts(
        alloc,
        source,
        first,
        Limits::usual(),
        Info::Keep,
    );
    let truncated = Fault::Refused {
        reason: Reason::Truncated,
        bit: 0,
    };
    let which = match answer {
        Err(SameFault { which, fault }) if fault == truncated => Some(which),
        _ => None,
    };
    (which, source.pull(&mut [0; 64]).unwrap_or(99))
}

#[test]
fn parts_that_are_refused(rt: HostRuntime) {
    let input = bytes_of(rt.alloc(), "M T").expect(&rt, "memory");
    for first in 0..4 {
        let left = input.len().saturating_sub(first as usize);
        assert!(rt; truncated_part(rt.alloc(), &input, first) == (Some(Which::First), left));
    }
    for first in [16, 17, u64::MAX] {
        assert!(rt; truncated_part(rt.alloc(), &input, first) == (Some(Which::Second), 0));
    }
}

/// The same for two inputs that are spelled.
fn is_text_told(rt: &impl Abort, alloc: Global, a: &str, b: &str, info: Info, wanted: &str) {
    let a = bytes_of(alloc, a).expect(rt, "memory");
    let b = bytes_of(alloc, b).expect(rt, "memory");
    is_told(rt, alloc, &a, &b, info, wanted);
}

/// The same for a line with two inputs and their difference, separated by '='. Returns whether the line has them.
fn is_line_told(rt: &impl Abort, alloc: Global, line: &str, info: Info) -> bool {
    let Some((a, rest)) = line.split_once('=') else {
        return false;
    };
    let Some((b, wanted)) = rest.split_once('=') else {
        return false;
    };
    is_text_told(rt, alloc, a, b, info, wanted);
    true
}

/// The same for each line, and that this many lines have them.
fn are_told(rt: &impl Abort, alloc: Global, lines: &str, info: Info, wanted: usize) {
    let mut count: usize = 0;
    for line in lines.lines() {
        if is_line_told(rt, alloc, line, info) {
            count = count.saturating_add(1);
        }
    }
    assert!(rt; count == wanted);
}

/// Pairs of inputs, and their differences if all is kept.
static KEPT: &str = "\
    M E T = M E T =none\n\
    M = 44 49 41 47 =Magic: 0 Magic([66, 67, 192, 222]); 0 Magic([68, 73, 65, 71]); None\n\
    M E = DE C0 17 0B 00 00 00 00 14 00 00 00 04 00 00 00 00 00 00 00 44 49 41 47 \
        =Magic: 0 Magic([66, 67, 192, 222]); 160 Magic([68, 73, 65, 71]); None\n\
    M E = M =Item { open: [], items: 0 }: 32 Block(8); 32 End; None\n\
    M E = DE C0 17 0B 00 00 00 00 14 00 00 00 04 00 00 00 00 00 00 00 M \
        =Item { open: [], items: 0 }: 32 Block(8); 192 End; None\n\
    M T E = M T =Item { open: [], items: 1 }: 128 Block(8); 128 End; None\n\
    M 25 08 00 00 01 00 00 00 00 00 00 00 = M E =Item { open: [], items: 0 }: 32 Block(9); 32 Block(8); None\n\
    M E T = M E H \
        =Item { open: [OpenBlock { id: 8, items: 1 }], items: 0 }: \
        192 Record { code: 1, count: 1 }; 192 Record { code: 1, count: 1 }; Some(ValueDifference { index: 0, first: 30, second: 100 })\n\
    M T = M 21 08 00 00 01 00 00 00 0B 81 07 00 \
        =Item { open: [OpenBlock { id: 8, items: 0 }], items: 0 }: \
        96 Record { code: 1, count: 1 }; 96 Record { code: 2, count: 1 }; None\n\
    M T = M 21 08 00 00 01 00 00 00 07 00 00 00 \
        =Item { open: [OpenBlock { id: 8, items: 0 }], items: 0 }: \
        96 Record { code: 1, count: 1 }; 96 Record { code: 1, count: 0 }; None\n\
    M T = M E =Item { open: [OpenBlock { id: 8, items: 0 }], items: 0 }: 96 Record { code: 1, count: 1 }; 96 End; None\n\
    M 21 08 00 00 02 00 00 00 07 81 77 10 78 00 00 00 = M T \
        =Item { open: [OpenBlock { id: 8, items: 0 }], items: 1 }: 116 Record { code: 1, count: 1 }; 116 End; None\n\
    M T \
        = DE C0 17 0B 00 00 00 00 14 00 00 00 1C 00 00 00 00 00 00 00 M 21 08 00 00 04 00 00 00 25 08 00 00 01 00 00 00 00 00 00 00 00 00 00 00 \
        =Item { open: [OpenBlock { id: 8, items: 0 }], items: 0 }: \
        96 Record { code: 1, count: 1 }; 256 Block(9); None\n\
    M 21 08 00 00 07 00 00 00 25 08 00 00 04 00 00 00 29 08 00 00 01 00 00 00 07 81 07 00 00 00 00 00 00 00 00 00 \
        = M 21 08 00 00 07 00 00 00 25 08 00 00 04 00 00 00 29 08 00 00 01 00 00 00 07 01 39 00 00 00 00 00 00 00 00 00 \
        =Item { open: [OpenBlock { id: 8, items: 0 }, OpenBlock { id: 9, items: 0 }, OpenBlock { id: 10, items: 0 }], items: 0 }: \
        224 Record { code: 1, count: 1 }; 224 Record { code: 1, count: 1 }; Some(ValueDifference { index: 0, first: 30, second: 100 })\n\
    M 21 08 00 00 07 00 00 00 25 08 00 00 04 00 00 00 29 08 00 00 01 00 00 00 07 81 07 00 00 00 00 00 00 00 00 00 \
        = M 21 08 00 00 07 00 00 00 25 08 00 00 04 00 00 00 29 08 00 00 01 00 00 00 00 00 00 00 00 00 00 00 00 00 00 00 \
        =Item { open: [OpenBlock { id: 8, items: 0 }, OpenBlock { id: 9, items: 0 }, OpenBlock { id: 10, items: 0 }], items: 0 }: \
        224 Record { code: 1, count: 1 }; 224 End; None";

#[test]
fn differences_are_found(rt: HostRuntime) {
    are_told(&rt, rt.alloc(), KEPT, Info::Keep, 15);
}

/// The same without BLOCKINFO blocks.
static WITHOUT_INFO: &str = "\
    M E D = M E H =none\n\
    M D = M =Item { open: [], items: 0 }: 160 Block(8); 32 End; None\n\
    M D T = M D E \
        =Item { open: [OpenBlock { id: 8, items: 1 }], items: 0 }: 320 Record { code: 1, count: 1 }; 320 End; None\n\
    M E 01 08 00 00 02 00 00 00 07 01 A2 18 20 07 00 00 = M E E \
        =Item { open: [], items: 1 }: 128 End; 128 Block(8); None";

#[test]
fn what_is_left_out_counts_nowhere(rt: HostRuntime) {
    are_told(&rt, rt.alloc(), WITHOUT_INFO, Info::Drop, 4);
    let blocks = Info::Without {
        blocks: &[0],
        records: &[],
    };
    are_told(&rt, rt.alloc(), WITHOUT_INFO, blocks, 4);
}

/// The same without blocks 9 and the records with code 1 of blocks 8.
static WITHOUT_NAMED: &str = "\
    M 21 08 00 00 05 00 00 00 07 81 57 82 00 00 00 00 01 00 00 00 0B 41 00 00 0B 41 01 00 \
        = M 21 08 00 00 02 00 00 00 0B 41 71 10 24 00 00 00 =none\n\
    M 21 08 00 00 02 00 00 00 07 81 B7 10 14 0B C1 01 = M 21 08 00 00 02 00 00 00 0B 41 B1 10 20 00 00 00 \
        =Item { open: [OpenBlock { id: 8, items: 0 }], items: 1 }: \
        136 Record { code: 2, count: 1 }; 116 Record { code: 2, count: 1 }; Some(ValueDifference { index: 0, first: 7, second: 8 })\n\
    M 21 08 00 00 02 00 00 00 0B 41 71 10 78 00 00 00 = M 21 08 00 00 02 00 00 00 0B 41 B1 10 1C 00 00 00 \
        =Item { open: [OpenBlock { id: 8, items: 0 }], items: 1 }: 116 End; 116 Record { code: 2, count: 1 }; None\n\
    M T = M 21 08 00 00 01 00 00 00 0B 41 01 00 \
        =Item { open: [OpenBlock { id: 8, items: 0 }], items: 0 }: 96 End; 96 Record { code: 2, count: 1 }; None\n\
    M 25 08 00 00 01 00 00 00 00 00 00 00 E = M 25 08 00 00 01 00 00 00 00 00 00 00 \
        =Item { open: [], items: 0 }: 128 Block(8); 32 End; None\n\
    M E 25 08 00 00 01 00 00 00 00 00 00 00 = M E E =Item { open: [], items: 1 }: 128 End; 128 Block(8); None";

/// Blocks within blocks, one of them after a wrapper; a block in one that is left out; records around a block.
static NAMED_AT_DEPTH: &str = "\
    M 21 08 00 00 0D 00 00 00 07 81 97 82 00 00 00 00 09 00 00 00 25 08 00 00 01 00 00 00 0B 41 00 00 \
        21 08 00 00 03 00 00 00 07 81 B7 10 14 07 41 B2 10 1C 00 00 00 00 00 00 00 00 00 00 \
        = DE C0 17 0B 00 00 00 00 14 00 00 00 2C 00 00 00 00 00 00 00 M 21 08 00 00 08 00 00 00 29 08 00 00 05 00 00 00 \
        21 08 00 00 02 00 00 00 0B 41 B1 10 20 00 00 00 00 00 00 00 00 00 00 00 \
        =Item { open: [OpenBlock { id: 8, items: 0 }, OpenBlock { id: 10, items: 0 }, OpenBlock { id: 8, items: 0 }], items: 1 }: \
        412 Record { code: 2, count: 1 }; 404 Record { code: 2, count: 1 }; Some(ValueDifference { index: 0, first: 7, second: 8 })\n\
    M 21 08 00 00 0D 00 00 00 07 81 97 82 00 00 00 00 09 00 00 00 25 08 00 00 01 00 00 00 0B 41 00 00 \
        21 08 00 00 03 00 00 00 07 81 B7 10 14 07 41 B2 10 1C 00 00 00 00 00 00 00 00 00 00 \
        = DE C0 17 0B 00 00 00 00 14 00 00 00 38 00 00 00 00 00 00 00 M 21 08 00 00 0B 00 00 00 29 08 00 00 08 00 00 00 \
        21 08 00 00 05 00 00 00 0B 41 51 82 00 00 00 00 01 00 00 00 00 00 00 00 07 C1 00 00 00 00 00 00 00 00 00 00 \
        =Item { open: [OpenBlock { id: 8, items: 0 }, OpenBlock { id: 10, items: 0 }, OpenBlock { id: 8, items: 0 }], items: 1 }: \
        412 Record { code: 2, count: 1 }; 404 End; None\n\
    M 25 08 00 00 07 00 00 00 21 08 00 00 01 00 00 00 0B 41 00 00 25 08 00 00 01 00 00 00 0B 81 00 00 00 00 00 00 \
        21 08 00 00 01 00 00 00 0B 41 01 00 = M 21 08 00 00 01 00 00 00 0B 81 01 00 \
        =Item { open: [OpenBlock { id: 8, items: 0 }], items: 0 }: \
        384 Record { code: 2, count: 1 }; 96 Record { code: 2, count: 1 }; Some(ValueDifference { index: 0, first: 5, second: 6 })\n\
    M 21 08 00 00 06 00 00 00 07 81 97 82 00 00 00 00 01 00 00 00 07 01 01 00 0B C1 71 10 78 00 00 00 \
        = M 21 08 00 00 05 00 00 00 29 08 00 00 01 00 00 00 07 01 01 00 0B C1 B1 10 1C 00 00 00 \
        =Item { open: [OpenBlock { id: 8, items: 0 }], items: 2 }: 244 End; 212 Record { code: 2, count: 1 }; None\n\
    M 21 08 00 00 05 00 00 00 07 81 97 82 00 00 00 00 01 00 00 00 07 01 01 00 00 00 00 00 \
        = M 21 08 00 00 04 00 00 00 29 08 00 00 01 00 00 00 07 41 01 00 00 00 00 00 \
        =Item { open: [OpenBlock { id: 8, items: 0 }, OpenBlock { id: 10, items: 0 }], items: 0 }: \
        192 Record { code: 1, count: 1 }; 160 Record { code: 1, count: 1 }; Some(ValueDifference { index: 0, first: 4, second: 5 })";

/// The setting for these pairs.
static NAMED: Info<'static> = Info::Without {
    blocks: &[9],
    records: &[RecordName { block: 8, code: 1 }],
};

#[test]
fn what_is_named_counts_nowhere(rt: HostRuntime) {
    are_told(&rt, rt.alloc(), WITHOUT_NAMED, NAMED, 6);
    are_told(&rt, rt.alloc(), NAMED_AT_DEPTH, NAMED, 5);
}
