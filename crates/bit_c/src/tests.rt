//! Each call once with success; tests/c_library tests them from outside.

use crate::difference::NO_DIFFERENCE;
use crate::event::NONE;
use crate::handle::closed_handle;
use crate::{
    BsBlockRow, BsCodeRow, BsEvent, BsFault, BsHandle, BsKeys, BsLeftOut, BsLimits, BsMagicBytes,
    BsOpenBlock, BsOperand, BsRecordName, BsTally, bs_analyse, bs_assemble, bs_check, bs_close,
    bs_fed_analyse, bs_fed_check, bs_fed_events, bs_fed_first_difference, bs_fed_normal,
    bs_fed_report, bs_fed_same, bs_fed_show, bs_feed, bs_first_difference, bs_hold_normal,
    bs_hold_report, bs_hold_show, bs_magic, bs_next, bs_normal, bs_open, bs_operands, bs_report,
    bs_same, bs_show, bs_take, bs_text, bs_usual_limits, bs_values, bs_write_enter,
    bs_write_finish, bs_write_leave, bs_write_open, bs_write_record,
};
use std::alloc::Global;

/// A magic, and block 8 with a record of code 1 and the value 30.
static THIRTY: [u8; 16] = [
    0x42, 0x43, 0xC0, 0xDE, 0x21, 8, 0, 0, 1, 0, 0, 0, 7, 0x81, 7, 0,
];

/// The same with the value 31.
static THIRTY_ONE: [u8; 16] = [
    0x42, 0x43, 0xC0, 0xDE, 0x21, 8, 0, 0, 1, 0, 0, 0, 7, 0xC1, 7, 0,
];

static NAMES: [BsRecordName; 1] = [BsRecordName { block: 8, code: 1 }];

const NO_FAULT: BsFault = BsFault {
    reason: 0,
    input: 0,
    bit: 0,
};

/// Keys as C may draw them.
const KEYS: BsKeys = BsKeys {
    first: 7,
    second: 8,
};

const WHOLE: BsLeftOut<'static> = BsLeftOut {
    info: false,
    blocks: &[],
    records: &[],
};

fn usual() -> BsLimits {
    let mut limits = BsLimits {
        bytes: 0,
        depth: 0,
        values: 0,
        shapes_at_use: true,
    };
    bs_usual_limits(&mut limits);
    limits
}

fn judgements(alloc: Global) -> [u32; 2] {
    let (limits, mut fault) = (usual(), NO_FAULT);
    let check = bs_check(alloc, &THIRTY, &limits, &mut fault);
    let same = bs_same(alloc, &THIRTY, &THIRTY, &limits, &WHOLE, &mut fault);
    [check, same]
}

/// The results of comparing two records with another value, whole and without them; and the first values that differ.
fn comparison(alloc: Global, left_out: &BsLeftOut<'_>) -> (u32, usize, [u64; 2]) {
    let (limits, mut fault, mut difference) = (usual(), NO_FAULT, NO_DIFFERENCE);
    let mut room = [BsOpenBlock { id: 0, items: 0 }; 2];
    let status = bs_first_difference(
        alloc,
        &THIRTY,
        &THIRTY_ONE,
        &limits,
        left_out,
        &mut difference,
        &mut room,
        &mut fault,
    );
    let values = [difference.values.first, difference.values.second];
    (status, difference.depth, values)
}

#[test]
fn what_differs(rt: HostRuntime) {
    assert!(rt; comparison(rt.alloc(), &WHOLE) == (1, 1, [30, 31]));
    let left_out = BsLeftOut {
        info: true,
        blocks: &[],
        records: &NAMES,
    };
    assert!(rt; comparison(rt.alloc(), &left_out) == (0, 0, [0, 0]));
}

/// The ends of the calls for texts, and the length of the normal form.
fn given_texts(alloc: Global) -> ([u32; 3], usize) {
    let (limits, mut fault, mut room) = (usual(), NO_FAULT, [0; 128]);
    let (mut form, mut other) = (0, 0);
    let normal = bs_normal(
        alloc, &THIRTY, &limits, &WHOLE, &mut room, &mut form, &mut fault,
    );
    let report = bs_report(
        alloc, &THIRTY, &limits, &mut room, &mut other, &mut fault, &KEYS,
    );
    let show = bs_show(
        alloc, &THIRTY, &limits, &WHOLE, &mut room, &mut other, &mut fault,
    );
    ([normal, report, show], form)
}

#[test]
fn what_is_accepted(rt: HostRuntime) {
    assert!(rt; judgements(rt.alloc()) == [0, 0]);
    assert!(rt; given_texts(rt.alloc()) == ([0; 3], 16));
}

/// The end of assembling a listing, the length of the form, and the number that the fault has for the line.
fn assembled(alloc: Global, text: &str, room: &mut [u8]) -> (u32, usize, u64) {
    let (mut needed, mut fault) = (7, NO_FAULT);
    let listing = text.as_bytes();
    let status = bs_assemble(alloc, listing, &usual(), room, &mut needed, &mut fault);
    (status, needed, fault.bit)
}

#[test]
fn what_is_assembled(rt: HostRuntime) {
    let text = "magic 4243c0de\nblock 8\n  record 1 30\n";
    let mut room = [0; 16];
    assert!(rt; assembled(rt.alloc(), text, &mut room[..15]) == (6, 16, 0) && room == [0; 16]);
    assert!(rt; assembled(rt.alloc(), text, &mut room) == (0, 16, 0) && room == THIRTY);
    assert!(rt; assembled(rt.alloc(), "magic 4243c0de\nblock\n", &mut room) == (2, 0, 2));
}

fn held_texts(alloc: Global, handle: &mut BsHandle) -> [u32; 4] {
    let (limits, mut fault, mut room, mut needed) = (usual(), NO_FAULT, [0; 64], 0);
    let report = bs_hold_report(alloc, &THIRTY, &limits, handle, &mut fault, &KEYS);
    let show = bs_hold_show(alloc, &THIRTY, &limits, &WHOLE, handle, &mut fault);
    let normal = bs_hold_normal(alloc, &THIRTY, &limits, &WHOLE, handle, &mut fault);
    let text = bs_text(alloc, handle, &mut room, &mut needed, &mut fault);
    [report, show, normal, text]
}

#[test]
fn what_is_held(rt: HostRuntime) {
    let (mut handle, _) = closed_handle(rt.alloc());
    assert!(rt; held_texts(rt.alloc(), &mut handle) == [0; 4]);
    bs_close(rt.alloc(), &mut handle);
}

/// The statuses of holding a normal form and of three calls that take it in pieces of up to 10 bytes, and the lengths of these.
fn taken_pieces(alloc: Global, handle: &mut BsHandle) -> ([u32; 4], [usize; 3], [u8; 10]) {
    let (limits, mut fault, mut room) = (usual(), NO_FAULT, [0; 10]);
    let (mut first, mut second, mut third) = (0, 0, 0);
    let held = bs_hold_normal(alloc, &THIRTY, &limits, &WHOLE, handle, &mut fault);
    let one = bs_take(alloc, handle, &mut room, &mut first, &mut fault);
    let two = bs_take(alloc, handle, &mut room, &mut second, &mut fault);
    let three = bs_take(alloc, handle, &mut room, &mut third, &mut fault);
    ([held, one, two, three], [first, second, third], room)
}

#[test]
fn what_is_taken(rt: HostRuntime) {
    let (mut handle, _) = closed_handle(rt.alloc());
    let (statuses, lengths, room) = taken_pieces(rt.alloc(), &mut handle);
    assert!(rt; statuses == [0; 4] && lengths == [10, 6, 0]);
    assert!(rt; room[..6] == THIRTY[10..] && room[6..] == THIRTY[6..10]);
    bs_close(rt.alloc(), &mut handle);
}

fn row() -> BsBlockRow {
    BsBlockRow {
        id: 0,
        blocks: 0,
        bits: 0,
        definitions: 0,
        records: 0,
        abbreviated: 0,
        values: 0,
        codes: 0,
    }
}

#[test]
fn what_is_counted(rt: HostRuntime) {
    let (limits, mut fault) = (usual(), NO_FAULT);
    let mut tally = BsTally {
        magic: [0; 4],
        bits: 0,
        blocks: 0,
        codes: 0,
    };
    let code = BsCodeRow {
        code: 0,
        count: 0,
        bits: 0,
    };
    let (mut blocks, mut codes) = ([row(); 2], [code; 2]);
    let status = bs_analyse(
        rt.alloc(),
        &THIRTY,
        &limits,
        &mut tally,
        &mut blocks,
        &mut codes,
        &mut fault,
        &KEYS,
    );
    assert!(rt; status == 0 && tally.bits == 128 && blocks[0].values == 1 && codes[0].code == 1);
}

/// A magic, and block 8 with a definition: the literal 5, and an array of VBR 6.
static DEFINES: [u8; 16] = [
    0x42, 0x43, 0xC0, 0xDE, 0x21, 0x08, 0x00, 0x00, 0x01, 0x00, 0x00, 0x00, 0x8E, 0x05, 0x46, 0x06,
];

/// The kind and the number of values of the next event.
fn next(alloc: Global, handle: &mut BsHandle) -> (u32, u32, usize) {
    let (mut event, mut fault) = (NONE, NO_FAULT);
    let status = bs_next(alloc, handle, &mut event, &mut fault);
    (status, event.kind, event.count)
}

#[test]
fn what_is_read(rt: HostRuntime) {
    let (mut handle, _) = closed_handle(rt.alloc());
    let (mut fault, mut room, mut needed) = (NO_FAULT, [0; 2], 0);
    let opened = bs_open(rt.alloc(), &THIRTY, &usual(), &mut handle, &mut fault);
    let first = [next(rt.alloc(), &mut handle), next(rt.alloc(), &mut handle)];
    assert!(rt; opened == 0 && first == [(0, 1, 0), (0, 3, 1)]);
    let values = bs_values(rt.alloc(), &mut handle, &mut room, &mut needed, &mut fault);
    assert!(rt; values == 0 && needed == 1 && room == [30, 0]);
    bs_close(rt.alloc(), &mut handle);
    assert!(rt; next(rt.alloc(), &mut handle) == (7, 0, 0));
}

#[test]
fn what_is_defined(rt: HostRuntime) {
    let (mut handle, _) = closed_handle(rt.alloc());
    let (mut fault, mut needed, mut magic) = (NO_FAULT, 0, BsMagicBytes { bytes: [0; 4] });
    let mut room = [BsOperand { kind: 9, value: 9 }; 3];
    let opened = bs_open(rt.alloc(), &DEFINES, &usual(), &mut handle, &mut fault);
    let told = bs_magic(rt.alloc(), &mut handle, &mut magic, &mut fault);
    assert!(rt; opened == 0 && told == 0 && magic.bytes == [0x42, 0x43, 0xC0, 0xDE]);
    let kinds = [
        next(rt.alloc(), &mut handle).1,
        next(rt.alloc(), &mut handle).1,
    ];
    let status = bs_operands(rt.alloc(), &mut handle, &mut room, &mut needed, &mut fault);
    assert!(rt; kinds == [1, 2] && status == 0 && needed == 3);
    assert!(rt; [room[0].kind, room[1].kind, room[2].kind] == [0, 3, 2]);
    assert!(rt; [room[0].value, room[1].value, room[2].value] == [5, 0, 6]);
    let after = next(rt.alloc(), &mut handle).1;
    let none = bs_operands(rt.alloc(), &mut handle, &mut room, &mut needed, &mut fault);
    assert!(rt; after == 4 && none == 0 && needed == 0);
    bs_close(rt.alloc(), &mut handle);
}

/// Writes the tree of `THIRTY`, with a call that does not fit before each other one, and ends it.
fn tell_thirty(alloc: Global, handle: &mut BsHandle) -> [u32; 9] {
    let (limits, mut fault) = (usual(), NO_FAULT);
    let magic = BsMagicBytes {
        bytes: [0x42, 0x43, 0xC0, 0xDE],
    };
    [
        bs_write_open(alloc, &magic, &limits, handle, &mut fault),
        bs_write_record(alloc, handle, 1, &[30], &mut fault),
        bs_write_enter(alloc, handle, 8, &mut fault),
        bs_write_finish(alloc, handle, &mut fault),
        bs_write_record(alloc, handle, 1, &[30], &mut fault),
        bs_write_leave(alloc, handle, &mut fault),
        bs_write_leave(alloc, handle, &mut fault),
        bs_write_finish(alloc, handle, &mut fault),
        bs_write_finish(alloc, handle, &mut fault),
    ]
}

#[test]
fn what_is_written(rt: HostRuntime) {
    let (mut handle, _) = closed_handle(rt.alloc());
    let (mut fault, mut room, mut needed) = (NO_FAULT, [0; 16], 0);
    let statuses = tell_thirty(rt.alloc(), &mut handle);
    assert!(rt; statuses == [0, 9, 0, 9, 0, 0, 9, 0, 7]);
    let text = bs_text(rt.alloc(), &mut handle, &mut room, &mut needed, &mut fault);
    assert!(rt; text == 0 && needed == 16 && room == THIRTY);
    bs_close(rt.alloc(), &mut handle);
}

/// An input in two pieces, judged before the second and after it, and listed.
fn fed_pieces(alloc: Global, handle: &mut BsHandle) -> [u32; 7] {
    let (limits, mut fault) = (usual(), NO_FAULT);
    let mut tally = BsTally {
        magic: [0; 4],
        bits: 0,
        blocks: 0,
        codes: 0,
    };
    [
        bs_feed(alloc, handle, &THIRTY[..9], &mut fault),
        bs_fed_check(alloc, handle, &limits, &mut fault),
        bs_feed(alloc, handle, &THIRTY[9..], &mut fault),
        bs_fed_check(alloc, handle, &limits, &mut fault),
        bs_fed_analyse(
            alloc,
            handle,
            &limits,
            &mut tally,
            &mut [],
            &mut [],
            &mut fault,
            &KEYS,
        ),
        bs_fed_normal(alloc, handle, &limits, &WHOLE, &mut fault),
        bs_fed_show(alloc, handle, &limits, &WHOLE, &mut fault),
    ]
}

#[test]
fn what_is_fed(rt: HostRuntime) {
    let (mut handle, _) = closed_handle(rt.alloc());
    let (mut fault, mut room, mut needed) = (NO_FAULT, [0; 16], 0);
    let statuses = fed_pieces(rt.alloc(), &mut handle);
    assert!(rt; statuses == [0, 2, 0, 0, 6, 0, 7]);
    let text = bs_text(rt.alloc(), &mut handle, &mut room, &mut needed, &mut fault);
    assert!(rt; text == 0 && needed == 16 && room == THIRTY);
    bs_close(rt.alloc(), &mut handle);
}

/// Begins the events of an input in two pieces, before the second and after it, and feeds it more.
fn begun_events(alloc: Global, handle: &mut BsHandle) -> [u32; 5] {
    let (limits, mut fault) = (usual(), NO_FAULT);
    [
        bs_feed(alloc, handle, &THIRTY[..3], &mut fault),
        bs_fed_events(alloc, handle, &limits, &mut fault),
        bs_feed(alloc, handle, &THIRTY[3..], &mut fault),
        bs_fed_events(alloc, handle, &limits, &mut fault),
        bs_feed(alloc, handle, &THIRTY, &mut fault),
    ]
}

#[test]
fn what_is_read_of_pieces(rt: HostRuntime) {
    let (mut handle, _) = closed_handle(rt.alloc());
    let (mut fault, mut room, mut needed) = (NO_FAULT, [0; 1], 0);
    let statuses = begun_events(rt.alloc(), &mut handle);
    assert!(rt; statuses == [0, 2, 0, 0, 7]);
    let first = [next(rt.alloc(), &mut handle), next(rt.alloc(), &mut handle)];
    let values = bs_values(rt.alloc(), &mut handle, &mut room, &mut needed, &mut fault);
    assert!(rt; first == [(0, 1, 0), (0, 3, 1)] && values == 0 && room == [30]);
    bs_close(rt.alloc(), &mut handle);
}

/// The statuses of comparing two inputs in pieces, and of the report of the second; and the depth of their difference.
fn fed_pair(alloc: Global, first: &mut BsHandle, second: &mut BsHandle) -> ([u32; 6], usize) {
    let (limits, mut fault, mut difference) = (usual(), NO_FAULT, NO_DIFFERENCE);
    let mut room = [BsOpenBlock { id: 0, items: 0 }; 1];
    let statuses = [
        bs_fed_same(alloc, first, second, &limits, &WHOLE, &mut fault),
        bs_feed(alloc, first, &THIRTY, &mut fault),
        bs_feed(alloc, second, &THIRTY_ONE, &mut fault),
        bs_fed_same(alloc, first, second, &limits, &WHOLE, &mut fault),
        bs_fed_first_difference(
            alloc,
            first,
            second,
            &limits,
            &WHOLE,
            &mut difference,
            &mut room,
            &mut fault,
        ),
        bs_fed_report(alloc, second, &limits, &mut fault, &KEYS),
    ];
    (statuses, difference.depth)
}

#[test]
fn what_differs_in_pieces(rt: HostRuntime) {
    let (mut first, _) = closed_handle(rt.alloc());
    let (mut second, _) = closed_handle(rt.alloc());
    assert!(rt; fed_pair(rt.alloc(), &mut first, &mut second) == ([2, 0, 0, 1, 1, 0], 1));
    let (mut fault, mut room, mut needed) = (NO_FAULT, [0; 128], 0);
    let text = bs_text(rt.alloc(), &mut second, &mut room, &mut needed, &mut fault);
    assert!(rt; text == 0 && room.starts_with(b"magic 4243c0de bits 128\n"));
    bs_close(rt.alloc(), &mut first);
    bs_close(rt.alloc(), &mut second);
}
