ghost use Rattle.std.specs.Prelude.{Some};

use crate::input_tests::bytes_of;
use crate::{normal_len, write_normal};
use bit_fields::{Fault, Limits, Sink, SinkFailed, VecSink};
use bit_tree::{Block, Document, Item, Items, Record, Values};
use std::alloc::Global;
use std::process::Abort;

/// A sink that takes few bytes a put, and fails after a number of puts.
#[derive(Drop)]
pub(crate) struct Pieces {
    pub(crate) bytes: Vec<u8>,
    most: usize,
    puts_left: u64,
    pub(crate) failures: u64,
}

impl Pieces {
    pub(crate) fn new(alloc: Global, most: usize, puts_left: u64) -> Pieces {
        Pieces {
            bytes: Vec::new(alloc),
            most,
            puts_left,
            failures: 0,
        }
    }

    /// Whether the sink has these bytes and failed this often.
    pub(crate) fn has(&self, bytes: &[u8], failures: u64) -> bool {
        self.bytes.as_slice() == bytes && self.failures == failures
    }
}

impl Sink for Pieces {
    ghost outgoing = { λ s. record { bytes = Some s.bytes.items; failures = s.failures } };

    fn put(&mut self, from: &[u8]) -> Result<usize, SinkFailed> {
        if self.failures == u64::MAX {
            return Err(SinkFailed);
        }
        if self.puts_left == 0 {
            self.failures += 1;
            return Err(SinkFailed);
        }
        self.puts_left -= 1;
        let count = from.len().min(self.most);
        match self.bytes.extend_from_slice(&from[..count]) {
            Ok(()) => {
                if count == 0 && !from.is_empty() {
                    self.failures += 1;
                }
                Ok(count)
            }
            Err(_) => {
                self.failures += 1;
                Err(SinkFailed)
            }
        }
    }
}

/// The magic of LLVM's bitcode.
pub(crate) const MAGIC: [u8; 4] = [0x42, 0x43, 0xc0, 0xde];

/// Limits with this limit on bytes.
pub(crate) fn within(rt: &impl Abort, bytes: u64) -> Limits {
    Limits::new(bytes, 64, 1000).expect(rt, "limits within their caps")
}

fn record(rt: &impl Abort, alloc: Global, code: u64, values: &[u64]) -> Item {
    Item::Record(Record {
        code,
        values: Values(Vec::from_slice(alloc, values).expect(rt, "memory")),
    })
}

/// Records, each a code and values.
type Records = &'static [(u64, &'static [u64])];

/// A block with these records.
fn block_of(rt: &impl Abort, alloc: Global, id: u32, records: Records) -> Block {
    let mut items = Vec::new(alloc);
    for (code, values) in records {
        let item = record(rt, alloc, *code, values);
        items.push(item).expect(rt, "memory");
    }
    Block {
        id,
        items: Items(items),
    }
}

/// Blocks of records, each with its id.
type Blocks = &'static [(u32, Records)];

/// A list of these blocks.
fn blocks_of(rt: &impl Abort, alloc: Global, rows: Blocks) -> Vec<Block> {
    let mut blocks = Vec::new(alloc);
    for (id, records) in rows {
        let block = block_of(rt, alloc, *id, records);
        blocks.push(block).expect(rt, "memory");
    }
    blocks
}

/// A block 8 with these blocks.
fn nest_of(rt: &impl Abort, alloc: Global, rows: Blocks) -> Block {
    let mut items = Vec::new(alloc);
    for (id, records) in rows {
        let item = Item::Block(block_of(rt, alloc, *id, records));
        items.push(item).expect(rt, "memory");
    }
    Block {
        id: 8,
        items: Items(items),
    }
}

/// A list of one block.
fn one(rt: &impl Abort, alloc: Global, block: Block) -> Vec<Block> {
    let mut blocks = Vec::new(alloc);
    blocks.push(block).expect(rt, "memory");
    blocks
}

/// A document of these blocks.
fn document_of(rt: &impl Abort, magic: [u8; 4], blocks: Vec<Block>) -> Document {
    Document::new(magic, blocks).ok().expect(rt, "a document")
}

/// Checks that a sink has the form, and that the result is its length.
fn is_whole(answer: Result<u64, Fault>, bytes: &[u8], form: &[u8]) -> bool {
    answer == Ok(form.len() as u64) && bytes == form
}

/// Checks that a document has this length, and none under a lower limit.
fn has_len(rt: &impl Abort, doc: &Document, len: u64) {
    let exact = normal_len(doc, within(rt, len));
    let fewer = normal_len(doc, within(rt, len.saturating_sub(1)));
    assert!(rt;
        normal_len(doc, Limits::usual()) == Some(len) && exact == Some(len) && fewer == None
    );
}

/// Checks the form that is written of a document under a limit.
fn fits(rt: &impl Abort, alloc: Global, doc: &Document, form: &[u8]) {
    let limits = within(rt, form.len() as u64);
    let (result, sink) = write_normal(doc, VecSink::new(alloc), limits);
    assert!(rt; is_whole(result, sink.bytes(), form));
}

/// Checks that a document is not written under a limit of one byte less than its form.
fn is_too_long(rt: &impl Abort, alloc: Global, doc: &Document, form: &[u8]) {
    let limits = within(rt, (form.len() as u64).saturating_sub(1));
    let (result, sink) = write_normal(doc, VecSink::new(alloc), limits);
    assert!(rt; result == Err(Fault::OutputTooLong));
    assert!(rt; sink.bytes().is_empty());
}

/// Checks the form that is written of a document, whatever a sink takes at once.
fn is_written(rt: &impl Abort, alloc: Global, doc: &Document, form: &[u8]) {
    for most in [1, 3, 4] {
        let sink = Pieces::new(alloc, most, u64::MAX);
        let (result, sink) = write_normal(doc, sink, Limits::usual());
        assert!(rt; is_whole(result, &sink.bytes, form), "{most} bytes a put");
        assert!(rt; sink.failures == 0);
    }
}

/// Whether a sink has the whole form, or failed and has a prefix of it.
fn is_front(answer: Result<u64, Fault>, sink: &Pieces, form: &[u8]) -> bool {
    match answer {
        Ok(_) => sink.has(form, 0),
        Err(fault) => {
            fault == Fault::Write && sink.failures == 1 && form.starts_with(&sink.bytes)
        }
    }
}

/// Checks that a sink that fails at a put has a prefix of the form.
fn keeps_front(rt: &impl Abort, alloc: Global, doc: &Document, form: &[u8], most: usize) {
    for puts in 0..8 {
        let sink = Pieces::new(alloc, most, puts);
        let (result, sink) = write_normal(doc, sink, Limits::usual());
        assert!(rt; is_front(result, &sink, form), "{puts} puts");
    }
}

/// Blocks, and the normal forms of documents of them, in the letters of `input_tests`.
static DOCUMENTS: [(Blocks, &str); 7] = [
    (&[], "M"),
    (&[(8, &[(1, &[30])])], "M T"),
    (
        &[(8, &[(1, &[31, 32, u64::MAX])])],
        "M 21 08 00 00 04 00 00 00 07 C3 07 06 FF FF FF FF FF FF FF FF FF 0F 00 00",
    ),
    (
        &[(u32::MAX, &[])],
        "M FD FF FF FF 3F 08 00 00 01 00 00 00 00 00 00 00",
    ),
    (&[(8, &[(1, &[])])], "M 21 08 00 00 01 00 00 00 07 00 00 00"),
    (
        &[(0, &[(1, &[8])]), (8, &[(1, &[100])])],
        "M 01 08 00 00 01 00 00 00 07 01 02 00 H",
    ),
    (
        &[(
            8,
            &[(1, &[1, 2, 3, 4, 5, 6, 7]), (1, &[1, 2, 3, 4, 5, 6, 7])],
        )],
        "M 21 08 00 00 04 00 00 00 07 47 20 0C 44 61 1C 07 47 20 0C 44 61 1C 00 00",
    ),
];

/// Blocks, and the normal forms of documents of a block 8 with them.
static NESTS: [(Blocks, &str); 2] = [
    (
        &[(9, &[])],
        "M 21 08 00 00 04 00 00 00 25 08 00 00 01 00 00 00 00 00 00 00 00 00 00 00",
    ),
    (
        &[(0, &[(1, &[8])]), (8, &[(1, &[100])])],
        "M 21 08 00 00 07 00 00 00 01 08 00 00 01 00 00 00 07 01 02 00 H 00 00 00 00",
    ),
];

/// Checks the form of a document, its length, the limits, and sinks that take few bytes or fail.
fn is_form(rt: &impl Abort, alloc: Global, doc: &Document, text: &str) {
    let form = bytes_of(alloc, text).expect(rt, "memory");
    has_len(rt, doc, form.len() as u64);
    fits(rt, alloc, doc, &form);
    is_too_long(rt, alloc, doc, &form);
    is_written(rt, alloc, doc, &form);
    for most in [4, 5, 8] {
        keeps_front(rt, alloc, doc, &form, most);
    }
}

#[test]
fn documents(rt: HostRuntime) {
    for (rows, text) in &DOCUMENTS {
        let doc = document_of(&rt, MAGIC, blocks_of(&rt, rt.alloc(), rows));
        is_form(&rt, rt.alloc(), &doc, text);
    }
    for (rows, text) in &NESTS {
        let nest = nest_of(&rt, rt.alloc(), rows);
        let doc = document_of(&rt, MAGIC, one(&rt, rt.alloc(), nest));
        is_form(&rt, rt.alloc(), &doc, text);
    }
}

#[test]
fn another_magic_is_written(rt: HostRuntime) {
    let doc = document_of(&rt, [0xff, 0, 0x80, 1], Vec::new(rt.alloc()));
    is_form(&rt, rt.alloc(), &doc, "FF 00 80 01");
}

/// `8 { 1 [30] }`.
static THIRTY: Blocks = &[(8, &[(1, &[30])])];

#[test]
fn a_sink_gets_what_it_took(rt: HostRuntime) {
    let doc = document_of(&rt, MAGIC, blocks_of(&rt, rt.alloc(), THIRTY));
    let sink = Pieces::new(rt.alloc(), 5, 1);
    let (result, sink) = write_normal(&doc, sink, Limits::usual());
    let front: &[u8] = &[0x42, 0x43, 0xc0, 0xde, 0x21];
    assert!(rt; result == Err(Fault::Write) && sink.has(front, 1));
}

#[test]
fn worn_sinks_get_nothing(rt: HostRuntime) {
    let doc = document_of(&rt, MAGIC, Vec::new(rt.alloc()));
    let mut sink = Pieces::new(rt.alloc(), 8, u64::MAX);
    sink.failures = u64::MAX;
    let (result, sink) = write_normal(&doc, sink, Limits::usual());
    assert!(rt; result == Err(Fault::Write) && sink.has(&[], u64::MAX));
}

#[test]
fn what_stood_there_stays(rt: HostRuntime) {
    let doc = document_of(&rt, MAGIC, Vec::new(rt.alloc()));
    let mut sink = VecSink::new(rt.alloc());
    assert!(rt; sink.put(&[7, 7]) == Ok(2));
    let (result, sink) = write_normal(&doc, sink, within(&rt, 3));
    let wanted: &[u8] = &[7, 7];
    assert!(rt; result == Err(Fault::OutputTooLong) && sink.bytes() == wanted);
    let (result, sink) = write_normal(&doc, sink, within(&rt, 4));
    let wanted: &[u8] = &[7, 7, 0x42, 0x43, 0xc0, 0xde];
    assert!(rt; result == Ok(4) && sink.bytes() == wanted);
}
