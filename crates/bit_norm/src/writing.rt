ghost use Rattle.std.specs.Prelude.{◌≡◌, ◌<◌, ◌^◌, [], OnOk};
ghost use Rattle.bit_grammar.specs.Bits.{bits_of};
ghost use Rattle.bit_grammar.specs.Normal.{put, chain, head_text, end_text, values_bits, normal, normal_form};
ghost use Rattle.bit_fields.specs.Writer.{Writes};
ghost use Rattle.bit_fields.specs.Opening.{magic_number};
ghost use Rattle.bit_tree.specs.TreeView.{forest_of_blocks, tree_with};
ghost use Rattle.bit_norm.specs.Writing.{record_text, whole_block, HasRoom, WritesForm};

use crate::lengths::{body_words, form_len};
use bit_fields::{BitWriter, Fault, Limits, Sink};
use bit_tree::{Block, Document, Item, Items};

/// Writes the values of a record.
fn write_values<K: Sink>(writer: &mut BitWriter<K>, values: &[u64]) -> Result<(), Fault>
    requires { HasRoom writer.old (values_bits values.now) }
    ensures { Writes (values_bits values.now) writer.old result writer.new }
{
    for value in values {
        writer.vbr(6, *value)?;
    }
    Ok(())
}

/// Writes a record.
fn write_record<K: Sink>(writer: &mut BitWriter<K>, code: u64, values: &[u64]) -> Result<(), Fault>
    requires { HasRoom writer.old (record_text code values.now writer.old.position) }
    ensures { Writes (record_text code values.now writer.old.position) writer.old result
        writer.new }
{
    writer.fixed(2, 3)?;
    writer.vbr(6, code)?;
    writer.vbr(6, values.len() as u64)?;
    write_values(writer, values)
}

/// Writes what comes before the body of a block.
fn write_head<K: Sink>(writer: &mut BitWriter<K>, id: u32, words: u64) -> Result<(), Fault>
    requires room { HasRoom writer.old (chain (put (bits_of 2 1)) (head_text id words)
        writer.old.position) }
    requires words { words < 2 ^ 32 }
    ensures { Writes (chain (put (bits_of 2 1)) (head_text id words) writer.old.position) writer.old
        result writer.new }
{
    writer.fixed(2, 1)?;
    writer.vbr(8, u64::from(id))?;
    writer.vbr(4, 2)?;
    writer.pad()?;
    writer.fixed(32, words)
}

/// Writes the end of a block.
fn write_end<K: Sink>(writer: &mut BitWriter<K>) -> Result<(), Fault>
    requires { HasRoom writer.old (end_text writer.old.position) }
    ensures { Writes (end_text writer.old.position) writer.old result writer.new }
{
    writer.fixed(2, 0)?;
    writer.pad()
}

/// Writes a block. Its length is computed again here, so that no lengths are kept.
#[cycle(write)]
fn write_block<K: Sink>(writer: &mut BitWriter<K>, block: &Block) -> Result<(), Fault>
    requires { HasRoom writer.old (whole_block block.now.id block.now.items writer.old.position) }
    ensures { Writes (whole_block block.now.id block.now.items writer.old.position) writer.old
        result writer.new }
{
    write_head(writer, block.id, body_words(&block.items))?;
    write_items(writer, &block.items)?;
    write_end(writer)
}

/// Writes the items of a block.
#[cycle(write)]
fn write_items<K: Sink>(writer: &mut BitWriter<K>, items: &Items) -> Result<(), Fault>
    requires { HasRoom writer.old (normal items.now writer.old.position) }
    ensures { Writes (normal items.now writer.old.position) writer.old result writer.new }
{
    for item in &items.0 {
        match item {
            Item::Block(block) => write_block(writer, block)?,
            Item::Record(record) => write_record(writer, record.code, &record.values.0)?,
        }
    }
    Ok(())
}

/// Writes the blocks at the top.
fn write_blocks<K: Sink>(writer: &mut BitWriter<K>, blocks: &[Block]) -> Result<(), Fault>
    requires { HasRoom writer.old (normal (forest_of_blocks blocks.now) writer.old.position) }
    ensures { Writes (normal (forest_of_blocks blocks.now) writer.old.position) writer.old result
        writer.new }
{
    for block in blocks {
        write_block(writer, block)?;
    }
    Ok(())
}

/// The number that the bytes of a magic spell.
pub(crate) fn number_of_magic(magic: [u8; 4]) -> u64
    ensures magic { result ≡ magic_number magic }
    ensures fits { result < 2 ^ 32 }
{
    u64::from(u32::from_le_bytes(magic))
}

/// Writes a tree, and gives the sink all of it.
fn write_tree<K: Sink>(
    writer: &mut BitWriter<K>,
    magic: [u8; 4],
    blocks: &[Block],
) -> Result<(), Fault>
    requires room { HasRoom writer.old (normal_form (tree_with magic blocks.now)) }
    requires begins { writer.old.position ≡ 0 }
    ensures writes { Writes (normal_form (tree_with magic blocks.now)) writer.old result
        writer.new }
    ensures all { OnOk result (writer.new.held ≡ []) }
{
    writer.fixed(32, number_of_magic(magic))?;
    write_blocks(writer, blocks)?;
    writer.finish()
}

/// Gives a sink the normal form of a tree, and returns its length in bytes.
pub(crate) fn write_form<K: Sink>(
    magic: [u8; 4],
    blocks: &[Block],
    sink: K,
    limits: Limits,
) -> (Result<u64, Fault>, K)
    ensures { WritesForm (tree_with magic blocks.now) limits.bytes (K.outgoing sink) result.0
        (K.outgoing result.1) }
{
    match form_len(blocks, limits) {
        None => (Err(Fault::OutputTooLong), sink),
        Some(bytes) => {
            let mut writer = BitWriter::new(sink);
            match write_tree(&mut writer, magic, blocks) {
                Ok(()) => (Ok(bytes), writer.into_sink()),
                Err(fault) => (Err(fault), writer.into_sink()),
            }
        }
    }
}

/// Gives a sink the normal form of a document, and returns its length in bytes. It allocates nothing: the length of each block is
/// computed again when it is written. So the time grows with the number of items times their depth.
///
/// `OutputTooLong`, if the form is longer than the limit on bytes, gives the sink nothing; after `Write` it has a prefix of it.
pub fn write_normal<K: Sink>(doc: &Document, sink: K, limits: Limits) -> (Result<u64, Fault>, K)
    ensures { WritesForm doc.now limits.bytes (K.outgoing sink) result.0 (K.outgoing result.1) }
{
    write_form(doc.magic(), doc.blocks(), sink, limits)
}
