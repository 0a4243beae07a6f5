ghost use Rattle.std.specs.Prelude.{◌≡◌, [], OnOk, flat_map};
ghost use Rattle.bit_grammar.specs.Texts.{report_of};
ghost use Rattle.bit_fields.specs.Opening.{magic_number};
ghost use Rattle.bit_scan.specs.CodesView.{code_tally, code_tallies};
ghost use Rattle.bit_scan.specs.Printing.{Prints};
ghost use Rattle.bit_scan.specs.Rows.{block_tally, block_tallies};
ghost use Rattle.bit_scan.specs.Styles.{code_as, report_as, row_as, row_line_as, stream_as};
ghost use Rattle.bit_scan.specs.Written.{WritesText};

use crate::format::Format;
use crate::printer::Printer;
use crate::rows::{BlockRow, CodeRow, Codes};
use bit_fields::{Fault, Sink};
use indexmap::IndexMap;
use std::alloc::Global;
use std::hash::{BuildHasher, BuildHasherDefault, FoldHasher};
use std::marker::Model;

/// The totals of a stream: its magic, its bits, and a row for each block id, in order of first entry.
#[derive(Drop)]
pub struct Analysis<H: BuildHasher = BuildHasherDefault<FoldHasher>> {
    alloc: Global,
    magic: [u8; 4],
    bits: u64,
    rows: IndexMap<u32, BlockRow<H>, H>,
}

impl<H: BuildHasher> Model for Analysis<H> {
    ghost use Rattle.bit_grammar.specs.Tally.{Tally};

    ghost Value = { Tally };

    ghost use Rattle.bit_fields.specs.Opening.{magic_number};
    ghost use Rattle.bit_scan.specs.Rows.{block_tallies};

    ghost view = { λ analysis. record {
      magic = magic_number analysis.magic;
      bits = analysis.bits;
      rows = block_tallies analysis.rows.entries;
    } };
}

/// Writes the line of the stream.
fn write_stream<K: Sink>(
    printer: &mut Printer<K>,
    format: Format,
    magic: [u8; 4],
    bits: u64,
) -> Result<(), Fault>
    ensures { Prints (stream_as format (magic_number magic) bits) printer.old result printer.new }
{
    match format {
        Format::Text => printer.report_head(magic, bits),
        Format::JsonLines => printer.magic_line("stream", &[("bits", bits)], magic),
    }
}

/// Writes the line of a code in the blocks with an id.
fn write_code<K: Sink>(
    printer: &mut Printer<K>,
    format: Format,
    id: u32,
    code: u64,
    row: CodeRow,
) -> Result<(), Fault>
    ensures { Prints (code_as format id (code_tally (code, row))) printer.old result printer.new }
{
    match format {
        Format::Text => printer.code_row(code, row),
        Format::JsonLines => {
            let CodeRow { count, bits } = row;
            let fields = [
                ("block", id as u64),
                ("code", code),
                ("count", count),
                ("bits", bits),
            ];
            printer.object_line("record", &fields)
        }
    }
}

/// Writes the lines of codes in the blocks with an id.
fn write_codes<K: Sink, H: BuildHasher>(
    printer: &mut Printer<K>,
    format: Format,
    id: u32,
    codes: &Codes<H>,
) -> Result<(), Fault>
    ensures { Prints (flat_map (code_as format id) (code_tallies codes.now)) printer.old result
        printer.new }
{
    for (code, row) in codes.0.iter() {
        write_code(printer, format, id, *code, *row)?;
    }
    Ok(())
}

/// Writes the line of a block id, without those of its codes.
fn write_row_line<K: Sink, H: BuildHasher>(
    printer: &mut Printer<K>,
    format: Format,
    id: u32,
    row: &BlockRow<H>,
) -> Result<(), Fault>
    ensures { Prints (row_line_as format (id, row.now)) printer.old result printer.new }
{
    match format {
        Format::Text => printer.block_row(id, row),
        Format::JsonLines => {
            let fields = [
                ("id", id as u64),
                ("count", row.blocks),
                ("bits", row.bits),
                ("definitions", row.definitions),
                ("records", row.records),
                ("abbreviated", row.abbreviated),
                ("values", row.values),
            ];
            printer.object_line("block", &fields)
        }
    }
}

/// Writes the line of a block id and those of its codes.
fn write_row<K: Sink, H: BuildHasher>(
    printer: &mut Printer<K>,
    format: Format,
    id: u32,
    row: &BlockRow<H>,
) -> Result<(), Fault>
    ensures { Prints (row_as format (block_tally (id, row.now))) printer.old result printer.new }
{
    write_row_line(printer, format, id, row)?;
    write_codes(printer, format, id, &row.codes)
}

/// Writes the lines of all rows.
fn write_rows<K: Sink, H: BuildHasher>(
    printer: &mut Printer<K>,
    format: Format,
    rows: &IndexMap<u32, BlockRow<H>, H>,
) -> Result<(), Fault>
    ensures { Prints (flat_map (row_as format) (block_tallies rows.now.entries)) printer.old result
        printer.new }
{
    for (id, row) in rows.iter() {
        write_row(printer, format, *id, row)?;
    }
    Ok(())
}

impl<H: BuildHasher> Analysis<H> {
    /// An analysis of these parts.
    pub(crate) fn of(
        alloc: Global,
        magic: [u8; 4],
        bits: u64,
        rows: IndexMap<u32, BlockRow<H>, H>,
    ) -> Analysis<H>
        ensures { result ≡ record {
          magic = magic_number magic;
          bits = bits;
          rows = block_tallies rows.entries;
        } }
    {
        Analysis {
            alloc,
            magic,
            bits,
            rows,
        }
    }

    /// The magic of the stream, its first byte first.
    pub fn magic(&self) -> [u8; 4]
        ensures { magic_number result ≡ self.now.magic }
    {
        self.magic
    }

    /// The bits of the stream, from its magic to its end, without a wrapper.
    pub fn bits(&self) -> u64
        ensures { result ≡ self.now.bits }
    {
        self.bits
    }

    /// Each block id and its row, in order of first entry.
    pub fn rows(&self) -> &IndexMap<u32, BlockRow<H>, H>
        ensures { block_tallies result.now.entries ≡ self.now.rows }
    {
        &self.rows
    }

    /// Writes the report through a printer.
    #[tactic(auto, using(crate::proofs::Reports::no_head, crate::proofs::Reports::no_rows, crate::proofs::Reports::report_ends))]
    fn write_report<K: Sink>(&self, printer: &mut Printer<K>, format: Format) -> Result<(), Fault>
        ensures prints { Prints (report_as format self.now) printer.old result printer.new }
        ensures all { OnOk result (printer.new.held ≡ []) }
    {
        write_stream(printer, format, self.magic, self.bits)?;
        write_rows(printer, format, &self.rows)?;
        printer.finish()
    }

    /// Appends the report to a sink: a line for the stream, then one for each row and each of its codes.
    ///
    /// `Write` if the sink fails, and `Memory` if the buffer cannot grow, leave the sink a prefix of the report.
    #[tactic(auto, using(crate::proofs::Prints::sink_back))]
    pub fn write_as<K: Sink>(&self, sink: K, format: Format) -> (Result<(), Fault>, K)
        ensures { WritesText (report_as format self.now) (K.outgoing sink) result.0
            (K.outgoing result.1) }
    {
        let mut printer = Printer::new(self.alloc, sink);
        let answer = self.write_report(&mut printer, format);
        (answer, printer.into_sink())
    }

    /// The same with the report as text.
    pub fn write<K: Sink>(&self, sink: K) -> (Result<(), Fault>, K)
        ensures { WritesText (report_of self.now) (K.outgoing sink) result.0 (K.outgoing result.1) }
    {
        self.write_as(sink, Format::Text)
    }
}
