ghost use Rattle.std.specs.Prelude.{◌≡◌, ℕ, ◌<◌, ◌++◌, [], ◌∷◌, OnOk, codes, decimal, flat_map, string_bytes};
ghost use Rattle.bit_grammar.specs.EventTexts.{line_at, op_text};
ghost use Rattle.bit_grammar.specs.Texts.{hex_text, magic_bytes, magic_text};
ghost use Rattle.bit_fields.specs.Opening.{magic_number};
ghost use Rattle.bit_scan.specs.Lines.{report_head, listing_head, block_row_text, block_start, block_middle, block_end, code_row_text};

use crate::rows::{BlockRow, CodeRow};
use bit_grammar::Op;
use itoa::Buffer;
use std::alloc::AllocError;
use std::hash::BuildHasher;

/// Appends two digits.
fn push_byte(text: &mut String, byte: u8) -> Result<(), AllocError>
    ensures { OnOk result (string_bytes text.new ≡ string_bytes text.old ++ hex_text byte) }
{
    write!(text, "{byte:02x}")
}

/// Appends two digits for each byte.
fn push_bytes(text: &mut String, bytes: &[u8]) -> Result<(), AllocError>
    ensures { OnOk result (string_bytes text.new
        ≡ string_bytes text.old ++ flat_map hex_text bytes.now) }
{
    for byte in bytes {
        push_byte(text, *byte)?;
    }
    Ok(())
}

/// Appends the eight hexadecimal digits of a magic, its first byte first.
pub(crate) fn push_magic_digits(text: &mut String, magic: [u8; 4]) -> Result<(), AllocError>
    ensures { OnOk result (string_bytes text.new
        ≡ string_bytes text.old ++ flat_map hex_text (magic_bytes (magic_number magic))) }
{
    push_bytes(text, &magic)
}

/// Appends the word magic and the eight hexadecimal digits of a magic, its first byte first. If an allocation fails, the text may
/// contain a part of it.
pub fn push_magic(text: &mut String, magic: [u8; 4]) -> Result<(), AllocError>
    ensures { OnOk result (string_bytes text.new
        ≡ string_bytes text.old ++ magic_text (magic_number magic)) }
{
    text.push_str("magic ")?;
    push_magic_digits(text, magic)
}

/// Appends the first line of a report.
pub(crate) fn push_report_head(
    text: &mut String,
    magic: [u8; 4],
    bits: u64,
) -> Result<(), AllocError>
    ensures { OnOk result (string_bytes text.new
        ≡ string_bytes text.old ++ report_head (magic_number magic) bits) }
{
    push_magic(text, magic)?;
    writeln!(text, " bits {bits}")
}

/// Appends the first line of a listing.
pub(crate) fn push_listing_head(text: &mut String, magic: [u8; 4]) -> Result<(), AllocError>
    ensures { OnOk result (string_bytes text.new
        ≡ string_bytes text.old ++ listing_head (magic_number magic)) }
{
    push_magic(text, magic)?;
    text.push_str("\n")
}

/// Appends the first part of the line of a block id in a report.
fn push_block_start<H: BuildHasher>(
    text: &mut String,
    id: u32,
    row: &BlockRow<H>,
) -> Result<(), AllocError>
    ensures { OnOk result (string_bytes text.new
        ≡ string_bytes text.old ++ block_start (id, row.now)) }
{
    let (blocks, bits) = (row.blocks, row.bits);
    write!(text, "block {id} count {blocks} bits {bits}")
}

/// Appends the second part.
fn push_block_middle<H: BuildHasher>(text: &mut String, row: &BlockRow<H>) -> Result<(), AllocError>
    ensures { (id : ℕ) → OnOk result (string_bytes text.new
        ≡ string_bytes text.old ++ block_middle (id, row.now)) }
{
    let (definitions, records) = (row.definitions, row.records);
    write!(text, " definitions {definitions} records {records}")
}

/// Appends the last part.
fn push_block_end<H: BuildHasher>(text: &mut String, row: &BlockRow<H>) -> Result<(), AllocError>
    ensures { (id : ℕ) → OnOk result (string_bytes text.new
        ≡ string_bytes text.old ++ block_end (id, row.now)) }
{
    let (abbreviated, values) = (row.abbreviated, row.values);
    writeln!(text, " abbreviated {abbreviated} values {values}")
}

/// Appends the line of a block id in a report, without those of its codes.
pub(crate) fn push_block_row<H: BuildHasher>(
    text: &mut String,
    id: u32,
    row: &BlockRow<H>,
) -> Result<(), AllocError>
    ensures { OnOk result (string_bytes text.new
        ≡ string_bytes text.old ++ block_row_text (id, row.now)) }
{
    push_block_start(text, id, row)?;
    push_block_middle(text, row)?;
    push_block_end(text, row)
}

/// Appends the line of a code in a report.
pub(crate) fn push_code_row(text: &mut String, code: u64, row: CodeRow) -> Result<(), AllocError>
    ensures { OnOk result (string_bytes text.new
        ≡ string_bytes text.old ++ code_row_text (code, row)) }
{
    let CodeRow { count, bits } = row;
    writeln!(text, "  record {code} count {count} bits {bits}")
}

/// Appends a digit.
#[inline(always)]
fn push_digit(text: &mut String, digit: u64) -> Result<(), AllocError>
    requires { digit < 10 }
    ensures { OnOk result (string_bytes text.new ≡ string_bytes text.old ++ decimal digit) }
{
    text.push(char::from(b'0' + digit as u8))
}

/// Appends a number of one or two digits.
#[inline(always)]
#[tactic(auto, using(crate::proofs::Appending::digit_behind))]
fn push_tens(text: &mut String, number: u64) -> Result<(), AllocError>
    requires { number < 100 }
    ensures { OnOk result (string_bytes text.new ≡ string_bytes text.old ++ decimal number) }
{
    if number < 10 {
        return push_digit(text, number);
    }
    push_digit(text, number / 10)?;
    push_digit(text, number % 10)
}

/// Appends a number of up to three digits.
#[inline(always)]
#[tactic(auto, using(crate::proofs::Appending::digit_behind))]
fn push_hundreds(text: &mut String, number: u64) -> Result<(), AllocError>
    requires { number < 1000 }
    ensures { OnOk result (string_bytes text.new ≡ string_bytes text.old ++ decimal number) }
{
    if number < 100 {
        return push_tens(text, number);
    }
    push_tens(text, number / 10)?;
    push_digit(text, number % 10)
}

/// Appends the digits of a number, through a buffer.
#[inline(never)]
fn push_formatted(text: &mut String, number: u64) -> Result<(), AllocError>
    ensures { OnOk result (string_bytes text.new ≡ string_bytes text.old ++ decimal number) }
{
    let mut buffer = Buffer::new();
    text.push_str(buffer.format(number))
}

/// Appends the digits of a number. Most numbers in a stream have few digits.
#[inline(always)]
pub(crate) fn push_number(text: &mut String, number: u64) -> Result<(), AllocError>
    ensures { OnOk result (string_bytes text.new ≡ string_bytes text.old ++ decimal number) }
{
    if number < 1000 {
        return push_hundreds(text, number);
    }
    push_formatted(text, number)
}

/// Appends a bit and a space.
fn push_bit(text: &mut String, bit: u64) -> Result<(), AllocError>
    ensures { OnOk result (string_bytes text.new
        ≡ string_bytes text.old ++ (decimal bit ++ (32 ∷ []))) }
{
    push_number(text, bit)?;
    text.push(' ')
}

/// Appends the line of a magic among events.
pub(crate) fn push_head_line(
    text: &mut String,
    begin: u64,
    magic: [u8; 4],
) -> Result<(), AllocError>
    ensures { OnOk result (string_bytes text.new
        ≡ string_bytes text.old ++ line_at begin 0 (magic_text (magic_number magic))) }
{
    push_bit(text, begin)?;
    push_listing_head(text, magic)
}

/// Appends an operand.
pub(crate) fn push_operand(text: &mut String, op: Op) -> Result<(), AllocError>
    ensures { OnOk result (string_bytes text.new ≡ string_bytes text.old ++ op_text op) }
{
    match op {
        Op::Literal(value) => write!(text, "literal {value}"),
        Op::Fixed(width) => write!(text, "fixed {width}"),
        Op::Vbr(width) => write!(text, "vbr {width}"),
        Op::Array => text.push_str("array"),
        Op::Char6 => text.push_str("char6"),
        Op::Blob => text.push_str("blob"),
    }
}

/// Appends an operand that follows another one.
pub(crate) fn push_further_operand(text: &mut String, op: Op) -> Result<(), AllocError>
    ensures { OnOk result (string_bytes text.new
        ≡ string_bytes text.old ++ (codes ", " ++ op_text op)) }
{
    text.push_str(", ")?;
    push_operand(text, op)
}
