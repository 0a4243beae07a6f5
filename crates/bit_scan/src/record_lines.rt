//! The lines of blocks, definitions and records, written forwards into bytes. Each call returns the place after its text.

ghost use Rattle.std.specs.Prelude.{◌≡◌, ◌+◌, ◌*◌, ◌≤◌, [], ◌∷◌, ◌++◌, codes, decimal, flat_map, length, take};
ghost use Rattle.bit_grammar.specs.EventTexts.{line_at, opened_text};
ghost use Rattle.bit_grammar.specs.Texts.{block_line, values_text, record_line};
ghost use Rattle.bit_scan.specs.Json.{comma, item_json, joined, joined_from, list_front, list_line, noted_fields, number_json, object_front, object_line, opened_fields, place_fields};
ghost use Rattle.bit_scan.specs.Lines.{definition_head, line_front, noted_head, record_line_front};

use crate::digits::{put_byte, put_digits, put_spaces, put_text};
use crate::json::FIRST_QUOTED;

/// The first bit of a record, its code, its abbreviation id, and how many values it has.
#[derive(Clone, Copy)]
pub(crate) struct Noted {
    pub(crate) first: u64,
    pub(crate) code: u64,
    pub(crate) abbreviation: u32,
    pub(crate) count: u64,
}

/// A block's id, the width of the ids in it, its first bit, and that of its body.
#[derive(Clone, Copy)]
pub(crate) struct Opened {
    pub(crate) id: u32,
    pub(crate) width: u8,
    pub(crate) first: u64,
    pub(crate) body: u64,
}

/// A value after a space.
#[inline(always)]
pub(crate) fn put_value(value: u64, bytes: &mut [u8], at: usize) -> usize
    requires { at + 21 ≤ length bytes.old }
    ensures end { (at ≤ result) × (result ≤ at + 21) }
    ensures long { length bytes.new ≡ length bytes.old }
    ensures wrote { take result bytes.new ≡ take at bytes.old ++ (32 ∷ decimal value) }
{
    let start = put_byte(b' ', bytes, at);
    put_digits(value, bytes, start)
}

/// Values, a space before each.
#[inline(always)]
pub(crate) fn put_values(values: &[u64], bytes: &mut [u8], at: usize) -> usize
    requires { at + 21 * length values.now ≤ length bytes.old }
    ensures end { (at ≤ result) × (result ≤ at + 21 * length values.now) }
    ensures long { length bytes.new ≡ length bytes.old }
    ensures wrote { take result bytes.new ≡ take at bytes.old ++ values_text values.now }
{
    let mut end = at;
    for value in values {
        end = put_value(*value, bytes, end);
    }
    end
}

/// Bytes as values, a space before each.
#[inline(always)]
pub(crate) fn put_byte_values(values: &[u8], bytes: &mut [u8], at: usize) -> usize
    requires { at + 21 * length values.now ≤ length bytes.old }
    ensures end { (at ≤ result) × (result ≤ at + 21 * length values.now) }
    ensures long { length bytes.new ≡ length bytes.old }
    ensures wrote { take result bytes.new ≡ take at bytes.old ++ values_text values.now }
{
    let mut end = at;
    for value in values {
        end = put_value(*value as u64, bytes, end);
    }
    end
}

/// A text and a number.
#[inline(always)]
fn put_counted<const N: usize>(text: [u8; N], number: u64, bytes: &mut [u8], at: usize) -> usize
    requires { at + length text + 20 ≤ length bytes.old }
    ensures end { (at ≤ result) × (result ≤ at + length text.entry + 20) }
    ensures long { length bytes.new ≡ length bytes.old }
    ensures wrote { take result bytes.new ≡ take at bytes.old ++ (text.entry ++ decimal number) }
{
    let start = put_text(text, bytes, at);
    put_digits(number, bytes, start)
}

/// The line of a record in a listing up to its values.
#[inline(always)]
pub(crate) fn put_record_head(around: u32, code: u64, bytes: &mut [u8], at: usize) -> usize
    requires { at + 2 * around + 128 ≤ length bytes.old }
    ensures end { (at ≤ result) × (result ≤ at + 2 * around + 128) }
    ensures long { length bytes.new ≡ length bytes.old }
    ensures wrote { take result bytes.new ≡ take at bytes.old ++ record_line_front around code }
{
    let start = put_spaces(2 * around as usize, bytes, at);
    put_counted(*b"record ", code, bytes, start)
}

/// The line of a record in a listing.
#[inline(always)]
pub(crate) fn put_record(
    around: u32,
    code: u64,
    values: &[u64],
    bytes: &mut [u8],
    at: usize,
) -> usize
    requires { (length values.now ≤ 64) × (at + 2 * around + 1792 ≤ length bytes.old) }
    ensures end { (at ≤ result) × (result ≤ at + 2 * around + 1792) }
    ensures long { length bytes.new ≡ length bytes.old }
    ensures wrote { take result bytes.new ≡ take at bytes.old ++ record_line around code values.now }
{
    let front = put_record_head(around, code, bytes, at);
    let end = put_values(values, bytes, front);
    put_byte(b'\n', bytes, end)
}

/// A bit, a space, and two spaces for each block around.
#[inline(always)]
fn put_place(around: u32, bit: u64, bytes: &mut [u8], at: usize) -> usize
    requires { at + 2 * around + 37 ≤ length bytes.old }
    ensures end { (at ≤ result) × (result ≤ at + 2 * around + 21) }
    ensures long { length bytes.new ≡ length bytes.old }
    ensures wrote { take result bytes.new ≡ take at bytes.old ++ line_front bit around }
{
    let place = put_digits(bit, bytes, at);
    let space = put_byte(b' ', bytes, place);
    put_spaces(2 * around as usize, bytes, space)
}

/// The line of a record among events up to its values.
#[inline(always)]
pub(crate) fn put_noted_head(around: u32, noted: Noted, bytes: &mut [u8], at: usize) -> usize
    requires { at + 2 * around + 128 ≤ length bytes.old }
    ensures end { (at ≤ result) × (result ≤ at + 2 * around + 128) }
    ensures long { length bytes.new ≡ length bytes.old }
    ensures wrote { take result bytes.new ≡ take at bytes.old
        ++ noted_head around noted.first noted.code noted.abbreviation noted.count }
{
    let start = put_place(around, noted.first, bytes, at);
    let code = put_counted(*b"record ", noted.code, bytes, start);
    let by = put_counted(*b" by ", noted.abbreviation as u64, bytes, code);
    put_counted(*b" count ", noted.count, bytes, by)
}

/// The line of a record among events, with these values.
#[inline(always)]
pub(crate) fn put_noted(
    around: u32,
    noted: Noted,
    values: &[u64],
    bytes: &mut [u8],
    at: usize,
) -> usize
    requires { (length values.now ≤ 64) × (at + 2 * around + 1792 ≤ length bytes.old) }
    ensures end { (at ≤ result) × (result ≤ at + 2 * around + 1792) }
    ensures long { length bytes.new ≡ length bytes.old }
    ensures wrote { take result bytes.new ≡ take at bytes.old
        ++ (noted_head around noted.first noted.code noted.abbreviation noted.count
        ++ (values_text values.now ++ (10 ∷ []))) }
{
    let front = put_noted_head(around, noted, bytes, at);
    let end = put_values(values, bytes, front);
    put_byte(b'\n', bytes, end)
}

/// A number in quotes.
#[cold]
#[inline(never)]
fn put_quoted(number: u64, bytes: &mut [u8], at: usize) -> usize
    requires { at + 22 ≤ length bytes.old }
    ensures end { (at ≤ result) × (result ≤ at + 22) }
    ensures long { length bytes.new ≡ length bytes.old }
    ensures wrote { take result bytes.new ≡ take at bytes.old
        ++ (codes "\"" ++ decimal number ++ codes "\"") }
{
    let start = put_byte(b'"', bytes, at);
    let end = put_digits(number, bytes, start);
    put_byte(b'"', bytes, end)
}

/// A JSON number of any length.
#[inline(never)]
fn put_json_large(number: u64, bytes: &mut [u8], at: usize) -> usize
    requires { at + 22 ≤ length bytes.old }
    ensures end { (at ≤ result) × (result ≤ at + 22) }
    ensures long { length bytes.new ≡ length bytes.old }
    ensures wrote { take result bytes.new ≡ take at bytes.old ++ number_json number }
{
    if number >= FIRST_QUOTED {
        return put_quoted(number, bytes, at);
    }
    put_digits(number, bytes, at)
}

/// A JSON number.
#[inline(always)]
#[tactic(auto, using(crate::proofs::Forwards::short_json))]
pub(crate) fn put_json_number(number: u64, bytes: &mut [u8], at: usize) -> usize
    requires { at + 22 ≤ length bytes.old }
    ensures end { (at ≤ result) × (result ≤ at + 22) }
    ensures long { length bytes.new ≡ length bytes.old }
    ensures wrote { take result bytes.new ≡ take at bytes.old ++ number_json number }
{
    if number >= 1000 {
        return put_json_large(number, bytes, at);
    }
    put_digits(number, bytes, at)
}

/// A JSON number after a comma.
#[inline(always)]
fn put_item(number: u64, bytes: &mut [u8], at: usize) -> usize
    requires { at + 23 ≤ length bytes.old }
    ensures end { (at ≤ result) × (result ≤ at + 23) }
    ensures long { length bytes.new ≡ length bytes.old }
    ensures wrote { take result bytes.new ≡ take at bytes.old ++ item_json number }
{
    let start = put_byte(b',', bytes, at);
    put_json_number(number, bytes, start)
}

/// The text before the item at a place of a list.
#[inline(always)]
fn put_comma(place: u64, bytes: &mut [u8], at: usize) -> usize
    requires { at + 1 ≤ length bytes.old }
    ensures end { (at ≤ result) × (result ≤ at + 1) }
    ensures long { length bytes.new ≡ length bytes.old }
    ensures wrote { take result bytes.new ≡ take at bytes.old ++ comma place }
{
    if place > 0 {
        return put_text(*b",", bytes, at);
    }
    at
}

/// The JSON number at a place of a list.
#[inline(always)]
pub(crate) fn put_number_item(place: u64, number: u64, bytes: &mut [u8], at: usize) -> usize
    requires { at + 23 ≤ length bytes.old }
    ensures end { (at ≤ result) × (result ≤ at + 23) }
    ensures long { length bytes.new ≡ length bytes.old }
    ensures wrote { take result bytes.new
        ≡ take at bytes.old ++ (comma place ++ number_json number) }
{
    let start = put_comma(place, bytes, at);
    put_json_number(number, bytes, start)
}

/// JSON numbers, a comma before each.
#[inline(always)]
pub(crate) fn put_items(numbers: &[u64], bytes: &mut [u8], at: usize) -> usize
    requires { at + 23 * length numbers.now ≤ length bytes.old }
    ensures end { (at ≤ result) × (result ≤ at + 23 * length numbers.now) }
    ensures long { length bytes.new ≡ length bytes.old }
    ensures wrote { take result bytes.new ≡ take at bytes.old ++ flat_map item_json numbers.now }
{
    let mut end = at;
    for number in numbers {
        end = put_item(*number, bytes, end);
    }
    end
}

/// The numbers of a JSON list.
#[inline(always)]
pub(crate) fn put_list(numbers: &[u64], bytes: &mut [u8], at: usize) -> usize
    requires { at + 23 * length numbers.now ≤ length bytes.old }
    ensures end { (at ≤ result) × (result ≤ at + 23 * length numbers.now) }
    ensures long { length bytes.new ≡ length bytes.old }
    ensures wrote { take result bytes.new ≡ take at bytes.old ++ joined number_json numbers.now }
{
    match numbers.split_first() {
        Some((first, others)) => {
            let end = put_json_number(*first, bytes, at);
            put_items(others, bytes, end)
        }
        None => at,
    }
}

/// Numbers of a JSON list, the first of them at a place.
#[inline(always)]
#[tactic(auto, using(crate::proofs::Batches::joined_at))]
pub(crate) fn put_joined(place: u64, numbers: &[u64], bytes: &mut [u8], at: usize) -> usize
    requires { at + 23 * length numbers.now ≤ length bytes.old }
    ensures end { (at ≤ result) × (result ≤ at + 23 * length numbers.now) }
    ensures long { length bytes.new ≡ length bytes.old }
    ensures wrote { take result bytes.new
        ≡ take at bytes.old ++ joined_from number_json place numbers.now }
{
    if place > 0 {
        return put_items(numbers, bytes, at);
    }
    put_list(numbers, bytes, at)
}

/// Bytes as JSON numbers, a comma before each.
#[inline(always)]
fn put_byte_items(values: &[u8], bytes: &mut [u8], at: usize) -> usize
    requires { at + 23 * length values.now ≤ length bytes.old }
    ensures end { (at ≤ result) × (result ≤ at + 23 * length values.now) }
    ensures long { length bytes.new ≡ length bytes.old }
    ensures wrote { take result bytes.new ≡ take at bytes.old ++ flat_map item_json values.now }
{
    let mut end = at;
    for value in values {
        end = put_item(*value as u64, bytes, end);
    }
    end
}

/// Bytes as the numbers of a JSON list.
#[inline(always)]
fn put_byte_list(values: &[u8], bytes: &mut [u8], at: usize) -> usize
    requires { at + 23 * length values.now ≤ length bytes.old }
    ensures end { (at ≤ result) × (result ≤ at + 23 * length values.now) }
    ensures long { length bytes.new ≡ length bytes.old }
    ensures wrote { take result bytes.new ≡ take at bytes.old ++ joined number_json values.now }
{
    match values.split_first() {
        Some((first, others)) => {
            let end = put_json_number(*first as u64, bytes, at);
            put_byte_items(others, bytes, end)
        }
        None => at,
    }
}

/// Bytes as numbers of a JSON list, the first of them at a place.
#[inline(always)]
#[tactic(auto, using(crate::proofs::Batches::joined_at))]
pub(crate) fn put_joined_bytes(place: u64, values: &[u8], bytes: &mut [u8], at: usize) -> usize
    requires { at + 23 * length values.now ≤ length bytes.old }
    ensures end { (at ≤ result) × (result ≤ at + 23 * length values.now) }
    ensures long { length bytes.new ≡ length bytes.old }
    ensures wrote { take result bytes.new
        ≡ take at bytes.old ++ joined_from number_json place values.now }
{
    if place > 0 {
        return put_byte_items(values, bytes, at);
    }
    put_byte_list(values, bytes, at)
}

/// A text and a JSON number.
#[inline(always)]
fn put_after<const N: usize>(text: [u8; N], number: u64, bytes: &mut [u8], at: usize) -> usize
    requires { at + length text + 22 ≤ length bytes.old }
    ensures end { (at ≤ result) × (result ≤ at + length text.entry + 22) }
    ensures long { length bytes.new ≡ length bytes.old }
    ensures wrote { take result bytes.new ≡ take at bytes.old ++ (text.entry ++ number_json number) }
{
    let start = put_text(text, bytes, at);
    put_json_number(number, bytes, start)
}

/// The object of a record as JSON, without its values and its end.
#[inline(always)]
fn put_front(around: u32, noted: Noted, bytes: &mut [u8], at: usize) -> usize
    requires { at + 256 ≤ length bytes.old }
    ensures end { (at ≤ result) × (result ≤ at + 256) }
    ensures long { length bytes.new ≡ length bytes.old }
    ensures wrote { take result bytes.new ≡ take at bytes.old ++ object_front (codes "record")
        (noted_fields around noted.first noted.code noted.abbreviation noted.count) }
{
    let first = put_after(*b"{\"kind\":\"record\",\"bit\":", noted.first, bytes, at);
    let depth = put_after(*b",\"depth\":", around as u64, bytes, first);
    let code = put_after(*b",\"code\":", noted.code, bytes, depth);
    let by = put_after(
        *b",\"abbreviation\":",
        noted.abbreviation as u64,
        bytes,
        code,
    );
    put_after(*b",\"count\":", noted.count, bytes, by)
}

/// The line of a record as JSON up to its values.
#[inline(always)]
pub(crate) fn put_json_head(around: u32, noted: Noted, bytes: &mut [u8], at: usize) -> usize
    requires { at + 270 ≤ length bytes.old }
    ensures end { (at ≤ result) × (result ≤ at + 270) }
    ensures long { length bytes.new ≡ length bytes.old }
    ensures wrote { take result bytes.new ≡ take at bytes.old ++ list_front (codes "record")
        (noted_fields around noted.first noted.code noted.abbreviation noted.count)
        (codes "values") }
{
    let front = put_front(around, noted, bytes, at);
    put_text(*b",\"values\":[", bytes, front)
}

/// The line of a record as JSON with these values.
#[inline(always)]
pub(crate) fn put_json_record(
    around: u32,
    noted: Noted,
    values: &[u64],
    bytes: &mut [u8],
    at: usize,
) -> usize
    requires { (length values.now ≤ 64) × (at + 1792 ≤ length bytes.old) }
    ensures end { (at ≤ result) × (result ≤ at + 1792) }
    ensures long { length bytes.new ≡ length bytes.old }
    ensures wrote { take result bytes.new ≡ take at bytes.old ++ list_line (codes "record")
        (noted_fields around noted.first noted.code noted.abbreviation noted.count)
        (codes "values") (joined number_json values.now) }
{
    let list = put_json_head(around, noted, bytes, at);
    let end = put_list(values, bytes, list);
    put_text(*b"]}\n", bytes, end)
}

/// The line of a record as JSON without its values.
pub(crate) fn put_json_noted(around: u32, noted: Noted, bytes: &mut [u8], at: usize) -> usize
    requires { at + 270 ≤ length bytes.old }
    ensures end { (at ≤ result) × (result ≤ at + 270) }
    ensures long { length bytes.new ≡ length bytes.old }
    ensures wrote { take result bytes.new ≡ take at bytes.old ++ object_line (codes "record")
        (noted_fields around noted.first noted.code noted.abbreviation noted.count) }
{
    let front = put_front(around, noted, bytes, at);
    put_text(*b"}\n", bytes, front)
}

/// The line of a block in a listing.
pub(crate) fn put_block_line(around: u32, id: u32, bytes: &mut [u8], at: usize) -> usize
    requires { at + 2 * around + 128 ≤ length bytes.old }
    ensures end { (at ≤ result) × (result ≤ at + 2 * around + 128) }
    ensures long { length bytes.new ≡ length bytes.old }
    ensures wrote { take result bytes.new ≡ take at bytes.old ++ block_line around id }
{
    let start = put_spaces(2 * around as usize, bytes, at);
    let end = put_counted(*b"block ", id as u64, bytes, start);
    put_byte(b'\n', bytes, end)
}

/// The line of a block's beginning among events.
pub(crate) fn put_opened_line(around: u32, opened: Opened, bytes: &mut [u8], at: usize) -> usize
    requires { at + 2 * around + 128 ≤ length bytes.old }
    ensures end { (at ≤ result) × (result ≤ at + 2 * around + 128) }
    ensures long { length bytes.new ≡ length bytes.old }
    ensures wrote { take result bytes.new ≡ take at bytes.old
        ++ line_at opened.first around (opened_text opened.id opened.width opened.body) }
{
    let start = put_place(around, opened.first, bytes, at);
    let id = put_counted(*b"block ", opened.id as u64, bytes, start);
    let width = put_counted(*b" width ", opened.width as u64, bytes, id);
    let end = put_counted(*b" body ", opened.body, bytes, width);
    put_byte(b'\n', bytes, end)
}

/// The line of a definition among events up to its operands.
pub(crate) fn put_definition_head(around: u32, first: u64, bytes: &mut [u8], at: usize) -> usize
    requires { at + 2 * around + 128 ≤ length bytes.old }
    ensures end { (at ≤ result) × (result ≤ at + 2 * around + 128) }
    ensures long { length bytes.new ≡ length bytes.old }
    ensures wrote { take result bytes.new ≡ take at bytes.old ++ definition_head around first }
{
    let start = put_place(around, first, bytes, at);
    put_text(*b"define ", bytes, start)
}

/// The line of a block's end among events, with `around` blocks around it.
pub(crate) fn put_end_line(around: u32, after: u64, bytes: &mut [u8], at: usize) -> usize
    requires { at + 2 * around + 128 ≤ length bytes.old }
    ensures end { (at ≤ result) × (result ≤ at + 2 * around + 128) }
    ensures long { length bytes.new ≡ length bytes.old }
    ensures wrote { take result bytes.new ≡ take at bytes.old ++ line_at after around (codes "end") }
{
    let start = put_place(around, after, bytes, at);
    put_text(*b"end\n", bytes, start)
}

/// The line of a block's beginning as JSON.
pub(crate) fn put_opened_object(around: u32, opened: Opened, bytes: &mut [u8], at: usize) -> usize
    requires { at + 270 ≤ length bytes.old }
    ensures end { (at ≤ result) × (result ≤ at + 270) }
    ensures long { length bytes.new ≡ length bytes.old }
    ensures wrote { take result bytes.new ≡ take at bytes.old ++ object_line (codes "block")
        (opened_fields around opened.id opened.width opened.first opened.body) }
{
    let first = put_after(*b"{\"kind\":\"block\",\"bit\":", opened.first, bytes, at);
    let depth = put_after(*b",\"depth\":", around as u64, bytes, first);
    let id = put_after(*b",\"id\":", opened.id as u64, bytes, depth);
    let width = put_after(*b",\"width\":", opened.width as u64, bytes, id);
    let body = put_after(*b",\"body\":", opened.body, bytes, width);
    put_text(*b"}\n", bytes, body)
}

/// The line of a definition as JSON up to its operands.
pub(crate) fn put_definition_list(around: u32, first: u64, bytes: &mut [u8], at: usize) -> usize
    requires { at + 270 ≤ length bytes.old }
    ensures end { (at ≤ result) × (result ≤ at + 270) }
    ensures long { length bytes.new ≡ length bytes.old }
    ensures wrote { take result bytes.new ≡ take at bytes.old ++ list_front (codes "define")
        (place_fields around first) (codes "operands") }
{
    let bit = put_after(*b"{\"kind\":\"define\",\"bit\":", first, bytes, at);
    let depth = put_after(*b",\"depth\":", around as u64, bytes, bit);
    put_text(*b",\"operands\":[", bytes, depth)
}

/// The line of a block's end as JSON, with `around` blocks around it.
pub(crate) fn put_end_object(around: u32, after: u64, bytes: &mut [u8], at: usize) -> usize
    requires { at + 270 ≤ length bytes.old }
    ensures end { (at ≤ result) × (result ≤ at + 270) }
    ensures long { length bytes.new ≡ length bytes.old }
    ensures wrote { take result bytes.new ≡ take at bytes.old ++ object_line (codes "end")
        (place_fields around after) }
{
    let bit = put_after(*b"{\"kind\":\"end\",\"bit\":", after, bytes, at);
    let depth = put_after(*b",\"depth\":", around as u64, bytes, bit);
    put_text(*b"}\n", bytes, depth)
}
