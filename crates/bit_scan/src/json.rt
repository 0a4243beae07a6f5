//! Lines of JSON: an object with a kind, numbers by their keys, and at most one list or text. Kinds and keys are letters and digits
//! alone, so that they need no escapes.

ghost use Rattle.std.specs.Prelude.{◌≡◌, ◌++◌, OnOk, codes, decimal, flat_map, string_bytes};
ghost use Rattle.bit_grammar.specs.Texts.{hex_text, magic_bytes};
ghost use Rattle.bit_grammar.specs.Reasons.{name_of};
ghost use Rattle.bit_fields.specs.Opening.{magic_number};
ghost use Rattle.bit_scan.specs.ObjectLines.{IsPlain};
ghost use Rattle.bit_scan.specs.Json.{ArePlain, number_json, field_json, fields_told, noted_fields, object_front, object, object_line, text_front, text_part, text_line, comma, op_json};

use crate::lines::{push_magic_digits, push_number};
use bit_fields::Reason;
use bit_grammar::Op;
use std::alloc::AllocError;

/// A key and its number.
pub type Field<'a> = (&'a str, u64);

/// Numbers below this one are written as JSON numbers, because each reader of JSON keeps them exactly.
pub(crate) const FIRST_QUOTED: u64 = 1 << 53;

/// Appends a number, from `FIRST_QUOTED` on as a string of its digits.
pub(crate) fn push_json_number(text: &mut String, number: u64) -> Result<(), AllocError>
    ensures { OnOk result (string_bytes text.new ≡ string_bytes text.old ++ number_json number) }
{
    if number < FIRST_QUOTED {
        return push_number(text, number);
    }
    write!(text, "\"{number}\"")
}

/// Appends a key that follows a field, and the text between it and its value.
fn push_key(text: &mut String, key: &str, between: &str) -> Result<(), AllocError>
    requires { IsPlain key.now }
    ensures { OnOk result (string_bytes text.new
        ≡ string_bytes text.old ++ (codes ",\"" ++ key.now ++ between.now)) }
{
    text.push_str(",\"")?;
    text.push_str(key)?;
    text.push_str(between)
}

/// Appends a field that follows another one.
fn push_field(text: &mut String, key: &str, number: u64) -> Result<(), AllocError>
    requires { IsPlain key.now }
    ensures { OnOk result (string_bytes text.new
        ≡ string_bytes text.old ++ field_json (key.now, number)) }
{
    push_key(text, key, "\":")?;
    push_json_number(text, number)
}

/// Appends keys and their numbers, a comma before each.
pub fn push_fields(text: &mut String, fields: &[Field<'_>]) -> Result<(), AllocError>
    requires { ArePlain fields.now }
    ensures { OnOk result (string_bytes text.new
        ≡ string_bytes text.old ++ flat_map field_json (fields_told fields.now)) }
{
    for (key, number) in fields {
        push_field(text, key, *number)?;
    }
    Ok(())
}

/// Appends a JSON object with a kind and numbers, up to its end.
pub fn push_front(text: &mut String, kind: &str, fields: &[Field<'_>]) -> Result<(), AllocError>
    requires { IsPlain kind.now × ArePlain fields.now }
    ensures { OnOk result (string_bytes text.new
        ≡ string_bytes text.old ++ object_front kind.now (fields_told fields.now)) }
{
    text.push_str("{\"kind\":\"")?;
    text.push_str(kind)?;
    text.push_str("\"")?;
    push_fields(text, fields)
}

/// Appends a JSON object with a kind and numbers.
pub fn push_object(text: &mut String, kind: &str, fields: &[Field<'_>]) -> Result<(), AllocError>
    requires { IsPlain kind.now × ArePlain fields.now }
    ensures { OnOk result (string_bytes text.new
        ≡ string_bytes text.old ++ object kind.now (fields_told fields.now)) }
{
    push_front(text, kind, fields)?;
    text.push_str("}")
}

/// Appends a line that is such an object.
pub(crate) fn push_object_line(
    text: &mut String,
    kind: &str,
    fields: &[Field<'_>],
) -> Result<(), AllocError>
    requires { IsPlain kind.now × ArePlain fields.now }
    ensures { OnOk result (string_bytes text.new
        ≡ string_bytes text.old ++ object_line kind.now (fields_told fields.now)) }
{
    push_object(text, kind, fields)?;
    text.push_str("\n")
}

/// Appends a line that is an object with a text, up to the text.
fn push_text_front(
    text: &mut String,
    kind: &str,
    fields: &[Field<'_>],
    key: &str,
) -> Result<(), AllocError>
    requires { IsPlain kind.now × ArePlain fields.now × IsPlain key.now }
    ensures { OnOk result (string_bytes text.new
        ≡ string_bytes text.old ++ text_front kind.now (fields_told fields.now) key.now) }
{
    push_front(text, kind, fields)?;
    push_key(text, key, "\":\"")
}

/// Appends an object with numbers and the digits of a magic, up to its end.
pub fn push_magic_part(
    text: &mut String,
    kind: &str,
    fields: &[Field<'_>],
    magic: [u8; 4],
) -> Result<(), AllocError>
    requires { IsPlain kind.now × ArePlain fields.now }
    ensures { OnOk result (string_bytes text.new ≡ string_bytes text.old
        ++ text_part kind.now (fields_told fields.now) (codes "magic")
        (flat_map hex_text (magic_bytes (magic_number magic)))) }
{
    push_text_front(text, kind, fields, "magic")?;
    push_magic_digits(text, magic)?;
    text.push_str("\"")
}

/// Appends a line that is such an object.
pub(crate) fn push_magic_line(
    text: &mut String,
    kind: &str,
    fields: &[Field<'_>],
    magic: [u8; 4],
) -> Result<(), AllocError>
    requires { IsPlain kind.now × ArePlain fields.now }
    ensures { OnOk result (string_bytes text.new ≡ string_bytes text.old
        ++ text_line kind.now (fields_told fields.now) (codes "magic")
        (flat_map hex_text (magic_bytes (magic_number magic)))) }
{
    push_magic_part(text, kind, fields, magic)?;
    text.push_str("}\n")
}

/// Appends a line that is an object with the name of a reason.
pub(crate) fn push_reason_line(
    text: &mut String,
    kind: &str,
    fields: &[Field<'_>],
    reason: Reason,
) -> Result<(), AllocError>
    requires { IsPlain kind.now × ArePlain fields.now }
    ensures { OnOk result (string_bytes text.new ≡ string_bytes text.old
        ++ text_line kind.now (fields_told fields.now) (codes "reason") (name_of reason)) }
{
    push_text_front(text, kind, fields, "reason")?;
    text.push_str(reason.name())?;
    text.push_str("\"}\n")
}

/// Appends the text before the item of a list at a place.
fn push_comma(text: &mut String, place: u64) -> Result<(), AllocError>
    ensures { OnOk result (string_bytes text.new ≡ string_bytes text.old ++ comma place) }
{
    if place > 0 {
        return text.push_str(",");
    }
    Ok(())
}

/// Appends the operand at a place of a list.
pub(crate) fn push_op_item(text: &mut String, place: u64, op: Op) -> Result<(), AllocError>
    ensures { OnOk result (string_bytes text.new
        ≡ string_bytes text.old ++ (comma place ++ op_json op)) }
{
    push_comma(text, place)?;
    push_op(text, op)
}

/// Appends an operand.
fn push_op(text: &mut String, op: Op) -> Result<(), AllocError>
    ensures { OnOk result (string_bytes text.new ≡ string_bytes text.old ++ op_json op) }
{
    match op {
        Op::Literal(value) => push_object(text, "literal", &[("value", value)]),
        Op::Fixed(width) => push_object(text, "fixed", &[("width", width as u64)]),
        Op::Vbr(width) => push_object(text, "vbr", &[("width", width as u64)]),
        Op::Array => push_object(text, "array", &[]),
        Op::Char6 => push_object(text, "char6", &[]),
        Op::Blob => push_object(text, "blob", &[]),
    }
}
