//! Where two inputs first differ, as a line of JSON.

ghost use Rattle.std.specs.Prelude.{◌≡◌, ◌++◌, ◌^◌, ◌<◌, OnOk, IfOk, [], ◌∷◌, codes, flat_map, string_bytes};
ghost use Rattle.std.specs.List.{AllByRecursion};
ghost use Rattle.bit_norm.specs.Entries.{difference_shown, place_shown, what_shown};
ghost use Rattle.bit_scan.specs.Json.{object};
ghost use Rattle.bitstool.specs.JsonDifferences.{BlockFits, IsDifferenceLine, PlaceFits, SeenFits, ValueFits, WhatFits, difference_json, first_json, open_json, place_json, second_json, value_json, what_json};

use bit_norm::{Difference, OpenBlock, Place, ValueDifference, What};
use bit_scan::{push_fields, push_front, push_magic_part, push_object};
use std::alloc::{AllocError, Global};

/// Appends an open block, and a comma.
fn push_block(text: &mut String, block: OpenBlock) -> Result<(), AllocError>
    ensures pushed { OnOk result (string_bytes text.new ≡ string_bytes text.old ++ open_json block) }
    ensures fits { BlockFits (2 ^ 64) block }
{
    let OpenBlock { id, items } = block;
    push_object(text, "block", &[("id", id as u64), ("item", items)])?;
    text.push_str(",")
}

/// Appends the open blocks, the outermost first.
fn push_blocks(text: &mut String, open: &[OpenBlock]) -> Result<(), AllocError>
    ensures pushed { OnOk result (string_bytes text.new
        ≡ string_bytes text.old ++ flat_map open_json open.now) }
    ensures fit { OnOk result (AllByRecursion (BlockFits (2 ^ 64)) open.now) }
{
    for block in open {
        push_block(text, *block)?;
    }
    Ok(())
}

/// Appends the number of items before a place.
fn push_items(text: &mut String, items: u64) -> Result<(), AllocError>
    ensures pushed { OnOk result (string_bytes text.new
        ≡ string_bytes text.old ++ object (codes "item") ((codes "item", items) ∷ [])) }
    ensures fits { items < 2 ^ 64 }
{
    push_object(text, "item", &[("item", items)])
}

/// Appends a place.
fn push_place(text: &mut String, place: &Place) -> Result<(), AllocError>
    ensures pushed { OnOk result (string_bytes text.new
        ≡ string_bytes text.old ++ place_json (place_shown place.now)) }
    ensures fits { OnOk result (PlaceFits (2 ^ 64) (place_shown place.now)) }
{
    match place {
        Place::Magic => push_object(text, "magic", &[]),
        Place::Item { open, items } => {
            push_blocks(text, open)?;
            push_items(text, *items)
        }
    }
}

/// Appends the item at a bit, up to the end of the object.
fn push_what(text: &mut String, bit: u64, what: What) -> Result<(), AllocError>
    ensures pushed { OnOk result (string_bytes text.new
        ≡ string_bytes text.old ++ what_json bit (what_shown what)) }
    ensures fits { (bit < 2 ^ 64) × WhatFits (2 ^ 64) (what_shown what) }
{
    match what {
        What::Magic(magic) => push_magic_part(text, "magic", &[("bit", bit)], magic),
        What::Block(id) => push_front(text, "block", &[("bit", bit), ("id", id as u64)]),
        What::Record { code, count } => push_front(
            text,
            "record",
            &[("bit", bit), ("code", code), ("count", count)],
        ),
        What::End => push_front(text, "end", &[("bit", bit)]),
    }
}

/// Appends a value of a record, by its index.
fn push_value(text: &mut String, index: u64, value: u64) -> Result<(), AllocError>
    ensures { OnOk result
        (string_bytes text.new ≡ string_bytes text.old ++ value_json index value) }
{
    push_fields(text, &[("index", index), ("value", value)])
}

/// Appends the value of the first record, if values differ.
fn push_first_value(text: &mut String, value: Option<ValueDifference>) -> Result<(), AllocError>
    ensures pushed { OnOk result
        (string_bytes text.new ≡ string_bytes text.old ++ first_json value) }
    ensures fits { ValueFits (2 ^ 64) value }
{
    match value {
        Some(value) => push_value(text, value.index, value.first),
        None => Ok(()),
    }
}

/// Appends the value of the second record, if values differ.
fn push_second_value(text: &mut String, value: Option<ValueDifference>) -> Result<(), AllocError>
    ensures { OnOk result (string_bytes text.new ≡ string_bytes text.old ++ second_json value) }
{
    match value {
        Some(value) => push_value(text, value.index, value.second),
        None => Ok(()),
    }
}

/// The line that reports that two inputs differ, the place, and the item there in each.
fn line_of(alloc: Global, difference: &Difference) -> Result<String, AllocError>
    ensures text { IfOk result (λ text. string_bytes text
        ≡ difference_json (difference_shown difference.now)) }
    ensures fits { IfOk result (λ _. SeenFits (2 ^ 64) (difference_shown difference.now)) }
{
    let Difference {
        place,
        first,
        second,
        value,
    } = difference;
    let mut text = String::from_str(alloc, "{\"kind\":\"different\",\"at\":[")?;
    push_place(&mut text, place)?;
    text.push_str("],\"first\":")?;
    push_what(&mut text, first.bit, first.what)?;
    push_first_value(&mut text, *value)?;
    text.push_str("},\"second\":")?;
    push_what(&mut text, second.bit, second.what)?;
    push_second_value(&mut text, *value)?;
    text.push_str("}}\n")?;
    Ok(text)
}

/// The same line, which is one object, with numbers of 64 bits.
pub fn json_of(alloc: Global, difference: &Difference) -> Result<String, AllocError>
    ensures text { IfOk result (λ text. string_bytes text
        ≡ difference_json (difference_shown difference.now)) }
    ensures object { IfOk result (λ text. IsDifferenceLine (2 ^ 64) (string_bytes text)) }
{
    line_of(alloc, difference)
}
