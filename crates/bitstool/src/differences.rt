//! Where two inputs first differ, as lines.

ghost use Rattle.std.specs.Prelude.{◌≡◌, ◌++◌, OnOk, IfOk, flat_map, string_bytes};
ghost use Rattle.bit_norm.specs.Entries.{difference_shown, place_shown, standing_shown, what_shown};
ghost use Rattle.bitstool.specs.Differences.{difference_text, first_value, open_text, place_text, second_value, standing_text, value_text, what_text};

use bit_norm::{Difference, OpenBlock, Place, Standing, ValueDifference, What};
use bit_scan::push_magic;
use std::alloc::{AllocError, Global};

/// Appends an open block.
fn push_block(text: &mut String, block: OpenBlock) -> Result<(), AllocError>
    ensures { OnOk result (string_bytes text.new ≡ string_bytes text.old ++ open_text block) }
{
    let OpenBlock { id, items } = block;
    write!(text, "block {id} item {items}, ")
}

/// Appends the open blocks, the outermost first.
fn push_blocks(text: &mut String, open: &[OpenBlock]) -> Result<(), AllocError>
    ensures { OnOk result (string_bytes text.new
        ≡ string_bytes text.old ++ flat_map open_text open.now) }
{
    for block in open {
        push_block(text, *block)?;
    }
    Ok(())
}

/// Appends a place.
fn push_place(text: &mut String, place: &Place) -> Result<(), AllocError>
    ensures { OnOk result (string_bytes text.new
        ≡ string_bytes text.old ++ place_text (place_shown place.now)) }
{
    match place {
        Place::Magic => text.push_str("magic"),
        Place::Item { open, items } => {
            push_blocks(text, open)?;
            write!(text, "item {items}")
        }
    }
}

/// Appends the item at a place.
fn push_what(text: &mut String, what: What) -> Result<(), AllocError>
    ensures { OnOk result (string_bytes text.new
        ≡ string_bytes text.old ++ what_text (what_shown what)) }
{
    match what {
        What::Magic(magic) => push_magic(text, magic),
        What::Block(id) => write!(text, "block {id}"),
        What::Record { code, count } => write!(text, "record {code} count {count}"),
        What::End => text.push_str("end"),
    }
}

/// Appends the line of one input, up to the value.
fn push_standing(text: &mut String, which: &str, standing: Standing) -> Result<(), AllocError>
    ensures { OnOk result (string_bytes text.new
        ≡ string_bytes text.old ++ standing_text which.now (standing_shown standing)) }
{
    text.push_str(which)?;
    let bit = standing.bit;
    write!(text, " bit {bit}: ")?;
    push_what(text, standing.what)
}

/// Appends a value of a record, by its index.
fn push_value(text: &mut String, index: u64, value: u64) -> Result<(), AllocError>
    ensures { OnOk result
        (string_bytes text.new ≡ string_bytes text.old ++ value_text index value) }
{
    write!(text, ", value {index} is {value}")
}

/// Appends the value of the first record, if values differ.
fn push_first_value(text: &mut String, value: Option<ValueDifference>) -> Result<(), AllocError>
    ensures { OnOk result (string_bytes text.new ≡ string_bytes text.old ++ first_value value) }
{
    match value {
        Some(value) => push_value(text, value.index, value.first),
        None => Ok(()),
    }
}

/// Appends the value of the second record, if values differ.
fn push_second_value(text: &mut String, value: Option<ValueDifference>) -> Result<(), AllocError>
    ensures { OnOk result (string_bytes text.new ≡ string_bytes text.old ++ second_value value) }
{
    match value {
        Some(value) => push_value(text, value.index, value.second),
        None => Ok(()),
    }
}

/// The lines that report that two inputs differ, the place, and the item there in each.
pub fn text_of(alloc: Global, difference: &Difference) -> Result<String, AllocError>
    ensures { IfOk result (λ text. string_bytes text
        ≡ difference_text (difference_shown difference.now)) }
{
    let mut text = String::from_str(alloc, "different\nat ")?;
    push_place(&mut text, &difference.place)?;
    text.push_str("\n")?;
    push_standing(&mut text, "first", difference.first)?;
    push_first_value(&mut text, difference.value)?;
    text.push_str("\n")?;
    push_standing(&mut text, "second", difference.second)?;
    push_second_value(&mut text, difference.value)?;
    text.push_str("\n")?;
    Ok(text)
}
