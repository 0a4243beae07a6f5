use crate::tree::Values;
use bit_abbrev::Abbrev;
use bit_fields::Head;
use std::marker::Model;

/// A record, the abbreviation id that it was written with, its first bit and the bit after it.
#[derive(Debug, Drop)]
pub struct MarkedRecord {
    pub abbrev: u32,
    pub code: u64,
    pub values: Values,
    pub first: u64,
    pub after: u64,
}

/// A definition of an abbreviation, its first bit and the bit after it.
#[derive(Debug, Drop)]
pub struct MarkedDefine {
    pub abbrev: Abbrev,
    pub first: u64,
    pub after: u64,
}

/// A block, a record or a definition.
#[cycle(marked)]
#[derive(Debug, Drop)]
pub enum MarkedItem {
    Block(MarkedBlock),
    Record(MarkedRecord),
    Define(MarkedDefine),
}

/// A block: its id, the width of the abbreviation ids in it, its first bit, the bit after its head and the bit after it.
#[cycle(marked)]
#[derive(Debug, Drop)]
pub struct MarkedBlock {
    pub id: u32,
    pub width: u8,
    pub first: u64,
    pub body: u64,
    pub after: u64,
    pub items: MarkedItems,
}

/// The items of a block, in order.
#[cycle(marked)]
#[derive(Debug, Drop)]
pub struct MarkedItems(pub Vec<MarkedItem>);

impl Model for MarkedItems {
    ghost use Rattle.bit_grammar.specs.Marks.{Marks};
    ghost use Rattle.bit_tree.specs.MarksCode.{marks_code};

    ghost Value = { Marks };

    ghost coded = { marks_code };

    ghost use Rattle.bit_tree.specs.MarkedView.{marks_of_items};

    ghost view = { λ a. marks_of_items a.0.items };

    ghost use Rattle.bit_tree.specs.TreeSize.{marks_size};

    ghost size = { marks_size };

    ghost use Rattle.bit_tree.specs.MarkedFalls.{most_le-marks_size};

    ghost size_decreases = { λ a h. most_le-marks_size a.0.items };
}

/// The blocks of a stream, in order.
#[derive(Debug, Drop)]
pub struct MarkedBlocks(pub Vec<MarkedBlock>);

impl Model for MarkedBlocks {
    ghost use Rattle.bit_grammar.specs.Marks.{Marks};
    ghost use Rattle.bit_tree.specs.MarksCode.{marks_code};

    ghost Value = { Marks };

    ghost coded = { marks_code };

    ghost use Rattle.bit_tree.specs.MarkedView.{marks_of_blocks};

    ghost view = { λ a. marks_of_blocks a.0.items };
}

/// The tree of an input with its definitions, and with the position of each part: its head, its blocks, and the bit after the
/// stream.
#[derive(Debug, Drop)]
pub struct Marked {
    pub head: Head,
    pub blocks: MarkedBlocks,
    pub after: u64,
}

impl Model for Marked {
    ghost use Rattle.bit_grammar.specs.Input as input;
    ghost use Rattle.bit_grammar.specs.Terms as terms;
    ghost use Rattle.bit_tree.specs.MarksCode.{marked_code};

    ghost Value = { terms.Marked };

    ghost coded = { marked_code };

    ghost use Rattle.bit_fields.specs.Opening.{head_told};

    ghost view = { λ a. record { head = head_told a.head; blocks = a.blocks; after = a.after } };
}
