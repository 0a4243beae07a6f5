use std::marker::Model;

/// The values of a record.
#[derive(Debug, Drop)]
pub struct Values(pub Vec<u64>);

impl Model for Values {
    ghost use Rattle.std.specs.Prelude.{ℕ, List};

    ghost Value = { List ℕ };

    ghost view = { λ a. a.0.items };
}

/// A record: its code and its values.
#[derive(Debug, Drop)]
pub struct Record {
    pub code: u64,
    pub values: Values,
}

/// A block or a record.
#[cycle(tree)]
#[derive(Debug, Drop)]
pub enum Item {
    Block(Block),
    Record(Record),
}

/// A block: its id and its items.
#[cycle(tree)]
#[derive(Debug, Drop)]
pub struct Block {
    pub id: u32,
    pub items: Items,
}

/// The items of a block, in order.
#[cycle(tree)]
#[derive(Debug, Drop)]
pub struct Items(pub Vec<Item>);

impl Model for Items {
    ghost use Rattle.bit_grammar.specs.Forest.{Forest};
    ghost use Rattle.bit_tree.specs.TreeCode.{forest_code};

    ghost Value = { Forest };

    ghost coded = { forest_code };

    ghost use Rattle.bit_tree.specs.TreeView.{forest_of_items};

    ghost view = { λ a. forest_of_items a.0.items };

    ghost use Rattle.bit_tree.specs.TreeSize.{forest_size};

    ghost size = { forest_size };

    ghost use Rattle.bit_tree.specs.TreeFalls.{most_le-forest_size};

    ghost size_decreases = { λ a h. most_le-forest_size a.0.items };
}
