//! The definitions for block ids, as a table of their own.

ghost use Rattle.std.specs.Prelude.{◌≡◌, ℕ, OnOk, OnErr};
ghost use Rattle.bit_grammar.specs.Terms.{defined_at, no_definitions};
ghost use Rattle.bit_abbrev.specs.Table.{definitions_at, table_shown};

use crate::Abbrev;
use std::alloc::{AllocError, Global};
use std::collections::BTreeMap;
use std::marker::Model;

/// The definitions of BLOCKINFO blocks, for each block id in the order in which they are made. The ids are kept sorted, so that no
/// choice of ids makes a look-up slow.
#[derive(Drop)]
pub struct InfoTable {
    alloc: Global,
    lists: BTreeMap<u32, Vec<Abbrev>>,
}

impl Model for InfoTable {
    ghost use Rattle.std.specs.Prelude.{ℕ, List};
    ghost use Rattle.bit_grammar.specs.declared.op.Op.{Op};

    ghost Value = { List (ℕ × List (List Op)) };

    ghost use Rattle.bit_abbrev.specs.Table.{table_shown};

    ghost view = { λ table. table_shown table.lists.entries };
}

/// Adds a definition to those for a block id. If an allocation fails, it is dropped.
fn add(
    lists: &mut BTreeMap<u32, Vec<Abbrev>>,
    alloc: Global,
    id: u32,
    abbrev: Abbrev,
) -> Result<(), AllocError>
    ensures ok { OnOk result ((other : ℕ)
        → definitions_at (table_shown lists.new.entries) other
        ≡ defined_at id «abbrev» (definitions_at (table_shown lists.old.entries)) other) }
    ensures err { OnErr result (table_shown lists.new.entries ≡ table_shown lists.old.entries) }
{
    if let Some(list) = lists.get_mut(&id) {
        list.push(abbrev)?;
        return Ok(());
    }
    // Most hold few definitions, and there may be one for each id.
    let mut list = Vec::with_capacity(alloc, 1)?;
    list.push(abbrev)?;
    lists.insert(id, list)?;
    Ok(())
}

impl InfoTable {
    /// A table without definitions. It allocates nothing.
    pub fn new(alloc: Global) -> InfoTable
        ensures { (id : ℕ) → definitions_at result id ≡ no_definitions id }
    {
        InfoTable {
            alloc,
            lists: BTreeMap::new(alloc),
        }
    }

    /// The definitions for a block id, possibly none.
    pub fn for_block(&self, id: u32) -> &[Abbrev]
        ensures { result.now ≡ definitions_at self.now id }
    {
        match self.lists.get(&id) {
            Some(list) => list.as_slice(),
            None => &[],
        }
    }

    /// Adds a definition to those for a block id. If an allocation fails, it is dropped.
    pub fn define(&mut self, id: u32, abbrev: Abbrev) -> Result<(), AllocError>
        ensures ok { OnOk result ((other : ℕ)
            → definitions_at self.new other ≡ defined_at id «abbrev» (definitions_at self.old)
            other) }
        ensures err { OnErr result (self.new ≡ self.old) }
    {
        add(&mut self.lists, self.alloc, id, abbrev)
    }
}
