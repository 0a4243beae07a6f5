//! A setting, with its names sorted.

ghost use Rattle.std.specs.Prelude.{◌≡◌, map, IfOk};
ghost use Rattle.bit_events.specs.Named.{HasIds, HasPairs, block_of, pair_of};
ghost use Rattle.bit_grammar.specs.Setting.{keeps, keeps_record, keeps_records, setting_of};

use bit_grammar::{Info, RecordName};
use std::alloc::{AllocError, Global};
use std::collections::BTreeSet;
use std::marker::Model;

/// The names of a setting, each once and sorted.
#[derive(Drop)]
struct Ordered {
    blocks: BTreeSet<u32>,
    /// The ids of the blocks with named records.
    holders: BTreeSet<u32>,
    records: BTreeSet<(u32, u64)>,
}

/// The ids of blocks, sorted.
fn ordered_blocks(alloc: Global, blocks: &[u32]) -> Result<BTreeSet<u32>, AllocError>
    ensures { IfOk result (HasIds blocks.now) }
{
    blocks.iter().copied().collect(alloc)
}

/// The ids of the blocks with named records, sorted.
fn ordered_holders(alloc: Global, records: &[RecordName]) -> Result<BTreeSet<u32>, AllocError>
    ensures { IfOk result (HasIds (map block_of records.now)) }
{
    records.iter().map(|name| name.block).collect(alloc)
}

/// The names of records, sorted.
fn ordered_records(
    alloc: Global,
    records: &[RecordName],
) -> Result<BTreeSet<(u32, u64)>, AllocError>
    ensures { IfOk result (HasPairs (map pair_of records.now)) }
{
    records
        .iter()
        .map(|name| (name.block, name.code))
        .collect(alloc)
}

/// A setting. Once its names are sorted, a look-up takes time that hardly grows with their number.
#[derive(Drop)]
pub(crate) struct Names<'a> {
    alloc: Global,
    info: Info<'a>,
    /// `None` before the first block, and if nothing has a name.
    ordered: Option<Ordered>,
}

impl<'a> Model for Names<'a> {
    ghost use Rattle.std.specs.Prelude.{IfSome};
    ghost use Rattle.bit_grammar.specs.Setting.{Setting, setting_of};
    ghost use Rattle.bit_events.specs.Named.{HasNames};

    ghost Value = { Setting };

    ghost view = { λ names. setting_of names.info };

    ghost invariant = { λ names. IfSome names.ordered (HasNames (setting_of names.info)) };
}

impl<'a> Names<'a> {
    pub(crate) fn new(alloc: Global, info: Info<'a>) -> Names<'a>
        ensures { result ≡ setting_of info.entry }
    {
        Names {
            alloc,
            info,
            ordered: None,
        }
    }

    /// Sorts the names, if they are not sorted yet.
    pub(crate) fn put_in_order(&mut self) -> Result<(), AllocError>
        ensures { self.new ≡ self.old }
    {
        if let (None, Info::Without { blocks, records }) = (&self.ordered, self.info) {
            self.ordered = Some(Ordered {
                blocks: ordered_blocks(self.alloc, blocks)?,
                holders: ordered_holders(self.alloc, records)?,
                records: ordered_records(self.alloc, records)?,
            });
        }
        Ok(())
    }

    /// Whether blocks with this id are kept, if the blocks around them are.
    #[tactic(auto, using(crate::proofs::Named::in_order, crate::proofs::Named::ids_found))]
    pub(crate) fn keeps(&self, id: u32) -> bool
        ensures { result ≡ keeps self.now id }
    {
        match &self.ordered {
            Some(ordered) => !ordered.blocks.contains(&id),
            None => self.info.keeps(id),
        }
    }

    /// Whether records with this code are kept in blocks with this id, if these blocks are.
    #[tactic(auto, using(bit_grammar::proofs::NormalForms::Under::info_kept, crate::proofs::Named::in_order, crate::proofs::Named::records_found))]
    pub(crate) fn keeps_record(&self, block: u32, code: u64) -> bool
        ensures { result ≡ keeps_record self.now block code }
    {
        match &self.ordered {
            Some(ordered) => block == 0 || !ordered.records.contains(&(block, code)),
            None => self.info.keeps_record(block, code),
        }
    }

    /// Whether no record in blocks with this id has a name, so that all of them are kept.
    #[tactic(auto, using(crate::proofs::Named::in_order, crate::proofs::Named::holders_found))]
    pub(crate) fn keeps_records(&self, block: u32) -> bool
        ensures { result ≡ keeps_records self.now block }
    {
        match &self.ordered {
            Some(ordered) => !ordered.holders.contains(&block),
            None => self.info.keeps_records(block),
        }
    }
}
