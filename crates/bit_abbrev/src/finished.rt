//! A finished table.

ghost use Rattle.std.specs.Prelude.{◌<◌, ◌^◌, length};
ghost use Rattle.bit_abbrev.specs.HeldLists.{InOrder};

use crate::held::HeldList;
use crate::ready::ReadyGroup;

/// The definitions that a BLOCKINFO block made: those that are ready, and the others in the order of block ids.
#[derive(Drop)]
pub(crate) struct FinishedInfo {
    pub(crate) groups: Vec<ReadyGroup>,
    pub(crate) later: HeldList,
    ghost order: { InOrder later },
    ghost few: { length groups.items < 2 ^ 32 },
}
