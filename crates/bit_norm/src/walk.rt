//! The place in two trees that are compared while nothing differs.

ghost use Rattle.std.specs.Prelude.{◌≡◌, ◌+◌, ℕ, [], IfOk, OnOk};
ghost use Rattle.bit_norm.specs.InStep.{ended_from, stand_behind, sign_shown, stand_of};

use crate::differences::OpenBlock;
use crate::sign::Sign;
use std::alloc::{AllocError, Global};

/// The open blocks of both trees, and how many items come before the place in the innermost of them, or at the top.
#[derive(Drop)]
pub(crate) struct Walk {
    pub(crate) open: Vec<OpenBlock>,
    pub(crate) items: u64,
}

/// One item more. Each item has bits of its own, so their number never reaches 2^64 - 1.
pub(crate) fn one_more(items: u64) -> Result<u64, AllocError>
    ensures { IfOk result (λ more. more ≡ items + 1) }
{
    items.checked_add(1).ok_or(AllocError)
}

impl Walk {
    /// The place after the magic.
    pub(crate) fn new(alloc: Global) -> Walk
        ensures open { result.open.items ≡ [] }
        ensures items { result.items ≡ 0 }
    {
        Walk {
            open: Vec::new(alloc),
            items: 0,
        }
    }

    /// Where what comes before the place ended: the magic if nothing else does, and else at the bit `ended`.
    pub(crate) fn ended_from(&self, behind_magic: u64, ended: u64) -> u64
        ensures { result ≡ ended_from behind_magic self.now.open.items self.now.items ended }
    {
        if self.items == 0 && self.open.is_empty() {
            return behind_magic;
        }
        ended
    }

    /// Moves to the place after a sign.
    #[tactic(auto, using(crate::proofs::InStep::closes))]
    pub(crate) fn pass(&mut self, sign: Sign<'_>) -> Result<(), AllocError>
        ensures { OnOk result ((before ended : ℕ)
            → stand_of self.new ended ≡ stand_behind (stand_of self.old before)
            (sign_shown sign.entry) ended) }
    {
        match sign {
            Sign::Begins(id) => {
                let items = self.items;
                self.open.push(OpenBlock { id, items })?;
                self.items = 0;
            }
            Sign::Record(..) => self.items = one_more(self.items)?,
            Sign::Ends => {
                if let Some(block) = self.open.pop() {
                    self.items = one_more(block.items)?;
                }
            }
            Sign::Over => {}
        }
        Ok(())
    }
}
