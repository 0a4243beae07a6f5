//! The open blocks, under a setting.

ghost use Rattle.std.specs.Prelude.{◌≡◌, ℕ, List, ◌&&◌, true, [], ◌∷◌, OnOk, OnErr, IfOk};
ghost use Rattle.std.specs.List.{list_all};
ghost use Rattle.bit_grammar.specs.Machine as machine;
ghost use Rattle.bit_events.specs.EventView.{shown_by};
ghost use Rattle.bit_events.specs.Standing.{leaves, stands_after};
ghost use Rattle.bit_grammar.specs.Setting.{keeps, keeps_record, setting_of};
ghost use Rattle.bit_grammar.specs.Under.{ids_after, innermost};

use crate::event::Event;
use crate::names::Names;
use bit_grammar::Info;
use std::alloc::{AllocError, Global};
use std::marker::Model;

/// An open block, or the top, which has the id 0.
#[derive(Clone, Copy)]
struct Around {
    id: u32,
    /// The block is kept, and so is each block around it.
    is_left: bool,
    /// It is kept with all its records.
    is_whole: bool,
}

/// Outside of all blocks all is kept.
const fn top() -> Around
    ensures { result ≡ record { id = 0; is_left = true; is_whole = true } }
{
    Around {
        id: 0,
        is_left: true,
        is_whole: true,
    }
}

/// A block that begins, in another one or at the top.
#[tactic(auto, using(bit_grammar::proofs::NormalForms::Under::unnamed_kept))]
fn block_in(names: &Names<'_>, around: Around, id: u32) -> Around
    ensures id { result.id ≡ id }
    ensures left { result.is_left ≡ (keeps names.now id && around.is_left) }
    ensures whole { result.is_whole ≡ true → (result.is_left ≡ true)
        × ((code : ℕ) → keeps_record names.now id code ≡ true) }
{
    let is_left = names.keeps(id) && around.is_left;
    Around {
        id,
        is_left,
        is_whole: is_left && names.keeps_records(id),
    }
}

/// The open blocks, under a setting. It takes the beginnings and ends of blocks, and returns what is kept.
#[derive(Drop)]
pub struct OpenBlocks<'a> {
    names: Names<'a>,
    /// The innermost block.
    inner: Around,
    /// The blocks around it and the top, the outermost first; empty if no block is open.
    outer: Vec<Around>,
}

impl<'a> Model for OpenBlocks<'a> {
    ghost use Rattle.std.specs.Prelude.{reverse};
    ghost use Rattle.bit_events.specs.Standing.{OpenUnder, ids_of, AreJudged};

    ghost Value = { OpenUnder };

    ghost view = { λ o. record {
      setting = o.names;
      ids = ids_of o.inner (reverse o.outer.items);
    } };

    ghost invariant = { λ o. AreJudged o.names o.inner (reverse o.outer.items) };
}

impl<'a> OpenBlocks<'a> {
    /// No block is open.
    pub fn new(alloc: Global, info: Info<'a>) -> OpenBlocks<'a>
        ensures { result ≡ record { setting = setting_of info.entry; ids = [] } }
    {
        OpenBlocks {
            names: Names::new(alloc, info),
            inner: top(),
            outer: Vec::new(alloc),
        }
    }

    /// Whether all open blocks are kept.
    #[inline]
    #[tactic(auto, using(crate::proofs::Standings::left_is))]
    pub fn is_left(&self) -> bool
        ensures { result ≡ list_all (keeps self.now.setting) self.now.ids }
    {
        self.inner.is_left
    }

    /// Whether the innermost block is kept with all its records. It may be, with names that none of them has, if this is false.
    #[inline(always)]
    #[tactic(auto, using(crate::proofs::Standings::whole_left))]
    pub fn is_whole(&self) -> bool
        ensures { result ≡ true → (code : ℕ) → (list_all (keeps self.now.setting) self.now.ids
            && keeps_record self.now.setting (innermost self.now.ids) code) ≡ true }
    {
        self.inner.is_whole
    }

    /// Whether a record with this code is kept directly in the innermost block.
    #[inline(always)]
    #[tactic(auto, using(crate::proofs::Standings::whole_left, crate::proofs::Standings::record_left, crate::proofs::Standings::none_left))]
    pub fn leaves_record(&self, code: u64) -> bool
        ensures { result ≡ (list_all (keeps self.now.setting) self.now.ids
            && keeps_record self.now.setting (innermost self.now.ids) code) }
    {
        if self.inner.is_whole {
            return true;
        }
        self.inner.is_left && self.names.keeps_record(self.inner.id, code)
    }

    /// Takes the beginning of a block, and returns whether it is kept. If an allocation fails, nothing changes.
    #[tactic(auto, using(crate::proofs::Standings::left_is, crate::proofs::Standings::judged_more))]
    pub fn enter(&mut self, id: u32) -> Result<bool, AllocError>
        ensures left { IfOk result (λ left. left
            ≡ list_all (keeps self.old.setting) (id ∷ self.old.ids)) }
        ensures ids { OnOk result (self.new ≡ record self.old { ids = id ∷ self.old.ids }) }
        ensures stays { OnErr result (self.new ≡ self.old) }
    {
        self.names.put_in_order()?;
        let inner = block_in(&self.names, self.inner, id);
        self.outer.push(self.inner)?;
        self.inner = inner;
        Ok(inner.is_left)
    }

    /// Takes an event, and returns whether it is kept. If an allocation fails, nothing changes.
    #[inline(always)]
    pub fn take<L: Copy>(&mut self, event: Event<'_, L>) -> Result<bool, AllocError>
        ensures left { IfOk result (λ left. (told : L → List ℕ)
            → left ≡ leaves self.old (shown_by told event.entry)) }
        ensures stands { OnOk result ((told : L → List ℕ)
            → self.new ≡ stands_after (shown_by told event.entry) self.old) }
        ensures stays { OnErr result (self.new ≡ self.old) }
    {
        match event {
            Event::Enter { id, .. } => self.enter(id),
            Event::Define { .. } => Ok(self.is_left()),
            Event::Record { code, .. } => Ok(self.leaves_record(code)),
            Event::Leave { .. } => Ok(self.leave()),
        }
    }

    /// Takes the end of the innermost block, and returns whether it is kept.
    pub fn leave(&mut self) -> bool
        ensures left { result ≡ list_all (keeps self.old.setting) self.old.ids }
        ensures ids { (after : ℕ) → self.new ≡ record self.old
            { ids = ids_after (machine.leaves after) self.old.ids } }
    {
        let is_left = self.inner.is_left;
        if let Some(around) = self.outer.pop() {
            self.inner = around;
        }
        is_left
    }
}
