//! The events that a machine lends: a definition with its operands, which is made anew if it is held in few bytes.

ghost use Rattle.std.specs.Prelude.{◌≡◌, ◌≤◌, ◌%◌, true, ℕ, List, Option, OnOk, OnErr, IfOk, IfSome, vec_len};
ghost use Rattle.std.specs.Option.{option_copied};
ghost use Rattle.bit_grammar.specs.declared.op.Op.{Op};
ghost use Rattle.bit_abbrev.specs.Values.{Has};
ghost use Rattle.bit_events.specs.Next.{FindsNext};
ghost use Rattle.bit_events.specs.EventView.{shown_if_any};
ghost use Rattle.bit_events.specs.MachineView.{newest, lent, IsDefine, Lendable, step_lent, KeepsValues, TookSome};

use crate::event::Event;
use crate::machine::{Machine, Step};
use crate::with_first::WithFirst;
use bit_abbrev::Abbrev;
use bit_fields::{BitReader, Fault, Limits, Source, ValueTaker};
use std::alloc::{AllocError, Global};

impl Machine {
    /// The last definition that the innermost block made, if there is one: the one that was made anew, or else the one that is ready.
    #[tactic(auto, using(crate::proofs::Stepping::ready_is, crate::proofs::Stepping::some_lent))]
    pub(crate) fn newest<'a>(&'a self, made: &'a Option<Abbrev>) -> Option<&'a Abbrev>
        ensures { option_copied result ≡ lent made.now self.now.frames.items }
    {
        if let Some(abbrev) = made {
            return Some(abbrev);
        }
        match self.frames.last() {
            Some(frame) => frame.newest_ready(),
            None => None,
        }
    }

    /// The last definition that the innermost block made, made anew, if there is one and it is not ready.
    pub(crate) fn newest_made(&self) -> Result<Option<Abbrev>, AllocError>
        ensures { IfOk result (λ made. lent made self.now.frames.items ≡ newest self.now.frames.items) }
    {
        match self.frames.last() {
            Some(frame) => frame.newest_made(),
            None => Ok(None),
        }
    }

    /// Makes the definition of a step anew, if it is not ready. Nothing else changes.
    #[inline(always)]
    fn make_anew(&mut self, step: Step) -> Result<(), AllocError>
        ensures lends { OnOk result (Lendable self.new step) }
        ensures same { (made : Option (List Op)) × (self.new ≡ record self.old { made = made }) }
        ensures err { OnErr result (IsDefine step) }
    {
        match step {
            Step::Enter { .. } => Ok(()),
            Step::Define { .. } => {
                self.made = self.newest_made()?;
                Ok(())
            }
            Step::Record(_) => Ok(()),
            Step::Leave { .. } => Ok(()),
        }
    }

    /// Finds the next event as `next` does, to be lent: its definition is made anew, if it is not ready.
    pub(crate) fn next_lent<S: Source, V: ValueTaker>(
        &mut self,
        alloc: Global,
        reader: &mut BitReader<S>,
        limits: &Limits,
        values: &mut WithFirst<V>,
    ) -> Result<Option<Step>, Fault>
        requires live { reader.old.live ≡ true }
        requires aligned { vec_len self.old.frames ≡ 0 → reader.old.position % 8 ≡ 0 }
        requires took { TookSome V.took values.old.taker }
        ensures finds { Has V.took values.new.taker (λ list. FindsNext limits.now self.old
            reader.old list result self.new reader.new) }
        ensures keeps { IfOk result (λ found. IfSome found (λ step. KeepsValues step
            values.old.taker values.new.taker)) }
        ensures fewer { OnErr result (vec_len self.new.frames ≤ vec_len self.old.frames) }
        ensures lends { IfOk result (λ found. IfSome found (Lendable self.new)) }
    {
        let Some(step) = self.next(alloc, reader, limits, values)? else {
            return Ok(None);
        };
        match self.make_anew(step) {
            Ok(()) => Ok(Some(step)),
            Err(_) => Err(reader.fail(Fault::Memory)),
        }
    }
}

impl Step {
    /// The event, with these values and the definition that the machine holds.
    #[inline(always)]
    pub(crate) fn event<'a, L: Drop>(&self, machine: &'a Machine, values: L) -> Option<Event<'a, L>>
        ensures { (told : L → List ℕ) → shown_if_any told result
            ≡ step_lent machine.now (told values) self.now }
    {
        match *self {
            Step::Enter {
                id,
                width,
                first,
                body,
            } => Some(Event::Enter {
                id,
                width,
                first,
                body,
            }),
            Step::Define { first, after } => match machine.newest(&machine.made) {
                Some(abbrev) => Some(Event::Define {
                    abbrev,
                    first,
                    after,
                }),
                None => None,
            },
            Step::Record(head) => Some(Event::Record {
                abbrev: head.abbrev,
                code: head.code,
                values,
                first: head.first,
                after: head.after,
            }),
            Step::Leave { after } => Some(Event::Leave { after }),
        }
    }
}
