//! The events of a stream, one at a time.

ghost use Rattle.std.specs.Prelude.{◌≡◌, ⊤, IfOk, IfErr};
ghost use Rattle.std.specs.Borrow.{sem, follows_so};
ghost use mathlib.Core.Option.{none};
ghost use Rattle.bit_fields.specs.Opening.{head_told};
ghost use Rattle.bit_events.specs.EventView.{lent, shown_if_any};
ghost use Rattle.bit_events.specs.Events.{Lends, Begun, DeclinesEvents};

use crate::event::Event;
use crate::finder::EventFinder;
use bit_fields::{Fault, Head, Limits, Source};
use std::alloc::Global;
use std::marker::Model;

/// The events of a stream, one at a time: a machine with one frame for each open block, and one list with the values of the last
/// record.
///
/// After a fault it has failed, and every later call for an event returns `Failed`.
#[derive(Drop)]
pub struct Events<S: Source> {
    finder: EventFinder<S, Vec<u64>>,
}

impl<S: Source> Model for Events<S> {
    ghost use Rattle.bit_events.specs.Coming.{Coming};

    ghost Value = { Coming };

    ghost view = { λ e. e.finder };
}

impl<S: Source> Events<S> {
    ghost use Rattle.bit_events.specs.contracts.events.Events.{the_row};

    /// Begins the events of an input: reads its wrapper, if there is one, and the magic of its stream. It allocates nothing.
    ///
    /// It refuses an input that breaks there, as `BitReader::start` does, and returns its source.
    pub fn start(alloc: Global, source: S, limits: Limits) -> Result<Events<S>, (Fault, S)>
        ensures begun { IfOk result (λ events. Begun limits (S.incoming source) events) }
        ensures declined { IfErr result (λ refused. DeclinesEvents limits (S.incoming source)
            refused.0 (S.incoming refused.1)) }
    {
        let finder = EventFinder::start(alloc, source, limits)?;
        Ok(Events { finder })
    }

    /// The wrapper, if there is one, and the magic of the stream.
    pub fn head(&self) -> &Head
        ensures { head_told result.now ≡ self.now.head }
    {
        self.finder.head()
    }

    /// Returns the source in its present state.
    pub fn into_source(self) -> S
        ensures { S.incoming result ≡ self.incoming }
    {
        self.finder.into_source()
    }

    /// The bit after the last event, or after the head, counted from the first bit of the input. A call that fails leaves it.
    pub fn position(&self) -> u64
        ensures { result ≡ self.now.position }
    {
        self.finder.position()
    }

    /// The values of the last record; none before the first record.
    pub fn values(&self) -> &[u64]
        ensures { result.now ≡ self.now.held }
    {
        self.finder.values().as_slice()
    }

    /// The last event.
    #[inline(always)]
    fn event(&self) -> Option<Event<'_>>
        ensures { shown_if_any lent result ≡ self.now.last }
    {
        self.finder.lend(self.finder.values().as_slice())
    }

    /// Returns the next event, or `None` if the whole input is accepted, and then `None` at every later call.
    ///
    /// A refusal comes after the events of all that is complete and lawful before it.
    pub fn next(&mut self) -> Result<Option<Event<'_>>, Fault>
        ensures* { sem 𝓛 (follows_so (the_row S.row S.Source) (the_row S.row S.Source)
            self.entry.ghost_name none (λ _ _. ⊤) (λ v. Lends self.old result v)) }
    {
        self.finder.find()?;
        Ok(self.event())
    }
}
