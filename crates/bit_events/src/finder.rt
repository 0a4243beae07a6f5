//! Finding the events of a stream, one at a time.

ghost use Rattle.std.specs.Prelude.{◌≡◌, ⊤, ℕ, List, ◌%◌, true, IfOk, IfErr};
ghost use Rattle.std.specs.Borrow.{Bor, sem, follows_so};
ghost use mathlib.Core.Option.{none};
ghost use Rattle.bit_fields.specs.Opening.{head_told};
ghost use Rattle.bit_events.specs.EventView.{shown_if_any};
ghost use Rattle.bit_events.specs.Folding.{GathersRest};
ghost use Rattle.bit_events.specs.Events.{Finds, LendsAs, Shuts, Begun, DeclinesEvents};

use crate::event::Event;
use crate::folding::gather_rest;
use crate::gatherer::Gatherer;
use crate::machine::{Machine, Step};
use crate::with_first::WithFirst;
use bit_fields::{BitReader, Fault, Head, Limits, PackedValues, Source, ValueKeeper};
use std::alloc::Global;
use std::marker::Model;

/// Finds the events of a stream, one at a time: a machine with one frame for each open block, and a value sink that keeps the
/// values of the last record.
///
/// After a fault it has failed, and every later call for an event returns `Failed`.
#[derive(Drop)]
pub struct EventFinder<S: Source, V: ValueKeeper> {
    alloc: Global,
    limits: Limits,
    head: Head,
    reader: BitReader<S>,
    machine: Machine,
    /// The values of the last record.
    values: WithFirst<V>,
    /// The last event.
    found: Option<Step>,
    /// The bit after the last event, or after the head.
    reached: u64,
    /// The whole input is accepted.
    over: bool,
}

impl<S: Source, V: ValueKeeper> Model for EventFinder<S, V> {
    ghost use Rattle.bit_events.specs.Coming.{Coming};
    ghost use Rattle.bit_events.specs.Events.{coming_of, IsEvents};

    ghost Value = { Coming };

    ghost view = { λ e. coming_of e.over e.limits e.head e.machine (V.kept e.values.taker) e.found
        e.reached e.reader };

    ghost invariant = { λ e. IsEvents e.over e.limits e.machine e.found e.reached e.reader };
}

impl<S: Source, V: ValueKeeper> EventFinder<S, V> {
    ghost use Rattle.bit_events.specs.contracts.finder.EventFinder.{the_row};

    /// Begins the events of an input: reads its wrapper, if there is one, and the magic of its stream. It allocates nothing.
    ///
    /// It refuses an input that breaks there, as `BitReader::start` does, and returns its source.
    pub fn start(alloc: Global, source: S, limits: Limits) -> Result<EventFinder<S, V>, (Fault, S)>
        ensures begun { IfOk result (λ events. Begun limits (S.incoming source) events) }
        ensures declined { IfErr result (λ refused. DeclinesEvents limits (S.incoming source)
            refused.0 (S.incoming refused.1)) }
    {
        // The cap of the limit is below 2^64 - 1, the end of a stream without a wrapper.
        let _bytes = limits.bytes();
        let (reader, head) = BitReader::start(source, limits)?;
        let reached = reader.position();
        Ok(EventFinder {
            alloc,
            limits,
            head,
            reader,
            machine: Machine::new(alloc, false),
            values: WithFirst::new(V::empty(alloc)),
            found: None,
            reached,
            over: false,
        })
    }

    /// The wrapper, if there is one, and the magic of the stream.
    pub fn head(&self) -> &Head
        ensures { head_told result.now ≡ self.now.head }
    {
        &self.head
    }

    /// Returns the source in its present state.
    pub fn into_source(self) -> S
        ensures { S.incoming result ≡ self.incoming }
    {
        self.reader.into_source()
    }

    /// The bit after the last event, or after the head, counted from the first bit of the input. A call that fails leaves it.
    pub fn position(&self) -> u64
        ensures { result ≡ self.now.position }
    {
        self.reached
    }

    /// The values of the last record; none before the first record.
    pub fn values(&self) -> &V
        ensures { V.kept result.now ≡ self.now.held }
    {
        &self.values.taker
    }

    /// Finds the next event and keeps it.
    pub(crate) fn find(&mut self) -> Result<(), Fault>
        ensures { Finds self.old result self.new }
    {
        if self.over {
            return Ok(());
        }
        if !self.reader.is_live() {
            return Err(Fault::Failed);
        }
        self.found = self.machine.next_lent(
            self.alloc,
            &mut self.reader,
            &self.limits,
            &mut self.values,
        )?;
        // Positions are below 2^64 and rise, so the events end.
        self.reached = self.reader.position();
        self.over = self.found.is_none();
        Ok(())
    }

    /// Gathers all remaining events, as `fold` does, with values of their own.
    ///
    /// After a refusal the gatherer has all events before its bit, and after another fault the first of them. If a call of the
    /// gatherer failed, that was at the next event.
    pub fn gather<G: Gatherer>(&mut self, gatherer: &mut G) -> Result<(), Fault>
        ensures { GathersRest G.gathered G.fails self.old gatherer.old result self.new gatherer.new }
    {
        if self.over {
            return Ok(());
        }
        if !self.reader.is_live() {
            return Err(Fault::Failed);
        }
        self.found = None;
        if let Err(fault) = gather_rest(
            self.alloc,
            &mut self.reader,
            &mut self.machine,
            &self.limits,
            gatherer,
        ) {
            self.machine.drop_blocks();
            return Err(fault);
        }
        self.reached = self.reader.position();
        self.over = true;
        Ok(())
    }

    /// The last event, with these values lent, or `None` before the first event.
    #[inline(always)]
    pub(crate) fn lend<'a, L: Drop>(&'a self, values: L) -> Option<Event<'a, L>>
        ensures { (told : L → List ℕ) → told values ≡ self.now.held
            → shown_if_any told result ≡ self.now.last }
    {
        match &self.found {
            None => None,
            Some(found) => found.event(&self.machine, values),
        }
    }

    /// The last event.
    #[inline(always)]
    fn event(&self) -> Option<Event<'_, &V>>
        ensures { shown_if_any (λ (values : Bor V). V.kept values.now) result ≡ self.now.last }
    {
        self.lend(&self.values.taker)
    }

    /// Returns the next event, or `None` if the whole input is accepted, and then `None` at every later call.
    ///
    /// A refusal comes after the events of all that is complete and lawful before it.
    pub fn next(&mut self) -> Result<Option<Event<'_, &V>>, Fault>
        ensures* { sem 𝓛 (follows_so (the_row S.row V.row S.Source V.ValueKeeper.own V.ValueTaker)
            (the_row S.row V.row S.Source V.ValueKeeper.own V.ValueTaker) self.entry.ghost_name none
            (λ _ _. ⊤) (λ v. LendsAs (λ (values : Bor V). V.kept values.now) self.old result v)) }
    {
        self.find()?;
        Ok(self.event())
    }
}

/// The events of a stream, with packed values.
pub type PackedEvents<S> = EventFinder<S, PackedValues>;

/// An event with packed values.
pub type PackedEvent<'a> = Event<'a, &'a PackedValues>;
