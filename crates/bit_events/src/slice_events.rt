//! The events of a slice of bytes, most of whose records are read in place.

ghost use Rattle.std.specs.Prelude.{◌≡◌, ◌<◌, ◌≤◌, ⊤, ℕ, List, [], None, IfOk, IfErr, IfSome, IfNone};
ghost use Rattle.std.specs.Borrow.{sem, follows_so};
ghost use mathlib.Core.Option.{none};
ghost use mir.Syntax.{named};
ghost use Rattle.bit_fields.specs.Opening.{head_told};
ghost use Rattle.bit_abbrev.specs.Values.{Gains, Keeps};
ghost use Rattle.bit_events.specs.Coming.{Coming, GivesEvent, PassesEvents, PassesNext, DropsEvents, BreaksOff, over};
ghost use Rattle.bit_events.specs.EventView.{lent, shown_if_any};
ghost use Rattle.bit_events.specs.Events.{Finds, Lends, Begun, DeclinesEvents};
ghost use Rattle.bit_events.specs.MachineView.{record_of, TookSome};
ghost use Rattle.bit_events.specs.Runs.{AddsBehind};

use crate::event::RecordHead;
use crate::finder::PackedEvent;
use crate::machine::{Machine, Step};
use crate::passing::{CountedRecord, RunCounter, pass_records};
use crate::with_first::WithFirst;
use bit_fields::{
    BitReader, Buffered, Fault, Head, Limits, PackedValues, PlacedBits, SliceSource, Source,
    ValueCount, ValueTaker,
};
use std::alloc::{AllocError, Global};
use std::marker::Model;

/// Counts records down.
#[derive(Drop)]
struct Passing {
    left: u64,
}

impl RunCounter for Passing {
    ghost use Rattle.std.specs.Prelude.{◌≡◌, ◌+◌, length};

    ghost counted = { λ first records last. first.left ≡ length records + last.left };

    #[inline(always)]
    fn count(&mut self, _passed: CountedRecord) -> Result<bool, AllocError> {
        if self.left == 0 {
            return Ok(false);
        }
        self.left -= 1;
        Ok(true)
    }
}

/// The events of a slice of bytes, one at a time. `record` reads a complete record, as most are, in place and gives its values to a
/// value sink. `next` finds every event, such records too, by a machine as `Events` does.
///
/// After a fault it has failed, and every later call for an event returns `Failed`.
#[derive(Drop)]
pub struct SliceEvents<'a> {
    alloc: Global,
    limits: Limits,
    head: Head,
    /// It is after the last event that it found, and not after the records that were read in place.
    reader: BitReader<SliceSource<'a>>,
    /// The bits after all events so far.
    buffered: Buffered<'a>,
    machine: Machine,
    /// The values of the last record that the reader found.
    values: WithFirst<PackedValues>,
    /// The last event that the reader found, if no record was read in place after it.
    found: Option<Step>,
    /// The whole input is accepted.
    over: bool,
}

impl<'a> Model for SliceEvents<'a> {
    ghost use Rattle.bit_events.specs.Coming.{Coming};
    ghost use Rattle.bit_events.specs.Events.{coming_of};
    ghost use Rattle.bit_events.specs.SliceEvents.{reader_seen, SeesEvents};

    ghost Value = { Coming };

    ghost view = { λ e. coming_of e.over e.limits e.head e.machine e.values.taker e.found e.buffered.position
        (reader_seen e.reader e.buffered) };

    ghost invariant = { λ e. SeesEvents e.over e.limits e.machine e.found e.reader e.buffered };
}

/// Drops the last event that the reader found and its values, so that values are held once. In a run of records only the first one
/// comes after such an event.
#[inline(always)]
fn forget(found: &mut Option<Step>, values: &mut WithFirst<PackedValues>)
    ensures { found.new ≡ None }
{
    if found.is_some() {
        values.clear();
        *found = None;
    }
}

impl<'a> SliceEvents<'a> {
    ghost use Rattle.bit_events.specs.contracts.slice_events.SliceEvents.{the_row};

    /// Begins the events of a slice: reads its wrapper, if there is one, and the magic of its stream. It allocates nothing.
    ///
    /// It refuses an input that breaks there, as `BitReader::start` does, and returns its source.
    pub fn start(
        alloc: Global,
        source: SliceSource<'a>,
        limits: Limits,
    ) -> Result<SliceEvents<'a>, (Fault, SliceSource<'a>)>
        ensures begun { IfOk result (λ events. Begun limits (⟦<SliceSource<'a> as Source>⟧.incoming source.entry)
            events) }
        ensures declined { IfErr result (λ refused. DeclinesEvents limits
            (⟦<SliceSource<'a> as Source>⟧.incoming source.entry) refused.0
            (⟦<SliceSource<'a> as Source>⟧.incoming refused.1)) }
    {
        // The cap of the limit is below 2^64 - 1, the end of a stream without a wrapper.
        let _bytes = limits.bytes();
        let (reader, head) = BitReader::start(source, limits)?;
        let buffered = Buffered::new(reader.parts_in_slice());
        Ok(SliceEvents {
            alloc,
            limits,
            head,
            reader,
            buffered,
            machine: Machine::new(alloc, false),
            values: WithFirst::new(PackedValues::new(alloc)),
            found: None,
            over: false,
        })
    }

    /// The wrapper, if there is one, and the magic of the stream.
    pub fn head(&self) -> &Head
        ensures { head_told result.now ≡ self.now.head }
    {
        &self.head
    }

    /// The bit after the last event, or after the head, counted from the first bit of the input. A call that fails leaves it.
    pub fn position(&self) -> u64
        ensures { result ≡ self.now.position }
    {
        self.buffered.position()
    }

    /// Reads the next event if it is a complete record: gives its values to the value sink and returns the record without them. If
    /// it is not, or if a value is not taken, it returns `None`, some values may have been added, and `next` finds the event.
    #[inline(always)]
    pub fn record<V: ValueTaker>(&mut self, values: &mut V) -> Option<RecordHead>
        requires took { TookSome V.took values.old }
        ensures gives { IfSome result (λ read. Gains V.took values.old values.new
            (AddsBehind (λ list. GivesEvent self.old
            (record_of read.«abbrev» list read.first (read.code, read.after))
            (record self.new { held = list })))) }
        ensures stays { IfNone result (self.new ≡ self.old) }
        ensures keeps { Keeps V.took values.old values.new }
    {
        if !self.reader.is_live() {
            return None;
        }
        let mut buffered = self.buffered.copy();
        let read = self
            .machine
            .buffered_step(&self.limits, &mut buffered, values)?;
        forget(&mut self.found, &mut self.values);
        self.buffered = buffered;
        Some(read)
    }

    /// Passes over the next records of the innermost block, at most `most`, and returns how many they are.
    #[inline(always)]
    fn pass_records(&mut self, most: u64) -> u64
        ensures few { result ≤ most }
        ensures passes { PassesEvents result self.old self.new }
        ensures stage { self.new.stage ≡ self.old.stage }
    {
        let Some(frame) = self.machine.frames.last() else {
            return 0;
        };
        if frame.info.is_some() || !self.reader.is_live() {
            return 0;
        }
        let parts = self.reader.parts_in_slice();
        let mut buffered = Buffered::new(parts);
        let start = buffered.position();
        let first = self.buffered.position();
        if buffered.len() < first - start {
            return 0;
        }
        let Some(bits) = PlacedBits::new(parts, first) else {
            return 0;
        };
        let room = self.limits.values().saturating_sub(self.machine.used);
        let mut passing = Passing { left: most };
        let width = u32::from(frame.head.width);
        let Ok(run) = pass_records(bits, width, &frame.definitions, room, &mut passing) else {
            return 0;
        };
        if passing.left == most {
            return 0;
        }
        buffered.skip(run.after - start);
        self.machine.used += room - run.room;
        forget(&mut self.found, &mut self.values);
        self.buffered = buffered;
        most - passing.left
    }

    /// Passes over the next event, if there is one, and returns whether there was.
    fn pass_one(&mut self) -> Result<bool, Fault>
        ensures { PassesNext self.old result self.new }
    {
        if let Some(_read) = self.record(&mut ValueCount::new()) {
            return Ok(true);
        }
        self.find()?;
        Ok(!self.over)
    }

    /// Passes over the next events, at most `most`, and returns how many they are: fewer only if the whole input is accepted. It fails
    /// as `next` does.
    pub fn pass(&mut self, most: u64) -> Result<u64, Fault>
        ensures few { IfOk result (λ count. count ≤ most) }
        ensures passes { IfOk result (λ count. PassesEvents count self.old self.new) }
        ensures all { IfOk result (λ count. count < most → self.new.stage ≡ over) }
        ensures fails { IfErr result (λ fault. (count : ℕ) × (mid : Coming)
            × PassesEvents count self.old mid × BreaksOff mid fault self.new) }
    {
        // Definitions that are found from here on get plans.
        self.machine.planned = true;
        let mut left = most;
        while left > 0 {
            left -= self.pass_records(left);
            if left > 0 {
                if !self.pass_one()? {
                    return Ok(most - left);
                }
                left -= 1;
            }
        }
        Ok(most - left)
    }

    /// Drops all events that are left. They are not read, and the input counts as accepted.
    pub fn drop_rest(&mut self)
        ensures { DropsEvents self.old self.new }
    {
        self.machine.drop_blocks();
        forget(&mut self.found, &mut self.values);
        self.over = true;
    }

    /// Finds the next event and keeps it.
    #[inline(always)]
    fn find(&mut self) -> Result<(), Fault>
        ensures { Finds self.old result self.new }
    {
        if self.over {
            return Ok(());
        }
        if !self.reader.is_live() {
            return Err(Fault::Failed);
        }
        self.reader
            .catch_up(self.buffered.position() - self.reader.position())?;
        let Some(step) = self.machine.next_lent(
            self.alloc,
            &mut self.reader,
            &self.limits,
            &mut self.values,
        )?
        else {
            self.found = None;
            self.over = true;
            return Ok(());
        };
        self.buffered = Buffered::new(self.reader.parts_in_slice());
        self.found = Some(step);
        Ok(())
    }

    /// The last event that the reader found.
    #[inline(always)]
    fn event(&self) -> Option<PackedEvent<'_>>
        ensures { shown_if_any lent result ≡ self.now.last }
    {
        match &self.found {
            None => None,
            Some(found) => found.event(&self.machine, &self.values.taker),
        }
    }

    /// Returns the next event, or `None` if the whole input is accepted, and then `None` at every later call.
    ///
    /// A refusal comes after the events of all that is complete and lawful before it.
    pub fn next(&mut self) -> Result<Option<PackedEvent<'_>>, Fault>
        ensures* { sem 𝓛 (follows_so (the_row (record { mir = named 1; lft = [] }))
            (the_row (record { mir = named 1; lft = [] })) self.entry.ghost_name none
            (λ _ _. ⊤) (λ v. Lends self.old result v)) }
    {
        self.find()?;
        Ok(self.event())
    }
}
