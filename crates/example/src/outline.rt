//! An outline of an input, made of its events.

use bit_events::{Event, Events};
use bit_fields::{Fault, Limits, SliceSource};
use std::alloc::Global;
use std::fmt::{self, Display, Formatter, Write};

/// How many blocks, definitions, records and values an input has, and how deep its blocks are nested.
#[derive(Clone, Copy, Debug, Default, PartialEq, Eq)]
pub struct Outline {
    pub blocks: u64,
    pub definitions: u64,
    pub records: u64,
    pub values: u64,
    /// How many blocks are open.
    open: u64,
    pub deepest: u64,
}

impl Display for Outline {
    fn fmt<W: Write>(&self, f: &mut Formatter<W>) -> fmt::Result {
        writeln!(f, "{} blocks, {} deep", self.blocks, self.deepest)?;
        writeln!(f, "{} definitions", self.definitions)?;
        writeln!(f, "{} records with {} values", self.records, self.values)
    }
}

impl Outline {
    /// Counts an event.
    fn take(&mut self, event: Event<'_>) {
        match event {
            Event::Enter { .. } => {
                self.blocks = self.blocks.saturating_add(1);
                self.open = self.open.saturating_add(1);
                self.deepest = self.deepest.max(self.open);
            }
            Event::Define { .. } => self.definitions = self.definitions.saturating_add(1),
            Event::Record { values, .. } => {
                self.records = self.records.saturating_add(1);
                self.values = self.values.saturating_add(values.len() as u64);
            }
            Event::Leave { .. } => self.open = self.open.saturating_sub(1),
        }
    }
}

/// The outline of the bytes of an input, or the one refusal.
pub fn outline_of(alloc: Global, bytes: &[u8], limits: Limits) -> Result<Outline, Fault> {
    let mut events = Events::start(alloc, SliceSource::new(bytes), limits).map_err(|(
        fault,
        _,
    )| fault)?;
    let mut outline = Outline::default();
    while let Some(event) = events.next()? {
        outline.take(event);
    }
    Ok(outline)
}
