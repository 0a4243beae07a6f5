//! The task that the arguments ask for.

use bit_fields::Limits;
use bit_scan::{EventStyle, Format};
use bit_tree::{Info, RecordName};
use std::alloc::Global;

/// The part of a tree that is left out: the blocks with these ids, and the records with these names.
#[derive(Debug, PartialEq, Eq, Drop)]
pub struct LeftOut {
    pub blocks: Vec<u32>,
    pub records: Vec<RecordName>,
}

impl LeftOut {
    ghost use Rattle.std.specs.Prelude.{◌≡◌};
    ghost use Rattle.bit_grammar.specs.Setting.{keep, setting_of};
    ghost use Rattle.bitstool.specs.LeftOut.{setting_for};

    /// Nothing.
    pub fn nothing(alloc: Global) -> LeftOut
        ensures { setting_for result ≡ keep }
    {
        LeftOut {
            blocks: Vec::new(alloc),
            records: Vec::new(alloc),
        }
    }

    /// The setting that leaves this out.
    pub fn info(&self) -> Info<'_>
        ensures { setting_of result ≡ setting_for self.now }
    {
        Info::Without {
            blocks: &self.blocks,
            records: &self.records,
        }
    }
}

/// The report on two inputs that differ.
#[derive(Clone, Copy, Debug, PartialEq, Eq)]
pub enum Explain {
    /// Only that they differ.
    Word,
    /// Also where they first differ, in lines of text.
    Lines,
    /// The same as a line of JSON.
    Json,
}

/// A command with its options.
#[derive(Debug, PartialEq, Eq, Drop)]
pub enum Task {
    /// Say whether the input is accepted.
    Check {
        limits: Limits,
    },
    /// Write the normal form of the input.
    Normal {
        limits: Limits,
        left: LeftOut,
    },
    /// Compare the first `first` bytes of the input with the rest.
    Same {
        first: u64,
        explain: Explain,
        limits: Limits,
        left: LeftOut,
    },
    /// Report the totals of the input.
    Analyse {
        limits: Limits,
        format: Format,
    },
    /// List the blocks and records of the input.
    Show {
        limits: Limits,
        left: LeftOut,
    },
    /// List the events of the input as they are read.
    Events {
        limits: Limits,
        style: EventStyle,
    },
    /// Write the normal form of the tree that a listing spells.
    Assemble {
        limits: Limits,
    },
}

impl Task {
    ghost use Rattle.std.specs.Prelude.{◌≡◌};
    ghost use Rattle.bitstool.specs.Runs.{limits_of, most_shown};

    /// The limits on its input.
    pub fn limits(&self) -> Limits
        ensures { result ≡ limits_of self.now }
    {
        match self {
            Task::Check { limits } => *limits,
            Task::Normal { limits, .. } => *limits,
            Task::Same { limits, .. } => *limits,
            Task::Analyse { limits, .. } => *limits,
            Task::Show { limits, .. } => *limits,
            Task::Events { limits, .. } => *limits,
            Task::Assemble { limits } => *limits,
        }
    }

    /// The most bytes at the front of its input that a tip may tell of.
    pub fn most_shown(&self) -> u64
        ensures { result ≡ most_shown self.now }
    {
        match self {
            Task::Same { first, .. } => *first,
            _ => 8,
        }
    }
}

/// The meaning of the arguments.
#[derive(Debug, Drop)]
pub enum Parsed {
    /// A command to carry out.
    Task(Task),
    /// A text for the output.
    Help(String),
    /// A text for the errors.
    Usage(String),
    /// Memory ran out while the arguments were read.
    Memory,
}
