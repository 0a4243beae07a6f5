ghost use Rattle.std.specs.Prelude.{◌≡◌, ◌==◌, ◌+◌, ◌<◌, ◌^◌, true, Err, List, length, MatchOption};
ghost use Rattle.std.specs.List.{AllByRecursion};
ghost use Rattle.bit_fields.specs.Opening.{magic_number};
ghost use Rattle.bit_grammar.specs.Forest.{names_block, wrapper_magic};
ghost use Rattle.bit_norm.specs.Telling.{Begins, Call, HasTold, IsFit, Tells, begins, behind_record, ends, fits, holds, inside_block, place_of, takes_block, takes_record, tree_told};
ghost use Rattle.bit_norm.specs.Writing.{WritesForm};

use crate::form_builder::FormBuilder;
use crate::normalising::give;
use crate::writing::number_of_magic;
use bit_events::Gatherer;
use bit_fields::{Fault, Limits, Sink};
use bit_grammar::{SET_BID, WRAPPER_MAGIC};
use bit_tree::Info;
use std::alloc::{AllocError, Global};
use thiserror::Error;

/// What may come in the innermost open block.
#[derive(Clone, Copy, Debug, PartialEq, Eq)]
pub(crate) enum Inside {
    /// Any block or record.
    Any,
    /// The first record of a BLOCKINFO block, which sets the described block.
    NewInfo,
    /// Another record of a BLOCKINFO block.
    Info,
}

/// Why a writer did not take an item.
#[derive(Clone, Copy, Debug, PartialEq, Eq, Error)]
pub enum Untold {
    /// No tree within the limits has it there.
    #[error("the item does not fit here")]
    Misplaced,
    #[error("out of memory")]
    Memory,
}

/// Whether the first value is a block id.
fn names_block(values: &[u64]) -> bool
    ensures { result ≡ names_block values.now }
{
    match values {
        [] => false,
        [id, ..] => *id < 1 << 32,
    }
}

/// Values have 64 bits, by their type.
fn known_values(values: &[u64])
    ensures { AllByRecursion (λ v. v < 2 ^ 64) values.now }
{}

impl Inside {
    /// What may come in a block with this id.
    fn of_block(id: u32) -> Inside
        ensures { result ≡ inside_block id }
    {
        if id == 0 {
            Inside::NewInfo
        } else {
            Inside::Any
        }
    }

    fn takes_block(self) -> bool
        ensures { result ≡ takes_block self }
    {
        match self {
            Inside::Any => true,
            Inside::NewInfo | Inside::Info => false,
        }
    }

    fn takes_record(self, code: u64, values: &[u64]) -> bool
        ensures { result ≡ takes_record self code values.now }
    {
        match self {
            Inside::Any => true,
            Inside::NewInfo => code == SET_BID && names_block(values),
            Inside::Info => code != SET_BID || names_block(values),
        }
    }

    /// What may come after a record.
    fn behind_record(self) -> Inside
        ensures { result ≡ behind_record self }
    {
        match self {
            Inside::Any => Inside::Any,
            Inside::NewInfo | Inside::Info => Inside::Info,
        }
    }
}

/// Writes the normal form of a tree that its calls describe in order: the beginning of a block, a record, the end of the innermost
/// block. An item that no tree within the limits has there is refused, and changes nothing. The writer holds the form so far, and
/// 16 bytes for each open block.
///
/// Once an allocation has failed, each call returns `Untold::Memory` and changes nothing, and `finish` returns `Failed`.
#[derive(Drop)]
pub struct FormWriter {
    builder: FormBuilder<'static>,
    limits: Limits,
    magic: [u8; 4],
    depth: u32,
    inside: Inside,
    values: u64,
    /// Whether an allocation has failed.
    has_failed: bool,
}

impl FormWriter {
    /// A writer that has taken no item. `None` if the magic is that of a wrapper.
    pub fn new(alloc: Global, magic: [u8; 4], limits: Limits) -> Option<FormWriter>
        ensures { MatchOption result (magic_number magic ≡ wrapper_magic)
            (λ writer. Begins magic limits writer) }
    {
        if number_of_magic(magic) == WRAPPER_MAGIC {
            return None;
        }
        // The limits are within their caps.
        let _bytes = limits.bytes();
        let builder = FormBuilder::new(alloc, Info::Keep, limits);
        Some(FormWriter {
            builder,
            limits,
            magic,
            depth: 0,
            inside: Inside::Any,
            values: 0,
            has_failed: false,
        })
    }

    /// Whether a block may begin.
    fn fits_block(&self, id: u32) -> bool
        ensures fits { result ≡ fits self.now.limits (place_of self.now) (begins id) }
        ensures few { result ≡ true → self.now.depth < 255 }
    {
        self.inside.takes_block() && self.depth < self.limits.depth()
    }

    /// Whether a record may come.
    fn fits_record(&self, code: u64, values: &[u64]) -> bool
        ensures fits { result ≡ fits self.now.limits (place_of self.now) (holds code values.now) }
        ensures few { result ≡ true → self.now.values + length values.now < 2 ^ 64 }
    {
        let count = self.values.saturating_add(values.len() as u64);
        self.depth > 0 && self.inside.takes_record(code, values) && count <= self.limits.values()
    }

    /// Notes that an allocation failed.
    #[cold]
    fn fail(&mut self) -> Untold
        ensures failed { self.new.has_failed ≡ true }
        ensures why { result ≡ Untold.Memory }
    {
        self.has_failed = true;
        Untold::Memory
    }

    /// Begins a block.
    pub fn enter(&mut self, id: u32) -> Result<(), Untold>
        ensures { Tells (begins id) self.old result self.new }
    {
        if self.has_failed {
            return Err(Untold::Memory);
        }
        if !self.fits_block(id) {
            return Err(Untold::Misplaced);
        }
        match self.builder.enter(id, 2, 0, 0) {
            Ok(()) => {
                self.depth += 1;
                self.inside = Inside::of_block(id);
                Ok(())
            }
            Err(AllocError) => Err(self.fail()),
        }
    }

    /// Adds a record to the innermost block.
    pub fn record(&mut self, code: u64, values: &[u64]) -> Result<(), Untold>
        ensures { Tells (holds code values.now) self.old result self.new }
    {
        if self.has_failed {
            return Err(Untold::Memory);
        }
        if !self.fits_record(code, values) {
            return Err(Untold::Misplaced);
        }
        known_values(values);
        match self.builder.add_values(code, values) {
            Ok(()) => {
                self.inside = self.inside.behind_record();
                self.values += values.len() as u64;
                Ok(())
            }
            Err(AllocError) => Err(self.fail()),
        }
    }

    /// Ends the innermost block.
    pub fn leave(&mut self) -> Result<(), Untold>
        ensures { Tells ends self.old result self.new }
    {
        if self.has_failed {
            return Err(Untold::Memory);
        }
        if self.depth == 0 {
            return Err(Untold::Misplaced);
        }
        match self.builder.leave(0) {
            Ok(()) => {
                self.depth -= 1;
                self.inside = Inside::Any;
                Ok(())
            }
            Err(AllocError) => Err(self.fail()),
        }
    }

    /// How many blocks are open.
    pub fn depth(&self) -> u32
        ensures { result ≡ (place_of self.now).depth }
    {
        self.depth
    }

    /// How many values all records have so far.
    pub fn values(&self) -> u64
        ensures { result ≡ (place_of self.now).values }
    {
        self.values
    }

    /// Whether no block is open.
    pub fn is_complete(&self) -> bool
        ensures { result ≡ ((place_of self.now).depth == 0) }
    {
        self.depth == 0
    }

    /// Gives a sink the normal form of the tree, and returns its length in bytes.
    ///
    /// `OutputTooLong`, if the form is longer than the limit on bytes, and `Failed`, after a failed allocation, give the sink nothing;
    /// after `Write` it has a prefix of it.
    pub fn finish<K: Sink>(self, sink: K) -> (Result<u64, Fault>, K)
        requires { (place_of self).depth ≡ 0 }
        ensures form { (calls : List Call) → HasTold calls self
            → WritesForm (tree_told self.magic calls) self.limits.bytes (K.outgoing sink) result.0
            (K.outgoing result.1) }
        ensures fit { (calls : List Call) → HasTold calls self
            → IsFit self.limits (tree_told self.magic calls) }
        ensures over { self.has_failed ≡ true
            → (result.0 ≡ Err Fault.Failed) × (K.outgoing result.1 ≡ K.outgoing sink) }
    {
        if self.has_failed {
            return (Err(Fault::Failed), sink);
        }
        let FormWriter {
            builder,
            magic,
            limits: _,
            depth: _,
            inside: _,
            values: _,
            has_failed: _,
        } = self;
        match builder.finish() {
            Some(text) => {
                // The form of a tree is whole words.
                if text.len() % 32 != 0 {
                    return (Err(Fault::Failed), sink);
                }
                give(magic, text, sink)
            }
            None => (Err(Fault::OutputTooLong), sink),
        }
    }
}
