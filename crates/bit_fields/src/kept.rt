ghost use Rattle.std.specs.Prelude.{◌≡◌, ℕ, List, [], true, false, take, length, ◌-◌, ◌<◌, ◌≤◌, MatchResult, IfOk, OnErr, OnOk};
ghost use Rattle.bit_fields.specs.Devices.{keeps_of, GaveNone, IsFresh, Looked, Pulls, PullsUnseen};
ghost use Rattle.bit_fields.specs.Kept.{GrewBy, KeptBuffered};

use crate::source::{BLOCK, Source, SourceFailed};
use std::alloc::{AllocError, Global};

/// By how many bytes the list of kept bytes grows at most, unless more come at once.
const STEP: usize = 4 << 20;

/// Kept bytes, in a list that grows as they come.
#[derive(Drop)]
struct Kept {
    bytes: Vec<u8>,
    /// All bytes are kept: no allocation failed.
    whole: bool,
}

impl Kept {
    /// Makes room for `count` bytes. The list doubles up to a step and then grows by steps, so that at most a step of it is unused.
    #[inline(always)]
    fn make_room(&mut self, count: usize) -> Result<(), AllocError>
        ensures whole { self.new.whole ≡ self.old.whole }
        ensures bytes { self.new.bytes.items ≡ self.old.bytes.items }
    {
        if count <= self.bytes.capacity() - self.bytes.len() {
            return Ok(());
        }
        let more = self.bytes.len().min(STEP);
        self.bytes.reserve_exact(more.max(count))
    }

    /// Appends bytes to those that are kept.
    #[inline]
    fn keep(&mut self, bytes: &[u8])
        ensures { GrewBy bytes.now self.old self.new }
    {
        if !self.whole {
            return;
        }
        if self.make_room(bytes.len()).is_err() || self.bytes.extend_from_slice(bytes).is_err() {
            self.whole = false;
        }
    }

    /// Drops the last `count` bytes.
    fn give_up(&mut self, count: usize)
        ensures whole { self.new.whole ≡ self.old.whole }
        ensures bytes { self.new.bytes.items
            ≡ take (length self.old.bytes.items - count) self.old.bytes.items }
    {
        let len = self.bytes.len().saturating_sub(count);
        self.bytes.truncate(len);
    }
}

/// A source that gives the bytes of another one and keeps them in a list.
///
/// Its calls and counts are those of the other source. If an allocation for the list fails, it gives on and keeps nothing any more.
#[derive(Drop)]
pub struct KeptSource<S> {
    source: S,
    kept: Kept,
}

impl<S: Source> KeptSource<S> {
    /// A source that has kept nothing yet.
    pub fn new(alloc: Global, source: S) -> KeptSource<S>
        ensures { ⟦<KeptSource<S> as Source>⟧.incoming result
            ≡ keeps_of true [] (S.incoming source) }
    {
        KeptSource {
            source,
            kept: Kept {
                bytes: Vec::new(alloc),
                whole: true,
            },
        }
    }

    /// Returns all bytes that it gave, or that an allocation for them failed; and the other source in its present state.
    pub fn into_parts(self) -> (Result<Vec<u8>, AllocError>, S)
        ensures { MatchResult result.0 (λ bytes. ⟦<KeptSource<S> as Source>⟧.incoming self
            ≡ keeps_of true bytes.items (S.incoming result.1))
            (λ _. (bytes : List ℕ) × (⟦<KeptSource<S> as Source>⟧.incoming self
            ≡ keeps_of false bytes (S.incoming result.1))) }
    {
        if !self.kept.whole {
            return (Err(AllocError), self.source);
        }
        (Ok(self.kept.bytes), self.source)
    }

    /// Keeps the next buffered bytes before they are taken, at most `most`, and returns how many.
    #[inline]
    fn keep_buffered(&mut self, most: usize) -> Result<usize, SourceFailed>
        ensures looked { OnOk result (Looked (S.incoming self.old.source) (S.incoming self.new.source)) }
        ensures buffered { IfOk result (λ count. 0 < count → IsFresh (S.incoming self.new.source)
            × KeptBuffered count (S.incoming self.old.source).to_come self.old.kept self.new.kept) }
        ensures most { IfOk result (λ count. count ≤ most) }
        ensures none { IfOk result (λ count. count ≡ 0 → self.new.kept ≡ self.old.kept) }
        ensures failed { OnErr result (GaveNone (S.incoming self.old.source) (S.incoming self.new.source)
            × (self.new.kept ≡ self.old.kept)) }
    {
        if !self.source.look()? {
            return Ok(0);
        }
        let bytes = self.source.lend();
        let count = most.min(bytes.len());
        if count == 0 {
            return Ok(0);
        }
        self.kept.keep(&bytes[..count]);
        Ok(count)
    }

    /// Pulls from the other source and keeps what it gave.
    #[inline]
    fn pull_kept(&mut self, into: &mut [u8]) -> Result<usize, SourceFailed>
        ensures { Pulls (⟦<KeptSource<S> as Source>⟧.incoming self.old)
            (⟦<KeptSource<S> as Source>⟧.incoming self.new) result into.new }
    {
        let count = self.source.pull(into)?;
        self.kept.keep(&into[..count]);
        Ok(count)
    }

    /// Pulls a block of at most `most` bytes to skip, and keeps them.
    fn pass_block(&mut self, most: usize) -> Result<usize, SourceFailed>
        requires { 0 < most }
        ensures { PullsUnseen most (⟦<KeptSource<S> as Source>⟧.incoming self.old)
            (⟦<KeptSource<S> as Source>⟧.incoming self.new) result }
    {
        let mut block = [0; BLOCK];
        let room = most.min(BLOCK);
        self.pull_kept(&mut block[..room])
    }
}

impl<S: Source> Source for KeptSource<S> {
    ghost incoming = { λ s. keeps_of s.kept.whole s.kept.bytes.items (S.incoming s.source) };

    #[inline]
    fn pull(&mut self, into: &mut [u8]) -> Result<usize, SourceFailed> {
        self.pull_kept(into)
    }

    #[inline(always)]
    fn look(&mut self) -> Result<bool, SourceFailed> {
        self.source.look()
    }

    #[inline(always)]
    fn lend(&mut self) -> &[u8] {
        self.source.lend()
    }

    #[inline]
    fn pass(&mut self, most: usize) -> Result<usize, SourceFailed> {
        let count = self.keep_buffered(most)?;
        if count == 0 {
            return self.pass_block(most);
        }
        match self.source.pass(count) {
            Ok(done) => {
                self.kept.give_up(count - done);
                Ok(done)
            }
            Err(SourceFailed) => {
                self.kept.give_up(count);
                Err(SourceFailed)
            }
        }
    }
}
