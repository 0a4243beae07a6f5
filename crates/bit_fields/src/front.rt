ghost use Rattle.std.specs.Prelude.{◌≡◌, ◌<◌, ◌≤◌, ◌+◌, ◌-◌, ◌^◌, ℕ, min, true, IfOk, OnErr};
ghost use Rattle.bit_fields.specs.Devices.{GaveNone};
ghost use Rattle.bit_fields.specs.Front.{front_of, left_after};

use crate::source::{Source, SourceFailed};

/// A source of the first bytes of another one, which takes no byte behind them.
///
/// Its counts are its own. At its end, and once the other source has failed, it asks that one for nothing.
#[derive(Drop)]
pub struct FrontSource<S> {
    source: S,
    /// How many bytes it may still take.
    left: u64,
    pulls: u64,
    failures: u64,
}

impl<S: Source> FrontSource<S> {
    /// A source of the first `count` bytes, or of all if there are fewer.
    pub fn new(source: S, count: u64) -> FrontSource<S>
        ensures { ⟦<FrontSource<S> as Source>⟧.incoming result
            ≡ front_of count 0 0 (S.incoming source) }
    {
        FrontSource {
            source,
            left: count,
            pulls: 0,
            failures: 0,
        }
    }

    /// Returns the other source in its present state.
    pub fn into_inner(self) -> S
        ensures { (left pulls failures : ℕ) × (⟦<FrontSource<S> as Source>⟧.incoming self
            ≡ front_of left pulls failures (S.incoming result)) }
    {
        self.source
    }

    /// Whether it may ask the other source.
    #[inline(always)]
    fn is_open(&self) -> bool
        ensures { result ≡ true → (0 < self.now.left) × (self.now.failures ≡ 0)
            × (self.now.pulls < 2 ^ 64 - 1) }
    {
        self.left > 0 && self.failures == 0 && self.pulls < u64::MAX
    }

    /// Counts a pull, and returns how many of `most` bytes it may take. After a failure each pull fails.
    #[inline(always)]
    fn begin(&mut self, most: usize) -> Result<usize, SourceFailed>
        ensures room { IfOk result (λ room. room ≡ min most self.old.left) }
        ensures began { IfOk result (λ room. (self.old.failures ≡ 0) × (self.old.pulls < 2 ^ 64 - 1)
            × (self.new ≡ record self.old { pulls = self.old.pulls + 1 })) }
        ensures failed { OnErr result (GaveNone (⟦<FrontSource<S> as Source>⟧.incoming self.old)
            (⟦<FrontSource<S> as Source>⟧.incoming self.new)) }
    {
        if self.pulls == u64::MAX || self.failures == u64::MAX {
            return Err(SourceFailed);
        }
        self.pulls += 1;
        if self.failures > 0 {
            self.failures += 1;
            return Err(SourceFailed);
        }
        Ok((most as u64).min(self.left) as usize)
    }

    /// The other source gave `count` bytes; none means that it is at its end.
    #[inline(always)]
    fn took(&mut self, count: usize)
        requires { count ≤ self.old.left }
        ensures { self.new ≡ record self.old { left = left_after self.old.left count } }
    {
        if count == 0 {
            self.left = 0;
        } else {
            self.left -= count as u64;
        }
    }
}

impl<S: Source> Source for FrontSource<S> {
    ghost incoming = { λ s. front_of s.left s.pulls s.failures (S.incoming s.source) };

    #[inline]
    fn pull(&mut self, into: &mut [u8]) -> Result<usize, SourceFailed> {
        let room = self.begin(into.len())?;
        if room == 0 {
            return Ok(0);
        }
        match self.source.pull(&mut into[..room]) {
            Ok(count) => {
                self.took(count);
                Ok(count)
            }
            Err(SourceFailed) => {
                self.failures = 1;
                Err(SourceFailed)
            }
        }
    }

    #[inline(always)]
    fn look(&mut self) -> Result<bool, SourceFailed> {
        if !self.is_open() {
            return Ok(false);
        }
        match self.source.look() {
            Ok(some) => Ok(some),
            Err(SourceFailed) => {
                self.pulls += 1;
                self.failures = 1;
                Err(SourceFailed)
            }
        }
    }

    #[inline(always)]
    fn lend(&mut self) -> &[u8] {
        if !self.is_open() {
            return &[];
        }
        let left = self.left;
        let bytes = self.source.lend();
        let count = (bytes.len() as u64).min(left) as usize;
        &bytes[..count]
    }

    #[inline(always)]
    fn pass(&mut self, most: usize) -> Result<usize, SourceFailed> {
        let room = self.begin(most)?;
        if room == 0 {
            return Ok(0);
        }
        match self.source.pass(room) {
            Ok(count) => {
                self.took(count);
                Ok(count)
            }
            Err(SourceFailed) => {
                self.failures = 1;
                Err(SourceFailed)
            }
        }
    }
}
