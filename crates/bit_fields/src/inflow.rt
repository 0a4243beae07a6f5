ghost use Rattle.std.specs.Prelude.{ℕ, ◌≡◌, ◌+◌, ◌*◌, ◌-◌, ◌<◌, ◌≤◌, ◌^◌, length, true, false, take, drop, [], OnOk, IfOk};
ghost use Rattle.bit_grammar.specs.Bits.{number, bits_of};
ghost use Rattle.bit_fields.specs.Inflow.{Brings, Misses, Fills, StepsBytes, SkipsSome, Drains, DrainsSome, LooksOn, LooksOver, LiesBehind, stop_of, flow_ended_at, to_drain};
ghost use Rattle.std.specs.Borrow.{sem};
ghost use Rattle.bit_fields.specs.Devices.{IsFresh};
ghost use Rattle.std.specs.Io.BufRead.{Rests};

use crate::source::{SliceSource, Source, SourceFailed, pull_word};
use crate::window::Window;
use std::marker::Model;

/// Why bits are missing.
#[derive(Clone, Copy, Debug, PartialEq, Eq)]
pub enum Missing {
    /// The stream ends.
    End,
    /// The limit on bytes is reached, and the stream goes on.
    Limit,
    /// The source failed.
    Read,
}

/// A source with a window over its next bits, up to a limit on bytes.
#[derive(Drop)]
pub struct Inflow<S: Source> {
    window: Window,
    source: S,
    loaded: u64,
    end: u64,
    limit: u64,
    ended: bool,
}

impl<S: Source> Model for Inflow<S> {
    ghost use Rattle.bit_fields.specs.Inflow.{Flow, IsFlow};

    ghost Value = { Flow };

    ghost view = { λ f. record {
      window = f.window;
      incoming = S.incoming f.source;
      loaded = f.loaded;
      end = f.end;
      limit = f.limit;
      ended = f.ended;
    } };

    ghost invariant = { λ f. IsFlow (record {
      window = f.window;
      incoming = S.incoming f.source;
      loaded = f.loaded;
      end = f.end;
      limit = f.limit;
      ended = f.ended;
    }) };
}

impl<S: Source> Inflow<S> {
    ghost use Rattle.bit_fields.specs.contracts.inflow.Inflow.{the_row};

    /// All that a source has, up to a limit on bytes.
    pub fn new(source: S, limit: u64) -> Inflow<S>
        requires { limit < 2 ^ 35 }
        ensures { result ≡ record {
          window = [];
          incoming = S.incoming source;
          loaded = 0;
          end = u64.MAX;
          limit = limit;
          ended = false;
        } }
    {
        Inflow {
            window: Window::new(),
            source,
            loaded: 0,
            end: u64::MAX,
            limit,
            ended: false,
        }
    }

    /// Returns the source in its present state.
    pub fn into_source(self) -> S
        ensures { S.incoming result ≡ self.incoming }
    {
        self.source
    }

    /// How many bits are in the window.
    pub fn bits_held(&self) -> u32
        ensures held { result ≡ length self.now.window }
        ensures most { result ≤ 64 }
    {
        self.window.len()
    }

    /// At the limit on bytes, or at the end that a wrapper named: whether the input goes on past the limit.
    #[cold]
    #[inline(never)]
    fn past(&mut self) -> Missing
        requires going { self.old.ended ≡ false }
        requires stop { stop_of self.old ≤ self.old.loaded }
        ensures { Misses self.old self.new result }
    {
        if self.end <= self.limit {
            return Missing::End;
        }
        if self.loaded > self.limit {
            return Missing::Limit;
        }
        match self.source.pull(&mut [0]) {
            Ok(0) => {
                self.ended = true;
                Missing::End
            }
            Ok(_) => {
                self.loaded += 1;
                Missing::Limit
            }
            Err(SourceFailed) => Missing::Read,
        }
    }

    /// Loads as many bytes into the window as it has room for.
    #[inline(always)]
    fn more(&mut self) -> Result<(), Missing>
        requires { length self.old.window ≤ 56 }
        ensures { Brings self.old self.new result }
    {
        if self.ended {
            return Err(Missing::End);
        }
        let stop = self.end.min(self.limit);
        if self.loaded >= stop {
            return Err(self.past());
        }
        let room = u64::from((64 - self.window.len()) / 8).min(stop - self.loaded) as usize;
        match pull_word(&mut self.source, room) {
            Ok((_, 0)) => {
                self.ended = true; // and is not pulled again
                Err(Missing::End)
            }
            Ok((word, count)) => {
                self.window.push(word, 8 * count as u32);
                self.loaded += count as u64;
                Ok(())
            }
            Err(SourceFailed) => Err(Missing::Read),
        }
    }

    /// Makes sure that n bits are in the window. It is kept out of its callers, so that they take few instructions if the bits are
    /// there, and its result fits a register.
    #[inline(never)]
    pub fn fill(&mut self, n: u32) -> Result<(), Missing>
        requires { n ≤ 57 }
        ensures { Fills n self.old self.new result }
    {
        while self.window.len() < n {
            self.more()?;
        }
        Ok(())
    }

    /// Takes the number of the first n bits.
    pub fn take(&mut self, n: u32) -> u64
        requires few { n ≤ 32 }
        requires there { n ≤ length self.old.window }
        ensures value { result ≡ number (take n self.old.window) }
        ensures rest { self.new ≡ record self.old { window = drop n self.old.window } }
        ensures loaded { self.old.loaded ≤ 2 ^ 35 }
        ensures below { result < 2 ^ n }
    {
        self.window.take(n)
    }

    /// The number of the first n bits.
    pub fn peek(&self, n: u32) -> u64
        requires few { n ≤ 32 }
        requires there { n ≤ length self.now.window }
        ensures { result ≡ number (take n self.now.window) }
    {
        self.window.peek(n)
    }

    /// The word of the bits in the window, and how many bits it has.
    #[inline(always)]
    pub fn window(&self) -> (u64, u32)
        ensures bits { bits_of result.1 result.0 ≡ self.now.window }
        ensures below { result.0 < 2 ^ result.1 }
        ensures most { result.1 ≤ 64 }
        ensures loaded { self.now.loaded ≤ 2 ^ 35 }
    {
        self.window.parts()
    }

    /// Looks for buffered bytes of the stream after the window, and takes none. Returns whether `lend` has any to lend. Fails only
    /// if the source does.
    #[inline(always)]
    pub fn look(&mut self) -> Result<bool, SourceFailed>
        ensures looks { LooksOver self.old result self.new }
        ensures fresh { IfOk result (λ some. some ≡ true → IsFresh self.new.incoming) }
    {
        if self.ended || self.loaded >= self.end.min(self.limit) {
            return Ok(false);
        }
        self.source.look()
    }

    /// Lends buffered bytes of the stream after the window, possibly none.
    #[inline(always)]
    pub fn lend(&mut self) -> &[u8]
        requires { IsFresh self.old.incoming }
        ensures front { LiesBehind self.old result.now }
        ensures few { length result.now ≤ 2 ^ 35 }
        ensures* rests { sem 𝓛 (Rests (the_row S.row S.Source) self.entry
            (λ new. LooksOn self.old new)) }
    {
        if self.ended {
            return &[];
        }
        let room = self.end.min(self.limit).saturating_sub(self.loaded) as usize;
        let bytes = self.source.lend();
        &bytes[..room.min(bytes.len())]
    }

    /// Drops the bits that are in the window.
    pub fn clear(&mut self)
        ensures { self.new ≡ record self.old { window = [] } }
    {
        self.window = Window::new();
    }

    /// Ends the stream at a byte.
    pub fn shorten(&mut self, end: u64)
        requires { end < 2 ^ 60 }
        ensures shortened { self.new ≡ flow_ended_at self.old end }
        ensures limit { self.old.limit < 2 ^ 35 }
    {
        let over = 8 * self.loaded.min(self.limit).saturating_sub(end);
        if over > 0 {
            let kept = u64::from(self.window.len()).saturating_sub(over) as u32;
            self.window.keep(kept);
        }
        self.end = end;
    }

    /// Skips bytes of the stream, at most `most`, and returns how many.
    pub fn pass(&mut self, most: u64) -> Result<u64, Missing>
        requires some { 0 < most }
        requires empty { self.old.window ≡ [] }
        ensures { StepsBytes most self.old self.new result }
    {
        if self.ended {
            return Err(Missing::End);
        }
        let stop = self.end.min(self.limit);
        if self.loaded >= stop {
            return Err(self.past());
        }
        let room = most.min(stop - self.loaded) as usize;
        match self.source.pass(room) {
            Ok(0) => {
                self.ended = true;
                Err(Missing::End)
            }
            Ok(count) => {
                self.loaded += count as u64;
                Ok(count as u64)
            }
            Err(SourceFailed) => Err(Missing::Read),
        }
    }

    /// Skips bits of the stream, at least one and at most `most`, and returns how many: those in the window, or else a block of
    /// bytes.
    pub fn skip(&mut self, most: u64) -> Result<u64, Missing>
        requires { 0 < most }
        ensures skips { SkipsSome most self.old self.new result }
        ensures loaded { OnOk result (self.new.loaded ≤ 2 ^ 35) }
    {
        if self.window.len() == 0 {
            if most >= 8 {
                let count = self.pass(most / 8)?;
                return Ok(8 * count);
            }
            self.fill(1)?;
        }
        let count = most.min(u64::from(self.window.len()));
        self.window.skip(count as u32);
        Ok(count)
    }

    /// Takes some of the bytes that the source still has.
    fn drain_some(&mut self) -> Result<(), Missing>
        requires { self.old.ended ≡ false }
        ensures drains { DrainsSome self.old self.new result }
        ensures fewer { OnOk result (to_drain self.new < to_drain self.old) }
    {
        if self.loaded > self.limit {
            return Err(Missing::Limit);
        }
        let room = (self.limit + 1 - self.loaded) as usize;
        match self.source.pass(room) {
            Ok(0) => {
                self.ended = true;
                Ok(())
            }
            Ok(count) => {
                self.loaded += count as u64;
                Ok(())
            }
            Err(SourceFailed) => Err(Missing::Read), // nothing is asked after a failure
        }
    }

    /// Takes all bytes that the source still has.
    pub fn drain(&mut self) -> Result<(), Missing>
        ensures { Drains self.old self.new result }
    {
        while !self.ended {
            self.drain_some()?;
        }
        Ok(())
    }

    /// The byte at which the stream ends, unless its source ends before.
    pub fn end(&self) -> u64
        ensures { result ≡ self.now.end }
    {
        self.end
    }

    /// The limit on bytes.
    pub fn limit(&self) -> u64
        ensures limit { result ≡ self.now.limit }
        ensures most { result < 2 ^ 35 }
    {
        self.limit
    }
}

impl<'a> Inflow<SliceSource<'a>> {
    /// The buffered bytes of the stream after the window, possibly none. They are lent for as long as the slice lives.
    #[inline(always)]
    pub fn slice(&self) -> &'a [u8]
        ensures front { LiesBehind self.now result.now }
        ensures few { length result.now ≤ 2 ^ 35 }
    {
        if self.ended {
            return &[];
        }
        let room = self.end.min(self.limit).saturating_sub(self.loaded) as usize;
        let bytes = self.source.rest();
        &bytes[..room.min(bytes.len())]
    }
}
