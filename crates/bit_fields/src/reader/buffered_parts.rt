//! Bits that are read from the buffer and taken afterwards, and bits that are skipped.

ghost use Rattle.std.specs.Prelude.{◌≡◌, ◌+◌, ◌*◌, ◌<◌, ◌≤◌, ◌^◌, true, false, OnErr, OnOk, IfOk, IfErr};
ghost use Rattle.std.specs.Borrow.{sem};
ghost use Rattle.std.specs.Io.BufRead.{Rests};
ghost use Rattle.bit_fields.specs.Devices.{IsFresh};
ghost use Rattle.bit_grammar.specs.Grammar.{gives};
ghost use Rattle.bit_grammar.specs.Input.{any_bits};
ghost use Rattle.bit_fields.specs.Reader.{Takes, Took, Why, NeedsNoMemory};
ghost use Rattle.bit_fields.specs.Short.{TookNothing};
ghost use Rattle.bit_fields.specs.Buffered.{Sees};
ghost use Rattle.bit_fields.specs.BufferedParts.{bits_of_parts, AreParts, Shown, LendsParts};
ghost use Rattle.bit_fields.specs.Inside.{gap_of, TookGap};

use crate::buffered::BufferedParts;
use crate::fault::Fault;
use crate::inflow::Missing;
use crate::reader::BitReader;
use crate::source::{SliceSource, Source, SourceFailed};

impl<S: Source> BitReader<S> {
    ghost use Rattle.bit_fields.specs.contracts.reader.BitReader.{the_row};

    /// Lends the next bits that are buffered, for `Buffered` to read, and takes none of them.
    ///
    /// It fails only if the source does.
    #[inline(always)]
    pub fn buffered_parts(&mut self) -> Result<BufferedParts<'_>, Fault>
        ensures lawful { IfOk result (λ buffered_parts. AreParts buffered_parts) }
        ensures* shows { sem 𝓛 (Rests (the_row S.row S.Source) self.entry
            (λ new. LendsParts self.old result new)) }
    {
        if self.look()? {
            Ok(self.window_and_bytes())
        } else {
            Ok(self.in_window())
        }
    }

    /// Looks for bytes after the window, and returns whether there are any.
    #[inline(always)]
    fn look(&mut self) -> Result<bool, Fault>
        ensures looks { OnOk result (TookNothing self.old self.new) }
        ensures fresh { IfOk result (λ some. some ≡ true → IsFresh self.new.incoming) }
        ensures missed { IfErr result (λ fault. Why (gives (tt {0})) self.old fault self.new) }
        ensures stays { self.new.position ≡ self.old.position }
    {
        if !self.live {
            return Err(Fault::Failed);
        }
        let first = self.position;
        match self.inflow.look() {
            Ok(some) => Ok(some),
            Err(SourceFailed) => Err(self.fail_at(Fault::Read, first)),
        }
    }

    /// Lends the bits in the window and the bytes after it.
    #[inline(always)]
    fn window_and_bytes(&mut self) -> BufferedParts<'_>
        requires live { self.old.live ≡ true }
        requires fresh { IsFresh self.old.incoming }
        ensures lawful { AreParts result }
        ensures* shown { sem 𝓛 (Rests (the_row S.row S.Source) self.entry
            (λ new. Shown self.old result new)) }
    {
        let (word, held) = self.inflow.window();
        let position = self.position;
        let bytes = self.inflow.lend();
        BufferedParts {
            word,
            held,
            bytes,
            position,
        }
    }

    /// Lends the bits in the window.
    #[inline(always)]
    fn in_window(&self) -> BufferedParts<'_>
        requires { self.now.live ≡ true }
        ensures lawful { AreParts result }
        ensures sees { Sees self.now (bits_of_parts result) }
    {
        let (word, held) = self.inflow.window();
        BufferedParts {
            word,
            held,
            bytes: &[],
            position: self.position,
        }
    }

    /// Skips `bits` bits: those that were read from the buffer, or a gap.
    ///
    /// Fewer bits are `Truncated` at the first of them.
    #[inline(never)]
    pub fn catch_up(&mut self, bits: u64) -> Result<(), Fault>
        ensures takes { Takes (any_bits bits) self.old result self.new }
        ensures memory { NeedsNoMemory result }
        ensures stays { OnErr result (self.new.position ≡ self.old.position) }
        ensures moves { OnOk result (self.new.position ≡ self.old.position + bits) }
    {
        if !self.live {
            return Err(Fault::Failed);
        }
        let first = self.position;
        let mut left = bits;
        while left > 0 {
            let count = self.skip_some(first, first, left)?;
            left -= count;
        }
        Ok(())
    }

    /// Skips `bits` bits as `catch_up` does. The window then has `held` bits, up to 64, if they are there: as many as after reading
    /// these bits field by field, so that the source is asked for more bytes no earlier and no later.
    pub fn catch_up_holding(&mut self, bits: u64, held: u32) -> Result<(), Fault>
        requires { held ≤ 64 }
        ensures takes { Takes (any_bits bits) self.old result self.new }
        ensures memory { NeedsNoMemory result }
        ensures stays { OnErr result (self.new.position ≡ self.old.position) }
        ensures moves { OnOk result (self.new.position ≡ self.old.position + bits) }
    {
        if held == 0 {
            return self.catch_up(bits);
        }
        if !self.live {
            return Err(Fault::Failed);
        }
        let first = self.position;
        let mut left = bits;
        while left > 0 {
            let count = self.skip_holding(first, left, held)?;
            left -= count;
        }
        Ok(())
    }

    /// Skips bits of what began at `first`, at least one and at most `left`, and returns how many. The window is loaded where 64 bits
    /// from there are as far as `held` bits after the last one of `left`.
    fn skip_holding(&mut self, first: u64, left: u64, held: u32) -> Result<u64, Fault>
        requires live { self.old.live ≡ true }
        requires first { first ≤ self.old.position }
        requires some { 0 < left }
        requires held { held ≤ 64 }
        ensures takes { IfOk result (λ count. TookGap first left count self.old self.new) }
        ensures misses { IfErr result (λ fault. Why (gap_of first 1) self.old fault self.new) }
        ensures memory { NeedsNoMemory result }
        ensures stays { OnErr result (self.new.position ≡ first) }
    {
        let late = 64 - u64::from(held);
        if left > late {
            return self.skip_some(first, first, left - late);
        }
        self.load(first, left as u32 + held)?;
        self.skip_some(first, first, left)
    }

    /// Asks once for bytes to load into the window, as many as it has room for, unless it has n bits. It is a part of a call that began
    /// at `first`, and fails only if the source does.
    fn load(&mut self, first: u64, n: u32) -> Result<(), Fault>
        requires live { self.old.live ≡ true }
        ensures loads { OnOk result (TookNothing self.old self.new) }
        ensures missed { IfErr result (λ fault. Why (gap_of first 1) self.old fault self.new) }
        ensures memory { NeedsNoMemory result }
        ensures place { OnOk result (self.new.position ≡ self.old.position) }
        ensures stays { OnErr result (self.new.position ≡ first) }
    {
        let held = self.inflow.bits_held();
        if held >= n || held > 56 {
            return Ok(());
        }
        match self.inflow.fill(held + 1) {
            Err(Missing::Read) => Err(self.miss(Missing::Read, first)),
            Ok(()) | Err(Missing::End) | Err(Missing::Limit) => Ok(()),
        }
    }

    /// Skips bits, at least one and at most `most`, of what began at `first`, and returns how many. If no bit is left it fails, at
    /// the first bit of `field`, to which the next bit belongs.
    fn skip_some(&mut self, first: u64, field: u64, most: u64) -> Result<u64, Fault>
        requires live { self.old.live ≡ true }
        requires first { first ≤ self.old.position }
        requires some { 0 < most }
        ensures takes { IfOk result (λ count. TookGap field most count self.old self.new) }
        ensures misses { IfErr result (λ fault. Why (gap_of field 1) self.old fault self.new) }
        ensures memory { NeedsNoMemory result }
        ensures stays { OnErr result (self.new.position ≡ first) }
    {
        match self.inflow.skip(most) {
            Ok(count) => {
                self.position += count;
                Ok(count)
            }
            Err(missing) => {
                let fault = self.fault_of(missing, field);
                Err(self.fail_at(fault, first))
            }
        }
    }
}

impl<'a> BitReader<SliceSource<'a>> {
    /// Lends the next bits, for `Buffered` to read, and takes none of them. A live reader lends them for as long as the slice
    /// lives.
    #[inline(always)]
    pub fn parts_in_slice(&self) -> BufferedParts<'a>
        requires live { self.now.live ≡ true }
        ensures lawful { AreParts result }
        ensures sees { Sees self.now (bits_of_parts result) }
    {
        let (word, held) = self.inflow.window();
        let bytes = self.inflow.slice();
        BufferedParts {
            word,
            held,
            bytes,
            position: self.position,
        }
    }
}
