//! What a load of placed bits has.

ghost use Rattle.std.specs.Prelude.{◌≡◌, ℕ, ◌+◌, ◌<◌, ◌≤◌, length, IfSome};
ghost use Rattle.bit_grammar.specs.Fields.{vbr};
ghost use Rattle.bit_fields.specs.Buffered.{Reads, beyond};
ghost use Rattle.bit_fields.specs.Placed.{AreTopsBehind, HasNumbers};
ghost use Rattle.bit_fields.specs.PlacedView.{loaded, placed};

use crate::placed::{ChunkTops, LoadedBits, PlacedBits};
use crate::six_bits::end_of;

impl<'a> LoadedBits<'a> {
    /// The position of the first bit.
    #[inline(always)]
    pub fn position(self) -> u64
        ensures { result ≡ (loaded self.entry).position }
    {
        self.bits.position()
    }

    /// The bits, without what was loaded of them.
    #[inline(always)]
    pub fn bits(self) -> PlacedBits<'a>
        ensures { placed result ≡ loaded self.entry }
    {
        self.bits
    }

    /// The bits after the first n, fewer than 64. They need not be loaded.
    #[inline(always)]
    pub fn after(self, n: u32) -> LoadedBits<'a>
        requires few { n < 64 }
        requires there { n ≤ length (loaded self).bits }
        ensures { loaded result ≡ beyond (loaded self.entry) n }
    {
        LoadedBits {
            bits: self.bits.after(u64::from(n)),
            ends: self.ends >> n,
        }
    }

    /// A number of at most three chunks of six bits, if it is loaded, and the bits after it.
    #[inline(always)]
    pub fn short_six(self) -> Option<(u64, LoadedBits<'a>)>
        ensures reads { IfSome result (λ read. Reads (vbr 6) (loaded self.entry) read.0 (loaded read.1)) }
        ensures bits { IfSome result (λ read. (loaded read.1).position ≤ (loaded self.entry).position + 18) }
    {
        let low = !self.ends & 31;
        if self.ends & 0o40 != 0 {
            return Some((low, self.after(6)));
        }
        let low = low | !self.ends >> 1 & 0x3e0;
        if self.ends & 0o40_00 != 0 {
            return Some((low, self.after(12)));
        }
        if self.ends & 0o40_00_00 != 0 {
            return Some((low | !self.ends >> 2 & 0x7c00, self.after(18)));
        }
        None
    }

    /// The length of this many numbers in chunks of six bits, if they are loaded.
    #[inline(always)]
    pub fn sixes(self, count: u64) -> Option<u64>
        requires some { 0 < count }
        requires few { count ≤ 9 }
        ensures { IfSome result (λ len. HasNumbers 6 count (loaded self.entry) len) }
    {
        let len = end_of(self.ends, count)?;
        Some(u64::from(len))
    }

    /// The length of so many bits and of one to four numbers behind them, in chunks of a width with these top bits, if all of them
    /// are loaded.
    #[inline(always)]
    pub fn few_behind(self, tops: u64, _bits: u8, _width: u8, count: u32) -> Option<u64>
        requires some { 0 < count }
        requires few { count ≤ 4 }
        requires least { 2 ≤ _width }
        requires most { _width ≤ 32 }
        requires behind { _bits < 64 }
        requires tops { AreTopsBehind _width _bits tops }
        ensures has { IfSome result (λ len. (first : ℕ) × (len ≡ _bits + first)
            × HasNumbers _width count (beyond (loaded self.entry) _bits) first) }
        ensures short { IfSome result (λ len. len ≤ 64) }
    {
        let mut ends = self.ends & tops;
        if count > 1 {
            ends &= ends.wrapping_sub(1);
            if count > 2 {
                ends &= ends.wrapping_sub(1);
                if count > 3 {
                    ends &= ends.wrapping_sub(1);
                }
            }
        }
        if ends == 0 {
            return None;
        }
        Some(u64::from(ends.trailing_zeros() + 1))
    }

    /// The length of one to four numbers in chunks of any width, if they are loaded.
    #[inline(always)]
    pub fn few(self, chunks: ChunkTops, count: u32) -> Option<u64>
        requires some { 0 < count }
        requires few { count ≤ 4 }
        ensures has { IfSome result (λ len. HasNumbers chunks.bits count (loaded self.entry) len) }
        ensures short { IfSome result (λ len. len ≤ 57) }
    {
        let mut ends = self.ends & chunks.tops;
        if count > 1 {
            ends &= ends.wrapping_sub(1);
            if count > 2 {
                ends &= ends.wrapping_sub(1);
                if count > 3 {
                    ends &= ends.wrapping_sub(1);
                }
            }
        }
        if ends == 0 {
            return None;
        }
        Some(u64::from(ends.trailing_zeros() + 1))
    }
}
