//! Numbers in chunks of six bits, nine chunks of a word at a time.
//!
//! The top bit of a chunk says that another one follows. A constant has the same six bits for each of the nine chunks, two octal
//! digits a chunk. Sums and products are of all chunks at once: no chunk's sum reaches 64, so none carries into the next one.

ghost use Rattle.std.specs.Prelude.{◌≡◌, ◌+◌, ◌*◌, ◌-◌, ◌<◌, ◌≤◌, ◌⊎◌, bit_and, count_ones, true, false, IfNone, IfSome};
ghost use Rattle.std.specs.Int.{w64, bit_at, bit_not, leading_zeros, trailing_zeros};
ghost use Rattle.bit_fields.specs.SixBits.{Begins, NoneFollows, Shortest};
ghost use Rattle.bit_fields.specs.SixEnds.{EndsWith, tops};

/// The lowest bit of each chunk.
const ONES: u64 = 0o01_01_01_01_01_01_01_01_01;

/// The top bit of each chunk.
pub(crate) const TOPS: u64 = 0o40_40_40_40_40_40_40_40_40;

/// The top bits of the first eight chunks.
pub(crate) const EIGHT_TOPS: u64 = 0o40_40_40_40_40_40_40_40;

/// The top bits of the first four chunks.
pub(crate) const FOUR_TOPS: u64 = 0o40_40_40_40;

/// The other bits of each chunk, its payload.
const PAYLOADS: u64 = 0o37_37_37_37_37_37_37_37_37;

/// All bits of the nine chunks.
const ALL: u64 = 0o77_77_77_77_77_77_77_77_77;

/// How many whole numbers the nine chunks begin with, at most `most`, and how many bits these numbers take.
#[inline(always)]
pub(crate) fn numbers_in(word: u64, most: u64) -> (u64, u32)
    ensures reads { Begins word result.0 result.1 }
    ensures all { result.0 < most → NoneFollows word result.1 }
    ensures most { result.0 ≤ most }
    ensures bits { result.1 ≤ 54 }
    ensures none { result.0 ≡ 0 → result.1 ≡ 0 }
    ensures some { 6 * result.0 ≤ result.1 }
{
    if most == 0 {
        return (0, 0);
    }
    // a number ends with a chunk whose top bit is 0
    let ends = !word & TOPS;
    // in each chunk, how many numbers end there or before
    let sums = (ends >> 5).wrapping_mul(ONES) & ALL;
    let total = sums >> 48;
    if total <= most {
        (total, 64 - ends.leading_zeros())
    } else {
        // the top bit of each chunk where at least `most` numbers have ended
        let reached = (sums + (32 - most) * ONES) & TOPS;
        (most, reached.trailing_zeros() + 1)
    }
}

/// The bit after this many numbers of the nine chunks whose complement this is, if they have so many.
#[inline(always)]
pub(crate) fn end_of(ends: u64, count: u64) -> Option<u32>
    requires some { 0 < count }
    requires few { count ≤ 32 }
    ensures reads { IfSome result (λ bits. Begins (bit_not w64 ends) count bits) }
    ensures ends { IfSome result (λ bits. EndsWith (bit_not w64 ends) count bits) }
    ensures none { IfNone result (count_ones (bit_and ends (tops 9)) < count) }
    ensures some { IfSome result (λ bits. 0 < bits) }
    ensures most { IfSome result (λ bits. bits ≤ 54) }
    ensures last { IfSome result (λ bits. bit_at ends (bits - 1) ≡ 1) }
{
    let sums = ((ends & TOPS) >> 5).wrapping_mul(ONES);
    // the top bit of each chunk where so many numbers have ended
    let reached = sums.wrapping_add((32 - count).wrapping_mul(ONES)) & TOPS;
    if reached == 0 {
        return None;
    }
    Some(reached.trailing_zeros() + 1)
}

/// Whether a number may be long that is open behind eight chunks, by the ends of numbers in these and in those that come next: it has
/// at least ten chunks then. If not, it has at most twelve.
#[inline(always)]
pub(crate) fn goes_on(before: u64, ends: u64) -> bool
    ensures { result ≡ false → (bit_and ends (tops 4) ≡ 0 → ⊥)
        ⊎ (leading_zeros w64 before + trailing_zeros w64 (bit_and ends (tops 9)) ≤ 69) }
{
    // (leading zeros - 16) / 6 chunks are open, and (trailing zeros + 1) / 6 more go up to the next end
    ends & FOUR_TOPS == 0 && before.leading_zeros() + (ends & TOPS).trailing_zeros() > 69
}

/// Whether each number that the first `bits` bits spell is in its shortest spelling: no number has a last chunk of zeros after
/// other chunks.
#[inline(always)]
pub(crate) fn is_shortest(word: u64, bits: u32) -> bool
    requires { bits ≤ 54 }
    ensures { result ≡ true → Shortest word bits }
{
    // the top bit of each chunk after one that goes on
    let later = (word & TOPS) << 6;
    // the top bit of each chunk with a payload that is not 0
    let worth = (word & PAYLOADS) + PAYLOADS;
    let idle = later & !(word | worth) & ((1 << bits) - 1);
    idle == 0
}
