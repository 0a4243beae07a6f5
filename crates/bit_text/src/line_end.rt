ghost use Rattle.std.specs.Prelude.{◌≡◌, ◌==◌, ◌+◌, ◌<◌, ◌≤◌, ℕ, true, false, length, slice_index};
ghost use Rattle.bit_text.specs.Places.{IsLineEnd};

use std::simd::prelude::*;

/// How many of sixteen bytes come before the first line feed among them; 16 if there is none.
#[inline(always)]
fn before_feed(bytes: &[u8], from: usize) -> usize
    requires { from + 16 ≤ length bytes.now }
    ensures { IsLineEnd bytes.now from (from + 16) (from + result) }
{
    let sixteen = u8x16::from_slice(&bytes[from..]);
    let feeds = sixteen.simd_eq(u8x16::splat(b'\n')).to_bitmask();
    if feeds == 0 {
        16
    } else {
        feeds.trailing_zeros() as usize
    }
}

/// The place of the first line feed from here on, or the end of the bytes.
fn near_end(bytes: &[u8], from: usize) -> usize
    requires { from ≤ length bytes.now }
    ensures { IsLineEnd bytes.now from (length bytes.now) result }
{
    for i in from..bytes.len() {
        if bytes[i] == b'\n' {
            return i;
        }
    }
    bytes.len()
}

/// The same, by sixteen bytes at once.
#[inline(always)]
pub(crate) fn line_end(bytes: &[u8], from: usize) -> usize
    requires { from ≤ length bytes.now }
    ensures { IsLineEnd bytes.now from (length bytes.now) result }
{
    let mut seen = from;
    while bytes.len() - seen >= 16 {
        let count = before_feed(bytes, seen);
        if count < 16 {
            return seen + count;
        }
        seen += 16;
    }
    near_end(bytes, seen)
}
