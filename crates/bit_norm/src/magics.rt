//! Where the magic of a stream is.

ghost use Rattle.std.specs.Prelude.{◌≡◌, ◌*◌, ◌<◌, ◌^◌};
ghost use Rattle.bit_fields.specs.Opening.{head_told};
ghost use Rattle.bit_norm.specs.Entries as tree;

use crate::differences::{Standing, What};
use bit_fields::{Head, Wrapper};

/// The first bit of a byte of the input.
fn first_bit(byte: u32) -> u64
    ensures bit { result ≡ 8 * byte }
    ensures fits { result < 2 ^ 35 }
{
    8 * u64::from(byte)
}

/// The bit at which the magic of a stream begins.
pub(crate) fn magic_bit(head: &Head) -> u64
    ensures bit { result ≡ tree.magic_bit (head_told head.now) }
    ensures fits { result < 2 ^ 35 }
{
    match head.wrapper {
        None => 0,
        Some(Wrapper { offset, .. }) => first_bit(offset),
    }
}

/// What comes before the blocks, if the magics of two streams differ.
pub(crate) fn magic_standing(head: &Head) -> Standing
    ensures { tree.standing_shown result ≡ tree.magic_standing (head_told head.now) }
{
    Standing {
        bit: magic_bit(head),
        what: What::Magic(head.magic),
    }
}
