//! The top bits of chunks.

ghost use Rattle.std.specs.Prelude.{◌≡◌, ◌<◌};
ghost use Rattle.bit_fields.specs.Placed.{AreTopsBehind};

use crate::placed::ChunkTops;
use crate::placed::numbers::TOPS_OF;
use crate::width::ChunkWidth;

impl ChunkTops {
    /// Those of chunks of a width.
    #[inline(always)]
    pub fn of(width: ChunkWidth) -> ChunkTops
        ensures { result.bits ≡ width.bits }
    {
        ChunkTops {
            tops: TOPS_OF[width.bits as usize],
            bits: width.bits,
        }
    }
}

/// The top bits of chunks of a width which come behind so many bits of a load.
#[inline(always)]
pub fn tops_behind(width: ChunkWidth, bits: u8) -> u64
    requires { bits < 64 }
    ensures { AreTopsBehind width.bits bits result }
{
    TOPS_OF[width.bits as usize] << bits
}
