//! How many bits a field or a chunk has.

ghost use Rattle.std.specs.Prelude.{◌≡◌, ◌<◌, ◌≤◌};

/// The bits of a field, from 1 to 32. Source: "Fixed Width Integers"; the greatest width is that of LLVM's reader.
#[derive(Clone, Copy)]
pub struct FieldWidth {
    pub bits: u32,
    pub ghost some: { 0 < bits },
    pub ghost few: { bits ≤ 32 },
}

/// The bits of a chunk of a number, from 2 to 32. Source: "Variable Width Integers"; the greatest width is that of LLVM's reader.
#[derive(Clone, Copy)]
pub struct ChunkWidth {
    pub bits: u32,
    pub ghost some: { 2 ≤ bits },
    pub ghost few: { bits ≤ 32 },
}

impl FieldWidth {
    /// The width of a field of n bits.
    #[inline(always)]
    pub fn of(n: u8) -> FieldWidth
        requires some { 0 < n }
        requires few { n ≤ 32 }
        ensures { result.bits ≡ n }
    {
        FieldWidth { bits: u32::from(n) }
    }
}

impl ChunkWidth {
    /// The width of chunks of n bits.
    #[inline(always)]
    pub fn of(n: u8) -> ChunkWidth
        requires some { 2 ≤ n }
        requires few { n ≤ 32 }
        ensures { result.bits ≡ n }
    {
        ChunkWidth { bits: u32::from(n) }
    }
}
