ghost use Rattle.std.specs.Prelude.{◌≤◌};

/// What comes between a block's abbreviation id and its items: its id, the width of the ids in it, from 1 to 32, the position of
/// its length, its length in words, and the position of its body.
#[derive(Clone, Copy)]
pub(crate) struct BlockHead {
    pub(crate) id: u32,
    pub(crate) width: u8,
    pub(crate) length_at: u64,
    pub(crate) words: u32,
    pub(crate) body: u64,
    ghost least: { 1 ≤ width },
    ghost most: { width ≤ 32 },
}
