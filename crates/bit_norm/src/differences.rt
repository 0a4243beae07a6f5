//! Where two trees first differ, as a result.

/// An open block.
#[derive(Clone, Copy, Debug, PartialEq, Eq)]
pub struct OpenBlock {
    pub id: u32,
    /// How many items of the tree come before it in the block around it, or at the top.
    pub items: u64,
}

/// A place in a tree.
#[derive(Debug, Drop)]
pub enum Place {
    /// Before all blocks.
    Magic,
    /// In blocks, or at the top.
    Item {
        /// The open blocks, the outermost first.
        open: Vec<OpenBlock>,
        /// How many items of the tree come before the place in the innermost of them, or at the top.
        items: u64,
    },
}

/// What may be at a place.
#[derive(Clone, Copy, Debug, PartialEq, Eq)]
pub enum What {
    /// The four bytes of the stream's magic.
    Magic([u8; 4]),
    /// A block with this id.
    Block(u32),
    /// A record with this code and this number of values.
    Record { code: u64, count: u64 },
    /// The end of the innermost open block, or of the stream at the top.
    End,
}

/// What is at a place of an input, and where that begins.
#[derive(Clone, Copy, Debug, PartialEq, Eq)]
pub struct Standing {
    /// Counted from the first bit of the input. An end begins where the last item of the tree before it in its block ended; if
    /// there is none, after the length of the block, or after the magic.
    pub bit: u64,
    pub what: What,
}

/// A value that differs in the records of two inputs.
#[derive(Clone, Copy, Debug, PartialEq, Eq)]
pub struct ValueDifference {
    /// Counted from 0.
    pub index: u64,
    pub first: u64,
    pub second: u64,
}

/// Where the trees of two inputs first differ in their order, under a setting. Nothing that is left out is counted.
#[derive(Debug, Drop)]
pub struct Difference {
    pub place: Place,
    /// What the first input has there.
    pub first: Standing,
    /// What the second input has there.
    pub second: Standing,
    /// The first value that differs, if both are records with the same code; `None` if one list of values is a prefix of the other.
    pub value: Option<ValueDifference>,
}
