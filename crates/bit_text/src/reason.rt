ghost use Rattle.std.specs.Prelude.{◌≡◌};
ghost use Rattle.bit_text.specs.Reasons.{name_of};

/// Why a text is refused at a line.
#[derive(Clone, Copy, Debug, PartialEq, Eq)]
pub enum TextReason {
    /// The first line that is not free is not the line of a magic, or there is none.
    NoMagic,
    /// The magic is that of a wrapper.
    WrapperMagic,
    /// No line of a listing.
    BadLine,
    /// A block id of 2^32 or more, or another number of 2^64 or more.
    NumberTooLarge,
    /// An odd number of spaces, or more than two for each open block.
    BadIndentation,
    /// Blocks are nested deeper than the limit.
    TooDeep,
    /// The records have more values than the limit.
    TooManyValues,
    /// A record outside all blocks; or an item that does not fit in its BLOCKINFO block.
    Misplaced,
}

impl TextReason {
    /// The name of the reason, as it is printed.
    pub fn name(self) -> &'static str
        ensures { result.now ≡ name_of self }
    {
        match self {
            TextReason::NoMagic => "NoMagic",
            TextReason::WrapperMagic => "WrapperMagic",
            TextReason::BadLine => "BadLine",
            TextReason::NumberTooLarge => "NumberTooLarge",
            TextReason::BadIndentation => "BadIndentation",
            TextReason::TooDeep => "TooDeep",
            TextReason::TooManyValues => "TooManyValues",
            TextReason::Misplaced => "Misplaced",
        }
    }
}
