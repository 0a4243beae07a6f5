ghost use Rattle.std.specs.Prelude.{◌≡◌};
ghost use Rattle.bit_grammar.specs.Reasons.{number_of, name_of};

/// Why an input is refused. The numbers and names are this project's own and do not change.
#[derive(Clone, Copy, Debug, PartialEq, Eq)]
pub enum Reason {
    /// A field, padding or the gap of a wrapper is incomplete.
    Truncated,
    /// A VBR has a value of 2^64 or more, or more chunks than such a value needs.
    ValueTooWide,
    /// Outside of all blocks, something other than a block.
    TopLevel,
    /// Blocks are nested deeper than the limit.
    TooDeep,
    /// A block id has more than 32 bits.
    BlockId,
    /// The width of a block's abbreviation ids is not from 1 to 32.
    AbbrevWidth,
    /// A bit of padding is a one.
    DirtyPadding,
    /// A block's length is not that of its body.
    BlockLength,
    /// An abbreviation id for which no definition is in force.
    UndefinedAbbrev,
    /// A definition without operands.
    AbbrevEmpty,
    /// An operand with an unknown encoding.
    AbbrevEncoding,
    /// An operand with an unlawful width.
    FieldWidth,
    /// An operand in a place where it is not allowed.
    AbbrevShape,
    /// In a BLOCKINFO block, a definition or a record before a block is described.
    NoBlockSet,
    /// A SETBID that names no block id.
    BadSetBid,
    /// A block in a BLOCKINFO block.
    NestedInBlockInfo,
    /// The records have more values than the limit.
    TooManyValues,
    /// The input has more bytes than the limit.
    TooLong,
    /// A wrapper of a version other than 0.
    WrapperVersion,
    /// A wrapper whose stream begins inside its header, or at no multiple of 4 bytes.
    WrapperOffset,
    /// A wrapper whose stream is shorter than it says.
    WrapperSize,
    /// A wrapper in a wrapper.
    WrapperNested,
}

impl Reason {
    /// The number of the reason, from 1 to 22.
    pub fn number(self) -> u8
        ensures { result ≡ number_of self }
    {
        match self {
            Reason::Truncated => 1,
            Reason::ValueTooWide => 2,
            Reason::TopLevel => 3,
            Reason::TooDeep => 4,
            Reason::BlockId => 5,
            Reason::AbbrevWidth => 6,
            Reason::DirtyPadding => 7,
            Reason::BlockLength => 8,
            Reason::UndefinedAbbrev => 9,
            Reason::AbbrevEmpty => 10,
            Reason::AbbrevEncoding => 11,
            Reason::FieldWidth => 12,
            Reason::AbbrevShape => 13,
            Reason::NoBlockSet => 14,
            Reason::BadSetBid => 15,
            Reason::NestedInBlockInfo => 16,
            Reason::TooManyValues => 17,
            Reason::TooLong => 18,
            Reason::WrapperVersion => 19,
            Reason::WrapperOffset => 20,
            Reason::WrapperSize => 21,
            Reason::WrapperNested => 22,
        }
    }

    /// The name of the reason, as it is printed.
    pub fn name(self) -> &'static str
        ensures { result.now ≡ name_of self }
    {
        match self {
            Reason::Truncated => "Truncated",
            Reason::ValueTooWide => "ValueTooWide",
            Reason::TopLevel => "TopLevel",
            Reason::TooDeep => "TooDeep",
            Reason::BlockId => "BlockId",
            Reason::AbbrevWidth => "AbbrevWidth",
            Reason::DirtyPadding => "DirtyPadding",
            Reason::BlockLength => "BlockLength",
            Reason::UndefinedAbbrev => "UndefinedAbbrev",
            Reason::AbbrevEmpty => "AbbrevEmpty",
            Reason::AbbrevEncoding => "AbbrevEncoding",
            Reason::FieldWidth => "FieldWidth",
            Reason::AbbrevShape => "AbbrevShape",
            Reason::NoBlockSet => "NoBlockSet",
            Reason::BadSetBid => "BadSetBid",
            Reason::NestedInBlockInfo => "NestedInBlockInfo",
            Reason::TooManyValues => "TooManyValues",
            Reason::TooLong => "TooLong",
            Reason::WrapperVersion => "WrapperVersion",
            Reason::WrapperOffset => "WrapperOffset",
            Reason::WrapperSize => "WrapperSize",
            Reason::WrapperNested => "WrapperNested",
        }
    }
}
