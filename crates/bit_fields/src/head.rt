/// The header of a wrapper. Source: "Bitcode Wrapper Format".
#[derive(Clone, Copy, Debug, PartialEq, Eq)]
pub struct Wrapper {
    /// The byte at which the stream begins, from the first byte of the input.
    pub offset: u32,
    /// The bytes of the stream.
    pub size: u32,
    /// The type of processor; any value.
    pub cpu: u32,
}

/// What comes before the blocks of an input.
#[derive(Clone, Copy, Debug, PartialEq, Eq)]
pub struct Head {
    /// The first four bytes of the stream. Source: "Magic Numbers".
    pub magic: [u8; 4],
    /// The wrapper round the stream, if there is one.
    pub wrapper: Option<Wrapper>,
}
