//! Numbers of the format, and the greatest limits.

/// The code of SETBID, the record of a BLOCKINFO block that sets the described block. Source: "#0 - BLOCKINFO Block".
pub const SET_BID: u64 = 1;

/// The number that the first four bytes of a wrapped input spell. Source: "Bitcode Wrapper Format".
pub const WRAPPER_MAGIC: u64 = 0x0B17_C0DE;

/// The most bytes that limits allow: `4 * (2^32 - 1)`, so that every block's length of a normal form fits its field.
pub const MOST_BYTES: u64 = 17_179_869_180;

/// The deepest nesting that limits allow.
pub const MOST_DEPTH: u32 = 255;

/// The most values that limits allow: `2^32 - 1`.
pub const MOST_VALUES: u64 = 4_294_967_295;
