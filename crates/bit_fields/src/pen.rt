//! Bits that are stored into bytes, eight bytes at a time.
//!
//! Bits are stored at a position. The bits of its byte from there on are zeros, so a number is added to that byte. The bytes behind it
//! may have any bits.

ghost use Rattle.std.specs.Prelude.{ℕ, ◌≡◌, ◌+◌, ◌*◌, ◌/◌, ◌^◌, ◌<◌, ◌≤◌, ◌++◌, length};
ghost use Rattle.bit_grammar.specs.Bits.{bits_of, bits_of_bytes};
ghost use Rattle.bit_grammar.specs.FormatFields.{shortest};
ghost use Rattle.bit_grammar.specs.Normal.{entry_text, values_bits};
ghost use Rattle.bit_fields.specs.Pens.{AreShort, Puts, TakesBack};

/// Stores a number of n bits, at most 56, and returns the position after it.
#[inline(always)]
pub fn put(bytes: &mut [u8], at: u64, n: u64, value: u64) -> u64
    requires few { n ≤ 56 }
    requires fits { value < 2 ^ n }
    requires room { at + 64 ≤ 8 * length bytes.old }
    requires counted { 8 * length bytes.old < 2 ^ 64 }
    ensures { Puts (bits_of n value) at bytes.old result bytes.new }
{
    let i = (at >> 3) as usize;
    let low = u64::from(bytes[i]);
    prove!(low < 256);
    let word = low + (value << (at & 7));
    let eight = word.to_le_bytes();
    bytes[i] = eight[0];
    bytes[i + 1] = eight[1];
    bytes[i + 2] = eight[2];
    bytes[i + 3] = eight[3];
    bytes[i + 4] = eight[4];
    bytes[i + 5] = eight[5];
    bytes[i + 6] = eight[6];
    bytes[i + 7] = eight[7];
    at + n
}

/// Makes the bits from a position on zeros, up to the end of its byte.
#[inline(always)]
pub fn take_back(bytes: &mut [u8], at: u64)
    requires room { at < 8 * length bytes.old }
    ensures { TakesBack at bytes.old bytes.new }
{
    let i = (at >> 3) as usize;
    bytes[i] &= ((1_u32 << (at & 7)) - 1) as u8;
}

/// The chunks of six bits of a number of ten bits, one or two, and how many bits they have.
#[inline(always)]
fn short_chunks(value: u64) -> (u64, u64)
    requires { value < 1024 }
    ensures spelled { bits_of result.1 result.0 ≡ shortest 6 value }
    ensures below { result.0 < 2 ^ result.1 }
    ensures some { 6 ≤ result.1 }
    ensures few { result.1 ≤ 12 }
{
    let more = u64::from(value >= 32);
    (value + 32 * (value / 32 + more), 6 + 6 * more)
}

/// Two chunks of six bits of a number of more than ten bits: those of its low ten bits, with continuation bits.
#[inline(always)]
fn two_chunks(value: u64) -> u64
    requires { 1024 ≤ value }
    ensures spelled { bits_of 12 result ++ shortest 6 (value / 1024) ≡ shortest 6 value }
    ensures below { result < 4096 }
{
    value % 32 + 64 * (value / 32 % 32) + 2080
}

/// The chunks of six bits of a number of twenty bits, at most four, and how many bits they have.
#[inline(always)]
fn some_chunks(value: u64) -> (u64, u64)
    requires { value < 2 ^ 20 }
    ensures spelled { bits_of result.1 result.0 ≡ shortest 6 value }
    ensures below { result.0 < 2 ^ result.1 }
    ensures some { 6 ≤ result.1 }
    ensures few { result.1 ≤ 24 }
{
    if value < 1024 {
        return short_chunks(value);
    }
    let (chunks, bits) = short_chunks(value / 1024);
    (two_chunks(value) + 4096 * chunks, bits + 12)
}

/// Stores a number in chunks of six bits, in as few as possible.
#[inline(always)]
pub fn put_number(bytes: &mut [u8], at: u64, value: u64) -> u64
    requires room { at + 142 ≤ 8 * length bytes.old }
    requires counted { 8 * length bytes.old < 2 ^ 64 }
    ensures { Puts (shortest 6 value) at bytes.old result bytes.new }
{
    let (chunks, bits) = if value < 1024 {
        short_chunks(value)
    } else if value < 1 << 20 {
        some_chunks(value)
    } else {
        return put_great(bytes, at, value);
    };
    put(bytes, at, bits, chunks)
}

/// The same for a number of more than 20 bits.
#[inline(never)]
fn put_great(bytes: &mut [u8], at: u64, value: u64) -> u64
    requires great { 2 ^ 20 ≤ value }
    requires room { at + 142 ≤ 8 * length bytes.old }
    requires counted { 8 * length bytes.old < 2 ^ 64 }
    ensures { Puts (shortest 6 value) at bytes.old result bytes.new }
{
    let mut pen = at;
    let mut rest = value;
    while rest >= 1 << 20 {
        pen = put(bytes, pen, 12, two_chunks(rest));
        rest >>= 10;
    }
    let (chunks, bits) = some_chunks(rest);
    put(bytes, pen, bits, chunks)
}

/// Stores two numbers in chunks of six bits, each in as few as possible.
#[inline(always)]
pub fn put_two(bytes: &mut [u8], at: u64, first: u64, second: u64) -> u64
    requires room { at + 220 ≤ 8 * length bytes.old }
    requires counted { 8 * length bytes.old < 2 ^ 64 }
    ensures { Puts (shortest 6 first ++ shortest 6 second) at bytes.old result bytes.new }
{
    if first >= 1 << 20 || second >= 1 << 20 {
        let pen = put_number(bytes, at, first);
        return put_number(bytes, pen, second);
    }
    let (one, bits) = some_chunks(first);
    let (two, more) = some_chunks(second);
    put(bytes, at, bits + more, one + (two << bits))
}

/// Stores the chunks of four numbers, which have these bits.
#[inline(always)]
fn put_joined(
    bytes: &mut [u8],
    at: u64,
    first: (u64, u64),
    second: (u64, u64),
    third: (u64, u64),
    fourth: (u64, u64),
) -> u64
    requires first { AreShort first }
    requires second { AreShort second }
    requires third { AreShort third }
    requires fourth { AreShort fourth }
    requires room { at + 112 ≤ 8 * length bytes.old }
    requires counted { 8 * length bytes.old < 2 ^ 64 }
    ensures { Puts ((bits_of first.1 first.0 ++ bits_of second.1 second.0)
        ++ (bits_of third.1 third.0 ++ bits_of fourth.1 fourth.0)) at bytes.old result bytes.new }
{
    let (one, half) = (first.0 + (second.0 << first.1), first.1 + second.1);
    let (two, more) = (third.0 + (fourth.0 << third.1), third.1 + fourth.1);
    put(bytes, at, half + more, one + (two << half))
}

/// Stores four numbers of ten bits in chunks of six bits, each in as few as possible.
#[inline(always)]
fn put_four(bytes: &mut [u8], at: u64, first: u64, second: u64, third: u64, fourth: u64) -> u64
    requires first { first < 1024 }
    requires second { second < 1024 }
    requires third { third < 1024 }
    requires fourth { fourth < 1024 }
    requires room { at + 112 ≤ 8 * length bytes.old }
    requires counted { 8 * length bytes.old < 2 ^ 64 }
    ensures { Puts ((shortest 6 first ++ shortest 6 second) ++ (shortest 6 third ++ shortest 6 fourth))
        at bytes.old result bytes.new }
{
    let (a, b) = (short_chunks(first), short_chunks(second));
    let (c, d) = (short_chunks(third), short_chunks(fourth));
    put_joined(bytes, at, a, b, c, d)
}

/// Stores numbers in chunks of six bits, each in as few as possible.
#[inline(always)]
pub(crate) fn put_numbers(bytes: &mut [u8], at: u64, values: &[u64]) -> u64
    requires room { at + (78 * length values.now + 64) ≤ 8 * length bytes.old }
    requires counted { 8 * length bytes.old < 2 ^ 64 }
    ensures { Puts (values_bits values.now) at bytes.old result bytes.new }
{
    let mut pen = at;
    let mut rest = values;
    while let [a, b, c, d, others @ ..] = rest {
        if *a < 1024 && *b < 1024 && *c < 1024 && *d < 1024 {
            pen = put_four(bytes, pen, *a, *b, *c, *d);
        } else {
            pen = put_two(bytes, pen, *a, *b);
            pen = put_two(bytes, pen, *c, *d);
        }
        rest = others;
    }
    for value in rest {
        pen = put_number(bytes, pen, *value);
    }
    pen
}

/// The chunks of six bits of each number of eight bits.
static BYTE_CHUNKS: [u16; 256] = [
    0, 1, 2, 3, 4, 5, 6, 7, 8, 9, 10, 11, 12, 13, 14, 15, 16, 17, 18, 19, 20, 21, 22, 23, 24, 25,
    26, 27, 28, 29, 30, 31, 96, 97, 98, 99, 100, 101, 102, 103, 104, 105, 106, 107, 108, 109, 110,
    111, 112, 113, 114, 115, 116, 117, 118, 119, 120, 121, 122, 123, 124, 125, 126, 127, 160, 161,
    162, 163, 164, 165, 166, 167, 168, 169, 170, 171, 172, 173, 174, 175, 176, 177, 178, 179, 180,
    181, 182, 183, 184, 185, 186, 187, 188, 189, 190, 191, 224, 225, 226, 227, 228, 229, 230, 231,
    232, 233, 234, 235, 236, 237, 238, 239, 240, 241, 242, 243, 244, 245, 246, 247, 248, 249, 250,
    251, 252, 253, 254, 255, 288, 289, 290, 291, 292, 293, 294, 295, 296, 297, 298, 299, 300, 301,
    302, 303, 304, 305, 306, 307, 308, 309, 310, 311, 312, 313, 314, 315, 316, 317, 318, 319, 352,
    353, 354, 355, 356, 357, 358, 359, 360, 361, 362, 363, 364, 365, 366, 367, 368, 369, 370, 371,
    372, 373, 374, 375, 376, 377, 378, 379, 380, 381, 382, 383, 416, 417, 418, 419, 420, 421, 422,
    423, 424, 425, 426, 427, 428, 429, 430, 431, 432, 433, 434, 435, 436, 437, 438, 439, 440, 441,
    442, 443, 444, 445, 446, 447, 480, 481, 482, 483, 484, 485, 486, 487, 488, 489, 490, 491, 492,
    493, 494, 495, 496, 497, 498, 499, 500, 501, 502, 503, 504, 505, 506, 507, 508, 509, 510, 511,
];

/// How many bits these chunks have.
static BYTE_BITS: [u8; 256] = [
    6, 6, 6, 6, 6, 6, 6, 6, 6, 6, 6, 6, 6, 6, 6, 6, 6, 6, 6, 6, 6, 6, 6, 6, 6, 6, 6, 6, 6, 6, 6, 6,
    12, 12, 12, 12, 12, 12, 12, 12, 12, 12, 12, 12, 12, 12, 12, 12, 12, 12, 12, 12, 12, 12, 12, 12,
    12, 12, 12, 12, 12, 12, 12, 12, 12, 12, 12, 12, 12, 12, 12, 12, 12, 12, 12, 12, 12, 12, 12, 12,
    12, 12, 12, 12, 12, 12, 12, 12, 12, 12, 12, 12, 12, 12, 12, 12, 12, 12, 12, 12, 12, 12, 12, 12,
    12, 12, 12, 12, 12, 12, 12, 12, 12, 12, 12, 12, 12, 12, 12, 12, 12, 12, 12, 12, 12, 12, 12, 12,
    12, 12, 12, 12, 12, 12, 12, 12, 12, 12, 12, 12, 12, 12, 12, 12, 12, 12, 12, 12, 12, 12, 12, 12,
    12, 12, 12, 12, 12, 12, 12, 12, 12, 12, 12, 12, 12, 12, 12, 12, 12, 12, 12, 12, 12, 12, 12, 12,
    12, 12, 12, 12, 12, 12, 12, 12, 12, 12, 12, 12, 12, 12, 12, 12, 12, 12, 12, 12, 12, 12, 12, 12,
    12, 12, 12, 12, 12, 12, 12, 12, 12, 12, 12, 12, 12, 12, 12, 12, 12, 12, 12, 12, 12, 12, 12, 12,
    12, 12, 12, 12, 12, 12, 12, 12, 12, 12, 12, 12, 12, 12, 12, 12, 12, 12, 12, 12, 12, 12, 12, 12,
    12, 12, 12, 12, 12, 12, 12, 12,
];

/// The chunks of six bits of a number of eight bits, one or two, and how many bits they have.
#[inline(always)]
fn byte_chunks(value: u8) -> (u64, u64)
    ensures spelled { bits_of result.1 result.0 ≡ shortest 6 value }
    ensures short { AreShort result }
{
    let place = usize::from(value);
    (u64::from(BYTE_CHUNKS[place]), u64::from(BYTE_BITS[place]))
}

/// Stores numbers of one byte each in chunks of six bits, each in as few as possible.
pub(crate) fn put_byte_numbers(bytes: &mut [u8], at: u64, values: &[u8]) -> u64
    requires room { at + (12 * length values.now + 142) ≤ 8 * length bytes.old }
    requires counted { 8 * length bytes.old < 2 ^ 64 }
    ensures { Puts (values_bits values.now) at bytes.old result bytes.new }
{
    let mut pen = at;
    let mut rest = values;
    while let [a, b, c, d, others @ ..] = rest {
        let (first, second) = (byte_chunks(*a), byte_chunks(*b));
        let (third, fourth) = (byte_chunks(*c), byte_chunks(*d));
        pen = put_joined(bytes, pen, first, second, third, fourth);
        rest = others;
    }
    for value in rest {
        pen = put_number(bytes, pen, u64::from(*value));
    }
    pen
}

/// Stores bytes.
pub(crate) fn put_bytes(bytes: &mut [u8], at: u64, values: &[u8]) -> u64
    requires room { at + (8 * length values.now + 64) ≤ 8 * length bytes.old }
    requires counted { 8 * length bytes.old < 2 ^ 64 }
    ensures { Puts (bits_of_bytes values.now) at bytes.old result bytes.new }
{
    let mut pen = at;
    let mut rest = values;
    while let [a, b, c, d, others @ ..] = rest {
        pen = put(
            bytes,
            pen,
            32,
            u64::from(u32::from_le_bytes([*a, *b, *c, *d])),
        );
        rest = others;
    }
    for value in rest {
        pen = put(bytes, pen, 8, u64::from(*value));
    }
    pen
}

/// Stores what comes in a record of a normal form before its values: its abbreviation id, its code and its count of values.
#[inline(always)]
pub fn put_front(bytes: &mut [u8], at: u64, code: u64, count: u64) -> u64
    requires room { at + 222 ≤ 8 * length bytes.old }
    requires counted { 8 * length bytes.old < 2 ^ 64 }
    ensures { Puts (bits_of 2 3 ++ (shortest 6 code ++ shortest 6 count)) at bytes.old result bytes.new }
{
    if code < 32 && count < 32 {
        return put(bytes, at, 14, 3 + 4 * (code + 64 * count));
    }
    let pen = put(bytes, at, 2, 3);
    put_two(bytes, pen, code, count)
}

/// Stores a record of a normal form.
#[inline(always)]
pub(crate) fn put_record(bytes: &mut [u8], at: u64, code: u64, values: &[u64]) -> u64
    requires room { at + (78 * length values.now + 222) ≤ 8 * length bytes.old }
    requires counted { 8 * length bytes.old < 2 ^ 64 }
    ensures { Puts (bits_of 2 3 ++ entry_text code values.now) at bytes.old result bytes.new }
{
    let pen = put_front(bytes, at, code, values.len() as u64);
    put_numbers(bytes, pen, values)
}
