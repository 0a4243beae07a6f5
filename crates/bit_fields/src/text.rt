//! Bits in memory.

ghost use Rattle.std.specs.Prelude.{◌≡◌, ◌+◌, ◌-◌, ◌*◌, ◌/◌, ◌%◌, ◌^◌, ◌<◌, ◌≤◌, ◌++◌, [], length, take, drop, replicate, slice_set, true, IfOk, OnOk};
ghost use Rattle.std.specs.Int.{w32, to_le_bytes};
ghost use Rattle.bit_grammar.specs.Bits.{bits_of, bits_of_bytes};
ghost use Rattle.bit_grammar.specs.FormatFields.{shortest};
ghost use Rattle.bit_grammar.specs.Normal.{entry_text, padding, values_bits};
ghost use Rattle.bit_fields.specs.Pens.{HoldBits, LendsEnd};
ghost use Rattle.bit_fields.specs.Texts.{bits_of_chunks, AreFull, text_of, IsText, with_word};
ghost use Rattle.bit_fields.specs.Writer.{Writes};

use crate::fault::Fault;
use crate::pen::{put, put_byte_numbers, put_bytes, put_front, put_numbers, put_record};
use crate::sink::Sink;
use crate::writer::BitWriter;
use std::alloc::{AllocError, Global};
use std::marker::Model;
use std::mem;

/// How many bytes a full chunk has.
const CHUNK: usize = 1048576;

/// How many bytes the last chunk has more, so that what is lent at once fits behind a full chunk.
const MORE: usize = 32768;

/// How many numbers are stored at once.
const PIECE: usize = 64;

/// How many bytes are written at once.
const WRITTEN: usize = 4096;

/// Full chunks of bytes, and the bits in the last one.
#[derive(Drop)]
struct Chunks {
    alloc: Global,
    full: Vec<Vec<u8>>,
    last: Vec<u8>,
    /// How many bits of the last chunk there are.
    at: u64,
}

impl Chunks {
    /// Makes room for so many bits, at most 200,000, and eight bytes behind them. If an allocation fails, the bits are undefined.
    #[inline(always)]
    fn make_room(&mut self, bits: u64) -> Result<(), AllocError>
        requires few { bits ≤ 200000 }
        requires is { IsText self.old.full.items self.old.last.items self.old.at }
        ensures is { IsText self.new.full.items self.new.last.items self.new.at }
        ensures same { OnOk result (text_of self.new.full.items self.new.last.items self.new.at
            ≡ text_of self.old.full.items self.old.last.items self.old.at) }
        ensures fewer { length (text_of self.new.full.items self.new.last.items self.new.at)
            ≤ length (text_of self.old.full.items self.old.last.items self.old.at) }
        ensures room { OnOk result (self.new.at + bits + 64 ≤ 8 * length self.new.last.items) }
    {
        let end = ((self.at + bits) >> 3) as usize + 16;
        if end > self.last.len() {
            return self.grow(bits);
        }
        Ok(())
    }

    /// The same if there is no room.
    #[cold]
    #[inline(never)]
    fn grow(&mut self, bits: u64) -> Result<(), AllocError>
        requires few { bits ≤ 200000 }
        requires is { IsText self.old.full.items self.old.last.items self.old.at }
        ensures is { IsText self.new.full.items self.new.last.items self.new.at }
        ensures same { OnOk result (text_of self.new.full.items self.new.last.items self.new.at
            ≡ text_of self.old.full.items self.old.last.items self.old.at) }
        ensures fewer { length (text_of self.new.full.items self.new.last.items self.new.at)
            ≤ length (text_of self.old.full.items self.old.last.items self.old.at) }
        ensures room { OnOk result (self.new.at + bits + 64 ≤ 8 * length self.new.last.items) }
    {
        self.begin_chunk()?;
        self.lengthen(bits)
    }

    /// Begins the next chunk if the last one is full.
    fn begin_chunk(&mut self) -> Result<(), AllocError>
        requires { IsText self.old.full.items self.old.last.items self.old.at }
        ensures is { IsText self.new.full.items self.new.last.items self.new.at }
        ensures same { OnOk result (text_of self.new.full.items self.new.last.items self.new.at
            ≡ text_of self.old.full.items self.old.last.items self.old.at) }
        ensures fewer { length (text_of self.new.full.items self.new.last.items self.new.at)
            ≤ length (text_of self.old.full.items self.old.last.items self.old.at) }
        ensures low { OnOk result (self.new.at < 8388608) }
    {
        if self.at < 8 * CHUNK as u64 {
            return Ok(());
        }
        let next = behind_chunk(self.alloc, &self.last)?;
        let mut whole = mem::replace(&mut self.last, next);
        whole.truncate(CHUNK);
        self.at -= 8 * CHUNK as u64;
        self.full.push(whole)?;
        Ok(())
    }

    /// Makes the last chunk longer if there is no room for so many bits.
    fn lengthen(&mut self, bits: u64) -> Result<(), AllocError>
        requires few { bits ≤ 200000 }
        requires low { self.old.at < 8388608 }
        requires is { IsText self.old.full.items self.old.last.items self.old.at }
        ensures is { IsText self.new.full.items self.new.last.items self.new.at }
        ensures same { text_of self.new.full.items self.new.last.items self.new.at
            ≡ text_of self.old.full.items self.old.last.items self.old.at }
        ensures room { OnOk result (self.new.at + bits + 64 ≤ 8 * length self.new.last.items) }
    {
        let end = ((self.at + bits) >> 3) as usize + 16;
        if end > self.last.len() {
            let len = (2 * self.last.len()).clamp(64, CHUNK + MORE).max(end);
            self.last.resize(len, 0)?;
        }
        Ok(())
    }
}

/// Bits in memory: full chunks of bytes, and the bits in the last one. It grows without a copy of its bits, except those of its last
/// chunk before that is full. If an allocation fails, its bits are undefined.
#[derive(Drop)]
pub struct BitText {
    bits: Chunks,
}

impl Model for BitText {
    ghost use Rattle.std.specs.Prelude.{List, Bool, ◌<◌, ◌^◌, length};
    ghost use Rattle.bit_fields.specs.Texts.{text_of, IsText};

    ghost Value = { List Bool };

    ghost view = { λ t. text_of t.bits.full.items t.bits.last.items t.bits.at };

    ghost invariant = { λ t. IsText t.bits.full.items t.bits.last.items t.bits.at
        × (length (text_of t.bits.full.items t.bits.last.items t.bits.at) < 2 ^ 64) };
}

impl BitText {
    /// No bits.
    pub fn new(alloc: Global) -> BitText
        ensures { result ≡ [] }
    {
        BitText {
            bits: Chunks {
                alloc,
                full: Vec::new(alloc),
                last: Vec::new(alloc),
                at: 0,
            },
        }
    }

    /// How many bits there are.
    #[inline(always)]
    pub fn len(&self) -> u64
        ensures { result ≡ length self.now }
    {
        self.bits.full.len() as u64 * (8 * CHUNK as u64) + self.bits.at
    }

    /// Drops all bits.
    #[inline(always)]
    pub fn clear(&mut self)
        ensures { self.new ≡ [] }
    {
        self.bits.full.clear();
        self.bits.at = 0;
        clear_first(&mut self.bits.last);
    }

    /// Lends the end of the text: bytes, and the position after the last bit in them, with room for so many bits. Until it is given
    /// back the text is what comes before.
    #[inline(always)]
    pub fn lend(&mut self, bits: u64) -> Result<(Vec<u8>, u64), AllocError>
        requires few { bits ≤ 200000 }
        requires room { length self.old < 2 ^ 63 }
        ensures { IfOk result (λ lent. LendsEnd bits self.old lent.0.items lent.1 self.new) }
    {
        self.bits.make_room(bits)?;
        let last = mem::replace(&mut self.bits.last, Vec::new(self.bits.alloc));
        let at = self.bits.at;
        self.bits.at = 0;
        Ok((last, at))
    }

    /// Takes back what was lent, and the position after the last bit in it: appends its bits up to there.
    #[inline(always)]
    pub fn give_back(&mut self, last: Vec<u8>, at: u64) -> Result<(), AllocError>
        requires few { length last.items ≤ 1081344 }
        requires there { at ≤ 8 * length last.items }
        requires holds { HoldBits last.items (take at (bits_of_bytes last.items)) }
        requires room { length self.old + at < 2 ^ 62 }
        ensures { OnOk result (self.new ≡ self.old ++ take at (bits_of_bytes last.items)) }
    {
        if self.bits.last.is_empty() {
            self.bits.last = last;
            self.bits.at = at;
            return Ok(());
        }
        self.add_bits(&last, at)
    }

    /// Appends the first bits of bytes.
    #[inline(never)]
    fn add_bits(&mut self, bytes: &[u8], count: u64) -> Result<(), AllocError>
        requires there { count ≤ 8 * length bytes.now }
        requires room { length self.old + count < 2 ^ 62 }
        ensures { OnOk result (self.new ≡ self.old ++ take count (bits_of_bytes bytes.now)) }
    {
        let whole = (count >> 3) as usize;
        self.add_bytes(&bytes[..whole])?;
        let n = count & 7;
        if n > 0 {
            return self.fixed(n as u32, u64::from(bytes[whole]) & ((1 << n) - 1));
        }
        Ok(())
    }

    /// Appends bytes.
    fn add_bytes(&mut self, bytes: &[u8]) -> Result<(), AllocError>
        requires { length self.old + 8 * length bytes.now < 2 ^ 62 }
        ensures { OnOk result (self.new ≡ self.old ++ bits_of_bytes bytes.now) }
    {
        let mut rest = bytes;
        while !rest.is_empty() {
            let count = rest.len().min(WRITTEN);
            self.add_some_bytes(&rest[..count])?;
            rest = &rest[count..];
        }
        Ok(())
    }

    /// Appends bytes, at most as many as are written at once.
    #[inline(always)]
    fn add_some_bytes(&mut self, bytes: &[u8]) -> Result<(), AllocError>
        requires few { length bytes.now ≤ 4096 }
        requires room { length self.old < 2 ^ 63 }
        ensures { OnOk result (self.new ≡ self.old ++ bits_of_bytes bytes.now) }
    {
        self.bits.make_room(8 * bytes.len() as u64)?;
        self.bits.at = put_bytes(self.bits.last.as_mut_slice(), self.bits.at, bytes);
        Ok(())
    }

    /// Appends a number of n bits, n from 0 to 56, the lowest bit first.
    #[inline(always)]
    pub fn fixed(&mut self, n: u32, value: u64) -> Result<(), AllocError>
        requires few { n ≤ 56 }
        requires fits { value < 2 ^ n }
        requires room { length self.old < 2 ^ 63 }
        ensures { OnOk result (self.new ≡ self.old ++ bits_of n value) }
    {
        self.bits.make_room(64)?;
        self.bits.at = put(
            self.bits.last.as_mut_slice(),
            self.bits.at,
            u64::from(n),
            value,
        );
        Ok(())
    }

    /// Appends a number in chunks of n bits, n from 2 to 32, in as few as possible.
    #[inline(always)]
    pub fn vbr(&mut self, n: u32, value: u64) -> Result<(), AllocError>
        requires some { 2 ≤ n }
        requires few { n ≤ 32 }
        requires room { length self.old < 2 ^ 62 }
        ensures { OnOk result (self.new ≡ self.old ++ shortest n value) }
    {
        let more = 1 << (n - 1);
        let mut rest = value;
        while rest >= more {
            self.fixed(n, (rest & (more - 1)) + more)?;
            rest >>= n - 1;
        }
        self.fixed(n, rest)
    }

    /// Appends numbers in chunks of six bits, each in as few as possible.
    #[inline(never)]
    pub fn numbers(&mut self, values: &[u64]) -> Result<(), AllocError>
        requires { length self.old + length (values_bits values.now) < 2 ^ 62 }
        ensures { OnOk result (self.new ≡ self.old ++ values_bits values.now) }
    {
        let mut rest = values;
        while !rest.is_empty() {
            let count = rest.len().min(PIECE);
            self.some_numbers(&rest[..count])?;
            rest = &rest[count..];
        }
        Ok(())
    }

    /// The same for as many numbers as are stored at once, or fewer.
    #[inline(always)]
    fn some_numbers(&mut self, values: &[u64]) -> Result<(), AllocError>
        requires few { length values.now ≤ 64 }
        requires room { length self.old + length (values_bits values.now) < 2 ^ 62 }
        ensures { OnOk result (self.new ≡ self.old ++ values_bits values.now) }
    {
        self.bits.make_room(78 * values.len() as u64)?;
        self.bits.at = put_numbers(self.bits.last.as_mut_slice(), self.bits.at, values);
        Ok(())
    }

    /// Appends what comes in a record of a normal form before its values: its abbreviation id, its code and its count of values.
    pub fn record_front(&mut self, code: u64, count: u64) -> Result<(), AllocError>
        requires { length self.old + length (bits_of 2 3 ++ (shortest 6 code ++ shortest 6 count)) < 2 ^ 62 }
        ensures { OnOk result (self.new
            ≡ self.old ++ (bits_of 2 3 ++ (shortest 6 code ++ shortest 6 count))) }
    {
        self.bits.make_room(256)?;
        self.bits.at = put_front(self.bits.last.as_mut_slice(), self.bits.at, code, count);
        Ok(())
    }

    /// Appends a record of a normal form.
    #[inline]
    pub fn record(&mut self, code: u64, values: &[u64]) -> Result<(), AllocError>
        requires { length self.old + length (bits_of 2 3 ++ entry_text code values.now) < 2 ^ 62 }
        ensures { OnOk result (self.new ≡ self.old ++ (bits_of 2 3 ++ entry_text code values.now)) }
    {
        if values.len() <= PIECE {
            return self.short_record(code, values);
        }
        self.record_front(code, values.len() as u64)?;
        self.numbers(values)
    }

    /// The same, if its values are stored at once.
    #[inline(always)]
    fn short_record(&mut self, code: u64, values: &[u64]) -> Result<(), AllocError>
        requires few { length values.now ≤ 64 }
        requires room { length self.old + length (bits_of 2 3 ++ entry_text code values.now) < 2 ^ 62 }
        ensures { OnOk result (self.new ≡ self.old ++ (bits_of 2 3 ++ entry_text code values.now)) }
    {
        self.bits.make_room(78 * values.len() as u64 + 256)?;
        self.bits.at = put_record(self.bits.last.as_mut_slice(), self.bits.at, code, values);
        Ok(())
    }

    /// Appends numbers of one byte each in chunks of six bits, each in as few as possible.
    #[inline]
    pub fn byte_numbers(&mut self, values: &[u8]) -> Result<(), AllocError>
        requires { length self.old + length (values_bits values.now) < 2 ^ 62 }
        ensures { OnOk result (self.new ≡ self.old ++ values_bits values.now) }
    {
        let mut rest = values;
        while !rest.is_empty() {
            let count = rest.len().min(4 * PIECE);
            self.some_byte_numbers(&rest[..count])?;
            rest = &rest[count..];
        }
        Ok(())
    }

    /// The same for four times as many numbers as are stored at once, or fewer.
    #[inline(always)]
    fn some_byte_numbers(&mut self, values: &[u8]) -> Result<(), AllocError>
        requires few { length values.now ≤ 256 }
        requires room { length self.old + length (values_bits values.now) < 2 ^ 62 }
        ensures { OnOk result (self.new ≡ self.old ++ values_bits values.now) }
    {
        self.bits.make_room(12 * values.len() as u64 + 78)?;
        self.bits.at = put_byte_numbers(self.bits.last.as_mut_slice(), self.bits.at, values);
        Ok(())
    }

    /// Appends zeros up to the next position that is a multiple of 32, possibly none.
    pub fn pad(&mut self) -> Result<(), AllocError>
        requires { length self.old < 2 ^ 63 }
        ensures { OnOk result (self.new ≡ self.old ++ padding (length self.old)) }
    {
        let count = ((32 - self.len() % 32) % 32) as u32;
        self.fixed(count, 0)
    }

    /// Replaces the word at a place, counted in words of 32 bits. The bits are whole words.
    pub fn set_word(&mut self, place: u64, word: u32)
        requires whole { length self.old % 32 ≡ 0 }
        requires there { 32 * place + 32 ≤ length self.old }
        ensures { self.new ≡ with_word place word self.old }
    {
        let count = self.bits.full.len();
        let chunk = place as usize / (CHUNK / 4);
        let at = 4 * place as usize % CHUNK;
        match self.bits.full.get_mut(chunk) {
            Some(bytes) => set_four(bytes, at, word),
            None => set_four(
                &mut self.bits.last,
                4 * place as usize - count * CHUNK,
                word,
            ),
        }
    }

    /// Moves all bits of another text to the end of this one. The other is then empty, and its memory is freed, except that of its
    /// last chunk.
    #[inline(never)]
    pub fn append(&mut self, other: &mut BitText) -> Result<(), AllocError>
        requires { length self.old + length other.old < 2 ^ 62 }
        ensures moved { OnOk result (self.new ≡ self.old ++ other.old) }
        ensures none { other.new ≡ [] }
    {
        let moved = self.take_all(other);
        other.clear();
        moved
    }

    /// The same, and the other has undefined bits then.
    fn take_all(&mut self, other: &mut BitText) -> Result<(), AllocError>
        requires { length self.old + length other.old < 2 ^ 62 }
        ensures { OnOk result (self.new ≡ self.old ++ other.old) }
    {
        self.take_chunks(&mut other.bits.full)?;
        self.add_bits(&other.bits.last, other.bits.at)
    }

    /// Moves the bits of full chunks to the end of this text, one chunk after another. Each is freed once it is moved. If an allocation
    /// fails, some chunks are left.
    fn take_chunks(&mut self, chunks: &mut Vec<Vec<u8>>) -> Result<(), AllocError>
        requires full { AreFull chunks.old.items }
        requires room { length self.old + length (bits_of_chunks chunks.old.items) < 2 ^ 62 }
        ensures moved { OnOk result (self.new ≡ self.old ++ bits_of_chunks chunks.old.items) }
        ensures full { AreFull chunks.new.items }
        ensures fewer { length chunks.new.items ≤ length chunks.old.items }
    {
        while !chunks.is_empty() {
            let chunk = chunks.remove(0);
            self.add_bytes(&chunk)?;
        }
        Ok(())
    }

    /// Writes all bits, at a position of the writer that is a multiple of 8.
    pub fn write<K: Sink>(self, writer: &mut BitWriter<K>) -> Result<(), Fault>
        requires live { writer.old.live ≡ true }
        requires whole { writer.old.position % 8 ≡ 0 }
        requires room { writer.old.position + length self < 2 ^ 62 }
        ensures { Writes self writer.old result writer.new }
    {
        let Chunks {
            alloc: _,
            full,
            last,
            at,
        } = self.bits;
        write_chunks(full, writer)?;
        write_bits(&last, at, writer)
    }
}

/// The bytes behind those of a full chunk, with zeros behind them.
fn behind_chunk(alloc: Global, bytes: &[u8]) -> Result<Vec<u8>, AllocError>
    requires some { 1048576 ≤ length bytes.now }
    requires few { length bytes.now ≤ 1081344 }
    ensures { IfOk result (λ next. next.items ≡ drop 1048576 bytes.now ++ replicate (2129920 - length bytes.now) 0) }
{
    let mut next = Vec::with_capacity(alloc, CHUNK + MORE)?;
    next.extend_from_slice(&bytes[CHUNK..])?;
    next.resize(CHUNK + MORE, 0)?;
    Ok(next)
}

/// Makes the first byte zero, if there is one.
#[inline(always)]
fn clear_first(bytes: &mut Vec<u8>)
    ensures { bytes.new.items ≡ slice_set bytes.old.items 0 0 }
{
    if !bytes.is_empty() {
        bytes[0] = 0;
    }
}

/// Stores a word at a byte.
fn set_four(bytes: &mut Vec<u8>, at: usize, word: u32)
    requires { at + 4 ≤ length bytes.old.items }
    ensures { bytes.new.items ≡ take at bytes.old.items ++ (to_le_bytes w32 word ++ drop (at + 4) bytes.old.items) }
{
    let four = word.to_le_bytes();
    bytes[at] = four[0];
    bytes[at + 1] = four[1];
    bytes[at + 2] = four[2];
    bytes[at + 3] = four[3];
}

/// Writes the bytes of chunks, one chunk after another. Each is freed once it is written, so that a sink in memory holds no byte twice.
fn write_chunks<K: Sink>(chunks: Vec<Vec<u8>>, writer: &mut BitWriter<K>) -> Result<(), Fault>
    requires live { writer.old.live ≡ true }
    requires whole { writer.old.position % 8 ≡ 0 }
    requires room { writer.old.position + length (bits_of_chunks chunks.items) < 2 ^ 63 }
    ensures { Writes (bits_of_chunks chunks.items) writer.old result writer.new }
{
    let mut left = chunks;
    while !left.is_empty() {
        let chunk = left.remove(0);
        write_bytes(&chunk, writer)?;
    }
    Ok(())
}

/// Writes the first bits of bytes.
fn write_bits<K: Sink>(bytes: &[u8], count: u64, writer: &mut BitWriter<K>) -> Result<(), Fault>
    requires there { count ≤ 8 * length bytes.now }
    requires live { writer.old.live ≡ true }
    requires whole { writer.old.position % 8 ≡ 0 }
    requires room { writer.old.position + count < 2 ^ 62 }
    ensures { Writes (take count (bits_of_bytes bytes.now)) writer.old result writer.new }
{
    let whole = (count >> 3) as usize;
    write_bytes(&bytes[..whole], writer)?;
    let n = (count & 7) as u32;
    if n > 0 {
        return writer.fixed(n, u64::from(bytes[whole]) & ((1 << n) - 1));
    }
    Ok(())
}

/// Writes bytes, so many at once.
fn write_bytes<K: Sink>(bytes: &[u8], writer: &mut BitWriter<K>) -> Result<(), Fault>
    requires live { writer.old.live ≡ true }
    requires whole { writer.old.position % 8 ≡ 0 }
    requires room { writer.old.position + 8 * length bytes.now < 2 ^ 63 }
    ensures { Writes (bits_of_bytes bytes.now) writer.old result writer.new }
{
    let mut rest = bytes;
    while !rest.is_empty() {
        let count = rest.len().min(WRITTEN);
        writer.bytes(&rest[..count])?;
        rest = &rest[count..];
    }
    Ok(())
}
