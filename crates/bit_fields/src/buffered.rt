ghost use Rattle.std.specs.Prelude.{ℕ, ◌≡◌, ◌+◌, ◌*◌, ◌-◌, ◌%◌, ◌<◌, ◌≤◌, ◌^◌, ◌++◌, length, take, drop, get_or, IfSome, OnSome, MatchOption, IfNone};
ghost use Rattle.bit_grammar.specs.Bits.{bits_of, number, bits_of_bytes};
ghost use Rattle.bit_grammar.specs.Grammar.{repeat};
ghost use Rattle.bit_grammar.specs.Fields.{fixed, vbr, char6, align32};
ghost use Rattle.bit_fields.specs.Inside.{part_of, numbers};
ghost use Rattle.bit_fields.specs.Buffered.{Reads, beyond};
ghost use Rattle.bit_fields.specs.BufferedParts.{bits_of_parts, AreParts};

use crate::numbers::{MOST_SHORT, character, payload_of, worth_at};
use crate::width::{ChunkWidth, FieldWidth};
use crate::window::Window;
use crate::word::{eight_of, four_of, word_of};
use std::marker::Model;

/// Buffered bits of a stream, as a reader lends them: the low bits of a word, how many they are, the bytes after them, and the
/// position of the first bit.
#[derive(Clone, Copy)]
pub struct BufferedParts<'a> {
    pub(crate) word: u64,
    pub(crate) held: u32,
    pub(crate) bytes: &'a [u8],
    pub(crate) position: u64,
}

impl<'a> BufferedParts<'a> {
    /// The position of the first bit.
    #[inline(always)]
    pub fn position(&self) -> u64
        ensures { result ≡ (bits_of_parts self.now).position }
    {
        self.position
    }

    /// The position after the bits in the word. What is read does not depend on it.
    #[inline(always)]
    pub fn loaded(&self) -> u64 {
        self.position.wrapping_add(u64::from(self.held))
    }

    /// Whether this number is in the first n bits; `false` also if fewer are in the word. Only speed depends on it.
    #[inline(always)]
    pub fn starts_with(&self, n: FieldWidth, number: u64) -> bool {
        self.held >= n.bits && self.word & ((1 << n.bits) - 1) == number
    }
}

/// Buffered bits of a stream, from the reader's position on. The reader has not taken them yet. A field is read from here in a few
/// instructions; `BitReader::catch_up` then takes the bits that were read.
///
/// `None` is no refusal: the field is not complete here, or it is long or odd, and the reader itself must read it. The buffer must
/// not be used after a `None`.
#[derive(Drop)]
pub struct Buffered<'a> {
    window: Window,
    /// The bytes after the window.
    bytes: &'a [u8],
    /// The position after these bytes.
    end: u64,
}

impl<'a> Model for Buffered<'a> {
    ghost use Rattle.std.specs.Prelude.{◌+◌, ◌*◌, ◌-◌, ◌≤◌, ◌++◌, length};
    ghost use Rattle.bit_grammar.specs.Bits.{bits_of_bytes};
    ghost use Rattle.bit_fields.specs.Buffered.{BufferedBits};

    ghost Value = { BufferedBits };

    ghost view = { λ a. record {
      position = a.end - (length a.window + 8 * length a.bytes.now);
      bits = a.window ++ bits_of_bytes a.bytes.now;
    } };

    ghost invariant = { λ a. length a.window + 8 * length a.bytes.now ≤ a.end };
}

impl<'a> Buffered<'a> {
    /// The buffered bits that a reader lends.
    #[inline(always)]
    pub fn new(buffered_parts: BufferedParts<'a>) -> Buffered<'a>
        requires { AreParts buffered_parts }
        ensures { result ≡ bits_of_parts buffered_parts.entry }
    {
        let end = buffered_parts.position
            + (u64::from(buffered_parts.held) + 8 * buffered_parts.bytes.len() as u64);
        Buffered {
            window: Window::of(buffered_parts.word, buffered_parts.held),
            bytes: buffered_parts.bytes,
            end,
        }
    }

    /// Bytes whose first bit is at a position.
    #[inline(always)]
    pub(crate) fn of(bytes: &'a [u8], position: u64) -> Buffered<'a>
        requires { position + 8 * length bytes.now < 2 ^ 64 }
        ensures { result ≡ record { position = position; bits = bits_of_bytes bytes.now } }
    {
        Buffered {
            window: Window::new(),
            bytes,
            end: position + 8 * bytes.len() as u64,
        }
    }

    /// Moves the border between the window and the bytes after it to `loaded`, where a reader has it that has loaded the bytes before.
    /// It is at most 64 bits away, and 64 more bits are there; else the border may lie elsewhere.
    #[inline(always)]
    pub fn divide(&mut self, buffered_parts: BufferedParts<'a>, loaded: u64)
        requires lawful { AreParts buffered_parts }
        requires few { self.old.position - buffered_parts.position
            ≤ length (bits_of_parts buffered_parts).bits }
        requires here { self.old ≡ beyond (bits_of_parts buffered_parts)
            (self.old.position - buffered_parts.position) }
        ensures { self.new ≡ self.old }
    {
        if self.loaded() == loaded {
            return;
        }
        let first = self.position();
        let bits = first.saturating_sub(buffered_parts.position);
        *self = Buffered::after(buffered_parts, bits, loaded.wrapping_sub(first));
    }

    /// The bits after the first `bits`, with `held` of them in the window.
    #[inline(always)]
    fn after(buffered_parts: BufferedParts<'a>, bits: u64, held: u64) -> Buffered<'a>
        requires lawful { AreParts buffered_parts }
        requires there { bits ≤ length (bits_of_parts buffered_parts).bits }
        ensures { result ≡ beyond (bits_of_parts buffered_parts.entry) bits }
    {
        let mut buffered = Buffered::new(buffered_parts);
        buffered.skip(bits);
        buffered.hold(held);
        buffered
    }

    /// The position after the bits in the window. What is read does not depend on it, so no clause says more.
    #[inline(always)]
    pub fn loaded(&self) -> u64
        ensures least { self.now.position ≤ result }
        ensures most { result ≤ self.now.position + 64 }
    {
        // The window has at most 64 bits.
        let _held = self.window.len();
        self.end - 8 * self.bytes.len() as u64
    }

    /// Moves whole bytes into the window until it has `held` bits, at most 64, if eight bytes are there.
    #[inline(always)]
    fn hold(&mut self, held: u64)
        ensures { self.new ≡ self.old }
    {
        let len = u64::from(self.window.len());
        if len < held && held <= 64 && self.bytes.len() >= 8 {
            let count = ((held - len) / 8) as usize;
            self.bytes = load_some(&mut self.window, self.bytes, count);
        }
    }

    /// The bit at which the unread buffered bits begin, counted from the first bit of the input.
    #[inline(always)]
    pub fn position(&self) -> u64
        ensures { result ≡ self.now.position }
    {
        self.end - (u64::from(self.window.len()) + 8 * self.bytes.len() as u64)
    }

    /// Moves four bytes into the window, if it has fewer than 32 bits and the bytes are there.
    #[inline(always)]
    fn fill(&mut self)
        ensures { self.new ≡ self.old }
    {
        if self.window.len() < 32 {
            if let Some(rest) = load(&mut self.window, self.bytes) {
                self.bytes = rest;
            }
        }
    }

    /// Takes n bits, a part of a field.
    #[inline(always)]
    fn part(&mut self, n: u32) -> Option<u64>
        requires { n ≤ 32 }
        ensures reads { IfSome result (λ value. (first : ℕ)
            → Reads (part_of first n) self.old value self.new) }
        ensures below { IfSome result (λ value. value < 2 ^ n) }
        ensures moves { OnSome result (self.new.position ≡ self.old.position + n) }
        ensures stays { IfNone result (self.new ≡ self.old) }
    {
        self.fill();
        self.held_part(n)
    }

    /// Takes n bits, if they are in the window.
    #[inline(always)]
    fn held_part(&mut self, n: u32) -> Option<u64>
        requires { n ≤ 32 }
        ensures reads { IfSome result (λ value. (first : ℕ)
            → Reads (part_of first n) self.old value self.new) }
        ensures below { IfSome result (λ value. value < 2 ^ n) }
        ensures moves { OnSome result (self.new.position ≡ self.old.position + n) }
        ensures stays { IfNone result (self.new ≡ self.old) }
    {
        if self.window.len() < n {
            return None;
        }
        Some(self.window.take(n))
    }

    /// Reads a number of n bits, n from 1 to 32, the lowest bit first. Source: "Fixed Width Integers".
    #[inline(always)]
    pub fn fixed(&mut self, n: FieldWidth) -> Option<u64>
        ensures reads { IfSome result (λ value. Reads (fixed n.bits) self.old value self.new) }
        ensures below { IfSome result (λ value. value < 2 ^ n.bits) }
        ensures moves { OnSome result (self.new.position ≡ self.old.position + n.bits) }
        ensures stays { IfNone result (self.new ≡ self.old) }
    {
        let value = self.part(n.bits)?;
        Some(value)
    }

    /// Reads a character in six bits and returns its ASCII code. Source: "6-bit characters".
    #[inline(always)]
    pub fn char6(&mut self) -> Option<u64>
        ensures reads { IfSome result (λ value. Reads char6 self.old value self.new) }
        ensures moves { OnSome result (self.new.position ≡ self.old.position + 6) }
        ensures stays { IfNone result (self.new ≡ self.old) }
    {
        let code = self.part(6)?;
        Some(character(code))
    }

    /// Reads a number in chunks of n bits, n from 2 to 32. Source: "Variable Width Integers".
    #[inline(always)]
    pub fn vbr(&mut self, n: ChunkWidth) -> Option<u64>
        ensures reads { IfSome result (λ value. Reads (vbr n.bits) self.old value self.new) }
        ensures moves { OnSome result (self.old.position + n.bits ≤ self.new.position) }
        ensures stays { IfNone result (self.new ≡ self.old) }
    {
        self.fill();
        match self.one_chunk(n) {
            Some(value) => Some(value),
            None => self.longer_vbr(n),
        }
    }

    /// Reads such a number without testing first for one chunk. That takes a few instructions more if the value is used, but no
    /// instruction waits for the value if it is not.
    #[inline(always)]
    pub fn pass_vbr(&mut self, n: ChunkWidth) -> Option<u64>
        ensures reads { IfSome result (λ value. Reads (vbr n.bits) self.old value self.new) }
        ensures moves { OnSome result (self.old.position + n.bits ≤ self.new.position) }
        ensures stays { IfNone result (self.new ≡ self.old) }
    {
        self.fill();
        self.longer_vbr(n)
    }

    /// Reads a number that may be longer than one chunk of n bits.
    #[inline(always)]
    fn longer_vbr(&mut self, n: ChunkWidth) -> Option<u64>
        ensures reads { IfSome result (λ value. Reads (vbr n.bits) self.old value self.new) }
        ensures moves { OnSome result (self.old.position + n.bits ≤ self.new.position) }
        ensures stays { IfNone result (self.new ≡ self.old) }
    {
        if let Some(value) = self.few_chunks(n) {
            return Some(value);
        }
        let (value, bits) = self.copy().far_vbr(n);
        if bits == 0 {
            return None;
        }
        self.skip(bits);
        Some(value)
    }

    /// Takes a number of one chunk of n bits, if it is in the window. Most numbers are such.
    #[inline(always)]
    fn one_chunk(&mut self, n: ChunkWidth) -> Option<u64>
        ensures reads { MatchOption result (self.new ≡ self.old)
            (λ value. Reads (vbr n.bits) self.old value self.new) }
        ensures moves { OnSome result (self.new.position ≡ self.old.position + n.bits) }
    {
        if self.window.len() < n.bits || self.window.peek(n.bits) >= 1 << (n.bits - 1) {
            return None;
        }
        Some(self.window.take(n.bits))
    }

    /// Takes a number in chunks of n bits, if it has at most four chunks and all are in the window.
    #[inline(always)]
    fn few_chunks(&mut self, n: ChunkWidth) -> Option<u64>
        ensures reads { MatchOption result (self.new ≡ self.old)
            (λ value. Reads (vbr n.bits) self.old value self.new) }
        ensures moves { OnSome result (self.old.position + n.bits ≤ self.new.position) }
    {
        if n.bits > MOST_SHORT {
            return None;
        }
        let bits = self.window.number_bits(n.bits);
        if bits > self.window.len() {
            return None;
        }
        Some(self.window.take_number(n.bits, bits))
    }

    /// Reads a number in chunks of n bits that is not complete in the window or has more than four chunks. Returns the number and
    /// its width in bits, or a width of 0 if it declines. It takes the buffer by value, so that its callers keep theirs in
    /// registers, and its result fits two registers.
    #[cold]
    #[inline(never)]
    pub(crate) fn far_vbr(self, n: ChunkWidth) -> (u64, u64)
        ensures reads { 0 < result.1 → Reads (vbr n.bits) self.entry result.0
            (beyond self.entry result.1) }
        ensures moves { 0 < result.1 → n.bits ≤ result.1 }
    {
        let mut buffered = self;
        let first = buffered.position();
        match buffered.chunk_by_chunk(n) {
            Some(value) => (value, buffered.position() - first),
            None => (0, 0),
        }
    }

    /// Reads a number in chunks of n bits, chunk by chunk.
    fn chunk_by_chunk(&mut self, n: ChunkWidth) -> Option<u64>
        ensures reads { IfSome result (λ value. Reads (vbr n.bits) self.old value self.new) }
        ensures moves { OnSome result (self.old.position + n.bits ≤ self.new.position) }
    {
        let chunk = self.part(n.bits)?;
        if chunk < 1 << (n.bits - 1) {
            return Some(chunk);
        }
        let mut value = payload_of(chunk, n);
        let mut place = n.bits - 1;
        while place < 64 {
            let chunk = self.part(n.bits)?;
            value += worth_at(payload_of(chunk, n), place)?;
            if chunk < 1 << (n.bits - 1) {
                return Some(value);
            }
            place += n.bits - 1;
        }
        None
    }

    /// Reads zeros up to the next position that is a multiple of 32, possibly none. Source: "Abbreviation IDs", align32. If all of
    /// them are in the window, it is not refilled: it is then often empty after them, as `bytes` needs it.
    #[inline(always)]
    pub fn pad(&mut self) -> Option<()>
        ensures reads { OnSome result (Reads align32 self.old tt self.new) }
        ensures aligned { OnSome result (self.new.position % 32 ≡ 0) }
        ensures moves { OnSome result (self.old.position ≤ self.new.position) }
    {
        let count = ((32 - self.position() % 32) % 32) as u32;
        if self.window.len() < count {
            self.fill();
        }
        let zeros = self.held_part(count)?;
        if zeros != 0 {
            return None;
        }
        Some(())
    }

    /// Reads a number of 8 bits, if they are in the window. The window is not refilled.
    #[inline(always)]
    pub fn held_byte(&mut self) -> Option<u64>
        ensures reads { IfSome result (λ value. Reads (fixed 8) self.old value self.new) }
        ensures moves { OnSome result (self.new.position ≡ self.old.position + 8) }
        ensures stays { IfNone result (self.new ≡ self.old) }
    {
        let value = self.held_part(8)?;
        Some(value)
    }

    /// Reads at most `most` numbers of 8 bits, as the bytes after the window; none if the window has bits.
    #[inline(always)]
    pub fn bytes(&mut self, most: u64) -> &'a [u8]
        ensures reads { Reads (repeat (length result.now) (fixed 8)) self.old result.now
            self.new }
        ensures most { length result.now ≤ most }
        ensures moves { self.new.position ≡ self.old.position + 8 * length result.now }
    {
        if self.window.len() > 0 {
            return &[];
        }
        are_bytes(self.bytes);
        let count = self.bytes.len().min(most as usize);
        let bytes = &self.bytes[..count];
        self.bytes = &self.bytes[count..];
        bytes
    }

    /// How many bits are buffered.
    #[inline(always)]
    pub fn len(&self) -> u64
        ensures { result ≡ length self.now.bits }
    {
        self.end - self.position()
    }

    /// Skips fields of n bits, n from 1 to 32, whatever they are: all that are complete here, at most `most`. Returns how many.
    #[inline(always)]
    pub fn skip_fields(&mut self, most: u64, n: FieldWidth) -> u64
        requires fits { most < 2 ^ 32 }
        ensures reads { Reads (repeat result (fixed n.bits)) self.old
            (numbers n.bits result self.old.bits) self.new }
        ensures most { result ≤ most }
        ensures moves { self.new.position ≡ self.old.position + n.bits * result }
    {
        let width = u64::from(n.bits);
        let there = self.len();
        let count = if most * width <= there {
            most
        } else {
            there / width
        };
        self.skip(count * width);
        count
    }

    /// Skips `bits` bits, which are buffered.
    #[inline(always)]
    pub fn skip(&mut self, bits: u64)
        requires { bits ≤ length self.old.bits }
        ensures skipped { self.new ≡ beyond self.old bits }
        ensures moves { self.new.position ≡ self.old.position + bits }
    {
        let held = u64::from(self.window.len());
        if bits < held {
            self.window.split(bits as u32);
            return;
        }
        let behind = bits - held;
        let (window, bytes) = rest_of_byte(
            &self.bytes[(behind / 8) as usize..],
            (behind % 8) as u32,
        );
        self.window = window;
        self.bytes = bytes;
    }

    /// A copy.
    #[inline(always)]
    pub fn copy(&self) -> Buffered<'a>
        ensures { result ≡ self.now }
    {
        Buffered {
            window: self.window.copy(),
            bytes: self.bytes,
            end: self.end,
        }
    }
}

/// States what the type of bytes says: each is below 256.
#[inline(always)]
fn are_bytes(bytes: &[u8])
    ensures { (place : ℕ) → get_or bytes.now place 0 < 256 }
{}

/// The bits of the first byte after its low n, n below 8, and the bytes after it; all bytes if n is 0.
#[inline(always)]
fn rest_of_byte(bytes: &[u8], n: u32) -> (Window, &[u8])
    requires few { n < 8 }
    requires there { n ≤ 8 * length bytes.now }
    ensures bits { result.0 ++ bits_of_bytes result.1.now ≡ drop n (bits_of_bytes bytes.now) }
    ensures fewer { length result.0 + 8 * length result.1.now + n ≡ 8 * length bytes.now }
{
    if n == 0 {
        return (Window::new(), bytes);
    }
    let mut window = Window::of(u64::from(bytes[0]), 8);
    window.split(n);
    (window, &bytes[1..])
}

/// Moves the next four bytes into a window, and returns the bytes after them.
#[inline(always)]
fn load<'a>(window: &mut Window, bytes: &'a [u8]) -> Option<&'a [u8]>
    requires { length window.old ≤ 32 }
    ensures same { IfSome result (λ rest. window.new ++ bits_of_bytes rest.now
        ≡ window.old ++ bits_of_bytes bytes.now) }
    ensures longer { OnSome result (length window.new ≡ length window.old + 32) }
    ensures fewer { IfSome result (λ rest. length bytes.now ≡ 4 + length rest.now) }
    ensures none { IfNone result (window.new ≡ window.old) }
    ensures short { IfNone result (length bytes.now < 4) }
{
    if bytes.len() < 4 {
        return None;
    }
    window.push(four_of(bytes), 32);
    Some(&bytes[4..])
}

/// Moves up to eight bytes of a slice, which has eight, into a window, and returns the bytes after them.
#[inline(always)]
fn load_some<'a>(window: &mut Window, bytes: &'a [u8], count: usize) -> &'a [u8]
    requires few { count ≤ 8 }
    requires there { 8 ≤ length bytes.now }
    requires room { length window.old + 8 * count ≤ 64 }
    requires shift { length window.old < 64 }
    ensures same { window.new ++ bits_of_bytes result.now ≡ window.old ++ bits_of_bytes bytes.now }
    ensures longer { length window.new ≡ length window.old + 8 * count }
    ensures fewer { length bytes.now ≡ count + length result.now }
{
    let eight = [
        bytes[0], bytes[1], bytes[2], bytes[3], bytes[4], bytes[5], bytes[6], bytes[7],
    ];
    window.push(word_of(eight, count), 8 * count as u32);
    &bytes[count..]
}
