ghost use Rattle.std.specs.Prelude.{◌≡◌, ◌+◌, ◌-◌, ◌*◌, ◌%◌, ◌<◌, ◌≤◌, ◌^◌, ◌++◌, length, true, false, take, drop, [], IfOk, OnOk, OnErr, Ok};
ghost use Rattle.bit_grammar.specs.Bits.{bits_of, bits_of_bytes};
ghost use Rattle.bit_grammar.specs.FormatFields.{shortest};
ghost use Rattle.bit_grammar.specs.Normal.{padding};
ghost use Rattle.bit_fields.specs.Writer.{Wrote, LostBits, Writes, writer_holding};

use crate::fault::Fault;
use crate::sink::{Sink, SinkFailed};
use crate::window::Window;
use std::marker::Model;

/// Writes the fields of a stream of bits. After a fault every call that returns a `Result` returns `Failed`.
#[derive(Drop)]
pub struct BitWriter<K: Sink> {
    window: Window,
    sink: K,
    position: u64,
    live: bool,
}

impl<K: Sink> Model for BitWriter<K> {
    ghost use Rattle.bit_fields.specs.Writer.{Writer, IsWriter};

    ghost Value = { Writer };

    ghost view = { λ w. record {
      live = w.live;
      position = w.position;
      held = w.window;
      outgoing = K.outgoing w.sink;
    } };

    ghost invariant = { λ w. IsWriter (record
        { live = w.live; position = w.position; held = w.window; outgoing = K.outgoing w.sink }) };
}

impl<K: Sink> BitWriter<K> {
    /// A writer that appends its bytes to those that the sink took before.
    pub fn new(sink: K) -> BitWriter<K>
        ensures { result ≡ record {
          live = true;
          position = 0;
          held = [];
          outgoing = K.outgoing sink;
        } }
    {
        BitWriter {
            window: Window::new(),
            sink,
            position: 0,
            live: true,
        }
    }

    /// How many bits were written.
    pub fn position(&self) -> u64
        ensures { result ≡ self.now.position }
    {
        self.position
    }

    /// Returns the sink in its present state: without the bits that are still held, unless `finish` succeeded.
    pub fn into_sink(self) -> K
        ensures { K.outgoing result ≡ self.outgoing }
    {
        self.sink
    }

    /// Gives the sink the first `count` held bytes. The sink may take only some of them.
    #[inline(always)]
    fn put(&mut self, count: usize) -> Result<(), SinkFailed>
        requires live { self.old.live ≡ true }
        requires some { 0 < count }
        requires held { 8 * count ≤ length self.old.held }
        ensures wrote { OnOk result (Wrote self.old [] self.new) }
        ensures lost { OnErr result (LostBits self.old [] self.new) }
        ensures fewer { OnOk result (length self.new.held < length self.old.held) }
        ensures stays { OnErr result (self.new.position ≡ self.old.position) }
    {
        let bytes = self.window.bytes();
        match self.sink.put(&bytes[..count]) {
            Ok(0) => {
                self.live = false;
                Err(SinkFailed)
            }
            Ok(taken) => {
                self.window.skip(8 * taken as u32);
                Ok(())
            }
            Err(SinkFailed) => {
                self.live = false;
                Err(SinkFailed)
            }
        }
    }

    /// Gives the sink all held bytes. The position is a multiple of 8.
    fn put_all(&mut self) -> Result<(), SinkFailed>
        requires live { self.old.live ≡ true }
        requires whole { self.old.position % 8 ≡ 0 }
        ensures wrote { OnOk result (Wrote self.old [] self.new) }
        ensures lost { OnErr result (LostBits self.old [] self.new) }
        ensures all { OnOk result (self.new.held ≡ []) }
        ensures stays { OnErr result (self.new.position ≡ self.old.position) }
    {
        while self.window.len() > 0 {
            let bytes = self.window.len() / 8;
            self.put(bytes as usize)?;
        }
        Ok(())
    }

    /// Holds bits for which there is room.
    #[inline(always)]
    fn hold(&mut self, bits: Window)
        requires live { self.old.live ≡ true }
        requires some { 0 < length bits }
        requires room { length self.old.held + length bits ≤ 64 }
        requires position { self.old.position + length bits < 2 ^ 64 }
        ensures wrote { Wrote self.old bits self.new }
        ensures held { self.new.held ≡ self.old.held ++ bits }
    {
        self.position += u64::from(bits.len());
        self.window.append(bits);
    }

    /// Holds the bits for which there is room, and returns the others.
    fn hold_front(&mut self, bits: Window) -> Window
        requires live { self.old.live ≡ true }
        requires most { length bits ≤ 64 }
        requires more { 64 < length self.old.held + length bits }
        requires position { self.old.position + length bits < 2 ^ 64 }
        ensures wrote { Wrote self.old (take (64 - length self.old.held) bits) self.new }
        ensures full { length self.new.held ≡ 64 }
        ensures whole { self.new.position % 8 ≡ 0 }
        ensures rest { result ≡ drop (64 - length self.old.held) bits }
        ensures some { 0 < length result }
    {
        let mut rest = bits;
        let room = 64 - self.window.len();
        if room > 0 {
            self.hold(rest.split(room));
        }
        rest
    }

    /// Holds some of the bits, gives the sink the full window, and holds the others. After a failure the position is undefined.
    fn hold_in_parts(&mut self, bits: Window) -> Result<(), SinkFailed>
        requires live { self.old.live ≡ true }
        requires most { length bits ≤ 64 }
        requires more { 64 < length self.old.held + length bits }
        requires position { self.old.position + length bits < 2 ^ 64 }
        ensures wrote { OnOk result (Wrote self.old bits self.new) }
        ensures lost { OnErr result (LostBits self.old bits self.new) }
    {
        let rest = self.hold_front(bits);
        self.put(8)?;
        self.put_all()?;
        self.hold(rest);
        Ok(())
    }

    /// Writes bits for which there is no room. It is kept out of its callers, so that they take few instructions if there is room.
    #[cold]
    #[inline(never)]
    fn overflow(&mut self, bits: Window) -> Result<(), SinkFailed>
        requires live { self.old.live ≡ true }
        requires most { length bits ≤ 64 }
        requires more { 64 < length self.old.held + length bits }
        requires position { self.old.position + length bits < 2 ^ 64 }
        ensures wrote { OnOk result (Wrote self.old bits self.new) }
        ensures lost { OnErr result (LostBits self.old bits self.new) }
        ensures stays { OnErr result (self.new.position ≡ self.old.position) }
    {
        let first = self.position;
        match self.hold_in_parts(bits) {
            Ok(()) => Ok(()),
            Err(SinkFailed) => {
                self.position = first;
                Err(SinkFailed)
            }
        }
    }

    /// Writes bits. The position after them fits 64 bits.
    #[inline(always)]
    fn append(&mut self, bits: Window) -> Result<(), SinkFailed>
        requires live { self.old.live ≡ true }
        requires some { 0 < length bits }
        requires position { self.old.position + length bits < 2 ^ 64 }
        ensures wrote { OnOk result (Wrote self.old bits self.new) }
        ensures lost { OnErr result (LostBits self.old bits self.new) }
        ensures stays { OnErr result (self.new.position ≡ self.old.position) }
    {
        if self.window.len() + bits.len() > 64 {
            return self.overflow(bits);
        }
        self.hold(bits);
        Ok(())
    }

    /// Writes a number of n bits. The position after it fits 64 bits.
    #[inline(always)]
    fn field(&mut self, n: u32, value: u64) -> Result<(), Fault>
        requires live { self.old.live ≡ true }
        requires some { 0 < n }
        requires few { n ≤ 32 }
        requires fits { value < 2 ^ n }
        requires position { self.old.position + n < 2 ^ 64 }
        ensures writes { Writes (bits_of n value) self.old result self.new }
        ensures stays { OnErr result (self.new.position ≡ self.old.position) }
    {
        match self.append(Window::of(value, n)) {
            Ok(()) => Ok(()),
            Err(SinkFailed) => Err(Fault::Write),
        }
    }

    /// Writes a number of n bits, n from 1 to 32, the lowest bit first.
    pub fn fixed(&mut self, n: u32, value: u64) -> Result<(), Fault>
        requires some { 0 < n }
        requires few { n ≤ 32 }
        requires fits { value < 2 ^ n }
        requires position { self.old.position < 2 ^ 63 }
        ensures writes { Writes (bits_of n value) self.old result self.new }
        ensures stays { OnErr result (self.new.position ≡ self.old.position) }
    {
        if !self.live {
            return Err(Fault::Failed);
        }
        self.field(n, value)
    }

    /// Writes a number in chunks of n bits, in as few as possible. After a failure the position is undefined.
    fn chunks(&mut self, n: u32, value: u64) -> Result<(), SinkFailed>
        requires live { self.old.live ≡ true }
        requires some { 2 ≤ n }
        requires few { n ≤ 32 }
        requires position { self.old.position < 2 ^ 63 }
        ensures wrote { OnOk result (Wrote self.old (shortest n value) self.new) }
        ensures lost { OnErr result (LostBits self.old (shortest n value) self.new) }
    {
        let more = 1 << (n - 1);
        let mut rest = value;
        while rest >= more {
            self.append(Window::of((rest & (more - 1)) + more, n))?;
            rest >>= n - 1;
        }
        self.append(Window::of(rest, n))?;
        Ok(())
    }

    /// Writes a number that may have too many chunks for a window. It is kept out of its callers.
    #[cold]
    #[inline(never)]
    fn long_vbr(&mut self, n: u32, value: u64) -> Result<(), SinkFailed>
        requires live { self.old.live ≡ true }
        requires some { 2 ≤ n }
        requires few { n ≤ 32 }
        requires position { self.old.position < 2 ^ 63 }
        ensures wrote { OnOk result (Wrote self.old (shortest n value) self.new) }
        ensures lost { OnErr result (LostBits self.old (shortest n value) self.new) }
        ensures stays { OnErr result (self.new.position ≡ self.old.position) }
    {
        let first = self.position;
        match self.chunks(n, value) {
            Ok(()) => Ok(()),
            Err(SinkFailed) => {
                self.position = first;
                Err(SinkFailed)
            }
        }
    }

    /// Writes the chunks of a number of 32 bits, or of a longer one.
    #[inline(always)]
    fn any_vbr(&mut self, n: u32, value: u64) -> Result<(), SinkFailed>
        requires live { self.old.live ≡ true }
        requires some { 2 ≤ n }
        requires few { n ≤ 32 }
        requires position { self.old.position < 2 ^ 63 }
        ensures wrote { OnOk result (Wrote self.old (shortest n value) self.new) }
        ensures lost { OnErr result (LostBits self.old (shortest n value) self.new) }
        ensures stays { OnErr result (self.new.position ≡ self.old.position) }
    {
        if value >= 1 << 32 {
            return self.long_vbr(n, value);
        }
        self.append(chunks_of(n, value))
    }

    /// Writes a number in chunks of n bits, n from 2 to 32, in as few as possible.
    #[inline(always)]
    pub fn vbr(&mut self, n: u32, value: u64) -> Result<(), Fault>
        requires some { 2 ≤ n }
        requires few { n ≤ 32 }
        requires position { self.old.position < 2 ^ 63 }
        ensures writes { Writes (shortest n value) self.old result self.new }
        ensures stays { OnErr result (self.new.position ≡ self.old.position) }
    {
        if !self.live {
            return Err(Fault::Failed);
        }
        match self.any_vbr(n, value) {
            Ok(()) => Ok(()),
            Err(SinkFailed) => Err(Fault::Write),
        }
    }

    /// Gives the sink bytes, of which it may take some, and returns how many it took. No bits are held.
    fn put_front(&mut self, bytes: &[u8]) -> Result<usize, SinkFailed>
        requires live { self.old.live ≡ true }
        requires none { self.old.held ≡ [] }
        requires some { 0 < length bytes.now }
        ensures wrote { IfOk result (λ count. Wrote (writer_holding self.old bytes.now) []
            (writer_holding self.new (drop count bytes.now))) }
        ensures lost { OnErr result (LostBits (writer_holding self.old bytes.now) [] self.new) }
        ensures few { IfOk result (λ count. count ≤ length bytes.now) }
        ensures some { IfOk result (λ count. 0 < count) }
        ensures none { OnOk result (self.new.held ≡ []) }
    {
        match self.sink.put(bytes) {
            Ok(0) => {
                self.live = false;
                Err(SinkFailed)
            }
            Ok(count) => Ok(count),
            Err(SinkFailed) => {
                self.live = false;
                Err(SinkFailed)
            }
        }
    }

    /// Gives the sink all of these bytes. No bits are held.
    fn put_bytes(&mut self, bytes: &[u8]) -> Result<(), SinkFailed>
        requires live { self.old.live ≡ true }
        requires none { self.old.held ≡ [] }
        requires whole { self.old.position % 8 ≡ 0 }
        requires position { self.old.position + 8 * length bytes.now < 2 ^ 64 }
        ensures wrote { OnOk result (Wrote self.old (bits_of_bytes bytes.now) self.new) }
        ensures lost { OnErr result (LostBits self.old (bits_of_bytes bytes.now) self.new) }
    {
        self.position += 8 * bytes.len() as u64;
        let mut rest = bytes;
        while !rest.is_empty() {
            let count = self.put_front(rest)?;
            rest = &rest[count..];
        }
        Ok(())
    }

    /// Gives the sink all held bytes, and then these.
    fn put_behind(&mut self, bytes: &[u8]) -> Result<(), SinkFailed>
        requires live { self.old.live ≡ true }
        requires whole { self.old.position % 8 ≡ 0 }
        requires position { self.old.position + 8 * length bytes.now < 2 ^ 64 }
        ensures wrote { OnOk result (Wrote self.old (bits_of_bytes bytes.now) self.new) }
        ensures lost { OnErr result (LostBits self.old (bits_of_bytes bytes.now) self.new) }
    {
        self.put_all()?;
        self.put_bytes(bytes)
    }

    /// Writes bytes at a position that is a multiple of 8, and gives the sink as many at once as it takes.
    pub fn bytes(&mut self, bytes: &[u8]) -> Result<(), Fault>
        requires whole { self.old.position % 8 ≡ 0 }
        requires position { self.old.position + 8 * length bytes.now < 2 ^ 64 }
        ensures writes { Writes (bits_of_bytes bytes.now) self.old result self.new }
        ensures stays { OnErr result (self.new.position ≡ self.old.position) }
    {
        if !self.live {
            return Err(Fault::Failed);
        }
        let began = self.position;
        match self.put_behind(bytes) {
            Ok(()) => Ok(()),
            Err(SinkFailed) => {
                self.position = began;
                Err(Fault::Write)
            }
        }
    }

    /// Writes zeros up to the next position that is a multiple of 32, possibly none.
    pub fn pad(&mut self) -> Result<(), Fault>
        requires { self.old.position < 2 ^ 63 }
        ensures writes { Writes (padding self.old.position) self.old result self.new }
        ensures stays { OnErr result (self.new.position ≡ self.old.position) }
    {
        if !self.live {
            return Err(Fault::Failed);
        }
        let count = ((32 - self.position() % 32) % 32) as u32;
        if count > 0 {
            return self.field(count, 0);
        }
        Ok(())
    }

    /// Gives the sink all held bytes. The position is a multiple of 8.
    pub fn finish(&mut self) -> Result<(), Fault>
        requires { self.old.position % 8 ≡ 0 }
        ensures writes { Writes [] self.old result self.new }
        ensures all { OnOk result (self.new.held ≡ []) }
        ensures stays { OnErr result (self.new.position ≡ self.old.position) }
    {
        if !self.live {
            return Err(Fault::Failed);
        }
        match self.put_all() {
            Ok(()) => Ok(()),
            Err(SinkFailed) => Err(Fault::Write),
        }
    }
}

/// The chunks of n bits of a number of 32 bits, as few as possible.
#[inline(always)]
fn chunks_of(n: u32, value: u64) -> Window
    requires some { 2 ≤ n }
    requires few { n ≤ 32 }
    requires short { value < 2 ^ 32 }
    ensures spelled { result ≡ shortest n value }
    ensures least { 0 < length result }
    ensures most { length result ≤ 64 }
{
    let more = 1 << (n - 1);
    let mut chunks = Window::new();
    let mut left = value;
    while left >= more {
        chunks.push((left & (more - 1)) + more, n);
        left >>= n - 1;
    }
    chunks.push(left, n);
    chunks
}
