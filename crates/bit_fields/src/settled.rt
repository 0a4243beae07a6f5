//! Packed values, many at a time.

ghost use Rattle.std.specs.Prelude.{◌≡◌, ◌+◌, ◌-◌, ◌<◌, ◌≤◌, ◌^◌, [], ◌++◌, length, take, drop, OnOk, OnErr, slice_get, true, false};
ghost use Rattle.std.proofs.Math.ListN.{replicate};
ghost use Rattle.bit_fields.specs.Packed.{StandAt};

use crate::values::NotTaken;
use crate::wide::{WideNumbers, WideSlice};
use std::alloc::{AllocError, Global};
use std::marker::Model;

/// How many values are packed at once, at most.
pub(crate) const BATCH: usize = 64;

/// How many values there may be, zeros included, at most: those of another batch can be counted too.
const MOST: u64 = u64::MAX - BATCH as u64;

/// How many numbers a cleared list may have room for; a larger list is freed.
const ROOM: usize = 65536;

/// Numbers. Those after the last batch with one above 255 take one byte each, and the others two or more.
#[derive(Drop)]
struct Numbers {
    alloc: Global,
    wide: WideNumbers,
    bytes: Vec<u8>,
}

impl Model for Numbers {
    ghost use Rattle.std.specs.Prelude.{ℕ, List, ◌++◌};

    ghost Value = { List ℕ };

    ghost view = { λ n. n.wide ++ n.bytes.items };
}

/// Moves numbers of one byte each to the wide ones.
#[cold]
fn widen(wide: &mut WideNumbers, bytes: &mut Vec<u8>) -> Result<(), AllocError>
    ensures same { wide.new ++ bytes.new.items ≡ wide.old ++ bytes.old.items }
    ensures all { OnOk result (bytes.new.items ≡ []) }
{
    wide.push_bytes(bytes)?;
    bytes.clear();
    Ok(())
}

/// Converts numbers to bytes, and returns whether each of them is below 256.
fn narrow(numbers: &[u64], bytes: &mut [u8; BATCH]) -> bool
    requires { length numbers.now ≤ 64 }
    ensures { result ≡ true → take (length numbers.now) bytes.new ≡ numbers.now }
{
    for (place, number) in numbers.iter().enumerate() {
        if *number > 255 {
            return false;
        }
        bytes[place] = *number as u8;
    }
    true
}

impl Numbers {
    /// No numbers.
    fn new(alloc: Global) -> Numbers
        ensures { result ≡ [] }
    {
        Numbers {
            alloc,
            wide: WideNumbers::new(alloc),
            bytes: Vec::new(alloc),
        }
    }

    /// How many numbers there are.
    #[inline]
    fn len(&self) -> u64
        ensures { result ≡ length self.now }
    {
        self.wide.len() as u64 + self.bytes.len() as u64
    }

    /// Appends zeros until there are `count` numbers.
    fn fill(&mut self, count: u64) -> Result<(), AllocError>
        requires { length self.old ≤ count }
        ensures ok { OnOk result (self.new ≡ self.old ++ replicate (count - length self.old) 0) }
        ensures err { OnErr result (self.new ≡ self.old) }
    {
        self.bytes.resize(count as usize - self.wide.len(), 0)
    }

    /// Appends numbers.
    fn push_all(&mut self, numbers: &[u64]) -> Result<(), AllocError>
        requires { length numbers.now ≤ 64 }
        ensures ok { OnOk result (self.new ≡ self.old ++ numbers.now) }
        ensures err { OnErr result (self.new ≡ self.old) }
    {
        let mut bytes = [0; BATCH];
        if narrow(numbers, &mut bytes) {
            return self.bytes.extend_from_slice(&bytes[..numbers.len()]);
        }
        if !self.bytes.is_empty() {
            widen(&mut self.wide, &mut self.bytes)?;
        }
        self.wide.push_all(numbers)
    }

    /// Appends numbers of one byte each.
    fn push_bytes(&mut self, bytes: &[u8]) -> Result<(), AllocError>
        ensures ok { OnOk result (self.new ≡ self.old ++ bytes.now) }
        ensures err { OnErr result (self.new ≡ self.old) }
    {
        self.bytes.extend_from_slice(bytes)
    }

    /// The number at `place`, if there is one.
    #[inline]
    fn get(&self, place: u64) -> Option<u64>
        ensures { result ≡ slice_get self.now place }
    {
        let place = place as usize;
        match self.wide.get(place) {
            Some(number) => Some(number),
            None => self
                .bytes
                .get(place - self.wide.len())
                .map(|byte| u64::from(*byte)),
        }
    }

    /// Numbers from `place` on that take one byte each, possibly none.
    #[inline]
    fn bytes_from(&self, place: u64) -> &[u8]
        ensures { StandAt place result.now self.now }
    {
        let place = place as usize;
        if place < self.wide.len() {
            return &[];
        }
        let bytes = self.bytes.as_slice();
        &bytes[(place - self.wide.len()).min(bytes.len())..]
    }

    /// Keeps the first `count` numbers.
    fn truncate(&mut self, count: u64)
        ensures { self.new ≡ take count self.old }
    {
        let count = count as usize;
        self.bytes.truncate(count.saturating_sub(self.wide.len()));
        self.wide.truncate(count);
    }

    /// Drops all numbers, and frees a large list.
    #[inline(never)]
    fn clear(&mut self)
        ensures { self.new ≡ [] }
    {
        if self.bytes.capacity() > ROOM || self.wide.capacity() > ROOM {
            self.give_back();
            return;
        }
        self.bytes.clear();
        self.wide.clear();
    }

    /// Drops all numbers and frees their lists.
    #[cold]
    #[inline(never)]
    fn give_back(&mut self)
        ensures { self.new ≡ [] }
    {
        self.bytes = Vec::new(self.alloc);
        self.wide = WideNumbers::new(self.alloc);
    }
}

/// Values that were packed in batches: two bytes or more for each value up to the last batch that contains one above 255, and one
/// byte for each later value. Zeros that were added at once at the end are only counted.
#[derive(Drop)]
pub(crate) struct SettledValues {
    numbers: Numbers,
    /// How many values there are. Those that are not among the numbers are zeros.
    count: u64,
}

impl Model for SettledValues {
    ghost use Rattle.std.specs.Prelude.{ℕ, ◌+◌, ◌-◌, ◌^◌, ◌<◌, ◌≤◌, List, ◌++◌, length};
    ghost use Rattle.std.proofs.Math.ListN.{replicate};

    ghost Value = { List ℕ };

    ghost view = { λ v. v.numbers ++ replicate (v.count - length v.numbers) 0 };

    ghost invariant = { λ v. (length v.numbers ≤ v.count) × (v.count + 64 < 2 ^ 64) };
}

impl SettledValues {
    /// No values. It allocates nothing.
    pub(crate) fn new(alloc: Global) -> SettledValues
        ensures { result ≡ [] }
    {
        SettledValues {
            numbers: Numbers::new(alloc),
            count: 0,
        }
    }

    /// How many values there are.
    #[inline(always)]
    pub(crate) fn len(&self) -> u64
        ensures is { result ≡ length self.now }
        ensures few { result + 64 < 2 ^ 64 }
    {
        self.count
    }

    /// How many values there are before the zeros that are only counted.
    pub(crate) fn before_zeros(&self) -> u64
        ensures few { result ≤ length self.now }
        ensures zeros { drop result self.now ≡ replicate (length self.now - result) 0 }
    {
        self.numbers.len()
    }

    /// The values that are wide, those in a byte each, and how many zeros come after them.
    #[inline]
    pub(crate) fn parts(&self) -> (WideSlice<'_>, &[u8], u64)
        ensures { self.now ≡ result.0 ++ result.1.now ++ replicate result.2 0 }
    {
        let zeros = self.count - self.numbers.len();
        (
            self.numbers.wide.as_slice(),
            self.numbers.bytes.as_slice(),
            zeros,
        )
    }

    /// Whether both have the same parts.
    pub(crate) fn has_parts_of(&self, other: &SettledValues) -> bool
        ensures { result ≡ true → self.now ≡ other.now }
    {
        self.count == other.count
            && self.numbers.bytes == other.numbers.bytes
            && self.numbers.wide.is(&other.numbers.wide)
    }

    /// The value at `place`, if there is one.
    #[inline]
    pub(crate) fn get(&self, place: u64) -> Option<u64>
        ensures { result ≡ slice_get self.now place }
    {
        if place < self.numbers.len() {
            return self.numbers.get(place);
        }
        if place < self.count { Some(0) } else { None }
    }

    /// Values from `place` on that are held in a byte each, possibly none.
    #[inline]
    pub(crate) fn bytes_from(&self, place: u64) -> &[u8]
        ensures { StandAt place result.now self.now }
    {
        self.numbers.bytes_from(place)
    }

    /// Appends values, or none of them. Declines more values than can be counted.
    #[cold]
    #[inline(never)]
    pub(crate) fn add(&mut self, values: &[u64]) -> Result<(), NotTaken>
        requires { length values.now ≤ 64 }
        ensures ok { OnOk result (self.new ≡ self.old ++ values.now) }
        ensures err { OnErr result (self.new ≡ self.old) }
    {
        if self.count > MOST - values.len() as u64 {
            return Err(NotTaken::Declined);
        }
        self.numbers.fill(self.count)?;
        self.numbers.push_all(values)?;
        self.count = self.numbers.len();
        Ok(())
    }

    /// Appends values of one byte each, as `add` does.
    pub(crate) fn add_bytes(&mut self, bytes: &[u8]) -> Result<(), NotTaken>
        ensures ok { OnOk result (self.new ≡ self.old ++ bytes.now) }
        ensures err { OnErr result (self.new ≡ self.old) }
    {
        if self.count > MOST.saturating_sub(bytes.len() as u64) {
            return Err(NotTaken::Declined);
        }
        self.numbers.fill(self.count)?;
        self.numbers.push_bytes(bytes)?;
        self.count = self.numbers.len();
        Ok(())
    }

    /// Appends `count` zeros and returns true, or adds none if there would be more values than can be counted.
    pub(crate) fn add_zeros(&mut self, count: u64) -> bool
        ensures yes { result ≡ true → self.new ≡ self.old ++ replicate count 0 }
        ensures no { result ≡ false → self.new ≡ self.old }
    {
        if count > MOST - self.count {
            return false;
        }
        self.count += count;
        true
    }

    /// Keeps the first `count` values.
    pub(crate) fn truncate(&mut self, count: u64)
        ensures { self.new ≡ take count self.old }
    {
        self.numbers.truncate(count);
        self.count = self.count.min(count);
    }

    /// Drops all values, and frees a large list.
    #[inline(always)]
    pub(crate) fn clear(&mut self)
        ensures { self.new ≡ [] }
    {
        if self.count > 0 {
            self.numbers.clear();
            self.count = 0;
        }
    }
}
