//! Numbers that take two bytes each if they are small.

ghost use Rattle.std.specs.Prelude.{◌≡◌, ◌<◌, ◌*◌, ◌^◌, [], ◌∷◌, ◌++◌, length, take, drop, true, OnOk, OnErr, IfSome, IfNone, slice_get};
ghost use Rattle.bit_fields.specs.Wide.{marks, AreBefore};

use std::alloc::{AllocError, Global};
use std::marker::Model;

/// The unit of a number that does not fit the other units.
const MARK: u16 = u16::MAX;

/// How many units are passed over to count marks.
const STRIDE: usize = 64;

/// A list of numbers. Each has a unit of two bytes. Those of 65,535 and more take eight bytes beside it.
#[derive(Drop)]
pub(crate) struct WideNumbers {
    units: Vec<u16>,
    great: Vec<u64>,
    /// How many marks come before each 64th unit.
    counts: Vec<usize>,
}

impl Model for WideNumbers {
    ghost use Rattle.std.specs.Prelude.{◌≡◌, ℕ, List, length};
    ghost use Rattle.bit_fields.specs.Wide.{marks, numbers_of, AreBefore};

    ghost Value = { List ℕ };

    ghost view = { λ w. numbers_of w.units.items w.great.items };

    ghost invariant = { λ w. (marks w.units.items ≡ length w.great.items)
        × AreBefore w.units.items w.counts.items };
}

/// Numbers of such a list.
#[derive(Debug, Drop)]
pub struct WideSlice<'a> {
    units: &'a [u16],
    great: &'a [u64],
}

impl<'a> Model for WideSlice<'a> {
    ghost use Rattle.std.specs.Prelude.{◌≡◌, ℕ, List, length};
    ghost use Rattle.bit_fields.specs.Wide.{marks, numbers_of};

    ghost Value = { List ℕ };

    ghost view = { λ w. numbers_of w.units.now w.great.now };

    ghost invariant = { λ w. marks w.units.now ≡ length w.great.now };
}

impl<'a> WideSlice<'a> {
    /// How many numbers there are.
    pub fn len(&self) -> usize
        ensures { result ≡ length self.now }
    {
        self.units.len()
    }

    /// Takes the first number off, if there is one.
    pub fn take_first(&mut self) -> Option<u64>
        ensures some { IfSome result (λ number. self.old ≡ number ∷ self.new) }
        ensures none { IfNone result (self.old ≡ []) }
    {
        let (unit, units) = self.units.split_first()?;
        self.units = units;
        if *unit != MARK {
            return Some(u64::from(*unit));
        }
        let (number, great) = self.great.split_first()?;
        self.great = great;
        Some(*number)
    }
}

/// How many units are marks.
#[tactic(auto, using(crate::proofs::Wides::next_mark, crate::proofs::Wides::next_small, crate::proofs::Wides::marks_le))]
fn count_marks(units: &[u16]) -> usize
    ensures { result ≡ marks units.now }
{
    let mut count = 0;
    for unit in units {
        if *unit == MARK {
            count += 1;
        }
    }
    count
}

/// How many units before this place are marks.
#[inline]
fn marks_before(units: &[u16], counts: &[usize], place: usize) -> usize
    requires counts { AreBefore units.now counts.now }
    requires within { place < length units.now }
    ensures { result ≡ marks (take place units.now) }
{
    let stride = place / STRIDE;
    counts[stride] + count_marks(&units[stride * STRIDE..place])
}

/// Counts the marks before the next unit, if a stride begins there.
fn count_next(units: &[u16], great: usize, counts: &mut Vec<usize>) -> Result<(), AllocError>
    requires counts { AreBefore units.now counts.old.items }
    requires great { great ≡ marks units.now }
    ensures counts { AreBefore units.now counts.new.items }
    ensures next { OnOk result (length units.now < 64 * length counts.new.items) }
{
    if counts.len() <= units.len() / STRIDE {
        counts.push(great)?;
    }
    Ok(())
}

impl WideNumbers {
    /// No numbers. It allocates nothing.
    pub(crate) fn new(alloc: Global) -> WideNumbers
        ensures { result ≡ [] }
    {
        WideNumbers {
            units: Vec::new(alloc),
            great: Vec::new(alloc),
            counts: Vec::new(alloc),
        }
    }

    /// How many numbers there are.
    #[inline]
    pub(crate) fn len(&self) -> usize
        ensures is { result ≡ length self.now }
        ensures few { result < 2 ^ 63 }
    {
        self.units.len()
    }

    /// How many numbers there is room for.
    pub(crate) fn capacity(&self) -> usize {
        self.units.capacity()
    }

    /// Whether both are equal.
    pub(crate) fn is(&self, other: &WideNumbers) -> bool
        ensures { result ≡ true → self.now ≡ other.now }
    {
        self.units == other.units && self.great == other.great
    }

    /// The number at `place`, if there is one.
    #[inline]
    #[tactic(auto, using(crate::proofs::Wides::number_small, crate::proofs::Wides::number_beyond, crate::proofs::Wides::great_within, crate::proofs::Wides::number_great))]
    pub(crate) fn get(&self, place: usize) -> Option<u64>
        ensures { result ≡ slice_get self.now place }
    {
        let (units, great) = (self.units.as_slice(), self.great.as_slice());
        if place >= units.len() {
            return None;
        }
        if units[place] != MARK {
            return Some(u64::from(units[place]));
        }
        Some(great[marks_before(units, &self.counts, place)])
    }

    /// All numbers.
    #[inline]
    pub(crate) fn as_slice(&self) -> WideSlice<'_>
        ensures { result ≡ self.now }
    {
        WideSlice {
            units: self.units.as_slice(),
            great: self.great.as_slice(),
        }
    }

    /// Appends a number.
    pub(crate) fn push(&mut self, number: u64) -> Result<(), AllocError>
        ensures ok { OnOk result (self.new ≡ self.old ++ number ∷ []) }
        ensures err { OnErr result (self.new ≡ self.old) }
    {
        count_next(&self.units, self.great.len(), &mut self.counts)?;
        if number < u64::from(MARK) {
            self.units.push(number as u16)?;
            return Ok(());
        }
        self.units.push(MARK)?;
        if let Err(error) = self.great.push(number) {
            self.units.truncate(self.units.len() - 1);
            return Err(error.into());
        }
        Ok(())
    }

    /// Appends numbers of one byte each, one by one.
    #[tactic(auto, using(crate::proofs::Wides::pushed_some))]
    fn push_each_byte(&mut self, bytes: &[u8]) -> Result<(), AllocError>
        ensures ok { OnOk result (self.new ≡ self.old ++ bytes.now) }
        ensures err { OnErr result (take (length self.old) self.new ≡ self.old) }
    {
        for byte in bytes {
            self.push(u64::from(*byte))?;
        }
        Ok(())
    }

    /// Appends numbers, one by one.
    #[tactic(auto, using(crate::proofs::Wides::pushed_some))]
    fn push_each(&mut self, numbers: &[u64]) -> Result<(), AllocError>
        ensures ok { OnOk result (self.new ≡ self.old ++ numbers.now) }
        ensures err { OnErr result (take (length self.old) self.new ≡ self.old) }
    {
        for number in numbers {
            self.push(*number)?;
        }
        Ok(())
    }

    /// Appends numbers of one byte each, or none of them.
    pub(crate) fn push_bytes(&mut self, bytes: &[u8]) -> Result<(), AllocError>
        ensures ok { OnOk result (self.new ≡ self.old ++ bytes.now) }
        ensures err { OnErr result (self.new ≡ self.old) }
    {
        let count = self.len();
        let pushed = self.push_each_byte(bytes);
        if pushed.is_err() {
            self.truncate(count);
        }
        pushed
    }

    /// Appends numbers, or none of them.
    pub(crate) fn push_all(&mut self, numbers: &[u64]) -> Result<(), AllocError>
        ensures ok { OnOk result (self.new ≡ self.old ++ numbers.now) }
        ensures err { OnErr result (self.new ≡ self.old) }
    {
        let count = self.len();
        let pushed = self.push_each(numbers);
        if pushed.is_err() {
            self.truncate(count);
        }
        pushed
    }

    /// Keeps the first `count` numbers.
    pub(crate) fn truncate(&mut self, count: usize)
        ensures { self.new ≡ take count self.old }
    {
        if count >= self.units.len() {
            return;
        }
        let great = marks_before(&self.units, &self.counts, count);
        self.units.truncate(count);
        self.great.truncate(great);
        self.counts.truncate(count / STRIDE + 1);
    }

    /// Drops all numbers and keeps their room.
    pub(crate) fn clear(&mut self)
        ensures { self.new ≡ [] }
    {
        self.units.clear();
        self.great.clear();
        self.counts.clear();
    }
}
