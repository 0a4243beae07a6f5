//! Values that are compared with those of another record while they are read.

ghost use Rattle.std.specs.Prelude.{◌≡◌, ◌≢◌, ◌↔◌, ℕ, ◌≤◌, ◌<◌, ◌^◌, List, [], ◌∷◌, ◌++◌, length, take, true, IsOk, OnOk, OnErr, IfOk, OnSome, IfSome, IfNone};
ghost use Rattle.bit_fields.specs.Packed.{StandAt};
ghost use Rattle.bit_fields.specs.Expected.{HasTaken, AreNext, further};

use crate::packed::PackedValues;
use crate::values::{NotTaken, ValueTaker};
use std::marker::Model;

/// How many values are expected, at most. Twice this number fits 64 bits.
const MOST: u64 = 1 << 62;

/// A `ValueTaker` that expects the values of another record: it takes each value that equals the next of them, and declines any
/// other value. So it holds none of the values that are read.
///
/// The expected values count as taken before the first value is read. The values read come after them, and `front_of` returns how
/// many of them matched.
#[derive(Drop)]
pub struct ExpectedValues<'a> {
    others: &'a PackedValues,
    /// How many of the other record's values are expected.
    expected: u64,
    /// A run of the expected values, as numbers, possibly empty.
    near: &'a [u64],
    /// How many expected values come before this run. All of them were taken.
    before: u64,
    /// How many values of this run were taken.
    place: usize,
}

impl<'a> Model for ExpectedValues<'a> {
    ghost use Rattle.std.specs.Prelude.{◌+◌, take};
    ghost use Rattle.bit_fields.specs.Expected.{Expected, IsExpected};

    ghost Value = { Expected };

    ghost view = { λ e. record {
      others = take e.expected e.others.now;
      taken = e.before + e.place;
    } };

    ghost invariant = { λ e. IsExpected e.others.now e.expected e.near.now e.before e.place };
}

/// The expected values from `first` to below `end` that are held as numbers, possibly none.
#[inline(always)]
fn numbers_between<'a>(others: &'a PackedValues, first: u64, end: u64) -> &'a [u64]
    requires { first ≤ end }
    ensures { StandAt first result.now (take end others.now) }
{
    let numbers = others.numbers_from(first);
    &numbers[..numbers.len().min((end - first) as usize)]
}

/// The expected values from `first` to below `end` that are held in a byte each, possibly none.
#[inline(always)]
fn bytes_between<'a>(others: &'a PackedValues, first: u64, end: u64) -> &'a [u8]
    requires { first ≤ end }
    ensures { StandAt first result.now (take end others.now) }
{
    let bytes = others.bytes_from(first);
    &bytes[..bytes.len().min((end - first) as usize)]
}

impl<'a> ExpectedValues<'a> {
    /// Expects these values and has taken none. Only the first 4,611,686,018,427,387,904 are expected.
    #[inline(always)]
    pub fn new(others: &'a PackedValues) -> ExpectedValues<'a>
        ensures is { result ≡ record { others = take (2 ^ 62) others.now; taken = 0 } }
        ensures took { ⟦<ExpectedValues<'a> as ValueTaker>⟧.took result
            (take (2 ^ 62) others.now) }
    {
        let expected = others.len().min(MOST);
        ExpectedValues {
            others,
            expected,
            near: numbers_between(others, 0, expected),
            before: 0,
            place: 0,
        }
    }

    /// How many expected values were taken.
    #[inline(always)]
    fn taken(&self) -> u64
        ensures is { result ≡ self.now.taken }
        ensures within { result ≤ length self.now.others }
        ensures few { length self.now.others ≤ 2 ^ 62 }
    {
        self.before + self.place as u64
    }

    /// How many leading values matched, or `None` if a different number of values was expected. If `others` are the expected
    /// values, the values read are the first ones of them, as many as the result says.
    #[inline]
    pub fn front_of(&self, others: &PackedValues) -> Option<u64>
        ensures front { IfSome result (λ count. (list : List ℕ)
            → ⟦<ExpectedValues<'a> as ValueTaker>⟧.took self.now (others.now ++ list)
            → list ≡ take count others.now) }
        ensures few { IfSome result (λ count. (count ≡ self.now.taken)
            × (count ≤ length others.now)) }
        ensures whole { OnSome result (take (2 ^ 62) others.now ≡ others.now) }
        ensures none { IfNone result (length self.now.others ≢ length others.now) }
    {
        if self.expected != others.len() {
            return None;
        }
        Some(self.taken())
    }

    /// Records that `taken` of the expected values were taken.
    #[inline(always)]
    fn move_to(&mut self, taken: u64)
        requires { taken ≤ length self.old.others }
        ensures { self.new ≡ record self.old { taken = taken } }
    {
        self.near = numbers_between(self.others, taken, self.expected);
        self.before = taken;
        self.place = 0;
    }

    /// Takes a value that is not in the run, if it is the next expected one.
    #[inline(never)]
    fn take_far(&mut self, value: u64) -> Result<(), NotTaken>
        ensures ok { OnOk result (self.new ≡ further self.old 1) }
        ensures err { OnErr result (self.new ≡ self.old) }
        ensures next { IsOk result ↔ AreNext self.old (value ∷ []) }
    {
        let taken = self.taken();
        if taken >= self.expected || self.others.get(taken) != Some(value) {
            return Err(NotTaken::Declined);
        }
        self.move_to(taken + 1);
        Ok(())
    }

    /// The next expected values that are held in a byte each, possibly none.
    #[inline(always)]
    fn next_bytes(&self) -> &'a [u8]
        ensures { AreNext self.now result.now }
    {
        if self.place < self.near.len() {
            return &[];
        }
        bytes_between(self.others, self.taken(), self.expected)
    }

    /// Takes the first of some bytes, at least one: those that can be compared at once. Returns how many.
    #[inline(always)]
    fn take_some(&mut self, bytes: &[u8]) -> Result<usize, NotTaken>
        requires { 0 < length bytes.now }
        ensures count { IfOk result (λ count. (0 < count) × (count ≤ length bytes.now)) }
        ensures ok { IfOk result (λ count. (self.new ≡ further self.old count)
            × AreNext self.old (take count bytes.now)) }
        ensures err { OnErr result ((self.new ≡ self.old) × (AreNext self.old bytes.now → ⊥)) }
    {
        let held = self.next_bytes();
        let count = bytes.len().min(held.len());
        if count == 0 {
            self.take(u64::from(bytes[0]))?;
            return Ok(1);
        }
        if &bytes[..count] != &held[..count] {
            return Err(NotTaken::Declined);
        }
        self.move_to(self.taken() + count as u64);
        Ok(count)
    }
}

impl<'a> ValueTaker for ExpectedValues<'a> {
    ghost took = { HasTaken };

    #[inline(always)]
    fn take(&mut self, value: u64) -> Result<(), NotTaken>
        ensures ok { OnOk result ((values : List ℕ) → HasTaken self.old values
            → HasTaken self.new (values ++ value ∷ [])) }
        ensures err { OnErr result
            ((values : List ℕ) → HasTaken self.old values → HasTaken self.new values) }
        ensures moves { OnOk result (self.new ≡ further self.old 1) }
        ensures stays { OnErr result (self.new ≡ self.old) }
        ensures next { IsOk result ↔ AreNext self.old (value ∷ []) }
    {
        if self.place < self.near.len() && self.near[self.place] == value {
            self.place += 1;
            return Ok(());
        }
        self.take_far(value)
    }

    /// Expected values that are held in a byte each are compared in place.
    fn take_bytes(&mut self, bytes: &[u8]) -> Result<(), NotTaken>
        ensures ok { OnOk result ((values : List ℕ) → HasTaken self.old values
            → HasTaken self.new (values ++ bytes.now)) }
        ensures err { OnErr result ((values : List ℕ) → HasTaken self.old values
            → (some : List ℕ) × HasTaken self.new (values ++ some)) }
        ensures moves { OnOk result (self.new ≡ further self.old (length bytes.now)) }
        ensures next { IsOk result ↔ AreNext self.old bytes.now }
    {
        let mut done = 0;
        while done < bytes.len() {
            done += self.take_some(&bytes[done..])?;
        }
        Ok(())
    }

    #[inline]
    fn pass(&mut self, _count: u64) -> bool {
        false
    }

    /// If fewer values are kept than were expected, only these are expected from now on.
    #[inline]
    fn truncate(&mut self, count: u64) {
        self.before = self.taken().min(count.saturating_sub(self.expected));
        self.expected = self.expected.min(count);
        self.near = &[];
        self.place = 0;
    }

    #[inline]
    fn count(&self) -> u64 {
        self.expected + self.taken()
    }
}
