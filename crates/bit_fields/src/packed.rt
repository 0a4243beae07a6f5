//! Values that are packed to save memory.

ghost use Rattle.std.specs.Prelude.{◌≡◌, ◌↔◌, ◌≤◌, ℕ, List, OnOk, OnErr, [], ◌++◌, length, drop, IfSome, IfNone, IsTrue, slice_get, take, true};
ghost use Rattle.std.proofs.Math.ListN.{replicate};
ghost use Rattle.bit_fields.specs.Packed.{first_apart, StandAt};

use crate::settled::{BATCH, SettledValues};
use crate::values::{NotTaken, ValueTaker};
use crate::wide::WideSlice;
use std::alloc::Global;
use std::marker::Model;

/// Values in four parts, one after another: wide ones, bytes, a count of zeros, and the last values as numbers.
#[derive(Debug, Drop)]
pub struct ValueParts<'a> {
    pub wide: WideSlice<'a>,
    pub bytes: &'a [u8],
    pub zeros: u64,
    pub recent: &'a [u64],
}

/// The values of a record, packed to save memory. The last ones, at most 64, are in a buffer of 512 bytes. The values before them
/// are packed 64 at a time: values up to the last batch that contains one above 255 take two bytes each, or ten from 65,535 on, and
/// later ones take one, as those of a Blob or an Array of Char6. Zeros that were taken at once are counted; at the end they take no
/// memory.
#[derive(Drop)]
pub struct PackedValues {
    settled: SettledValues,
    /// The first `held` of these are the last values.
    recent: [u64; BATCH],
    held: usize,
}

impl Model for PackedValues {
    ghost use Rattle.std.specs.Prelude.{◌≡◌, ℕ, ◌≤◌, List, ◌++◌, length, take};

    ghost Value = { List ℕ };

    ghost view = { λ v. v.settled ++ take v.held v.recent };

    ghost invariant = { λ v. (length v.recent ≡ 64) × (v.held ≤ 64) };
}

/// Whether two slices have the same numbers. Compares two at a time.
#[inline]
fn are_same(first: &[u64], second: &[u64]) -> bool
    ensures { IsTrue result ↔ (first.now ≡ second.now) }
{
    let count = first.len();
    if count != second.len() {
        return false;
    }
    let mut place = 0;
    while count - place >= 2 {
        if first[place] != second[place] || first[place + 1] != second[place + 1] {
            return false;
        }
        place += 2;
    }
    place == count || first[place] == second[place]
}

/// Whether two slices have the same bytes.
#[inline(always)]
fn are_equal(first: &[u8], second: &[u8]) -> bool
    ensures { result ≡ true → first.now ≡ second.now }
{
    first == second
}

impl PackedValues {
    /// No values. It allocates nothing.
    pub fn new(alloc: Global) -> PackedValues
        ensures { result ≡ [] }
    {
        PackedValues {
            settled: SettledValues::new(alloc),
            recent: [0; BATCH],
            held: 0,
        }
    }

    /// How many values there are.
    #[inline]
    pub fn len(&self) -> u64
        ensures { result ≡ length self.now }
    {
        self.settled.len() + self.held as u64
    }

    /// Whether there are none.
    pub fn is_empty(&self) -> bool
        ensures { IsTrue result ↔ (self.now ≡ []) }
    {
        self.len() == 0
    }

    /// The values in their parts.
    #[inline]
    pub fn parts(&self) -> ValueParts<'_>
        ensures { self.now
            ≡ result.wide ++ result.bytes.now ++ replicate result.zeros 0 ++ result.recent.now }
    {
        let (wide, bytes, zeros) = self.settled.parts();
        ValueParts {
            wide,
            bytes,
            zeros,
            recent: &self.recent[..self.held],
        }
    }

    /// The value at this place, if there is one.
    #[inline]
    pub fn get(&self, place: u64) -> Option<u64>
        ensures { result ≡ slice_get self.now place }
    {
        let settled = self.settled.len();
        if place < settled {
            return self.settled.get(place);
        }
        self.recent[..self.held]
            .get((place - settled) as usize)
            .copied()
    }

    /// Copies the values to a room with a place for each.
    pub fn copy_to(&self, room: &mut [u64])
        requires { length room.old ≡ length self.now }
        ensures { room.new ≡ self.now }
    {
        if self.settled.len() == 0 {
            room.copy_from_slice(&self.recent[..self.held]);
            return;
        }
        for place in 0..room.len() {
            room[place] = self.get(place as u64).unwrap_or(0);
        }
    }

    /// Values from `place` on that are held as numbers, possibly none.
    #[inline]
    pub(crate) fn numbers_from(&self, place: u64) -> &[u64]
        ensures { StandAt place result.now self.now }
    {
        let settled = self.settled.len();
        if place < settled {
            return &[];
        }
        let recent = &self.recent[..self.held];
        &recent[((place - settled) as usize).min(self.held)..]
    }

    /// Values from `place` on that are held in a byte each, possibly none.
    #[inline]
    pub(crate) fn bytes_from(&self, place: u64) -> &[u8]
        ensures { StandAt place result.now self.now }
    {
        self.settled.bytes_from(place)
    }

    /// Whether these and the other values from `place` on begin with the same 64 values, each held in a byte.
    #[inline]
    fn has_batch_of(&self, other: &PackedValues, place: u64) -> bool
        ensures same { result ≡ true
            → take 64 (drop place self.now) ≡ take 64 (drop place other.now) }
    {
        let first = self.bytes_from(place);
        let second = other.bytes_from(place);
        if first.len() < BATCH || second.len() < BATCH {
            return false;
        }
        are_equal(&first[..BATCH], &second[..BATCH])
    }

    /// The first place from `first` to below `end` at which these and the other values differ, if there is one. Values in a byte
    /// each are compared a batch at a time.
    fn apart_within(&self, other: &PackedValues, first: u64, end: u64) -> Option<u64>
        requires first { first ≤ end }
        requires end { (end ≤ length self.now) × (end ≤ length other.now) }
        ensures found { IfSome result (λ place.
            first_apart first (drop first self.now) (drop first other.now) ≡ Some place) }
        ensures none { IfNone result (first_apart first (drop first self.now) (drop first other.now)
            ≡ first_apart end (drop end self.now) (drop end other.now)) }
    {
        let mut place = first;
        while place < end {
            if place % 64 == 0 && end - place >= 64 && self.has_batch_of(other, place) {
                place += 64;
                continue;
            }
            if self.get(place) != other.get(place) {
                return Some(place);
            }
            place += 1;
        }
        None
    }

    /// The first place at which these and the other values differ, if there is one. Zeros that are counted in both are skipped at
    /// once.
    pub fn first_apart(&self, other: &PackedValues) -> Option<u64>
        ensures { result ≡ first_apart 0 self.now other.now }
    {
        let both = self.len().min(other.len());
        let zeros = self
            .settled
            .before_zeros()
            .max(other.settled.before_zeros())
            .min(both);
        let behind = self.settled.len().min(other.settled.len()).max(zeros);
        if let Some(place) = self.apart_within(other, 0, zeros) {
            return Some(place);
        }
        self.apart_within(other, behind, both)
    }

    /// Takes values of one byte each, one by one.
    fn take_each(&mut self, bytes: &[u8]) -> Result<(), NotTaken>
        ensures ok { OnOk result (self.new ≡ self.old ++ bytes.now) }
        ensures err { OnErr result ((some : List ℕ) × (self.new ≡ self.old ++ some)) }
    {
        for byte in bytes {
            self.take(u64::from(*byte))?;
        }
        Ok(())
    }

    /// Whether these values equal the others, if some of either were packed.
    #[inline(never)]
    fn is_beyond(&self, other: &PackedValues) -> bool
        ensures { IsTrue result ↔ (self.now ≡ other.now) }
    {
        if self.settled.has_parts_of(&other.settled) {
            return are_same(&self.recent[..self.held], &other.recent[..other.held]);
        }
        self.len() == other.len() && self.first_apart(other).is_none()
    }

    /// Whether these values equal the others.
    #[inline]
    pub fn is(&self, other: &PackedValues) -> bool
        ensures { IsTrue result ↔ (self.now ≡ other.now) }
    {
        if self.settled.len() > 0 || other.settled.len() > 0 {
            return self.is_beyond(other);
        }
        are_same(&self.recent[..self.held], &other.recent[..other.held])
    }
}

impl ValueTaker for PackedValues {
    ghost took = { λ v values. v ≡ values };

    #[inline(always)]
    fn take(&mut self, value: u64) -> Result<(), NotTaken> {
        if self.held >= BATCH {
            self.settled.add(&self.recent)?;
            self.held = 0;
        }
        self.recent[self.held] = value;
        self.held += 1;
        Ok(())
    }

    /// Whole batches are packed from the slice, and the values before and after them are taken one by one. So the same values are
    /// packed in the same batches however they come.
    fn take_bytes(&mut self, bytes: &[u8]) -> Result<(), NotTaken> {
        let (front, rest) = bytes.split_at(bytes.len().min(BATCH - self.held));
        self.take_each(front)?;
        if rest.is_empty() {
            return Ok(());
        }
        let (whole, last) = rest.split_at((rest.len() - 1) / BATCH * BATCH);
        self.settled.add(&self.recent[..self.held])?;
        self.held = 0;
        self.settled.add_bytes(whole)?;
        self.take_each(last)?;
        Ok(())
    }

    #[inline]
    fn pass(&mut self, _count: u64) -> bool {
        false
    }

    #[inline(never)]
    fn pass_zeros(&mut self, count: u64) -> bool {
        if self.settled.add(&self.recent[..self.held]).is_err() {
            return false;
        }
        self.held = 0;
        self.settled.add_zeros(count)
    }

    #[inline(always)]
    fn truncate(&mut self, count: u64) {
        self.held = self
            .held
            .min(count.saturating_sub(self.settled.len()) as usize);
        if count == 0 {
            self.settled.clear();
            return;
        }
        self.settled.truncate(count);
    }

    #[inline(always)]
    fn count(&self) -> u64 {
        self.len()
    }
}
