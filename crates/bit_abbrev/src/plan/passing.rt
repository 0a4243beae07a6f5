//! Passing over a record.

ghost use Rattle.std.specs.Prelude.{◌≡◌, ◌≢◌, ◌⊎◌, ◌+◌, ◌-◌, ◌*◌, ◌^◌, ◌<◌, ◌≤◌, ℕ, List, length, slice_get, take, IfSome};
ghost use Rattle.std.specs.Option.{ForSome};
ghost use Rattle.bit_grammar.specs.declared.op.Op.{Op};
ghost use Rattle.bit_grammar.specs.Fields.{vbr};
ghost use Rattle.bit_grammar.specs.Blocks.{by_definition};
ghost use Rattle.bit_grammar.specs.Record.{unabbreviated};
ghost use Rattle.bit_fields.specs.Buffered.{Reads, beyond};
ghost use Rattle.bit_fields.specs.Placed.{AreTopsBehind, HasNumbers, bits_at};
ghost use Rattle.bit_fields.specs.PlacedView.{loaded, placed};
ghost use Rattle.bit_abbrev.specs.declared.plan.Rest.TheVariants.{Nothing, Numbers, Odd};
ghost use Rattle.bit_abbrev.specs.Plans.{HasArray, HasPasses, HasRest, IsPlan, PassesOver};

use crate::plan::{MARGIN, Pass, Passed, Passes, Plan, Rest};
use bit_fields::{ChunkTops, ChunkWidth, LoadedBits, PlacedBits};

impl Pass {
    /// The chunks of the numbers.
    #[inline(always)]
    fn chunks(&self) -> ChunkTops
        ensures { result.bits ≡ self.now.width }
    {
        ChunkTops::of(ChunkWidth::of(self.width))
    }

    /// The length of the first bits, the skipped bits and the numbers, if the numbers are loaded.
    #[inline(always)]
    fn near(&self, fields: LoadedBits<'_>, first: u64) -> Option<u64>
        requires there { first + 255 ≤ length (loaded fields).bits }
        ensures has { IfSome result (λ len. (more : ℕ) × (len ≡ first + self.now.skip + more)
            × HasNumbers self.now.width self.now.count
            (beyond (loaded fields.entry) (first + self.now.skip)) more) }
        ensures few { IfSome result (λ len. len ≤ first + 312) }
    {
        let from = first + u64::from(self.skip);
        if from >= 64 {
            return None;
        }
        let numbers = fields.after(from as u32);
        Some(from + numbers.few(self.chunks(), u32::from(self.count))?)
    }

    /// The bits behind the skipped bits and the numbers, with which the first bits begin.
    #[inline(always)]
    fn behind<'a>(&self, bits: LoadedBits<'a>) -> Option<LoadedBits<'a>>
        requires there { 319 ≤ length (loaded bits).bits }
        ensures has { IfSome result (λ next. (first : ℕ)
            × (loaded next ≡ beyond (loaded bits.entry) (self.now.skip + first))
            × HasNumbers self.now.width self.now.count (beyond (loaded bits.entry) self.now.skip) first) }
        ensures left { IfSome result (λ next. (length (loaded bits.entry).bits ≤ length (loaded next).bits + 312)
            ⊎ (2240 ≤ length (loaded next).bits)) }
    {
        if self.skip < 64 {
            let numbers = bits.after(u32::from(self.skip));
            if let Some(len) = numbers.few(self.chunks(), u32::from(self.count)) {
                return Some(numbers.after(len as u32));
            }
        }
        self.far_behind(bits.bits())
    }

    /// The same if they are not in the load.
    #[inline(always)]
    fn far_behind<'a>(&self, bits: PlacedBits<'a>) -> Option<LoadedBits<'a>>
        requires there { 319 ≤ length (placed bits).bits }
        ensures has { IfSome result (λ next. (first : ℕ)
            × (loaded next ≡ beyond (placed bits.entry) (self.now.skip + first))
            × HasNumbers self.now.width self.now.count (beyond (placed bits.entry) self.now.skip) first) }
        ensures left { IfSome result (λ next. (length (placed bits.entry).bits ≤ length (loaded next).bits + 312)
            ⊎ (2240 ≤ length (loaded next).bits)) }
    {
        let numbers = bits.after(u64::from(self.skip)).load();
        if let Some(len) = numbers.few(self.chunks(), u32::from(self.count)) {
            return Some(numbers.after(len as u32));
        }
        let count = u64::from(self.count);
        let len = numbers.bits().all_of(self.chunks(), count, MARGIN)?;
        Some(numbers.bits().after(len).load())
    }
}

/// The length of what at most six passes go over, from a place of bytes on.
#[inline(never)]
fn passes_len(bytes: &[u8], start: u64, at: u64, passes: &[Pass]) -> Option<u64>
    requires there { at ≤ 8 * length bytes.now }
    requires fits { start + 8 * length bytes.now < 2 ^ 64 }
    requires few { length passes.now ≤ 6 }
    requires left { 336 + 312 * length passes.now ≤ length (bits_at start at bytes.now).bits }
    ensures has { IfSome result (λ len. HasPasses passes.now (bits_at start at bytes.now) len) }
    ensures left { IfSome result (λ len. len + 336 ≤ length (bits_at start at bytes.now).bits) }
{
    let bits = PlacedBits::of(bytes, start, at);
    let mut load = bits.load();
    let mut next = 0;
    while next < passes.len() {
        load = passes[next].behind(load)?;
        next += 1;
    }
    Some(load.position() - bits.position())
}

impl Passes {
    /// The length of what the passes go over, and of the bits after it.
    #[inline(always)]
    fn len(&self, fields: LoadedBits<'_>, tops: u64) -> Option<u64>
        requires there { 2208 ≤ length (loaded fields).bits }
        requires tops { ForSome (slice_get self.now.pass 0) (λ first. AreTopsBehind first.width first.skip tops) }
        ensures has { IfSome result (λ len. (passed : ℕ) × (len ≡ passed + self.now.after)
            × HasPasses (take self.now.count self.now.pass) (loaded fields.entry) passed) }
        ensures left { IfSome result (λ len. len + 64 ≤ length (loaded fields.entry).bits) }
    {
        let after = u64::from(self.after);
        if self.count == 0 {
            return Some(after);
        }
        match self.first_len(fields, tops) {
            Some(len) if self.count == 1 => Some(after + len),
            Some(len) => match self.pass[1].near(fields, len) {
                Some(len) if self.count == 2 => Some(after + len),
                Some(len) => self.more_len(fields, len, 2),
                None => self.more_len(fields, len, 1),
            },
            None => self.more_len(fields, 0, 0),
        }
    }

    /// The length of what the first pass goes over, if it is loaded.
    #[inline(always)]
    fn first_len(&self, fields: LoadedBits<'_>, tops: u64) -> Option<u64>
        requires tops { ForSome (slice_get self.now.pass 0) (λ first. AreTopsBehind first.width first.skip tops) }
        ensures has { IfSome result (λ len. HasPasses (take 1 self.now.pass) (loaded fields.entry) len) }
        ensures few { IfSome result (λ len. len ≤ 64) }
    {
        let first = &self.pass[0];
        fields.few_behind(tops, first.skip, first.width, u32::from(first.count))
    }

    /// The length of what the passes go over, and of the bits after it, if `done` of them go over `first` bits.
    #[inline(always)]
    fn more_len(&self, fields: LoadedBits<'_>, first: u64, done: usize) -> Option<u64>
        requires within { done ≤ self.now.count }
        requires has { HasPasses (take done self.now.pass) (loaded fields) first }
        requires left { first + 2208 ≤ length (loaded fields).bits + 312 * done }
        ensures has { IfSome result (λ len. (passed : ℕ) × (len ≡ passed + self.now.after)
            × HasPasses (take self.now.count self.now.pass) (loaded fields.entry) passed) }
        ensures left { IfSome result (λ len. len + 64 ≤ length (loaded fields.entry).bits) }
    {
        let (bytes, start, at) = fields.bits().after(first).parts();
        let more = passes_len(bytes, start, at, &self.pass[done..self.count as usize])?;
        Some(first + more + u64::from(self.after))
    }
}

/// The length of numbers in chunks of six bits and of so many before them, with which the first bits begin.
#[inline(always)]
fn sixes_len(first: LoadedBits<'_>, numbers: LoadedBits<'_>, count: u64, before: u64) -> Option<u64>
    requires some { 0 < before }
    requires few { before ≤ 2 }
    requires numbers { HasNumbers 6 before (loaded first)
        ((loaded numbers).position - (loaded first).position) }
    requires behind { loaded numbers ≡ beyond (loaded first)
        ((loaded numbers).position - (loaded first).position) }
    ensures { IfSome result (λ len. HasNumbers 6 (before + count) (loaded first.entry) len) }
{
    if count < 8 {
        if let Some(len) = first.sixes(count + before) {
            return Some(len);
        }
    }
    let len = numbers.bits().all_sixes(count)?;
    Some(numbers.position() - first.position() + len)
}

impl Plan {
    /// The chunks of an array's elements.
    #[inline(always)]
    fn chunks(&self) -> ChunkTops
        requires { self.now.rest ≡ Numbers }
        ensures { result.bits ≡ self.now.width }
    {
        ChunkTops::of(ChunkWidth::of(self.width))
    }

    /// The length of the elements of an array and of their number, with which the first bits begin.
    #[inline(always)]
    fn elements_len(
        &self,
        first: LoadedBits<'_>,
        elements: LoadedBits<'_>,
        count: u64,
    ) -> Option<u64>
        requires array { self.now.rest ≢ Nothing }
        requires planned { self.now.rest ≢ Odd }
        requires reads { Reads (vbr 6) (loaded first) count (loaded elements) }
        requires short { (loaded elements).position ≤ (loaded first).position + 18 }
        ensures has { IfSome result (λ len. (tail : List Op) → HasRest self.now.width self.now.rest tail
            → HasArray tail count (loaded first.entry) len) }
        ensures within { IfSome result (λ len. len ≤ length (loaded first.entry).bits) }
    {
        let before = elements.position() - first.position();
        match self.rest {
            Rest::Sixes => sixes_len(first, elements, count, 1),
            Rest::Numbers => Some(before + elements.bits().all_of(self.chunks(), count, 0)?),
            _ => {
                let len = count * u64::from(self.width);
                if !elements.bits().has(len) {
                    return None;
                }
                Some(before + len)
            }
        }
    }

    /// The length of an array, and how many elements it has.
    #[inline(always)]
    fn array_len(&self, bits: PlacedBits<'_>, room: u64) -> Option<(u64, u64)>
        requires array { self.now.rest ≢ Nothing }
        requires planned { self.now.rest ≢ Odd }
        requires there { 64 ≤ length (placed bits).bits }
        ensures has { IfSome result (λ found. (tail : List Op)
            → HasRest self.now.width self.now.rest tail
            → HasArray tail found.1 (placed bits.entry) found.0) }
        ensures within { IfSome result (λ found. found.0 ≤ length (placed bits.entry).bits) }
        ensures few { IfSome result (λ found. found.1 < 2 ^ 15) }
    {
        let first = bits.load();
        let (count, elements) = first.short_six()?;
        if count > room {
            return None;
        }
        Some((self.elements_len(first, elements, count)?, count))
    }

    /// Passes over the fields of a record after its id, which has at most `room` values.
    #[inline(always)]
    pub fn pass(&self, fields: LoadedBits<'_>, room: u64) -> Option<Passed>
        requires { 2208 ≤ length (loaded fields).bits }
        ensures passes { IfSome result (λ passed. (first : ℕ) (ops : List Op) → IsPlan ops self.now
            → passed.count ≤ room → PassesOver (by_definition first room ops) (loaded fields.entry)
            passed) }
        ensures within { IfSome result (λ passed. passed.len ≤ length (loaded fields.entry).bits) }
    {
        if self.alone {
            if let Some(len) = self.passes.first_len(fields, self.tops) {
                return Some(Passed {
                    len: u64::from(self.passes.after) + len,
                    code: self.code,
                    count: u64::from(self.singles),
                });
            }
        }
        self.pass_any(fields, room)
    }

    /// The same by any plan.
    #[inline(always)]
    fn pass_any(&self, fields: LoadedBits<'_>, room: u64) -> Option<Passed>
        requires { 2208 ≤ length (loaded fields).bits }
        ensures passes { IfSome result (λ passed. (first : ℕ) (ops : List Op) → IsPlan ops self.now
            → passed.count ≤ room → PassesOver (by_definition first room ops) (loaded fields.entry)
            passed) }
        ensures within { IfSome result (λ passed. passed.len ≤ length (loaded fields.entry).bits) }
    {
        if self.rest == Rest::Odd {
            return None;
        }
        let len = self.passes.len(fields, self.tops)?;
        let count = u64::from(self.singles);
        let code = self.code;
        if self.rest == Rest::Nothing {
            return Some(Passed { len, code, count });
        }
        let (more, elements) = self.array_len(fields.bits().after(len), room)?;
        Some(Passed {
            len: len + more,
            code,
            count: count + elements,
        })
    }
}

/// Passes over the fields of a record that is not abbreviated after its id.
#[inline(always)]
pub fn pass_plain(fields: LoadedBits<'_>) -> Option<Passed>
    requires { 64 ≤ length (loaded fields).bits }
    ensures { IfSome result (λ passed. (room : ℕ) → passed.count ≤ room
        → PassesOver (unabbreviated room) (loaded fields.entry) passed) }
{
    let (code, behind) = fields.short_six()?;
    let (count, values) = behind.short_six()?;
    Some(Passed {
        len: sixes_len(fields, values, count, 2)?,
        code,
        count,
    })
}
