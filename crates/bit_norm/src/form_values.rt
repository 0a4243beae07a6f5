ghost use Rattle.std.specs.Prelude.{◌≡◌, ◌+◌, ◌*◌, ◌/◌, ◌^◌, ◌<◌, ◌≤◌, ℕ, List, [], ◌++◌, length, min, take, true, false, IfSome, OnOk, OnErr};
ghost use Rattle.bit_norm.specs.Building.{HoldsText, HasTaken};
ghost use Rattle.bit_norm.specs.declared.form_values.Holding.TheVariants.{All, Unknown};
ghost use Rattle.bit_grammar.specs.Normal.{most_bytes, values_bits};

use bit_fields::{BitText, Limits, NotTaken, ValueTaker};
use std::alloc::{AllocError, Global};

/// How many values are held as numbers before they become text.
const ROOM: usize = 64;

/// How many values of one byte become text before the limit on bytes is tested again.
const PIECE: usize = 4096;

/// How much of the text of values is held.
#[derive(Clone, Copy, Debug, PartialEq, Eq)]
pub(crate) enum Holding {
    /// All of it.
    All,
    /// Nothing, because it is longer than the limit on bytes.
    TooLong,
    /// Unknown: an allocation failed, or values were dropped.
    Unknown,
}

/// A value sink for the records of a normal form, up to the limit on bytes. It holds the last values as numbers, so that a record
/// of few values is added to the form at once, and the values before them as their bits in the form.
#[derive(Drop)]
pub(crate) struct FormValues {
    /// The first `held` of these are values.
    numbers: [u64; ROOM],
    held: usize,
    pub(crate) text: BitText,
    /// How many values come before these.
    pub(crate) before: u64,
    limits: Limits,
    holding: Holding,
}

/// Whether a text has more bytes than the limit.
#[inline(always)]
pub(crate) fn is_long(text: &BitText, limits: Limits) -> bool
    ensures yes { result ≡ true → limits.bytes < length text.now / 8 }
    ensures no { result ≡ false → length text.now / 8 ≤ limits.bytes }
    ensures few { result ≡ false → length text.now < 2 ^ 38 }
    ensures capped { limits.bytes ≤ most_bytes }
{
    text.len() / 8 > limits.bytes()
}

/// Adds values to the text of earlier ones, if all of that is held.
#[tactic(auto, using(crate::proofs::ValueTexts::holds_more, crate::proofs::ValueTexts::holds_all, crate::proofs::ValueTexts::holds_past, crate::proofs::ValueTexts::values_few))]
fn add_values(
    text: &mut BitText,
    holding: &mut Holding,
    limits: Limits,
    values: &[u64],
) -> Result<(), AllocError>
    requires { length values.now ≤ 64 }
    ensures ok { OnOk result ((others : List ℕ) → HoldsText holding.old text.old limits.bytes others
        → HoldsText holding.new text.new limits.bytes (others ++ values.now)) }
    ensures err { OnErr result (holding.new ≡ Unknown) }
{
    if let Holding::All = *holding {
        if is_long(text, limits) {
            text.clear();
            *holding = Holding::TooLong;
            return Ok(());
        }
        if let Err(AllocError) = text.numbers(values) {
            *holding = Holding::Unknown;
            return Err(AllocError);
        }
    }
    Ok(())
}

/// Adds values of one byte each to the text of earlier ones, if all of that is held.
#[tactic(auto, using(crate::proofs::ValueTexts::holds_more, crate::proofs::ValueTexts::holds_all, crate::proofs::ValueTexts::holds_past, crate::proofs::ValueTexts::values_few))]
fn add_bytes(
    text: &mut BitText,
    holding: &mut Holding,
    limits: Limits,
    values: &[u8],
) -> Result<(), AllocError>
    requires { length values.now ≤ 4096 }
    ensures ok { OnOk result ((others : List ℕ) → HoldsText holding.old text.old limits.bytes others
        → HoldsText holding.new text.new limits.bytes (others ++ values.now)) }
    ensures err { OnErr result (holding.new ≡ Unknown) }
{
    if let Holding::All = *holding {
        if is_long(text, limits) {
            text.clear();
            *holding = Holding::TooLong;
            return Ok(());
        }
        if let Err(AllocError) = text.byte_numbers(values) {
            *holding = Holding::Unknown;
            return Err(AllocError);
        }
    }
    Ok(())
}

impl FormValues {
    /// No values.
    pub(crate) fn new(alloc: Global, limits: Limits) -> FormValues
        ensures { HasTaken result [] }
    {
        FormValues {
            numbers: [0; ROOM],
            held: 0,
            text: BitText::new(alloc),
            before: 0,
            limits,
            holding: Holding::All,
        }
    }

    /// The values that are held as numbers.
    #[inline(always)]
    fn recent(&self) -> &[u64]
        ensures { result.now ≡ take (min self.now.held 64) self.now.numbers }
    {
        &self.numbers[..self.held.min(ROOM)]
    }

    /// The values, if all are held as numbers.
    #[inline(always)]
    pub(crate) fn all(&self) -> Option<&[u64]>
        ensures are { IfSome result (λ all. (values : List ℕ) → HasTaken self.now values
            → values ≡ all.now) }
        ensures few { IfSome result (λ all. length all.now ≤ 64) }
    {
        if self.before > 0 {
            return None;
        }
        Some(self.recent())
    }

    /// Converts the values that are held as numbers to text.
    #[inline(never)]
    pub(crate) fn settle(&mut self) -> Result<(), AllocError>
        ensures took { (values : List ℕ) → HasTaken self.old values → HasTaken self.new values }
        ensures ok { OnOk result (self.new.held ≡ 0) }
    {
        let count = self.count();
        let recent = &self.numbers[..self.held.min(ROOM)];
        add_values(&mut self.text, &mut self.holding, self.limits, recent)?;
        self.before = count;
        self.held = 0;
        Ok(())
    }

    /// Makes room for a number.
    #[inline(always)]
    fn make_room(&mut self) -> Result<(), AllocError>
        ensures took { (values : List ℕ) → HasTaken self.old values → HasTaken self.new values }
        ensures ok { OnOk result (self.new.held < 64) }
    {
        if self.held >= ROOM {
            return self.settle();
        }
        Ok(())
    }

    /// Takes values of one byte each, one by one.
    #[inline(always)]
    fn take_few(&mut self, bytes: &[u8]) -> Result<(), NotTaken>
        ensures ok { OnOk result ((values : List ℕ) → HasTaken self.old values
            → HasTaken self.new (values ++ bytes.now)) }
        ensures err { OnErr result ((values : List ℕ) → HasTaken self.old values
            → (some : List ℕ) × HasTaken self.new (values ++ some)) }
    {
        for byte in bytes {
            self.take(u64::from(*byte))?;
        }
        Ok(())
    }

    /// Takes at most `PIECE` values of one byte each. No value is held as a number.
    fn take_piece(&mut self, bytes: &[u8]) -> Result<(), NotTaken>
        requires few { length bytes.now ≤ 4096 }
        requires none { self.old.held ≡ 0 }
        ensures ok { OnOk result ((values : List ℕ) → HasTaken self.old values
            → HasTaken self.new (values ++ bytes.now)) }
        ensures err { OnErr result ((values : List ℕ) → HasTaken self.old values
            → HasTaken self.new values) }
        ensures none { self.new.held ≡ 0 }
    {
        add_bytes(&mut self.text, &mut self.holding, self.limits, bytes)?;
        self.before = self.before.saturating_add(bytes.len() as u64);
        Ok(())
    }

    /// Takes values of one byte each, in pieces, as text.
    #[inline(never)]
    fn take_many(&mut self, bytes: &[u8]) -> Result<(), NotTaken>
        ensures ok { OnOk result ((values : List ℕ) → HasTaken self.old values
            → HasTaken self.new (values ++ bytes.now)) }
        ensures err { OnErr result ((values : List ℕ) → HasTaken self.old values
            → (some : List ℕ) × HasTaken self.new (values ++ some)) }
    {
        self.settle()?;
        let mut done = 0;
        while done < bytes.len() {
            let count = (bytes.len() - done).min(PIECE);
            self.take_piece(&bytes[done..done + count])?;
            done += count;
        }
        Ok(())
    }

    /// Whether the text of the values is known to have more bytes than a limit. No value is held as a number.
    #[inline(always)]
    pub(crate) fn is_past(&self, limits: Limits) -> bool
        ensures yes { result ≡ true → (values : List ℕ) → HasTaken self.now values
            → limits.bytes < length (values_bits values) / 8 }
        ensures few { result ≡ false → self.now.holding ≡ All → length self.now.text < 2 ^ 38 }
    {
        match self.holding {
            Holding::All => is_long(&self.text, limits),
            Holding::TooLong => limits.bytes() <= self.limits.bytes(),
            Holding::Unknown => false,
        }
    }

    /// Whether the text of the values is held.
    #[inline(always)]
    pub(crate) fn is_held(&self) -> bool
        ensures { result ≡ true → self.now.holding ≡ All }
    {
        match self.holding {
            Holding::All => true,
            Holding::TooLong | Holding::Unknown => false,
        }
    }

    /// Drops all values. Some may be text.
    #[inline(never)]
    pub(crate) fn reset(&mut self)
        ensures { HasTaken self.new [] }
    {
        self.held = 0;
        self.text.clear();
        self.before = 0;
        self.holding = Holding::All;
    }

    /// Drops all values.
    #[inline(always)]
    fn clear(&mut self)
        ensures { (values : List ℕ) → HasTaken self.old values → HasTaken self.new [] }
    {
        self.held = 0;
        if self.before > 0 || !self.is_held() {
            self.reset();
        }
    }
}

impl ValueTaker for FormValues {
    ghost use Rattle.bit_norm.specs.Building.{HasTaken};

    ghost took = { HasTaken };

    #[inline(always)]
    fn take(&mut self, value: u64) -> Result<(), NotTaken> {
        self.make_room()?;
        self.numbers[self.held] = value;
        self.held += 1;
        Ok(())
    }

    /// A record of more values than are held as numbers becomes text, its bytes without a way through numbers.
    #[inline]
    fn take_bytes(&mut self, bytes: &[u8]) -> Result<(), NotTaken> {
        if bytes.len() <= ROOM {
            self.take_few(bytes)
        } else {
            self.take_many(bytes)
        }
    }

    /// Values after a text that is not held are only counted.
    #[inline]
    fn pass(&mut self, count: u64) -> bool {
        if let Holding::All = self.holding {
            return false;
        }
        if self.held > 0 {
            return false;
        }
        self.before = self.before.saturating_add(count);
        true
    }

    /// If some values stay, their text is no longer known.
    #[inline(always)]
    fn truncate(&mut self, count: u64) {
        if count == 0 {
            self.clear();
            return;
        }
        self.before = self.count().min(count);
        self.held = 0;
        self.holding = Holding::Unknown;
    }

    #[inline(always)]
    fn count(&self) -> u64 {
        self.before.saturating_add(self.held as u64)
    }
}
