//! Bytes that were taken of a source before they are read, and the slices in which it lent them. What is said of bytes that are given
//! again names the struct, so their calls are in `rejoined`.

ghost use Rattle.std.specs.Prelude.{◌≡◌, ◌+◌, ◌<◌, ◌≤◌, ◌^◌, [], length};

/// How many digits a run of slices takes at most: a number, a zero and a number.
const RUN: usize = 11;

/// What a digit counts up to. It is added to each digit of a number but the last.
const BASE: usize = 1 << 15;

/// The slices that were taken of a source: how many bytes they have, and how many they are. How wide each is stands in digits that
/// the caller has.
///
/// The slices of one width that follow each other are a run: their width and, if there are more than one, a zero and how many more.
/// A number is its digits, the lowest first. So a slice of a pipe takes a digit or two, and a file's slices of one width a few
/// together.
#[derive(Clone, Copy)]
pub(crate) struct Slices {
    pub(crate) bytes: usize,
    pub(crate) count: usize,
    /// How many digits the runs before the last one have.
    used: usize,
    /// The last run.
    width: usize,
    times: usize,
    ghost few: { count ≤ bytes },
    ghost none: { count ≡ 0 → bytes ≡ 0 },
    ghost within: { times ≤ count },
}

impl Slices {
    /// No slices.
    pub(crate) fn new() -> Slices
        ensures { result.bytes ≡ 0 }
    {
        Slices {
            bytes: 0,
            count: 0,
            used: 0,
            width: 0,
            times: 0,
        }
    }

    /// Whether one more slice can be noted in these digits, whatever its width.
    pub(crate) fn has_room(&self, digits: &[u16]) -> bool {
        self.used <= digits.len().saturating_sub(2 * RUN)
    }

    /// Notes a slice of `width` bytes.
    pub(crate) fn add(&mut self, digits: &mut [u16], width: usize)
        requires some { 0 < width }
        requires fits { self.old.bytes + width < 2 ^ 64 }
        ensures bytes { self.new.bytes ≡ self.old.bytes + width }
        ensures count { self.new.count ≡ self.old.count + 1 }
    {
        if width != self.width {
            self.end_run(digits);
            self.width = width;
        }
        self.bytes += width;
        self.count += 1;
        self.times += 1;
    }

    /// Writes the last run.
    fn end_run(&mut self, digits: &mut [u16])
        ensures bytes { self.new.bytes ≡ self.old.bytes }
        ensures count { self.new.count ≡ self.old.count }
        ensures times { self.new.times ≡ 0 }
    {
        if self.times > 0 {
            self.used = write(digits, self.used, self.width);
        }
        if self.times > 1 {
            self.used = write(digits, self.used, 0);
            self.used = write(digits, self.used, self.times - 1);
        }
        self.times = 0;
    }

    /// The widths of all slices, in order.
    pub(crate) fn widths<'a>(&mut self, digits: &'a mut [u16]) -> Widths<'a> {
        self.end_run(digits);
        Widths {
            digits,
            width: 0,
            times: 0,
        }
    }
}

/// Writes a number from a digit on, as far as there is room, and returns the place after it.
fn write(digits: &mut [u16], place: usize, number: usize) -> usize {
    let mut place = place;
    let mut left = number;
    while left >= BASE && place < digits.len() {
        digits[place] = (left % BASE + BASE) as u16;
        place += 1;
        left /= BASE;
    }
    if place < digits.len() {
        digits[place] = (left % BASE) as u16;
        place += 1;
    }
    place
}

/// Widths of slices, in order.
#[derive(Clone, Copy)]
pub(crate) struct Widths<'a> {
    digits: &'a [u16],
    /// The next slices have this width.
    width: usize,
    times: usize,
}

impl<'a> Widths<'a> {
    /// The width of the next slice.
    pub(crate) fn next(&mut self) -> usize {
        if self.times == 0 {
            self.width = self.number();
            self.times = 1;
            if self.digits.first().copied() == Some(0) {
                let _zero = self.number();
                self.times = self.number().saturating_add(1);
            }
        }
        self.times -= 1;
        self.width
    }

    /// Takes a number.
    fn number(&mut self) -> usize {
        let mut number = 0;
        let mut place = 0u32;
        while place < 64 {
            let digit = self.digit();
            number |= digit % BASE << place;
            if digit < BASE {
                break;
            }
            place += 15;
        }
        number
    }

    /// Takes a digit; 0 if there is none.
    fn digit(&mut self) -> usize {
        match self.digits.split_first() {
            Some((digit, rest)) => {
                self.digits = rest;
                *digit as usize
            }
            None => 0,
        }
    }
}

/// Bytes that are given again, in the slices in which they were taken.
#[derive(Clone, Copy)]
pub(crate) struct Again<'a> {
    /// What is left of the slice that is given now.
    pub(crate) slice: &'a [u8],
    /// The slices behind it, and how many they are.
    pub(crate) rest: &'a [u8],
    pub(crate) more: usize,
    pub(crate) widths: Widths<'a>,
    /// A slice behind them.
    pub(crate) next: &'a [u8],
    ghost first: { length slice.now ≡ 0 → (rest.now ≡ []) × (next.now ≡ []) },
    ghost few: { more ≤ length rest.now },
    ghost none: { more ≡ 0 → rest.now ≡ [] },
}

#[cfg(test)]
mod tests {
    use super::*;
    use std::process::Abort;

    /// Widths of one to three digits, and runs of them.
    static WIDTHS: [u32; 14] = [
        65536,
        65536,
        65536,
        7,
        7,
        1,
        2,
        32767,
        32768,
        32768,
        0x4000_0000,
        3,
        4096,
        65535,
    ];

    /// The width of a slice: one of these by turns, or always the same one.
    fn width_at(turn: usize, step: usize) -> usize
        ensures some { 0 < result }
        ensures few { result < 2 ^ 32 }
    {
        let place = turn.wrapping_mul(step) % 14;
        WIDTHS[place].max(1) as usize
    }

    /// Checks that slices are noted as long as there is room, at most 20,000, and that their widths come again. Returns how many.
    fn noted(rt: &impl Abort, step: usize) -> usize {
        let mut digits = [0; 16384];
        let mut slices = Slices::new();
        for turn in 0..20_000 {
            if slices.has_room(&digits) && slices.bytes < 1 << 60 {
                slices.add(&mut digits, width_at(turn, step));
            }
        }
        let count = slices.count;
        let mut widths = slices.widths(&mut digits);
        for turn in 0..count {
            let width = widths.next();
            assert!(rt; width == width_at(turn, step), "{turn}: {width}");
        }
        count
    }

    #[test]
    fn widths_come_again(rt: HostRuntime) {
        // 14 slices take 21 digits, and 22 are kept free: 779 times all of them, and 4 more.
        assert_eq!(rt; noted(&rt, 1), 10_910);
        assert_eq!(rt; noted(&rt, 0), 20_000);
    }
}
