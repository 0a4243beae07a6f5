ghost use Rattle.std.specs.Prelude.{◌≡◌, ◌+◌, ◌*◌, ◌<◌, ◌≤◌, ◌-◌, ◌^◌, [], ◌∷◌, ℕ, true, codes, length, take, drop, IfSome, MatchOption, None, Some, Ok, Err};
ghost use Rattle.std.specs.Char.{digit_value};
ghost use Rattle.bit_text.specs.Numbers.{behind, digits, digits_after, number, numbers_after, words};
ghost use Rattle.bit_text.specs.Places.{IsRun, IsWord};
ghost use Rattle.bit_text.specs.Stops.{ReadsNumbers};

use crate::reason::TextReason;

/// A number up to this has room for one digit more.
const TENTH: u64 = u64::MAX / 10 - 1;

/// How many numbers are held for the form at once.
pub(crate) const BATCH: usize = 256;

/// Why a line was not read.
#[derive(Clone, Copy, Debug, PartialEq, Eq)]
pub(crate) enum Stop {
    Refused(TextReason),
    Memory,
}

/// What comes after this front, if a text begins with it.
pub(crate) fn behind<'a>(text: &'a [u8], front: &[u8]) -> Option<&'a [u8]>
    ensures found { MatchOption result (behind front.now text.now ≡ None)
        (λ rest. behind front.now text.now ≡ Some rest.now) }
    ensures after { IfSome result (λ rest. (rest.now ≡ drop (length front.now) text.now)
        × (length rest.now + length front.now ≡ length text.now)) }
{
    text.strip_prefix(front)
}

/// The value of a digit in bases up to 36, and 36 for other bytes.
#[inline(always)]
pub(crate) fn value_of_digit(b: u8) -> u64
    ensures { result ≡ digit_value b }
{
    let value = match b {
        b'0'..=b'9' => b - b'0',
        b'A'..=b'Z' => b - b'A' + 10,
        b'a'..=b'z' => b - b'a' + 10,
        _ => 36,
    };
    u64::from(value)
}

/// The number that digits spell in a base, at least one.
#[inline(always)]
fn digits(base: u64, text: &[u8]) -> Result<u64, TextReason>
    ensures { result ≡ digits base text.now }
{
    if text.is_empty() {
        return Err(TextReason::BadLine);
    }
    let mut n: u64 = 0;
    for b in text {
        let digit = value_of_digit(*b);
        if digit >= base {
            return Err(TextReason::BadLine);
        }
        let Some(more) = n.checked_mul(base) else {
            return Err(TextReason::NumberTooLarge);
        };
        let Some(more) = more.checked_add(digit) else {
            return Err(TextReason::NumberTooLarge);
        };
        n = more;
    }
    Ok(n)
}

/// The number that a word spells.
pub(crate) fn number(word: &[u8]) -> Result<u64, TextReason>
    ensures { result ≡ number word.now }
{
    // Few numbers are hexadecimal.
    if word.len() < 2 {
        return digits(10, word);
    }
    if word[0] != b'0' {
        return digits(10, word);
    }
    match behind(word, b"0x") {
        Some(text) => digits(16, text),
        None => digits(10, word),
    }
}

/// A number with one decimal digit more.
#[inline(always)]
fn with_digit(n: u64, b: u8) -> u64
    requires few { n ≤ TENTH }
    requires digit { 48 ≤ b }
    requires decimal { b ≤ 57 }
    ensures digits { digits_after 10 n (b ∷ []) ≡ Ok result }
    ensures bound { result ≤ n * 10 + 9 }
{
    n * 10 + (u64::from(b) - 48)
}

/// The number of one to four digits that begins here, if a space is behind it, and how many digits it has; or else no digit.
#[inline(always)]
fn short_word(text: &[u8], from: usize) -> (u64, usize)
    requires { from + 5 ≤ length text.now }
    ensures { IsWord text.now from (from + result.1) result.0 }
{
    let first = text[from];
    if first < b'0' || first > b'9' {
        return (0, 0);
    }
    let one = with_digit(0, first);
    let second = text[from + 1];
    if second == b' ' {
        return (one, 1);
    }
    if second < b'0' || second > b'9' {
        return (0, 0);
    }
    let two = with_digit(one, second);
    let third = text[from + 2];
    if third == b' ' {
        return (two, 2);
    }
    if third < b'0' || third > b'9' {
        return (0, 0);
    }
    let three = with_digit(two, third);
    let fourth = text[from + 3];
    if fourth == b' ' {
        return (three, 3);
    }
    if fourth < b'0' || fourth > b'9' || text[from + 4] != b' ' {
        return (0, 0);
    }
    (with_digit(three, fourth), 4)
}

/// The same of a number of any length, which may also end the text.
fn long_word(text: &[u8], from: usize) -> (u64, usize)
    requires { from ≤ length text.now }
    ensures { IsWord text.now from (from + result.1) result.0 }
{
    let mut n = 0;
    for i in from..text.len() {
        match text[i] {
            b'0'..=b'9' => {
                if n > TENTH {
                    return (0, 0);
                }
                n = with_digit(n, text[i]);
            }
            b' ' => return (n, i - from),
            _ => return (0, 0),
        }
    }
    (n, text.len() - from)
}

/// The decimal number that begins here, and how many digits it has; none, if it is not read so.
#[inline(always)]
fn next_word(text: &[u8], from: usize) -> (u64, usize)
    requires { from ≤ length text.now }
    ensures { IsWord text.now from (from + result.1) result.0 }
{
    if text.len() - from >= 5 {
        let (n, count) = short_word(text, from);
        if count > 0 {
            return (n, count);
        }
    }
    long_word(text, from)
}

/// Whether a byte is a decimal digit.
#[inline(always)]
fn is_digit(b: u8) -> bool
    ensures low { result ≡ true → 48 ≤ b }
    ensures high { result ≡ true → b ≤ 57 }
{
    b >= b'0' && b <= b'9'
}

/// The number that the first six digits from here on spell, or all if they are fewer, and the place behind them.
#[inline(always)]
fn quick_word(text: &[u8], from: usize) -> (u64, usize)
    requires { from + 7 ≤ length text.now }
    ensures number { IsRun text.now from result.1 result.0 }
    ensures low { from ≤ result.1 }
    ensures high { result.1 ≤ from + 6 }
{
    let first = text[from];
    if !is_digit(first) {
        return (0, from);
    }
    let one = with_digit(0, first);
    let second = text[from + 1];
    if !is_digit(second) {
        return (one, from + 1);
    }
    let two = with_digit(one, second);
    let third = text[from + 2];
    if !is_digit(third) {
        return (two, from + 2);
    }
    let three = with_digit(two, third);
    let fourth = text[from + 3];
    if !is_digit(fourth) {
        return (three, from + 3);
    }
    let four = with_digit(three, fourth);
    let fifth = text[from + 4];
    if !is_digit(fifth) {
        return (four, from + 4);
    }
    let five = with_digit(four, fifth);
    let sixth = text[from + 5];
    if !is_digit(sixth) {
        return (five, from + 5);
    }
    let six = with_digit(five, sixth);
    (six, from + 6)
}

/// Reads the numbers before a place of a text, if each has at most six digits and one space is between them, and returns how many
/// there are; or else 0.
#[inline(never)]
pub(crate) fn quick_numbers(text: &[u8], end: usize, batch: &mut [u64; BATCH]) -> usize
    requires room { end + 7 ≤ length text.now }
    requires short { end ≤ 512 }
    ensures few { result ≤ 256 }
    ensures read { 0 < result → numbers_after [] (words (take end text.now)) ≡ Ok (take result batch.new) }
{
    let mut from = 0;
    let mut count = 0;
    while from < end {
        let (n, to) = quick_word(text, from);
        if to == from {
            return 0;
        }
        batch[count] = n;
        count += 1;
        if text[to] != b' ' {
            return if to == end { count } else { 0 };
        }
        from = to + 1;
    }
    0
}

/// Reads the numbers of a text, with one space between them.
pub(crate) fn read_numbers(text: &[u8], numbers: &mut Vec<u64>) -> Result<(), Stop>
    ensures { ReadsNumbers (numbers_after [] (words text.now)) result numbers.new.items }
{
    numbers.clear();
    let mut from = 0;
    while from < text.len() {
        let (n, count) = next_word(text, from);
        if count == 0 {
            return read_words(&text[from..], numbers);
        }
        let Ok(()) = numbers.push(n) else {
            return Err(Stop::Memory);
        };
        from += count + 1;
    }
    if from > text.len() {
        return Ok(());
    }
    read_words(&text[from..], numbers)
}

/// Reads the numbers of a text, which may be of any form, behind those before them.
#[inline(never)]
fn read_words(text: &[u8], numbers: &mut Vec<u64>) -> Result<(), Stop>
    ensures { ReadsNumbers (numbers_after numbers.old.items (words text.now)) result numbers.new.items }
{
    let mut from = 0;
    for (i, b) in text.iter().enumerate() {
        if *b == b' ' {
            add_number(&text[from..i], numbers)?;
            from = i + 1;
        }
    }
    add_number(&text[from..], numbers)
}

/// Adds the number that a word spells.
fn add_number(word: &[u8], numbers: &mut Vec<u64>) -> Result<(), Stop>
    ensures { ReadsNumbers (numbers_after numbers.old.items (word.now ∷ [])) result numbers.new.items }
{
    match number(word) {
        Ok(n) => numbers.push(n).map_err(|_| Stop::Memory),
        Err(reason) => Err(Stop::Refused(reason)),
    }
}
