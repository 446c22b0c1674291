// The number of a word, in ten-thousandths.
ghost use Rattle.std.specs.Prelude.{◌≡◌, ◌-◌, ◌*◌, ◌^◌, ◌<◌, ◌≤◌, length};
ghost use Rattle.words.specs.Digits.{DigitsIn, looked_digits};
ghost use Rattle.words.specs.Number.{after_sign, most_decimals, number_in, of_decimals, with_decimals};

use crate::Digits;
use arith::signed::signed_by;

// Most digits before the point and behind it, and the parts of 1 in which numbers are counted.
const MOST_DIGITS: usize = 5;

const MOST_DECIMALS: usize = 4;

pub const PARTS: u64 = 10_000;

// Digits that are looked at: one more than a number may have before its point, so that one too many shows itself.
const LOOKED: usize = MOST_DIGITS + 1;

// The digits that at most six bytes begin with. They are counted and read in one loop, for speed: in two a line of text took
// more than the 1,400 instructions that it may. No `str::parse`: bytes are no `str`.
fn read_digits(s: &[u8]) -> Digits
    requires { length s.now ≤ looked_digits }
    ensures { DigitsIn s.now result }
{
    let mut value = 0;
    for (count, b) in s.iter().enumerate() {
        if !b.is_ascii_digit() {
            return Digits { count, value };
        }
        value = value * 10 + u64::from(*b - b'0');
    }
    Digits {
        count: s.len(),
        value,
    }
}

// Decimals in ten-thousandths: n digits that write this value, 10 times it for each digit that is missing.
fn in_parts(value: u64, n: usize) -> u64
    requires { (value < 100_000) × (n ≤ most_decimals) }
    ensures { (result ≡ value * 10 ^ (most_decimals - n)) × (result ≤ 1_000_000_000) }
{
    value * 10u64.pow((MOST_DECIMALS - n) as u32)
}

// The number with a sign, of whole digits that write `whole` and of decimals: one to four digits alone.
fn of_decimals(negative: bool, whole: u64, s: &[u8]) -> Option<i64>
    requires { whole < 100_000 }
    ensures { result ≡ of_decimals negative whole s.now }
{
    if s.is_empty() || MOST_DECIMALS < s.len() {
        return None;
    }
    let digits = read_digits(s);
    if digits.count < s.len() {
        return None;
    }
    let parts = in_parts(digits.value, s.len());
    Some(signed_by(negative, whole * PARTS + parts))
}

// The same with what follows the whole digits: nothing, or a point and decimals.
fn with_decimals(negative: bool, whole: u64, rest: &[u8]) -> Option<i64>
    requires { whole < 100_000 }
    ensures { result ≡ with_decimals negative whole rest.now }
{
    match rest {
        [] => Some(signed_by(negative, whole * PARTS)),
        [b'.', decimals @ ..] => of_decimals(negative, whole, decimals),
        _ => None,
    }
}

// The number with a sign, of what follows the sign. The sign goes down to the digits: definitions of each step carry it.
fn after_sign(negative: bool, s: &[u8]) -> Option<i64>
    ensures { result ≡ after_sign negative s.now }
{
    let digits = read_digits(&s[..s.len().min(LOOKED)]);
    let n = digits.count;
    if n == 0 || MOST_DIGITS < n {
        return None;
    }
    with_decimals(negative, digits.value, &s[n..])
}

// The number that a word's numerals write, ten-thousandths: an optional sign, 1 to 5 digits, and optionally a point with
// 1 to 4 digits. `None` where they are badly formed.
pub fn read_number(s: &[u8]) -> Option<i64>
    ensures { result ≡ number_in s.now }
{
    match s {
        [] => None,
        [b'-', rest @ ..] => after_sign(true, rest),
        [b'+', rest @ ..] => after_sign(false, rest),
        _ => after_sign(false, s),
    }
}
