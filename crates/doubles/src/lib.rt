// One double of 64 bits, read exactly from its own bits, and given back. Nothing here knows what a double measures.
#![tactic(auto)]

ghost use Rattle.std.specs.Prelude.{◌≡◌, not, ◌+◌, ◌^◌, ◌<◌, ◌≤◌, min, T, nat_abs};
ghost use Rattle.std.specs.Float.{binary64};
ghost use Rattle.std.specs.Float.Ieee.{is_nan, of_bits, of_int, sub, to_bits};
ghost use Rattle.std.specs.Float.Ieee.Nearest.{closest};
ghost use Rattle.doubles.specs.Readings.{FieldsOf, magnitude_of, most_read, reading_of};

use arith::signed::signed_by;
use display::Refusal;
use std::cmp::Ordering;

// The parts of a double's pattern.
#[derive(Clone, Copy, Debug, PartialEq, Eq, Hash)]
struct Fields {
    negative: bool,
    // the exponent's field: 0 for a double below the smallest with a leading digit, `ONES` for an infinity or a NaN
    exponent: u64,
    // the digits below the leading one
    digits: u64,
}

// The greatest whole number that is read, either way.
pub const MOST: u64 = 1_000_000_000;
// It stands for every magnitude beyond `MOST`.
const PAST: u64 = MOST + 1;
// What a double is multiplied by.
const TIMES: u64 = 1_000;
// The weight of the sign in a pattern.
const SIGN: u64 = 0x8000_0000_0000_0000;
// The weight of the exponent's field, which is also that of the leading digit.
const LEADING: u64 = 0x10_0000_0000_0000;
// The exponent's field of an infinity or a NaN.
const ONES: u64 = 2047;
// The smallest double above 0 is 2 to the power -1074.
const SMALLEST: u64 = 1074;
// From this exponent's field on a double is at least 2 to the power 20, and 1,000 times it beyond `MOST`.
const FAR: u64 = 1043;

// The difference, rounded as doubles are.
pub fn difference(a: f64, b: f64) -> f64
    ensures { result ≡ sub binary64 a b }
{
    a - b
}

// The pattern of a double that is no NaN.
pub fn bits_of(x: f64) -> u64
    requires { T (not (is_nan x)) }
    ensures { result ≡ to_bits binary64 x }
{
    x.to_bits()
}

// The double of a pattern; every NaN's pattern is the NaN.
pub fn double_of(bits: u64) -> f64
    ensures { result ≡ of_bits binary64 bits }
{
    if ONES * LEADING < bits % SIGN {
        return f64::NAN;
    }
    f64::from_bits(bits)
}

// A whole number up to 2^53 either way as a double, with nothing lost.
pub fn whole(n: i64) -> f64
    requires { nat_abs n ≤ 2 ^ 53 }
    ensures { result ≡ of_int binary64 n }
{
    n as f64
}

// The parts of the pattern of a double that is no NaN.
fn fields_of(x: f64) -> Fields
    requires { T (not (is_nan x)) }
    ensures { FieldsOf x result.negative result.exponent result.digits }
{
    let bits = bits_of(x);
    Fields {
        negative: SIGN <= bits,
        exponent: bits % SIGN / LEADING,
        digits: bits % LEADING,
    }
}

// n / p to the nearest whole number, an exact half to the even one.
fn nearest(n: u64, p: u64) -> u64
    requires { (0 < p) × (n < 2 ^ 63) }
    ensures { result ≡ closest n p }
{
    let q = n / p;
    let rest = n % p;
    match rest.cmp(&(p - rest)) {
        Ordering::Less => q,
        Ordering::Equal => q + q % 2,
        Ordering::Greater => q + 1,
    }
}

// n / 2^k to the nearest whole number, an exact half to the even one. From 2^64 on it is below a half.
fn nearest_shift(n: u64, k: u64) -> u64
    requires { n < 2 ^ 63 }
    ensures { result ≡ closest n (2 ^ k) }
{
    if 63 < k {
        return 0;
    }
    nearest(n, 1 << k)
}

// 1,000 times the magnitude of a finite double, to the nearest whole number; `PAST` where it is beyond `MOST`.
fn magnitude(exponent: u64, digits: u64) -> u64
    requires { (exponent < 2047) × (digits < 2 ^ 52) }
    ensures { result ≡ min (most_read + 1) (magnitude_of exponent digits) }
{
    if exponent == 0 {
        return nearest_shift(digits * TIMES, SMALLEST);
    }
    if FAR <= exponent {
        return PAST;
    }
    let n = nearest_shift((LEADING + digits) * TIMES, SMALLEST + 1 - exponent);
    PAST.min(n)
}

// 1,000 times a double, exactly from its bits, to the nearest whole number, an exact half to the even one: refused as not finite where the
// double is a NaN or an infinity, and as beyond where the whole number is more than `MOST` either way.
pub fn read(x: f64) -> Result<i64, Refusal>
    ensures { result ≡ reading_of x }
{
    if !x.is_finite() {
        return Err(Refusal::NotFinite);
    }
    let f = fields_of(x);
    let n = magnitude(f.exponent, f.digits);
    if MOST < n {
        return Err(Refusal::Beyond);
    }
    Ok(signed_by(f.negative, n))
}
