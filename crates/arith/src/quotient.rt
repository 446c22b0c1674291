// The quotient of a product of two u64 by a u64, up to a cap. The product can pass 64 bits; it is
// held as two words and divided by long division with digits of 32 bits. A division of u128 would be
// a call out of the library that C links.
ghost use Rattle.std.specs.Prelude.{◌≡◌, ◌+◌, ◌*◌, ◌/◌, ◌%◌, ◌^◌, ◌<◌, ◌≤◌};
ghost use Rattle.arith.specs.Quotient.{capped_quotient};

// The base of the digits.
const BASE: u64 = 0x1_0000_0000;

// A number of two words: high × 2^64 + low.
#[derive(Clone, Copy, Debug, PartialEq, Eq, Hash)]
pub struct Words {
    pub high: u64,
    pub low: u64,
}

// The whole product of two numbers.
pub fn product(a: u64, b: u64) -> Words
    ensures { result.high * 2 ^ 64 + result.low ≡ a * b }
{
    let n = a as u128 * b as u128;
    Words {
        high: (n >> 64) as u64,
        low: (n % 0x1_0000_0000_0000_0000) as u64,
    }
}

// One digit of a long division: (high × 2^32 + low) / d, for high below d. The digit is tried from
// the leading half of d, which gives too much at most, and lowered until it is right: how far is not
// known before, so no range counts it. That high is below d is a clause here and of the next two
// functions; a type of three numbers for it would be taken apart in each.
fn digit(high: u64, low: u64, d: u64) -> u64
    requires { (2 ^ 32 ≤ d) × (high < d) × (low < 2 ^ 32) }
    ensures { result ≡ (high * 2 ^ 32 + low) / d }
{
    let mut q = (high / (d / BASE)).min(BASE - 1);
    loop {
        let left = high - q * (d / BASE);
        if BASE <= left {
            break q;
        }
        if q * (d % BASE) <= left * BASE + low {
            break q;
        }
        q -= 1;
    }
}

// What that digit q leaves: (high × 2^32 + low) - q × d.
fn remainder(high: u64, low: u64, d: u64, q: u64) -> u64
    requires { (high < d) × (low < 2 ^ 32) × (q ≡ (high * 2 ^ 32 + low) / d) }
    ensures { result ≡ (high * 2 ^ 32 + low) % d }
{
    let left = high - q * (d / BASE);
    (left % BASE * BASE + low).wrapping_sub(q * (d % BASE))
}

// The quotient of two words by d, where it fits one word. Both are first multiplied by the power
// of two that brings d's leading bit to the front, so that a digit is lowered twice at most.
fn quotient(high: u64, low: u64, d: u64) -> u64
    requires { high < d }
    ensures { result ≡ (high * 2 ^ 64 + low) / d }
{
    let shift = d.leading_zeros();
    let divisor = d << shift;
    let top = (high << shift) + (low / 2 >> (63 - shift));
    let rest = low << shift;
    let first = digit(top, rest / BASE, divisor);
    let second = remainder(top, rest / BASE, divisor, first);
    first * BASE + digit(second, rest % BASE, divisor)
}

// The largest q not above `cap` with q × d not above a × b; the cap where d is 0.
pub fn capped_quotient(cap: u64, a: u64, b: u64, d: u64) -> u64
    ensures { result ≡ capped_quotient cap (a * b) d }
{
    let Words { high, low } = product(a, b);
    if d <= high {
        return cap;
    }
    if high == 0 {
        return cap.min(low / d);
    }
    cap.min(quotient(high, low, d))
}
