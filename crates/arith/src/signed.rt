// Leaves on signed numbers: one operation each, so that a proof above speaks of ℤ alone.
ghost use Rattle.std.specs.Prelude.{◌≡◌, ◌+◌, ◌*◌, ◌^◌, ◌<◌, ◌+ℤ◌, ◌-ℤ◌, ◌*ℤ◌, unsigned_abs};
ghost use Rattle.arith.specs.Signed.{gap_of, signed_by};

// The product of two numbers whose magnitudes' product is below 2^63.
pub fn times(x: i64, y: i64) -> i64
    requires { unsigned_abs x * unsigned_abs y < 2 ^ 63 }
    ensures { result ≡ x *ℤ y }
{
    x * y
}

// The sum of two numbers whose magnitudes' sum is below 2^63.
pub fn plus(x: i64, y: i64) -> i64
    requires { unsigned_abs x + unsigned_abs y < 2 ^ 63 }
    ensures { result ≡ x +ℤ y }
{
    x + y
}

// The difference of two numbers whose magnitudes' sum is below 2^63.
pub fn minus(x: i64, y: i64) -> i64
    requires { unsigned_abs x + unsigned_abs y < 2 ^ 63 }
    ensures { result ≡ x -ℤ y }
{
    x - y
}

// The number of a magnitude below 2^63, with its sign.
pub fn signed_by(negative: bool, n: u64) -> i64
    requires { n < 2 ^ 63 }
    ensures { result ≡ signed_by negative n }
{
    if negative {
        return 0 - n as i64;
    }
    n as i64
}

// p minus s, or 0 where s is not below p.
pub fn gap(p: u64, s: i64) -> u64
    requires { p < 2 ^ 63 }
    ensures { result ≡ gap_of p s }
{
    p.saturating_sub_signed(s)
}
