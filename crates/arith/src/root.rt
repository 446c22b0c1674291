// The whole root of a number, by Newton's iteration from a guess that is at least the root.
ghost use Rattle.std.specs.Prelude.{◌≡◌, ◌+◌, ◌-◌, ◌*◌, ◌^◌, ◌<◌, ◌≤◌};
ghost use Rattle.arith.specs.Root.{root_of};

// A guess that is at least the root of n and at most 6.1 percent above it: Newton's step from 2 to
// half the number of n's binary digits, by which a division is a shift.
fn first_guess(n: u64) -> u64
    ensures { (result < 2 ^ 32) × (n < (result + 1) * (result + 1)) }
{
    let s = 1u64 << ((64 - n.leading_zeros()) / 2);
    (s + n / s) / 2
}

// The root of n, which is r or the number below it.
fn root_beside(n: u64, r: u64) -> u64
    requires { (0 < r) × (r < 2 ^ 32) × ((r - 1) * (r - 1) ≤ n) × (n < (r + 1) * (r + 1)) }
    ensures { result ≡ root_of n }
{
    if r * r <= n { r } else { r - 1 }
}

// The largest whole number whose square is not above n. From a number that is at least the root,
// Newton's step is at least the root too, and smaller. The search ends as soon as the root is r or the
// number below it: roots up to 20 are found without a step, and so without a division. Only the guess
// of 0 is 0; it begins with 1, so that there is a number below. std's `isqrt` halves an interval 32 times for every root.
pub fn root(n: u64) -> u64
    ensures { result ≡ root_of n }
{
    let mut r = first_guess(n).max(1);
    loop {
        let below = r - 1;
        if below * below <= n {
            break root_beside(n, r);
        }
        r = (r + n / r) / 2;
    }
}
