// The worked examples of document 01. Its table stands in specs/ and is proved in proofs/; the code
// has the limits of the machine that they run on.
#![tactic(auto)]

ghost use Rattle.std.specs.Prelude.{◌≡◌};
ghost use Rattle.cases.specs.Shop.{every, limits_m};

use machine::{Axes, Limits};

// The same on every axis.
fn every(n: u64) -> Axes
    ensures { result ≡ every n }
{
    Axes { x: n, y: n, z: n }
}

// The limits of machine M of document 01, "Proof cases".
pub fn limits_m() -> Limits
    ensures { result ≡ limits_m }
{
    Limits {
        accel: every(200_000),
        speed: every(1_000_000),
        jump: 2_000,
        chord: 1,
        tick: 2_000,
    }
}
