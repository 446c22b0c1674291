// Arithmetic for C, so that the comparison and the bench can call it with every number: a block's squared moves add up to
// few of them. It is no part of the library.
#![tactic(auto)]

ghost use Rattle.std.specs.Prelude.{◌≡◌};
ghost use Rattle.arith.specs.Root.{root_of};

use arith::root::root;

// The largest whole number whose square is not above n.
#[unsafe(no_mangle)]
pub extern "C" fn arith_root(n: u64) -> u64
    ensures { result ≡ root_of n }
{
    root(n)
}
