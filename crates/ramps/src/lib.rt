// A block given out with its ramp between its entry and exit squared speeds, and the peak alone.
#![tactic(auto)]

ghost use Rattle.std.specs.Prelude.{◌≡◌, ◌^◌, ◌<◌};
ghost use Rattle.machine.specs.Numbers.{Rampable, peak_of, ramp_of, rampable, sized};
ghost use Rattle.line.specs.Answers.{given_between, ramp_between};

use line::Given;
use machine::measure::UNIT;
use machine::{Block, Numbers, Ramp};

// The peak of a block with these numbers between two squared speeds of a plan, (µm/s)². Numbers and speeds are three values, here and
// below: the numbers are a block's, the speeds a plan's.
pub fn peak_of(n: Numbers, entry: u64, exit: u64) -> u64
    requires { (n.reach < 2 ^ 62) × (entry < 2 ^ 62) × (exit < 2 ^ 62) }
    ensures { result ≡ peak_of n.cap n.reach entry exit }
{
    n.cap.min((n.reach + entry + exit) / 2)
}

// The ramp. Only a plan's speeds meet what is required of entry and exit. Half of the divisor, or one less, is added before a
// division: so up is the nearest with an exact half down, and down the nearest with an exact half up.
fn ramp(n: Numbers, entry: u64, exit: u64) -> Ramp
    requires { Rampable n entry exit }
    ensures { result ≡ ramp_of n entry exit }
{
    let peak = peak_of(n, entry, exit);
    let accel = n.accel;
    let up = (UNIT * (peak - entry) + accel - 1) / (2 * accel);
    let down = (UNIT * (peak - exit) + accel) / (2 * accel);
    Ramp {
        peak,
        up,
        cruise: n.length.saturating_sub(up).saturating_sub(down),
        down,
    }
}

// Whether acceleration, cap and reach are those of a block, and the speeds are under the cap.
fn is_sized(n: Numbers, entry: u64, exit: u64) -> bool
    ensures { result ≡ sized n entry exit }
{
    let accel = (0 < n.accel) & (n.accel < 0x1_0000_0000);
    let room = (n.cap < 0x4_0000_0000_0000) & (n.reach < 0x4000_0000_0000_0000);
    let capped = (entry <= n.cap) & (exit <= n.cap);
    (accel & room) & capped
}

// Whether a plan can have these squared speeds, (µm/s)², at the block's ends: sized, and each within the reach of the other. It
// is one test, with no branch on the size, since only sums of numbers that are not sized wrap.
fn is_rampable(n: Numbers, entry: u64, exit: u64) -> bool
    ensures { result ≡ rampable n entry exit }
{
    let falls = entry <= exit.wrapping_add(n.reach);
    let rises = exit <= entry.wrapping_add(n.reach);
    is_sized(n, entry, exit) & (falls & rises)
}

// The ramp between two squared speeds, (µm/s)²; zeros for speeds that no plan has at a block's ends. This is the one door to a
// ramp, for the crates that take both speeds from a plan: `planner` and `tape_rows`, by `given_between`, `listing` and `report`. A
// crate that does not list `ramps` in crates.txt cannot name it, so it cannot make a ramp; that no other crate lists it is tested
// (tests/run).
pub fn ramp_between(n: Numbers, entry: u64, exit: u64) -> Ramp
    ensures { result ≡ ramp_between n entry exit }
{
    if is_rampable(n, entry, exit) {
        return ramp(n, entry, exit);
    }
    Ramp::default()
}

// A block given out, from its numbers and the entry and exit that a plan has at its ends, (µm/s)².
pub fn given_between(b: Block, n: Numbers, entry: u64, exit: u64) -> Given
    ensures { result ≡ given_between b n entry exit }
{
    Given {
        block: b,
        length: n.length,
        accel: n.accel,
        entry,
        exit,
        ramp: ramp_between(n, entry, exit),
    }
}
