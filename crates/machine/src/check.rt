// The checks of limits and of a block, in the order of the numbers on the display.
ghost use Rattle.std.specs.Prelude.{◌≡◌};
ghost use Rattle.display.specs.Display.{checked_means};
ghost use Rattle.machine.specs.Checks.{axes_within, block_refusal, greatest_move, limits_refusal, within};

use crate::measure::moves_of;
use crate::{Axes, Block, Limits};
use display::Refusal;

// Smallest and greatest acceleration limit, µm/s².
pub const LEAST_ACCEL: u64 = 1;

pub const MOST_ACCEL: u64 = 20_000_000;
// Smallest and greatest speed limit, µm/s.
pub const LEAST_SPEED: u64 = 1;

pub const MOST_SPEED: u64 = 1_000_000;
// Smallest and greatest corner jump, µm/s.
pub const LEAST_JUMP: u64 = 1;

pub const MOST_JUMP: u64 = 1_000_000;
// Smallest and greatest chord tolerance, µm.
pub const LEAST_CHORD: u64 = 1;

pub const MOST_CHORD: u64 = 1_000;
// Smallest and greatest tick, microseconds.
pub const LEAST_TICK: u64 = 100;

pub const MOST_TICK: u64 = 10_000;
// Greatest move on an axis, µm, either way.
pub const MOST_MOVE: u64 = 1_000_000;
// Smallest and greatest feed, µm/s.
pub const LEAST_FEED: u64 = 1;

pub const MOST_FEED: u64 = 1_000_000;
// Greatest radius, µm.
pub const MOST_RADIUS: u64 = 10_000_000;
// Greatest mark.
pub const MOST_MARK: u64 = 2_097_151;

// Whether a value is from `low` to `high`.
pub(crate) fn is_within(low: u64, high: u64, value: u64) -> bool
    ensures { result ≡ within low high value }
{
    (low..=high).contains(&value)
}

// Whether the three values are from `low` to `high`.
fn are_within(low: u64, high: u64, a: Axes) -> bool
    ensures { result ≡ axes_within low high a }
{
    is_within(low, high, a.x) & is_within(low, high, a.y) & is_within(low, high, a.z)
}

// Refusal 1, or none.
pub fn check_limits(l: Limits) -> Result<(), Refusal>
    ensures { checked_means result ≡ limits_refusal l }
{
    let axes = are_within(LEAST_ACCEL, MOST_ACCEL, l.accel)
        & are_within(LEAST_SPEED, MOST_SPEED, l.speed);
    let rest = is_within(LEAST_JUMP, MOST_JUMP, l.jump)
        & is_within(LEAST_CHORD, MOST_CHORD, l.chord)
        & is_within(LEAST_TICK, MOST_TICK, l.tick);
    if axes & rest {
        Ok(())
    } else {
        Err(Refusal::Limits)
    }
}

// The greatest move on any axis, without its sign, µm.
fn greatest_move(b: Block) -> u64
    ensures { result ≡ greatest_move b }
{
    let m = moves_of(b);
    m.x.max(m.y.max(m.z))
}

// The first of refusals 2 to 6 that a block meets, or none.
pub fn check_block(b: Block) -> Result<(), Refusal>
    ensures { checked_means result ≡ block_refusal b }
{
    let most = greatest_move(b);
    if most == 0 {
        return Err(Refusal::Still);
    }
    if MOST_MOVE < most {
        return Err(Refusal::Long);
    }
    if !is_within(LEAST_FEED, MOST_FEED, b.feed) {
        return Err(Refusal::Feed);
    }
    if MOST_RADIUS < b.radius {
        return Err(Refusal::Radius);
    }
    if MOST_MARK < b.mark {
        return Err(Refusal::Mark);
    }
    Ok(())
}
