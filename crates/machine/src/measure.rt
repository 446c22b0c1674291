// From a block to its numbers: length, block speed, acceleration, reach and block cap. What the limits and the block must be is a
// clause of each function and no type: these functions promise something of plain limits and blocks, by name in docs/PROMISES.
ghost use Rattle.std.specs.Prelude.{◌≡◌, ◌*◌, ◌/◌, ◌^◌, ◌≤◌, ◌<◌, max};
ghost use Rattle.machine.specs.Checks.{block_refusal, moves_of};
ghost use Rattle.machine.specs.Numbers.{AxesBelow, LimitsBelow, axis_limit, block_cap_from, chord_factor, each_axis, gauged_of, length_from, length_of, numbers_of, speed_of};
ghost use Rattle.machine.specs.Ranges.{most_accel, most_feed, most_radius};
ghost use Rattle.machine.specs.Torque.{torque_percent};

use crate::check::MOST_ACCEL;
use crate::torque::torque_percent;
use crate::{Axes, Block, Gauged, Limits, Machine, Numbers};
use arith::quotient::capped_quotient;
use arith::root::root;

// Parts of a µm in which a length is counted.
pub const UNIT: u64 = 1;

// The moves of a block without their signs, µm.
pub fn moves_of(b: Block) -> Axes
    ensures { result ≡ moves_of b }
{
    Axes {
        x: b.x.unsigned_abs(),
        y: b.y.unsigned_abs(),
        z: b.z.unsigned_abs(),
    }
}

// Length: the root of the sum of the squared moves, µm.
fn length_of(m: Axes) -> u64
    requires { AxesBelow (2 ^ 20) m }
    ensures { result ≡ length_from m }
{
    root(UNIT * UNIT * (m.x * m.x + m.y * m.y + m.z * m.z))
}

// The largest number up to `cap` with number × move ≤ limit × length on one axis, along which the
// block moves `along` µm. The division is made only where the cap is too much.
fn axis_limit(cap: u64, limit: u64, length: u64, along: u64) -> u64
    requires { (cap < 2 ^ 32) × (limit < 2 ^ 32) × (length < 2 ^ 32) × (along < 2 ^ 20) }
    ensures { result ≡ axis_limit cap limit length along }
{
    let most = limit * length;
    let part = UNIT * along;
    if cap * part <= most {
        return cap;
    }
    most / part
}

// The same on every axis.
fn each_axis(cap: u64, limits: Axes, length: u64, m: Axes) -> u64
    requires { (cap < 2 ^ 32) × (length < 2 ^ 32) × AxesBelow (2 ^ 32) limits × AxesBelow (2 ^ 20) m }
    ensures { result ≡ each_axis cap limits length m }
{
    let x = axis_limit(cap, limits.x, length, m.x);
    let y = axis_limit(x, limits.y, length, m.y);
    axis_limit(y, limits.z, length, m.z)
}

// The acceleration after the torque steps, µm/s².
fn accel_of(most: u64, torque: u64, speed: u64) -> u64
    requires { (most ≤ 2 * most_accel) × (speed ≤ most_feed) }
    ensures { (result ≡ max 1 (most * torque_percent torque speed / 100)) × (result < 2 ^ 27) }
{
    (most * torque_percent(torque, speed) / 100).max(1)
}

// The chord rule's factor of 10^12, µm²: 8 × e × R - 4 × e × e, e the smaller of E and R.
fn chord_factor(l: Limits, radius: u64) -> u64
    requires { radius ≤ most_radius }
    ensures { result ≡ chord_factor l radius }
{
    let e = l.chord.min(radius);
    8 * e * radius - 4 * e * e
}

// The block cap, (µm/s)².
fn block_cap(l: Limits, radius: u64, speed: u64) -> u64
    requires { LimitsBelow l × (radius ≤ most_radius) × (speed ≤ most_feed) }
    ensures { result ≡ block_cap_from l radius speed }
{
    let square = speed * speed;
    if radius == 0 {
        return square;
    }
    capped_quotient(
        square,
        chord_factor(l, radius),
        1_000_000_000_000,
        l.tick * l.tick,
    )
}

// The block speed of a block that passes 2 to 6 and has this length, µm/s.
pub fn speed_of(l: Limits, b: Block, length: u64) -> u64
    requires { LimitsBelow l × (block_refusal b ≡ 0) × (length ≡ length_of b) }
    ensures { result ≡ speed_of l b }
{
    each_axis(b.feed, l.speed, length, moves_of(b))
}

// All numbers of a block that passes 2 to 6, and the square of its speed.
pub fn gauge(m: Machine, b: Block) -> Gauged
    requires { LimitsBelow m.limits × (block_refusal b ≡ 0) }
    ensures { result ≡ gauged_of m b }
{
    let l = m.limits;
    let moves = moves_of(b);
    let length = length_of(moves);
    let speed = speed_of(l, b, length);
    let most = each_axis(2 * MOST_ACCEL, l.accel, length, moves);
    let accel = accel_of(most, m.torque, speed);
    Gauged {
        square: speed * speed,
        numbers: Numbers {
            length,
            accel,
            reach: 2 * accel * length / UNIT,
            cap: block_cap(l, b.radius, speed),
        },
    }
}

// The numbers alone.
pub fn numbers(m: Machine, b: Block) -> Numbers
    requires { LimitsBelow m.limits × (block_refusal b ≡ 0) }
    ensures { result ≡ numbers_of m b }
{
    gauge(m, b).numbers
}
