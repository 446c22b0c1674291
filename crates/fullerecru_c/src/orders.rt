// A host's orders: `fullerecru::orders` for C.
ghost use Rattle.std.specs.Prelude.{◌≡◌};
ghost use Rattle.line.specs.Answers.{answer_by};
ghost use Rattle.host.specs.Calls.{Ordered};
ghost use Rattle.host.specs.State.{fresh_host, host_numbers, host_of, position_of};
ghost use Rattle.host.specs.declared.orders.Order.TheVariants.{Rapid, Feed, CurveChord};
ghost use Rattle.fullerecru.specs.Orders.{coordinates_of, point_from};

use fullerecru::orders;
use fullerecru::orders::POINT;

// Makes a fresh host.
#[unsafe(no_mangle)]
pub extern "C" fn fullerecru_host_fresh(host: &mut [u64; host::NUMBERS])
    ensures { host.new ≡ host_numbers fresh_host }
{
    orders::fullerecru_host_fresh(host);
}

// Adds a rapid to a point.
#[unsafe(no_mangle)]
pub extern "C" fn fullerecru_rapid(
    memory: &mut [u64; planner::NUMBERS],
    host: &mut [u64; host::NUMBERS],
    target: &[f64; POINT],
    offset: &[f64; POINT],
) -> u64
    ensures { Ordered memory.old host.old (Rapid (point_from target.now)) (point_from offset.now) (answer_by result) memory.new host.new }
{
    orders::fullerecru_rapid(memory, host, target, offset)
}

// Adds a feed to a point with a speed, mm/s.
#[unsafe(no_mangle)]
pub extern "C" fn fullerecru_feed(
    memory: &mut [u64; planner::NUMBERS],
    host: &mut [u64; host::NUMBERS],
    target: &[f64; POINT],
    offset: &[f64; POINT],
    speed: f64,
) -> u64
    ensures { Ordered memory.old host.old (Feed (point_from target.now) speed) (point_from offset.now) (answer_by result) memory.new host.new }
{
    orders::fullerecru_feed(memory, host, target, offset, speed)
}

// Adds a curve chord to a point with a speed, mm/s, and a radius, mm.
#[unsafe(no_mangle)]
pub extern "C" fn fullerecru_curve_chord(
    memory: &mut [u64; planner::NUMBERS],
    host: &mut [u64; host::NUMBERS],
    target: &[f64; POINT],
    offset: &[f64; POINT],
    speed: f64,
    radius: f64,
) -> u64
    ensures { Ordered memory.old host.old (CurveChord (point_from target.now) speed radius) (point_from offset.now) (answer_by result) memory.new host.new }
{
    orders::fullerecru_curve_chord(memory, host, target, offset, speed, radius)
}

// Stores the host's point, the last accepted order's rounded one, in µm.
#[unsafe(no_mangle)]
pub extern "C" fn fullerecru_position(host: &[u64; host::NUMBERS], point: &mut [f64; POINT])
    ensures { point.new ≡ coordinates_of (position_of (host_of host.now)) }
{
    orders::fullerecru_position(host, point);
}
