// Orders of a host for C, on memory that the caller lends: the planner's, and the numbers that keep the host. A point is `POINT`
// doubles; targets and offsets are in mm.
ghost use Rattle.std.specs.Prelude.{◌≡◌, length};
ghost use Rattle.line.specs.Answers.{answer_by};
ghost use Rattle.host.specs.Calls.{Ordered};
ghost use Rattle.host.specs.State.{fresh_host, host_numbers, host_of, position_of};
ghost use Rattle.host.specs.declared.orders.Order.TheVariants.{Rapid, Feed, CurveChord};
ghost use Rattle.fullerecru.specs.Orders.{coordinates_of, point_from, point_size};

use crate::numbers::done_number;
use host::order;
use host::orders::{Order, Point};

// Coordinates of a point: X, Y, Z.
pub const POINT: usize = 3;

// The point of its coordinates. No `From`: both types are other crates'.
fn point_from(list: &[f64; POINT]) -> Point
    ensures { result ≡ point_from list.now }
{
    Point {
        x: list[0],
        y: list[1],
        z: list[2],
    }
}

// Stores the coordinates of a point.
fn put_point(p: Point, list: &mut [f64; POINT])
    ensures { list.new ≡ coordinates_of p }
{
    *list = [p.x, p.y, p.z];
}

// Makes a fresh host: its point is zero, and no order was accepted.
#[unsafe(no_mangle)]
pub extern "C" fn fullerecru_host_fresh(host: &mut [u64; host::NUMBERS])
    ensures { host.new ≡ host_numbers fresh_host }
{
    host::fresh(host);
}

// Adds a rapid to a point. Refuses by 15 or 16, field by field, then by 2 to 7.
#[unsafe(no_mangle)]
pub extern "C" fn fullerecru_rapid(
    memory: &mut [u64; planner::NUMBERS],
    host: &mut [u64; host::NUMBERS],
    target: &[f64; POINT],
    offset: &[f64; POINT],
) -> u64
    ensures { Ordered memory.old host.old (Rapid (point_from target.now)) (point_from offset.now) (answer_by result) memory.new host.new }
{
    let o = Order::Rapid(point_from(target));
    done_number(order(memory, host, o, point_from(offset)))
}

// Adds a feed to a point with a speed, mm/s. Refuses as a rapid does.
#[unsafe(no_mangle)]
pub extern "C" fn fullerecru_feed(
    memory: &mut [u64; planner::NUMBERS],
    host: &mut [u64; host::NUMBERS],
    target: &[f64; POINT],
    offset: &[f64; POINT],
    speed: f64,
) -> u64
    ensures { Ordered memory.old host.old (Feed (point_from target.now) speed) (point_from offset.now) (answer_by result) memory.new host.new }
{
    let o = Order::Feed(point_from(target), speed);
    done_number(order(memory, host, o, point_from(offset)))
}

// Adds a curve chord to a point with a speed, mm/s, and a radius, mm. Refuses as a rapid does.
#[unsafe(no_mangle)]
pub extern "C" fn fullerecru_curve_chord(
    memory: &mut [u64; planner::NUMBERS],
    host: &mut [u64; host::NUMBERS],
    target: &[f64; POINT],
    offset: &[f64; POINT],
    speed: f64,
    radius: f64,
) -> u64
    ensures { Ordered memory.old host.old (CurveChord (point_from target.now) speed radius) (point_from offset.now) (answer_by result) memory.new host.new }
{
    let o = Order::CurveChord(point_from(target), speed, radius);
    done_number(order(memory, host, o, point_from(offset)))
}

// Stores the host's point, the last accepted order's rounded one, in µm.
#[unsafe(no_mangle)]
pub extern "C" fn fullerecru_position(host: &[u64; host::NUMBERS], point: &mut [f64; POINT])
    ensures { point.new ≡ coordinates_of (position_of (host_of host.now)) }
{
    put_point(host::position(host), point);
}
