// One event read from its bytes: a host's order, or a take.
ghost use Rattle.std.specs.Prelude.{◌≡◌, ◌+◌, ◌*◌, ◌<◌, ◌≤◌, length};
ghost use Rattle.order_text.specs.Orders.{double_in, event_bytes, event_doubles, event_in, event_of, order_of, point_in};

use crate::EVENT_BYTES;
use doubles::double_of;
use fields::{read_field, read_word};
use host::orders::{Event, Order, Point};
use line::Call;

// The bytes of an event are a part of the list that is lent, so they are a slice with its length in a clause: as an array they would
// come out of `first_chunk` as an Option, whose None each call would have to exclude by the same clause.

// Bits of the kind, and the bytes before the first double.
const WORD: usize = 32;

const KIND: usize = 4;
// Places of the doubles: target, offset, speed, radius.
const TARGET: usize = 0;

const OFFSET: usize = 3;

const SPEED: usize = 6;

const RADIUS: usize = 7;

// Double i of an event's bytes.
fn double_in(bytes: &[u8], i: usize) -> f64
    requires { (length bytes.now ≡ event_bytes) × (i < event_doubles) }
    ensures { result ≡ double_in bytes.now i }
{
    double_of(read_word(bytes, KIND + 8 * i))
}

// The point of three doubles, from double i on.
fn point_in(bytes: &[u8], i: usize) -> Point
    requires { (length bytes.now ≡ event_bytes) × (i + 2 < event_doubles) }
    ensures { result ≡ point_in bytes.now i }
{
    Point {
        x: double_in(bytes, i),
        y: double_in(bytes, i + 1),
        z: double_in(bytes, i + 2),
    }
}

// The order of a kind above 0: 1 is a rapid, 2 a feed, any other a curve chord. The numbers are the format's.
fn order_of(kind: u64, bytes: &[u8]) -> Order
    requires { length bytes.now ≡ event_bytes }
    ensures { result ≡ order_of kind bytes.now }
{
    let target = point_in(bytes, TARGET);
    match kind {
        1 => Order::Rapid(target),
        2 => Order::Feed(target, double_in(bytes, SPEED)),
        _ => Order::CurveChord(target, double_in(bytes, SPEED), double_in(bytes, RADIUS)),
    }
}

// The event that its bytes say: kind 0 is a take, any other number an order.
fn event_of(bytes: &[u8]) -> Event
    requires { length bytes.now ≡ event_bytes }
    ensures { result ≡ event_of bytes.now }
{
    match read_field(bytes, 0, WORD) {
        0 => Event::Call(Call::Take),
        kind => Event::Order(order_of(kind, bytes), point_in(bytes, OFFSET)),
    }
}

// Event k of bytes with no limits before them, k counted from 0.
pub(crate) fn read_event(bytes: &[u8], k: usize) -> Event
    requires { event_bytes * (k + 1) ≤ length bytes.now }
    ensures { result ≡ event_in bytes.now k }
{
    let from = EVENT_BYTES * k;
    event_of(&bytes[from..from + EVENT_BYTES])
}
