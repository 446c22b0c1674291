// What an order's doubles are read as, and the first of them that is refused.
ghost use Rattle.std.specs.Prelude.{◌≡◌};
ghost use Rattle.display.specs.Display.{checked_means};
ghost use Rattle.host.specs.Fields.{amount_fault, coordinate_fault, coordinate_reading, field_fault, radius_reading, readings_of, speed_reading, target_of};

use crate::orders::{Order, Point, Readings};
use display::Refusal;
use doubles::{difference, read};

// The speed of a rapid, µm/s.
const RAPID: i64 = 1_000_000;

// The point that an order goes to.
fn target(o: Order) -> Point
    ensures { result ≡ target_of o }
{
    match o {
        Order::Rapid(p) => p,
        Order::Feed(p, _) => p,
        Order::CurveChord(p, _, _) => p,
    }
}

// A coordinate: the offset is subtracted in one double operation, and the difference is read.
fn read_coordinate(at: f64, offset: f64) -> Result<i64, Refusal>
    ensures { result ≡ coordinate_reading at offset }
{
    read(difference(at, offset))
}

// The speed of an order.
fn read_speed(o: Order) -> Result<i64, Refusal>
    ensures { result ≡ speed_reading o }
{
    match o {
        Order::Rapid(_) => Ok(RAPID),
        Order::Feed(_, speed) => read(speed),
        Order::CurveChord(_, speed, _) => read(speed),
    }
}

// The radius of an order; 0 for no curve.
fn read_radius(o: Order) -> Result<i64, Refusal>
    ensures { result ≡ radius_reading o }
{
    match o {
        Order::Rapid(_) => Ok(0),
        Order::Feed(_, _) => Ok(0),
        Order::CurveChord(_, _, radius) => read(radius),
    }
}

// All fields of an order.
#[tactic(auto, unfolding(crate::specs::Fields::readings_of))]
pub(crate) fn read_fields(o: Order, offset: Point) -> Readings
    ensures { result ≡ readings_of o offset }
{
    let p = target(o);
    Readings {
        x: read_coordinate(p.x, offset.x),
        y: read_coordinate(p.y, offset.y),
        z: read_coordinate(p.z, offset.z),
        speed: read_speed(o),
        radius: read_radius(o),
    }
}

// A coordinate: 15 or 16.
fn check_coordinate(r: Result<i64, Refusal>) -> Result<(), Refusal>
    ensures { checked_means result ≡ coordinate_fault r }
{
    r.map(|_| ())
}

// A speed or a radius: 15 or 16, and 16 below 0.
fn check_amount(r: Result<i64, Refusal>) -> Result<(), Refusal>
    ensures { checked_means result ≡ amount_fault r }
{
    let n = r?;
    if n < 0 {
        return Err(Refusal::Beyond);
    }
    Ok(())
}

// All fields, in the order X, Y, Z, speed, radius.
#[tactic(auto, unfolding(crate::specs::Fields::field_fault))]
pub(crate) fn check_fields(r: Readings) -> Result<(), Refusal>
    ensures { checked_means result ≡ field_fault r }
{
    check_coordinate(r.x)?;
    check_coordinate(r.y)?;
    check_coordinate(r.z)?;
    check_amount(r.speed)?;
    check_amount(r.radius)
}
