// What a host hands over: points and orders in doubles, and what they are read as.
use display::Refusal;
use line::Call;

// A point: a target or a work offset in mm, or the host's own point in µm. Not `machine::Axes`: a type over its number would have
// no function for both.
#[derive(Clone, Copy, Debug, PartialEq)]
pub struct Point {
    pub x: f64,
    pub y: f64,
    pub z: f64,
}

// What a host orders: rapid to a point; feed to a point with a speed in mm/s; curve chord to a point with a speed in mm/s and
// a radius in mm. The point's coordinates are in mm.
#[derive(Clone, Copy, Debug, PartialEq)]
pub enum Order {
    Rapid(Point),
    Feed(Point, f64),
    CurveChord(Point, f64, f64),
}

// An order's doubles times 1,000, each rounded, or why it is refused: the point less the offset, µm, the speed, µm/s, and the
// radius, µm. All five are kept, refused ones too, since the definitions `readings_of` and `field_fault` speak of each.
#[derive(Clone, Copy, Debug, PartialEq, Eq, Hash)]
pub struct Readings {
    pub x: Result<i64, Refusal>,
    pub y: Result<i64, Refusal>,
    pub z: Result<i64, Refusal>,
    pub speed: Result<i64, Refusal>,
    pub radius: Result<i64, Refusal>,
}

// What comes to a planner with a host: an order with the work offset, or a call of the planner itself.
#[derive(Clone, Copy, Debug, PartialEq)]
pub enum Event {
    Order(Order, Point),
    Call(Call),
}
