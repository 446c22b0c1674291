// Orders from a CAM host in doubles: rapid, feed and curve chord to a point, each the add of a block to a planner. The host's
// state, the last accepted order's rounded point and how many orders were accepted, is in `NUMBERS` numbers that the caller
// lends. Every content of them is answered: nothing is required of it. What the calls answer and leave is in
// specs/Calls.antt.
#![tactic(auto)]

ghost use Rattle.std.specs.Prelude.{◌≡◌};
ghost use Rattle.line.specs.Answers.{answer_means, done_means};
ghost use Rattle.host.specs.Calls.{Ordered};
ghost use Rattle.host.specs.Events.{EventDone};
ghost use Rattle.host.specs.State.{fresh_host, host_numbers, host_of, position_of};

use display::Refusal;
use line::Given;
use orders::{Event, Order, Point};
use reading::{check_fields, read_fields};
use state::{add_read, coordinate_double};

pub mod orders;
mod reading;
mod state;

// Numbers of a host's state: X, Y and Z of the point, µm, 32 bits by two's complement, and the number of orders accepted, of
// which the 32 low bits count.
pub const NUMBERS: usize = 4;

// Makes a fresh host: its point is zero, and no order was accepted.
pub fn fresh(host: &mut [u64; NUMBERS])
    ensures { host.new ≡ host_numbers fresh_host }
{
    *host = [0; NUMBERS];
}

// The host's point, the last accepted order's rounded one, µm.
pub fn position(host: &[u64; NUMBERS]) -> Point
    ensures { result ≡ position_of (host_of host.now) }
{
    Point {
        x: coordinate_double(host[0]),
        y: coordinate_double(host[1]),
        z: coordinate_double(host[2]),
    }
}

// Memory and host are two lists, as C lends them.

// Carries out an order with its work offset: the add of its block. Refuses by 15 or 16, field by field in the order X, Y, Z,
// speed, radius, then by 2 to 7. A refusal changes nothing.
pub fn order(
    memory: &mut [u64; planner::NUMBERS],
    host: &mut [u64; NUMBERS],
    o: Order,
    offset: Point,
) -> Result<(), Refusal>
    ensures { Ordered memory.old host.old o offset (done_means result) memory.new host.new }
{
    let fields = read_fields(o, offset);
    check_fields(fields)?;
    add_read(memory, host, fields)
}

// An order, an add or a take, as a value.
pub fn event(
    memory: &mut [u64; planner::NUMBERS],
    host: &mut [u64; NUMBERS],
    e: Event,
) -> Result<Option<Given>, Refusal>
    ensures { EventDone (record { memory = memory.old; host = host.old }) e (answer_means result) (record { memory = memory.new; host = host.new }) }
{
    match e {
        Event::Order(o, offset) => {
            order(memory, host, o, offset)?;
            Ok(None)
        }
        Event::Call(c) => planner::call(memory, c),
    }
}
