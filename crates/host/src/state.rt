// The host's four numbers: the block of an order from the host's point, and the point behind an order that was accepted.
ghost use Rattle.std.specs.Prelude.{◌≡◌, ◌≤◌, nat_abs, ◌-ℤ◌, length};
ghost use Rattle.std.specs.Float.{binary64};
ghost use Rattle.std.specs.Float.Ieee.{of_int};
ghost use Rattle.arith.specs.Signed.{or_zero};
ghost use Rattle.doubles.specs.Readings.{most_read};
ghost use Rattle.fields.specs.Signed.{bits_of};
ghost use Rattle.line.specs.Answers.{done_means};
ghost use Rattle.host.specs.Calls.{Added};
ghost use Rattle.host.specs.Fields.{Within, value_of};
ghost use Rattle.host.specs.State.{block_of, coordinate_of, host_behind, host_bits, host_numbers, host_of, host_size, orders_of};

use crate::NUMBERS;
use crate::orders::Readings;
use arith::signed::minus;
use display::Refusal;
use doubles::whole;
use fields::{to_bits, to_signed};
use machine::Block;
use machine::blocks::plain_block;

// Bits of each number that count.
const BITS: usize = 32;
// 2 to that power.
const COUNTED: u64 = 4_294_967_296;

// A coordinate of the host's point, µm.
fn coordinate_of(number: u64) -> i64
    ensures { result ≡ coordinate_of number }
{
    to_signed(number, BITS)
}

// The same as a double.
pub(crate) fn coordinate_double(number: u64) -> f64
    ensures { result ≡ of_int binary64 (coordinate_of number) }
{
    whole(coordinate_of(number))
}

// How many orders were accepted.
fn orders_of(number: u64) -> u64
    ensures { result ≡ orders_of number }
{
    number % COUNTED
}

// The whole number that was read; 0 where none was.
fn value(r: Result<i64, Refusal>) -> i64
    ensures { result ≡ value_of r }
{
    r.unwrap_or(0)
}

// The same of a speed or a radius, which is not below 0.
fn amount(r: Result<i64, Refusal>) -> u64
    ensures { result ≡ or_zero (value_of r) }
{
    value(r).max(0).unsigned_abs()
}

// The move on an axis, from the host's coordinate to the one that was read, µm.
fn move_to(r: Result<i64, Refusal>, number: u64) -> i64
    requires { nat_abs (value_of r) ≤ most_read }
    ensures { result ≡ value_of r -ℤ coordinate_of number }
{
    minus(value(r), coordinate_of(number))
}

// The number that keeps a coordinate.
fn number_for(r: Result<i64, Refusal>) -> u64
    ensures { result ≡ bits_of host_bits (value_of r) }
{
    to_bits(value(r), BITS)
}

// The block of an order: from the host's point to the order's, with the order's place from 1 as its mark.
fn block_of(host: &[u64; NUMBERS], r: Readings) -> Block
    requires { Within r }
    ensures { result ≡ block_of (host_of host.now) r }
{
    plain_block(
        move_to(r.x, host[0]),
        move_to(r.y, host[1]),
        move_to(r.z, host[2]),
        amount(r.speed),
        amount(r.radius),
        orders_of(host[3]) + 1,
    )
}

// Keeps an order that was accepted: its point, and one order more.
fn keep(host: &mut [u64; NUMBERS], r: Readings)
    ensures { host.new ≡ host_numbers (host_behind (host_of host.old) r) }
{
    let orders = orders_of(host[3]) + 1;
    *host = [number_for(r.x), number_for(r.y), number_for(r.z), orders];
}

// Adds the block of an order whose fields passed.
pub(crate) fn add_read(
    memory: &mut [u64; planner::NUMBERS],
    host: &mut [u64; NUMBERS],
    r: Readings,
) -> Result<(), Refusal>
    requires { Within r }
    ensures { Added memory.old host.old r (done_means result) memory.new host.new }
{
    planner::add(memory, block_of(host, r))?;
    keep(host, r);
    Ok(())
}
