// A client of the planner: worked results of document 01, each shown from the planner's promises alone, and
// demand 3 of calls that it makes.
#![tactic(auto)]

ghost use Rattle.std.specs.Prelude.{true, ◌≡◌};
ghost use Rattle.client.specs.Work.{Gives, Ramps, block_of};

use cases::limits_m;
use display::Refusal;
use line::Given;
use line::lists::GIVEN;
use machine::blocks::{MOVES, plain_block};
use machine::{Block, Ramp};
use planner::{NUMBERS, Planner};

mod demands;
mod hosted;

// What a fresh planner, two adds, a take, told and shown answered.
#[derive(Clone, Copy, Debug, PartialEq, Eq, Hash)]
pub struct Answered {
    pub made: Result<(), Refusal>,
    pub first: Result<(), Refusal>,
    pub second: Result<(), Refusal>,
    pub third: Result<Given, Refusal>,
    pub told: u64,
    pub shown: Result<(), Refusal>,
}

// The same as numbers on the display, from the functions for C, which return no `Result`.
#[derive(Clone, Copy, Debug, PartialEq, Eq, Hash)]
pub struct Returned {
    pub made: u64,
    pub first: u64,
    pub second: u64,
    pub third: u64,
    pub told: u64,
    pub shown: u64,
}

// A block of feed 20,000 µm/s along X and Y, µm.
fn block(x: i64, y: i64, mark: u64) -> Block
    ensures { result ≡ block_of x y mark }
{
    plain_block(x, y, 0, 20_000, 0, mark)
}

// The ramp of a block of the right-angle pair, with the lengths of speeding up and of braking, µm.
fn expect_ramp(ramp: Ramp, up: u64, down: u64)
    requires { Ramps ramp up down }
{
    check::expect(ramp.peak == 201_000_000);
    check::expect(ramp.up == up);
    check::expect(ramp.cruise == 0);
    check::expect(ramp.down == down);
}

// A block of the pair given out with a mark, entry and exit, (µm/s)², and its ramp.
fn expect_given(g: Given, mark: u64, entry: u64, exit: u64, up: u64, down: u64)
    requires { Gives g mark entry exit up down }
{
    check::expect(g.block.mark == mark);
    check::expect(g.length == 1_000);
    check::expect(g.accel == 200_000);
    check::expect(g.entry == entry);
    check::expect(g.exit == exit);
    expect_ramp(g.ramp, up, down);
}

// Two blocks straight on: the plan is 0, 400,000,000, 0.
fn two_blocks() {
    let made = Planner::fresh(limits_m(), b"");
    let one = made.planner.add(block(1_000, 0, 0));
    let two = one.planner.add(block(1_000, 0, 0));
    let mut list = [7u64; 3];
    let _ = two.planner.shown(&mut list);
    check::expect(list[0] == 0);
    check::expect(list[1] == 400_000_000);
    check::expect(list[2] == 0);
}

// The right-angle pair, marks 7 and 8: each block is given out with its speeds and its ramp.
fn right_angle() {
    let made = Planner::fresh(limits_m(), b"");
    let one = made.planner.add(block(1_000, 0, 7));
    let two = one.planner.add(block(0, 1_000, 8));
    let first = two.planner.take();
    let second = first.planner.take();
    match first.answer {
        Ok(g) => expect_given(g, 7, 0, 2_000_000, 502, 498),
        Err(_) => check::expect(false),
    }
    match second.answer {
        Ok(g) => expect_given(g, 8, 2_000_000, 0, 497, 503),
        Err(_) => check::expect(false),
    }
}

// A block that does not move is refused, and the number told stays as it was.
fn refused_still() {
    let made = Planner::fresh(limits_m(), b"");
    let one = made.planner.add(block(1_000, 0, 0));
    let none = one.planner.add(block(0, 0, 0));
    match none.answer {
        Ok(()) => check::expect(false),
        Err(why) => check::expect(display::refusal_number(why) == 2),
    }
    check::expect(none.planner.told() == 1);
}

// An add to any planner in lent memory. Returns whether it was refused: then every number of the
// memory is as it was.
fn was_refused(memory: &mut [u64; NUMBERS], b: Block) -> bool
    ensures { result ≡ true → memory.new ≡ memory.old }
{
    planner::add(memory, b).is_err()
}

// A list as long as the blocks is one too short: 11, and it holds what it held.
fn short_list() {
    let made = Planner::fresh(limits_m(), b"");
    let one = made.planner.add(block(1_000, 0, 0));
    let mut list = [7u64; 1];
    match one.planner.shown(&mut list) {
        Ok(()) => check::expect(false),
        Err(why) => check::expect(display::refusal_number(why) == 11),
    }
    check::expect(list[0] == 7);
}

// The calls of `demands`, made once each; what they promise is their contracts.
fn demanded(memory: &mut [u64; NUMBERS]) {
    let steps = [100u8, 90, 80, 70, 60, 50, 40, 30];
    let mut list = [7u64; 2];
    demands::in_memory(
        memory,
        limits_m(),
        &steps,
        block(1_000, 0, 7),
        block(0, 1_000, 8),
        &mut list,
    );
    demands::by_value(
        limits_m(),
        &steps,
        block(1_000, 0, 7),
        block(0, 1_000, 8),
        &mut list,
    );
    let _ = demands::of_tape(b"", &steps, &mut list);
    demanded_for_c(memory, &steps, &mut list);
}

// The same through the functions for C.
fn demanded_for_c(memory: &mut [u64; NUMBERS], steps: &[u8], list: &mut [u64]) {
    let limits = [
        200_000u64, 200_000, 200_000, 1_000_000, 1_000_000, 1_000_000, 2_000, 1, 2_000,
    ];
    let mut moves = [0i64; MOVES];
    let mut numbers = [0u64; GIVEN];
    demands::for_c(
        memory,
        &limits,
        steps,
        1_000,
        20_000,
        &mut moves,
        &mut numbers,
        list,
    );
}

fn main() {
    two_blocks();
    right_angle();
    refused_still();
    short_list();
    hosted::one_rapid();
    let mut memory = [7u64; NUMBERS];
    was_refused(&mut memory, block(0, 0, 0));
    demanded(&mut memory);
}
