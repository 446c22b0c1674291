// Demand 3 of calls that are made: two adds and a take in lent memory, by value and through the
// functions for C, and the plan of a tape. Each is the planner's theorem at the call's own promises.
ghost use Rattle.std.specs.Prelude.{◌∷◌, [], ◌≡◌, ◌+◌, length};
ghost use Rattle.tape.specs.Answers.{tape_refusal};
ghost use Rattle.machine.specs.Labels.{plain_block};
ghost use Rattle.machine.specs.Lists.{limits_from};
ghost use Rattle.machine.specs.Torque.{machine_of, steps_refusal};
ghost use Rattle.tape.specs.Tape.{records_in};
ghost use Rattle.tapeplan.specs.Planned.{TapeDemand3};
ghost use Rattle.fullerecru.specs.Planners as seen;
ghost use Rattle.fullerecru.specs.Planners.{ExportedDemand3};
ghost use Rattle.client.specs.Work.{PairDemand3, pair_calls};

use crate::{Answered, Returned};
use display::RefusedAt;
use fullerecru::planners::{
    fullerecru_add, fullerecru_fresh, fullerecru_shown, fullerecru_take, fullerecru_told,
};
use line::lists::GIVEN;
use machine::blocks::MOVES;
use machine::lists::LIMITS;
use machine::{Block, Limits};
use planner::{NUMBERS, Planner};
use tapeplan::whole::plan_tape;

// In lent memory, whatever it holds.
pub fn in_memory(
    memory: &mut [u64; NUMBERS],
    l: Limits,
    steps: &[u8],
    a: Block,
    b: Block,
    list: &mut [u64],
) -> Answered
    ensures { PairDemand3 l steps.now a b result list.old list.new }
{
    let made = planner::fresh(memory, l, steps);
    let first = planner::add(memory, a);
    let second = planner::add(memory, b);
    let third = planner::take(memory);
    let told = planner::told(memory);
    let shown = planner::shown(memory, list);
    Answered {
        made,
        first,
        second,
        third,
        told,
        shown,
    }
}

// By value.
pub fn by_value(l: Limits, steps: &[u8], a: Block, b: Block, list: &mut [u64]) -> Answered
    ensures { PairDemand3 l steps.now a b result list.old list.new }
{
    let fresh = Planner::fresh(l, steps);
    let one = fresh.planner.add(a);
    let two = one.planner.add(b);
    let out = two.planner.take();
    let told = out.planner.told();
    let shown = out.planner.shown(list);
    Answered {
        made: fresh.answer,
        first: one.answer,
        second: two.answer,
        third: out.answer,
        told,
        shown,
    }
}

// Through the functions for C: a move of x on each axis, twice, marks 0 and 1.
pub fn for_c(
    memory: &mut [u64; NUMBERS],
    limits: &[u64; LIMITS],
    steps: &[u8],
    x: i64,
    feed: u64,
    moves: &mut [i64; MOVES],
    numbers: &mut [u64; GIVEN],
    list: &mut [u64],
) -> Returned
    ensures { result.made ≡ 0 → ExportedDemand3 (machine_of (limits_from limits.now) steps.now) (pair_calls (plain_block x x x feed 0 0) (plain_block x x x feed 0 1)) (seen.added result.first ∷ seen.added result.second ∷ seen.taken result.third moves.old moves.new numbers.old numbers.new ∷ []) result.told list.old result.shown list.new }
{
    let made = fullerecru_fresh(memory, limits, steps);
    let first = fullerecru_add(memory, x, x, x, feed, 0, 0);
    let second = fullerecru_add(memory, x, x, x, feed, 0, 1);
    let third = fullerecru_take(memory, moves, numbers);
    let told = fullerecru_told(memory);
    let shown = fullerecru_shown(memory, list);
    Returned {
        made,
        first,
        second,
        third,
        told,
        shown,
    }
}

// Of a tape that is accepted, with steps that are, in a list one longer than its blocks.
pub fn of_tape(tape: &[u8], steps: &[u8], list: &mut [u64]) -> Result<(), RefusedAt>
    ensures { tape_refusal tape.now ≡ 0 → steps_refusal steps.now ≡ 0 → length list.old ≡ records_in tape.now + 1 → TapeDemand3 tape.now steps.now list.new result }
{
    plan_tape(tape, steps, list)
}
