// The plan of a whole tape, its list, and the run of a trace, for C. Bytes and lists are handed over as a
// pointer and their length.
ghost use Rattle.fullerecru.specs.Plans.{ListLent, PlanLent, ReplayLent};

use crate::numbers::{COUNT, planned_number, put_number};
use display::refusal_number;
use replay::replay;
use tape_rows::list_tape;
use tapeplan::whole::plan_tape;

// Plans a whole tape from rest to rest with the torque steps of `fullerecru_fresh`: the list gets the
// highest lawful profile, one number for each junction, (µm/s)², and is one longer than the tape has
// records. Refuses by 10, 9, 1, 14, each record in turn by 2 to 5 (every mark of a record is in its
// range), then by 11, and then the list stays as it was. The place is that of the record at fault,
// counted from 1, or 0 where no record is at fault.
#[unsafe(no_mangle)]
pub extern "C" fn fullerecru_plan_tape(
    tape: &[u8],
    steps: &[u8],
    list: &mut [u64],
    place: &mut [u64; COUNT],
) -> u64
    ensures { PlanLent tape.now steps.now result list.old list.new place.new }
{
    planned_number(plan_tape(tape, steps, list), place)
}

// Lists a tape that is planned as by `fullerecru_plan_tape`: the list gets `tape_rows::ROW` numbers for each block, in
// order: those of `fullerecru_take`, the greatest squared speed in the block, and the cap of the junction where it begins,
// (µm/s)², 0 for the first. Refuses as `fullerecru_plan_tape`, by 11 where the list has not exactly so many numbers, and then
// the list stays as it was.
#[unsafe(no_mangle)]
pub extern "C" fn fullerecru_list_tape(
    tape: &[u8],
    steps: &[u8],
    list: &mut [u64],
    place: &mut [u64; COUNT],
) -> u64
    ensures { ListLent tape.now steps.now result list.old list.new place.new }
{
    planned_number(list_tape(tape, steps, list), place)
}

// Runs a trace through a fresh planner with the torque steps of `fullerecru_fresh`: the limits as on
// tape, then `replay::CALL_BYTES` a call, words of 32 bits, most significant byte first: kind (0 is a
// take, any other number an add), moves X, Y, Z by two's complement, µm, feed, µm/s, radius, µm, mark.
// `answers` gets `replay::ROW` numbers a call: the number on the display, and of a block given out its
// moves by two's complement of 32 bits and the numbers of `fullerecru_take`, else zeros. `told` gets the
// number of blocks held at the end, and the first numbers of `plan`, one more than that, get the plan,
// (µm/s)². Refuses by 9 (no whole limits, or a cut call), 1, 14, then by 11 where `answers` has not
// `replay::ROW` numbers a call or `plan` not `replay::PLAN`, and then all three lists stay as they were.
#[unsafe(no_mangle)]
pub extern "C" fn fullerecru_replay(
    trace: &[u8],
    steps: &[u8],
    answers: &mut [u64],
    plan: &mut [u64],
    told: &mut [u64; COUNT],
) -> u64
    ensures { ReplayLent trace.now steps.now result answers.old answers.new plan.old plan.new told.old told.new }
{
    match replay(trace, steps, answers, plan) {
        Err(why) => refusal_number(why),
        Ok(held) => {
            put_number(told, held);
            0
        }
    }
}
