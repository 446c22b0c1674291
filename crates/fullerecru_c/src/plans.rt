// The plan of a whole tape, its list, and the run of a trace: `fullerecru::plans` for C.
ghost use Rattle.fullerecru.specs.Plans.{ListLent, PlanLent, ReplayLent};

use fullerecru::{COUNT, plans};

// Plans a whole tape from rest to rest with the torque steps of `fullerecru_fresh`.
#[unsafe(no_mangle)]
pub extern "C" fn fullerecru_plan_tape(
    tape: &[u8],
    steps: &[u8],
    list: &mut [u64],
    place: &mut [u64; COUNT],
) -> u64
    ensures { PlanLent tape.now steps.now result list.old list.new place.new }
{
    plans::fullerecru_plan_tape(tape, steps, list, place)
}

// Lists a tape that is planned as by `fullerecru_plan_tape`.
#[unsafe(no_mangle)]
pub extern "C" fn fullerecru_list_tape(
    tape: &[u8],
    steps: &[u8],
    list: &mut [u64],
    place: &mut [u64; COUNT],
) -> u64
    ensures { ListLent tape.now steps.now result list.old list.new place.new }
{
    plans::fullerecru_list_tape(tape, steps, list, place)
}

// Runs a trace through a fresh planner with the torque steps of `fullerecru_fresh`.
#[unsafe(no_mangle)]
pub extern "C" fn fullerecru_replay(
    trace: &[u8],
    steps: &[u8],
    answers: &mut [u64],
    plan: &mut [u64],
    told: &mut [u64; COUNT],
) -> u64
    ensures { ReplayLent trace.now steps.now result answers.old answers.new plan.old plan.new told.old told.new }
{
    plans::fullerecru_replay(trace, steps, answers, plan, told)
}
