// Runs a trace, a list of calls of any length, through a planner. What it answers and leaves in the
// lent lists is demand 3 of that list of calls (specs/Replays.antt). A trace is the limits as on
// tape, then `CALL_BYTES` a call: 32-bit words, most significant byte first: kind (0 is a take, any
// other number an add), moves X, Y, Z by two's complement, feed, radius, mark. A take's other words
// play no part.
#![tactic(auto)]

ghost use Rattle.std.specs.Prelude.{◌≡◌, ◌*◌, ◌/◌, length};
ghost use Rattle.display.specs.Display.{outcome_of};
ghost use Rattle.planner.specs.Calls.{Called};
ghost use Rattle.replay.specs.Trace.{call_bytes, read_trace, whole_calls};
ghost use Rattle.replay.specs.Rows.{row_of, row_size};
ghost use Rattle.replay.specs.Replays.{Begun, Replays, plan_size};
ghost use Rattle.replay.specs.Runs.{Ran, ToldPlan};

use calls::{read_call, write_row};
use display::Refusal;
use line::lists::GIVEN;
use machine::Limits;
use machine::blocks::MOVES;
use planner::{NUMBERS, Planner};
use tape::LIMITS_BYTES;
use tape::limits::read_limits;

pub mod calls;

// Bytes of a call.
pub const CALL_BYTES: usize = 28;
// Numbers of an answer's row: the number on the display, and of a block given out its moves X, Y, Z
// by two's complement of 32 bits and its other numbers; else zeros.
pub const ROW: usize = BEFORE_GIVEN + GIVEN;
// Those before the numbers of a block given out.
const BEFORE_GIVEN: usize = 1 + MOVES;
// Numbers of the list for the plan: as many as the longest line has junctions.
pub const PLAN: usize = Planner::PLACES as usize + 1;

// The limits of a trace: 9, then 1.
fn read_head(trace: &[u8]) -> Result<Limits, Refusal>
    ensures { outcome_of result ≡ read_trace trace.now }
{
    if trace.len() < LIMITS_BYTES {
        return Err(Refusal::Ragged);
    }
    if !(trace.len() - LIMITS_BYTES).is_multiple_of(CALL_BYTES) {
        return Err(Refusal::Ragged);
    }
    read_limits(trace)
}

// Runs the calls of bytes with no limits before them, each into its row.
fn run(bytes: &[u8], memory: &mut [u64; NUMBERS], answers: &mut [u64])
    requires { length answers.old ≡ row_size * (length bytes.now / call_bytes) }
    ensures { Ran Called row_of (whole_calls bytes.now) memory.old memory.new answers.new }
{
    let n = bytes.len() / CALL_BYTES;
    // By index, as in `tape_rows`: the facts of a loop over `chunks_exact_mut` do not speak of the list.
    for k in 0..n {
        let first = ROW * k;
        let last = first + ROW;
        let answer = planner::call(memory, read_call(bytes, k));
        write_row(answer, &mut answers[first..last]);
    }
}

// Tells how many blocks are held, and shows the plan in the first numbers of its list, a slice, as `replay` is lent one of any length.
pub fn tell(memory: &[u64; NUMBERS], plan: &mut [u64]) -> u64
    requires { length plan.old ≡ plan_size }
    ensures { ToldPlan memory.now result plan.old plan.new }
{
    let told = planner::told(memory);
    let junctions = told as usize + 1;
    let _ = planner::shown(memory, &mut plan[..junctions]);
    told
}

// Makes a fresh planner of the limits of a trace and the steps that are loaded: 9, 1, then 14.
fn begin(trace: &[u8], steps: &[u8], memory: &mut [u64; NUMBERS]) -> Result<(), Refusal>
    ensures { Begun trace.now steps.now memory.old result memory.new }
{
    let l = read_head(trace)?;
    planner::fresh(memory, l, steps)
}

// Runs a trace with the torque steps that are loaded, eight bytes, or none for the built-in steps: `answers` gets a row for
// each call, the first numbers of `plan` the plan at the end, and the number of blocks held is returned. Checks 9, 1, 14, then
// 11 where a list has not its length: `ROW` numbers a call, `PLAN` for the plan. A refusal changes neither list.
pub fn replay(
    trace: &[u8],
    steps: &[u8],
    answers: &mut [u64],
    plan: &mut [u64],
) -> Result<u64, Refusal>
    ensures { Replays trace.now steps.now answers.old plan.old result answers.new plan.new }
{
    let mut memory = [0u64; NUMBERS];
    begin(trace, steps, &mut memory)?;
    if answers.len() != ROW * ((trace.len() - LIMITS_BYTES) / CALL_BYTES) {
        return Err(Refusal::List);
    }
    if plan.len() != PLAN {
        return Err(Refusal::List);
    }
    run(&trace[LIMITS_BYTES..], &mut memory, answers);
    Ok(tell(&memory, plan))
}
