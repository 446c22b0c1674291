// The text of calls that are run through a planner: a line for each call, and the two closing lines,
// stored in bytes that the caller lends. A trace of any length is run chunk by chunk in one such list.
#![tactic(auto)]

ghost use Rattle.std.specs.Prelude.{◌≡◌, ◌+◌, ◌/◌, ◌<◌, ◌≤◌, min, length};
ghost use Rattle.line.specs.Answers.{answer_means};
ghost use Rattle.given_text.specs.Given.{WroteLine};
ghost use Rattle.replay.specs.Replays.{plan_size};
ghost use Rattle.replay_text.specs.Chunks.{chunk_calls, line_bytes};
ghost use Rattle.replay_text.specs.Texts.{answer_text, recorded_calls};
ghost use Rattle.replay_text.specs.Runs.{Closed, Ended, RanText};

use display::{Refusal, refusal_number};
use given_text::store_given;
use line::Given;
use planner::NUMBERS;
use replay::calls::read_call;
use replay::{CALL_BYTES, PLAN};
use text::behind;

// Calls of a chunk that are run at most.
pub const CALLS: usize = 300;
// Bytes of the list for the text: room for the lines of `CALLS` calls. The closing lines, stored from
// the first byte on as well, take fewer.
pub const TEXT: usize = 65_536;

// Stores the line of an answer. In two matches: of one nested pattern no proof was found that the answer is that case.
pub fn write_answer(answer: Result<Option<Given>, Refusal>, text: &mut [u8], at: usize) -> usize
    requires { at + line_bytes ≤ length text.old }
    ensures { WroteLine (answer_text (answer_means answer)) text.old at result text.new }
{
    match answer {
        Ok(given) => match given {
            None => behind(text::put_added(text, at), at),
            Some(g) => store_given(text, at, g),
        },
        Err(why) => behind(text::put_refused(text, at, refusal_number(why)), at),
    }
}

// How many records of `size` bytes of a chunk are run: the whole ones, at most so many.
pub fn records_of(bytes: &[u8], size: usize, most: usize) -> usize
    requires { 0 < size }
    ensures { result ≡ min (length bytes.now / size) most }
{
    (bytes.len() / size).min(most)
}

// Runs the calls of a chunk in turn, and stores their lines from the first byte on, each behind the one before it. Returns how many
// bytes they take. Calls beyond `CALLS`, and bytes behind the last whole call, play no part. (Why `order_text` has the loop once
// more stands there.)
pub fn run_chunk(bytes: &[u8], memory: &mut [u64; NUMBERS], text: &mut [u8; TEXT]) -> usize
    ensures { RanText recorded_calls (chunk_calls recorded_calls bytes.now) memory.old memory.new text.old result text.new }
{
    let mut end: usize = 0;
    for k in 0..records_of(bytes, CALL_BYTES, CALLS) {
        let answer = planner::call(memory, read_call(bytes, k));
        end = write_answer(answer, text, end);
    }
    end
}

// Stores the closing lines of a number told and a plan.
fn write_end(told: u64, plan: &[u64], text: &mut [u8; TEXT]) -> usize
    requires { length plan.now ≤ plan_size }
    ensures { Ended told plan.now text.old result text.new }
{
    let end = behind(text::put_held(text, 0, told), 0);
    behind(text::put_plan(text, end, plan), end)
}

// Stores the closing lines from the first byte on: the number of blocks held, and the plan. Returns
// how many bytes they take; there is room for one line more.
pub fn close(memory: &[u64; NUMBERS], text: &mut [u8; TEXT]) -> usize
    ensures { Closed memory.now text.old result text.new }
{
    let mut plan = [0u64; PLAN];
    let told = replay::tell(memory, &mut plan);
    let junctions = told as usize + 1;
    write_end(told, &plan[..junctions], text)
}
