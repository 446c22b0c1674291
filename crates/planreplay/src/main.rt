// Runs the trace of standard input, of any length, in constant memory, with the torque steps of the
// file that `--steps` names, or the built-in ones, and writes a line for each call: `added`, `refused`
// with the number, or the nine numbers of a block given out; then the number of blocks held, and the
// plan. A trace with no whole limits, or limits or steps that do not pass, gets the one line `refused`
// with number and place 0. A trace that ends inside a call gets such a line in that call's place, with
// its place counted from 1, and then the two closing lines.
#![tactic(auto)]

ghost use Rattle.std.proofs.Common.{lit<};
ghost use Rattle.replay.specs.Trace.{call_bytes};

use arguments::{Program, STEPS, start};
use options::Form;
use planner::NUMBERS;
use recorded::{RECORDS, Records, run};
use replay::CALL_BYTES;
use replay_text::TEXT;

// Bytes of a chunk.
const CHUNK: usize = CALL_BYTES * RECORDS;

// The calls of a planner.
#[derive(Clone, Copy)]
struct Calls;

impl Records for Calls {
    ghost SIZE = { call_bytes };

    ghost sized = { lit< tt };

    const SIZE: usize = CALL_BYTES;

    fn run_chunk(
        &mut self,
        bytes: &[u8],
        memory: &mut [u64; NUMBERS],
        text: &mut [u8; TEXT],
    ) -> usize {
        replay_text::run_chunk(bytes, memory, text)
    }

    fn close(&self, memory: &[u64; NUMBERS], text: &mut [u8; TEXT]) -> usize {
        replay_text::close(memory, text)
    }
}

fn main(rt: HostRuntime) {
    let program = Program {
        name: b"planreplay",
        usage: b"usage: planreplay [--steps FILE] < trace\n\
            Runs recorded calls and writes a line for each: `added`, `refused N`, or the\n\
            block given out as planlist lists it; then `held N`, and `plan` and its numbers.\n\
            Refused limits or steps give `refused N at 0`; a cut call K, `refused 9 at K`.\n\
            FILE: the owner's 8 torque percentages, a byte each; if none or empty, built-in.\n",
        output: b"all lines",
        form: Form {
            steps: true,
            width: false,
            least: 0,
            most: 0,
            numbers: false,
            input: true,
        },
    };
    start::<STEPS, _>(&rt, program, |streams, _, steps| {
        run::<CHUNK, _>(streams, steps, Calls)
    });
}
