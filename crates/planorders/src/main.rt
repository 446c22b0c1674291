// Runs the orders and takes of standard input, of any number, in constant memory, with the torque steps
// of the file that `--steps` names, or the built-in ones, and writes a line for each event: `added`,
// `refused` with the number, or the nine numbers of a block given out; then the number of blocks held,
// the plan, and the patterns of the host's point. Orders with no whole limits, or limits or steps that do
// not pass, get the one line `refused` with number and place 0. Orders that end inside an event get such
// a line in that event's place, with its place counted from 1, and then the three closing lines.
#![tactic(auto)]

ghost use Rattle.std.proofs.Common.{lit<};
ghost use Rattle.order_text.specs.Orders.{event_bytes};

use arguments::{Program, STEPS, start};
use options::Form;
use order_text::EVENT_BYTES;
use planner::NUMBERS;
use recorded::{RECORDS, Records, run};
use replay_text::TEXT;

// Bytes of a chunk.
const CHUNK: usize = EVENT_BYTES * RECORDS;

// The events of a host, and its numbers.
#[derive(Clone, Copy)]
struct Events {
    host: [u64; host::NUMBERS],
}

impl Events {
    // Those of a fresh host.
    fn new() -> Events {
        let mut host = [0u64; host::NUMBERS];
        host::fresh(&mut host);
        Events { host }
    }
}

impl Records for Events {
    ghost SIZE = { event_bytes };

    ghost sized = { lit< tt };

    const SIZE: usize = EVENT_BYTES;

    fn run_chunk(
        &mut self,
        bytes: &[u8],
        memory: &mut [u64; NUMBERS],
        text: &mut [u8; TEXT],
    ) -> usize {
        order_text::run_chunk(bytes, memory, &mut self.host, text)
    }

    fn close(&self, memory: &[u64; NUMBERS], text: &mut [u8; TEXT]) -> usize {
        order_text::close(memory, &self.host, text)
    }
}

fn main(rt: HostRuntime) {
    let program = Program {
        name: b"planorders",
        usage: b"usage: planorders [--steps FILE] < orders\n\
            Runs orders and takes: `added`, `refused N`, or the block as planlist lists it;\n\
            then `held N`, `plan` and its numbers, and `point` and the bits of X, Y and Z.\n\
            Refused limits or steps give `refused N at 0`; a cut event K, `refused 9 at K`.\n\
            FILE: the owner's 8 torque percentages, a byte each; if none or empty, built-in.\n",
        output: b"all lines",
        form: Form {
            steps: true,
            width: false,
            least: 0,
            most: 0,
            numbers: false,
            input: true,
        },
    };
    start::<STEPS, _>(&rt, program, |streams, _, steps| {
        run::<CHUNK, _>(streams, steps, Events::new())
    });
}
