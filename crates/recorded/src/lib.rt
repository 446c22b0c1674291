// Recorded calls or events are run from standard input, of any number, in constant memory: after the bytes of a machine's limits
// come records of one size, which are run a chunk at a time through a planner, with a line written for each; then come closing lines.
// What the records are is the program's.
#![tactic(auto)]

ghost use Rattle.std.specs.Prelude.{◌≡◌, ◌+◌, ◌*◌, ◌/◌, ◌≤◌, ◌<◌, ◌^◌, ℕ, length};
ghost use Rattle.replay_text.specs.Chunks.{text_bytes};
ghost use Rattle.replay_text.specs.Texts.{most_calls};

use arguments::WorkError;
use display::{Refusal, refusal_number};
use planner::NUMBERS;
use replay_text::{CALLS, TEXT};
use std::io::Stdout;
use streams::{Streams, cut_at, read_input, say, say_cut, say_refused};
use tape::LIMITS_BYTES;
use tape::limits::read_limits;

// Records of a chunk, as many as are run at a time.
pub const RECORDS: usize = CALLS;

// Reading ends after this many chunks, which no input has.
const MOST_CHUNKS: u64 = u64::MAX / RECORDS as u64 - 1;

// What the records of a program are, and all that they change beside a planner's memory.
pub trait Records {
    ghost SIZE: { ℕ };

    // Bytes of a record.
    const SIZE: usize;

    // Runs the records of a chunk, and stores their lines from the first byte on. Returns how many bytes they take.
    fn run_chunk(
        &mut self,
        bytes: &[u8],
        memory: &mut [u64; NUMBERS],
        text: &mut [u8; TEXT],
    ) -> usize
        ensures { result ≤ text_bytes };

    // Stores the closing lines from the first byte on. Returns how many bytes they take.
    fn close(&self, memory: &[u64; NUMBERS], text: &mut [u8; TEXT]) -> usize
        ensures { result ≤ text_bytes };

    ghost sized: { 0 < SIZE };
}

// A planner, and room for the text of a chunk.
#[derive(Drop)]
struct Runner {
    memory: [u64; NUMBERS],
    text: [u8; TEXT],
}

impl Runner {
    // Makes the planner of limits and loaded steps, or says why there is none: what the bytes of the limits say decides, then the
    // steps.
    fn fresh(&mut self, head: &[u8], steps: &[u8]) -> Result<(), Refusal> {
        let l = read_limits(head)?;
        planner::fresh(&mut self.memory, l, steps)
    }

    // Runs all records of the input, as long as it can be read and their lines are taken. Returns the place from 1 of the record
    // that the input ends inside, if it does not end with a whole one.
    fn records<const CHUNK: usize, R: Records>(
        &mut self,
        streams: Streams,
        records: &mut R,
    ) -> Result<Option<u64>, WorkError>
        requires whole { CHUNK ≡ most_calls * R.SIZE }
        requires room { CHUNK < 2 ^ 63 }
    {
        let mut chunk = [0u8; CHUNK];
        for chunks in 0..MOST_CHUNKS {
            let got = read_input(streams.input, &mut chunk).map_err(WorkError::Input)?;
            let end = records.run_chunk(&chunk[..got], &mut self.memory, &mut self.text);
            say(streams.output, end, &self.text).map_err(WorkError::Output)?;
            if got < CHUNK {
                return Ok(cut_at(R::SIZE, chunks * RECORDS as u64, got));
            }
        }
        Ok(None)
    }

    // Writes the line of a record that the input ends inside, if there is one, and the closing lines.
    fn close<R: Records>(
        &mut self,
        output: Stdout,
        place: Option<u64>,
        records: &R,
    ) -> Result<(), WorkError> {
        say_cut(output, place, &mut self.text).map_err(WorkError::Output)?;
        let end = records.close(&self.memory, &mut self.text);
        say(output, end, &self.text).map_err(WorkError::Output)
    }
}

// Runs the records of standard input through a planner with loaded steps. Limits or steps that do not pass get the one line of their
// refusal.
pub fn run<const CHUNK: usize, R: Records + Drop>(
    streams: Streams,
    steps: &[u8],
    mut records: R,
) -> Result<(), WorkError>
    requires whole { CHUNK ≡ most_calls * R.SIZE }
    requires room { CHUNK < 2 ^ 63 }
{
    let mut runner = Runner {
        memory: [0u64; NUMBERS],
        text: [0u8; TEXT],
    };
    let mut head = [0u8; LIMITS_BYTES];
    let got = read_input(streams.input, &mut head).map_err(WorkError::Input)?;
    if let Err(why) = runner.fresh(&head[..got], steps) {
        return say_refused(streams.output, refusal_number(why), 0, &mut runner.text).map_err(
            WorkError::Output,
        );
    }
    let place = runner.records::<CHUNK, R>(streams, &mut records)?;
    runner.close(streams.output, place, &records)
}
