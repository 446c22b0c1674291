// Lists the tape of standard input, planned with the torque steps of the file that `--steps` names, or the built-in ones:
// a header and a line for each block, or the one line of its refusal. If the input cannot be read to its end, or the output
// does not take the whole text, a line on standard error says so.
#![tactic(auto)]

use arguments::{Program, STEPS, WorkError, start};
use listing::{Listing, PARTS, TEXT};
use options::Form;
use std::io;
use std::io::Stdout;
use streams::{Streams, read_input, say};
use tape::MOST_BYTES;
use tapeplan::Measured;
use tapeplan::sheet::SHEET;
use tapeplan::whole::JUNCTIONS;

// One byte more than the longest tape: a longer input is refused by 10 whatever follows, so no more of it is read.
const INPUT: usize = MOST_BYTES + 1;

// Writes a listing part after part, as long as they are taken. It ends at a part without a byte: after that there is none.
// Apart from `list`, so that the text can lie on the stack where the planning's own lists lay.
#[tactic(auto, using(text::proofs::Store::within))]
fn say_parts(
    output: Stdout,
    listing: Listing,
    sheet: &[Measured; SHEET],
    plan: &[u64; JUNCTIONS],
) -> io::Result<()> {
    let mut text = [0u8; TEXT];
    for p in 0..PARTS {
        let end = listing.part(sheet, plan, p, &mut text);
        if end == 0 {
            break;
        }
        say(output, end, &text)?;
    }
    Ok(())
}

// Writes the listing of a tape with loaded steps.
fn list(output: Stdout, tape: &[u8], steps: &[u8]) -> io::Result<()> {
    let mut sheet = [Measured::default(); SHEET];
    let mut plan = [0u64; JUNCTIONS];
    let listing = Listing::of(tape, steps, &mut sheet, &mut plan);
    say_parts(output, listing, &sheet, &plan)
}

// Lists the tape of standard input with loaded steps.
fn list_input(streams: Streams, steps: &[u8]) -> Result<(), WorkError> {
    let mut input = [0u8; INPUT];
    let got = read_input(streams.input, &mut input).map_err(WorkError::Input)?;
    list(streams.output, &input[..got], steps).map_err(WorkError::Output)
}

fn main(rt: HostRuntime) {
    let program = Program {
        name: b"planlist",
        usage: b"usage: planlist [--steps FILE] < tape\n\
            Plans a whole tape and writes a header and a line for each block, in tape order.\n\
            Lengths are um, accel is um/s^2; entry, peak and exit are squared speeds.\n\
            A tape that is refused gives `refused N at P`: P is the record from 1, or 0.\n\
            FILE: the owner's 8 torque percentages, a byte each; if none or empty, built-in.\n",
        output: b"the whole listing",
        form: Form {
            steps: true,
            width: false,
            least: 0,
            most: 0,
            numbers: false,
            input: true,
        },
    };
    start::<STEPS, _>(&rt, program, |streams, _, steps| list_input(streams, steps));
}
