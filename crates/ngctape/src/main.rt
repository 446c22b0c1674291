// Writes the tape of an RS-274 text on standard input, with the limits of the file that is named: its first 24 bytes, and a
// record for each block of the text; or the one line of the refusal, that of the limits before anything of the text. If the text
// is too long, the input cannot be read to its end, or the output does not take the whole tape, a line on standard error says so.
#![tactic(auto)]

use arguments::{Program, WorkError, start};
use options::Form;
use rs274::tapes::text_tape;
use std::io;
use std::io::Stdout;
use streams::{Streams, read_input, say, say_error};
use tape::limits::read_limits;
use tape::{LIMITS_BYTES, MOST_BYTES};

// Bytes of the longest text, 192 for each block of a tape; one more is read, so that a longer text shows itself.
const TEXT: usize = 393_216;

const INPUT: usize = TEXT + 1;

// Writes the tape of limits and a text, or the line of the refusal.
fn write_tape(output: Stdout, limits: &[u8], text: &[u8]) -> io::Result<()> {
    let mut tape = [0u8; MOST_BYTES];
    let end = text_tape(limits, text, &mut tape);
    say(output, end, &tape)
}

// Writes the tape of limits and the text on standard input, if that is not too long.
fn write_input(streams: Streams, limits: &[u8]) -> Result<(), WorkError> {
    let mut input = [0u8; INPUT];
    let got = read_input(streams.input, &mut input).map_err(WorkError::Input)?;
    if TEXT < got {
        say_error(
            streams.errors,
            b"ngctape: the text on standard input has more than 393216 bytes\n",
        );
        return Ok(());
    }
    write_tape(streams.output, limits, &input[..got]).map_err(WorkError::Output)
}

// The same by the limits: if they are refused, the text plays no part, and none is read.
fn write_limited(streams: Streams, limits: &[u8]) -> Result<(), WorkError> {
    if read_limits(limits).is_err() {
        return write_tape(streams.output, limits, b"").map_err(WorkError::Output);
    }
    write_input(streams, limits)
}

fn main(rt: HostRuntime) {
    let program = Program {
        name: b"ngctape",
        usage: b"usage: ngctape LIMITS < text\n\
            Makes a tape of RS-274 text: words N, G0, G1, G20, G21, G90, G91, X, Y, Z and F.\n\
            Writes 24 bytes of limits and 16 for each block; planlist lists such a tape.\n\
            A text that is refused gives `refused N at P`: P is the line from 1, or 0.\n\
            LIMITS: a file that begins with 24 bytes of limits, as every tape does.\n",
        output: b"the whole tape",
        form: Form {
            steps: false,
            width: false,
            least: 1,
            most: 1,
            numbers: false,
            input: true,
        },
    };
    start::<LIMITS_BYTES, _>(&rt, program, |streams, _, limits| {
        write_limited(streams, limits)
    });
}
