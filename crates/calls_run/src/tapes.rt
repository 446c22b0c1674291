// The tape's calls: limits and records read and written, and a whole tape checked.
use crate::say::{say, say_answer, say_bytes, say_next, say_refusal};
use display::{Refusal, RefusedAt};
use machine::{Axes, Block, Limits};
use std::io::Stdout;

// Printed field by field, since the types are other crates', which know no text.
fn say_axes(output: Stdout, a: Axes) {
    say_next(output, a.x);
    say_next(output, a.y);
    say_next(output, a.z);
}

fn say_limits(output: Stdout, l: Limits) {
    say(output, b"limits");
    say_axes(output, l.accel);
    say_axes(output, l.speed);
    say_next(output, l.jump);
    say_next(output, l.chord);
    say_next(output, l.tick);
}

fn say_block(output: Stdout, b: Block) {
    say(output, b"record");
    say_next(output, b.x);
    say_next(output, b.y);
    say_next(output, b.z);
    say_next(output, b.feed);
    say_next(output, b.radius);
    say_next(output, b.mark);
}

// Writes to the lent bytes, and says what that answered and all bytes as they then are.
pub(crate) fn write<F: FnOnce(&mut [u8]) -> Result<(), Refusal>>(
    output: Stdout,
    bytes: &mut [u8],
    store: F,
)
    requires { F.IsAlwaysCallable store }
{
    let answer = store(bytes);
    say_answer(output, answer, |output, _| say(output, b"written"));
    say_bytes(output, bytes);
}

pub(crate) fn read_limits(output: Stdout, bytes: &[u8]) {
    say_answer(output, tape::limits::read_limits(bytes), say_limits);
}

pub(crate) fn read_record(output: Stdout, bytes: &[u8]) {
    say_answer(output, tape::records::read_record(bytes), say_block);
}

pub(crate) fn check_tape(output: Stdout, bytes: &[u8]) {
    match tape::whole::check_tape(bytes) {
        Ok(n) => {
            say(output, b"accepted");
            say_next(output, n);
        }
        Err(RefusedAt { why, place }) => {
            say_refusal(output, why);
            say(output, b" at");
            say_next(output, place);
        }
    }
}
