// The machine's calls: the numbers of two blocks and the junction cap between them.
use crate::say::{say, say_answer, say_next, say_number};
use crate::values::{BLOCK, block_at};
use machine::answer::{junction_answer, numbers_answer};
use machine::{Limits, Numbers};
use std::io::Stdout;

// Bytes of two blocks.
const PAIR: usize = 2 * BLOCK;

// Printed field by field, as in `tapes`.
fn say_numbers(output: Stdout, n: Numbers) {
    say_number(output, n.length);
    say_next(output, n.accel);
    say_next(output, n.reach);
    say_next(output, n.cap);
}

// Says the numbers of the first block (length, acceleration, reach, cap), those of the second, and the junction cap between
// them, each of the three with its refusal in its place, and ` | ` between. The bytes are the two blocks and then the torque
// steps that are loaded.
pub(crate) fn ask(output: Stdout, l: Limits, bytes: &[u8]) {
    if bytes.len() < PAIR {
        return;
    }
    let a = block_at(bytes, 0);
    let b = block_at(bytes, BLOCK);
    let steps = &bytes[PAIR..];
    say_answer(output, numbers_answer(l, steps, a), say_numbers);
    say(output, b" | ");
    say_answer(output, numbers_answer(l, steps, b), say_numbers);
    say(output, b" | ");
    say_answer(output, junction_answer(l, a, b), say_number);
}
