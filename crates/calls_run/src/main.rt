// Runs the machine's and the tape's calls on the cases of standard input and writes a line for each.
//
// A case is a head of words of 8 bytes, most significant byte first (the kind of call, how many bytes are lent, how many follow
// the head, and nine values), and then the bytes that follow. These are stored at the beginning of one buffer; its other bytes
// stay as the case before left them, so that a long tape is given once.
//
// Kind 0 reads limits, 1 reads a record, 2 writes limits, 3 writes a record, 5 writes record k of a tape, where k is the seventh
// value, 6 asks a machine, and any other checks a whole tape. If bytes are written, the line ends with all lent bytes as they
// then are. A machine's limits are the values; two blocks, words as the values are, and the torque steps that are loaded are the
// lent bytes.
#![tactic(auto)]

use fields::read_word;
use machine::lists::LIMITS;
use say::say;
use std::io::{Stdin, Stdout};
use streams::read_input;
use tape::limits::write_limits;
use tape::records::{write_record, write_record_at};
use values::{BLOCK, WORD, block_at, limits_at};

mod machines;
mod say;
mod tapes;
mod values;

// Bytes of a head before its values, before the value after those of a block, and of the whole head.
const VALUES: usize = 3 * WORD;

const AFTER_BLOCK: usize = VALUES + BLOCK;

const HEAD: usize = VALUES + LIMITS * WORD;

// A case's call.
#[derive(Clone, Copy, Debug, PartialEq, Eq, Hash)]
enum Call {
    ReadLimits,
    ReadRecord,
    WriteLimits,
    WriteRecord,
    WriteRecordAt,
    AskMachine,
    CheckTape,
}

impl From<u64> for Call {
    fn from(kind: u64) -> Call {
        match kind {
            0 => Call::ReadLimits,
            1 => Call::ReadRecord,
            2 => Call::WriteLimits,
            3 => Call::WriteRecord,
            5 => Call::WriteRecordAt,
            6 => Call::AskMachine,
            _ => Call::CheckTape,
        }
    }
}

// Makes the call of a case on the lent bytes.
fn answer(output: Stdout, head: &[u8; HEAD], bytes: &mut [u8]) {
    match Call::from(read_word(head, 0)) {
        Call::ReadLimits => tapes::read_limits(output, bytes),
        Call::ReadRecord => tapes::read_record(output, bytes),
        Call::WriteLimits => {
            let l = limits_at(head, VALUES);
            tapes::write(output, bytes, |bytes| write_limits(l, bytes));
        }
        Call::WriteRecord => {
            let b = block_at(head, VALUES);
            tapes::write(output, bytes, |bytes| write_record(b, bytes));
        }
        Call::WriteRecordAt => {
            let b = block_at(head, VALUES);
            let k = read_word(head, AFTER_BLOCK) as usize;
            tapes::write(output, bytes, |bytes| write_record_at(b, bytes, k));
        }
        Call::AskMachine => machines::ask(output, limits_at(head, VALUES), bytes),
        Call::CheckTape => tapes::check_tape(output, bytes),
    }
}

// Stores the next m bytes of the input at the beginning of the buffer.
fn fill(input: Stdin, m: usize, buffer: &mut [u8]) {
    if let Some(bytes) = buffer.get_mut(..m) {
        let _ = read_input(input, bytes);
    }
}

// Lends the first n bytes of the buffer to the call of a case.
fn lend(output: Stdout, n: usize, head: &[u8; HEAD], buffer: &mut [u8]) {
    if let Some(bytes) = buffer.get_mut(..n) {
        answer(output, head, bytes);
    }
}

fn run_case(input: Stdin, output: Stdout, head: &[u8; HEAD], buffer: &mut [u8; 65_536]) {
    fill(input, read_word(head, 2 * WORD) as usize, buffer);
    lend(output, read_word(head, WORD) as usize, head, buffer);
    say(output, b"\n");
}

fn main(rt: HostRuntime) {
    let mut buffer = [0u8; 65_536];
    for _ in 0..1_000_000 {
        let mut head = [0u8; HEAD];
        let Ok(HEAD) = read_input(rt.stdin(), &mut head) else {
            return;
        };
        run_case(rt.stdin(), rt.stdout(), &head, &mut buffer);
    }
}
