// One call of a trace read from its bytes, and an answer written as a row.
ghost use Rattle.std.specs.Prelude.{◌≡◌, ◌+◌, ◌*◌, ◌≤◌, ◌<◌, length};
ghost use Rattle.line.specs.Answers.{answer_means};
ghost use Rattle.line.specs.Blocks.{call_means};
ghost use Rattle.replay.specs.Trace.{block_of, call_bytes, call_in, call_of, call_words, word_of};
ghost use Rattle.replay.specs.Rows.{row_from, row_of, row_size};

use crate::{BEFORE_GIVEN, CALL_BYTES};
use display::{Refusal, refusal_number};
use fields::{to_bits, to_signed};
use line::lists::{no_given, store_given_numbers};
use line::{Call, Given};
use machine::Block;
use machine::blocks::plain_block;

// The bytes of a call and the numbers of a row are parts of lists that the caller lends, so they are slices with a length in
// a clause: as an array each would come out of `first_chunk` as an Option, whose None each call would have to exclude by the same
// clause.

// Bits of a word.
const WORD: usize = 32;

// Word i of a call's bytes.
fn word_of(bytes: &[u8], i: usize) -> u64
    requires { (length bytes.now ≡ call_bytes) × (i < call_words) }
    ensures { result ≡ word_of bytes.now i }
{
    fields::read_field(bytes, WORD * i, WORD)
}

// The block that a call's bytes say.
fn block_of(bytes: &[u8]) -> Block
    requires { length bytes.now ≡ call_bytes }
    ensures { result ≡ block_of bytes.now }
{
    let x = to_signed(word_of(bytes, 1), WORD);
    let y = to_signed(word_of(bytes, 2), WORD);
    let z = to_signed(word_of(bytes, 3), WORD);
    plain_block(
        x,
        y,
        z,
        word_of(bytes, 4),
        word_of(bytes, 5),
        word_of(bytes, 6),
    )
}

// The call that its bytes say: kind 0 is a take, any other number an add. The number is the format's.
fn call_of(bytes: &[u8]) -> Call
    requires { length bytes.now ≡ call_bytes }
    ensures { call_means result ≡ call_of bytes.now }
{
    let kind = word_of(bytes, 0);
    if kind == 0 {
        return Call::Take;
    }
    Call::Add(block_of(bytes))
}

// Call k of bytes with no limits before them, k counted from 0.
pub fn read_call(bytes: &[u8], k: usize) -> Call
    requires { call_bytes * (k + 1) ≤ length bytes.now }
    ensures { call_means result ≡ call_in bytes.now k }
{
    let from = CALL_BYTES * k;
    let to = from + CALL_BYTES;
    call_of(&bytes[from..to])
}

// Writes a row: the number on the display and a block given out.
fn store_row(number: u64, g: Given, row: &mut [u64])
    requires { length row.old ≡ row_size }
    ensures { row.new ≡ row_from number g }
{
    let b = g.block;
    row[0] = number;
    row[1] = to_bits(b.x, WORD);
    row[2] = to_bits(b.y, WORD);
    row[3] = to_bits(b.z, WORD);
    store_given_numbers(g, &mut row[BEFORE_GIVEN..]);
}

// Writes the row of an answer.
pub(crate) fn write_row(answer: Result<Option<Given>, Refusal>, row: &mut [u64])
    requires { length row.old ≡ row_size }
    ensures { row.new ≡ row_of (answer_means answer) }
{
    match answer {
        Ok(given) => match given {
            None => store_row(0, no_given(), row),
            Some(g) => store_row(0, g, row),
        },
        Err(why) => store_row(refusal_number(why), no_given(), row),
    }
}
