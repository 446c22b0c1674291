// The tape's readers and writers for C. Bytes are handed over as a pointer and their number.
ghost use Rattle.std.specs.Prelude.{◌≡◌, length};
ghost use Rattle.machine.specs.Labels.{fields_size, moves_size, plain_block};
ghost use Rattle.machine.specs.Lists.{limits_from};
ghost use Rattle.tape.specs.Answers.{limits_write_refusal, limits_written, record_write_refusal, record_written};
ghost use Rattle.fullerecru.specs.Moves.{Stored, block_numbers};
ghost use Rattle.fullerecru.specs.Tapes.{LimitsLent, RecordLent, Written};

use crate::numbers::put_moves;
use display::{checked_number, refusal_number};
use machine::Block;
use machine::blocks::{FIELDS, MOVES, plain_block};
use machine::lists::{LIMITS, limits_from, store_limits};
use tape::limits::{read_limits, write_limits};
use tape::records::{read_record, write_record};

// Stores a block as its moves and its other numbers.
fn put_block(b: Block, moves: &mut [i64; MOVES], numbers: &mut [u64; FIELDS])
    ensures { Stored b (block_numbers b) moves.new numbers.new }
{
    put_moves(b, moves);
    *numbers = [b.feed, b.radius, b.mark];
}

// Reads the limits that the bytes begin with, `tape::LIMITS_BYTES` of them; later bytes play no part.
// The limits are those of `fullerecru_fresh`, in its order and units. Refuses by 9 under so many bytes,
// then by 1, and then the limits stay as they were.
#[unsafe(no_mangle)]
pub extern "C" fn fullerecru_read_limits(bytes: &[u8], limits: &mut [u64; LIMITS]) -> u64
    ensures { LimitsLent bytes.now limits.old result limits.new }
{
    match read_limits(bytes) {
        Err(why) => refusal_number(why),
        Ok(l) => {
            store_limits(l, limits);
            0
        }
    }
}

// Writes limits, those of `fullerecru_fresh`, at the beginning of the bytes, of which only
// `tape::LIMITS_BYTES` change. Refuses by 1, then by 9 under so many bytes, and then no byte changes.
#[unsafe(no_mangle)]
pub extern "C" fn fullerecru_write_limits(limits: &[u64; LIMITS], bytes: &mut [u8]) -> u64
    ensures { Written (limits_write_refusal (limits_from limits.now) bytes.old) (limits_written (limits_from limits.now) bytes.old) result bytes.new }
{
    checked_number(write_limits(limits_from(limits), bytes))
}

// Reads the record that the bytes begin with, `tape::RECORD_BYTES` of them; later bytes play no part.
// Gives the block's moves X, Y, Z, µm, and its feed, µm/s, radius, µm, 0 for no curve, and mark.
// Refuses by 9 under so many bytes, then by 2 to 5 (every mark of a record is in its range), and then both lists stay as they were.
// Like the taker of a block (`planners`), but for C a function of its own.
#[unsafe(no_mangle)]
pub extern "C" fn fullerecru_read_record(
    bytes: &[u8],
    moves: &mut [i64; MOVES],
    numbers: &mut [u64; FIELDS],
) -> u64
    ensures { RecordLent bytes.now result moves.old moves.new numbers.old numbers.new }
{
    match read_record(bytes) {
        Err(why) => refusal_number(why),
        Ok(b) => {
            put_block(b, moves, numbers);
            0
        }
    }
}

// Writes a block's record at the beginning of the bytes, of which only `tape::RECORD_BYTES` change:
// moves, µm; feed, µm/s; radius, µm, 0 for no curve; mark. Refuses by 2 to 6, then by 9 under so many
// bytes, and then no byte changes.
#[unsafe(no_mangle)]
pub extern "C" fn fullerecru_write_record(
    x: i64,
    y: i64,
    z: i64,
    feed: u64,
    radius: u64,
    mark: u64,
    bytes: &mut [u8],
) -> u64
    ensures { Written (record_write_refusal (plain_block x y z feed radius mark) bytes.old) (record_written (plain_block x y z feed radius mark) bytes.old) result bytes.new }
{
    checked_number(write_record(plain_block(x, y, z, feed, radius, mark), bytes))
}
