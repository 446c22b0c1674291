// The tape's readers and writers: `fullerecru::tapes` for C.
ghost use Rattle.machine.specs.Labels.{plain_block};
ghost use Rattle.machine.specs.Lists.{limits_from};
ghost use Rattle.tape.specs.Answers.{limits_write_refusal, limits_written, record_write_refusal, record_written};
ghost use Rattle.fullerecru.specs.Tapes.{LimitsLent, RecordLent, Written};

use fullerecru::tapes;
use machine::blocks::{FIELDS, MOVES};
use machine::lists::LIMITS;

// Reads the limits that the bytes begin with, `tape::LIMITS_BYTES` of them; later bytes play no part.
#[unsafe(no_mangle)]
pub extern "C" fn fullerecru_read_limits(bytes: &[u8], limits: &mut [u64; LIMITS]) -> u64
    ensures { LimitsLent bytes.now limits.old result limits.new }
{
    tapes::fullerecru_read_limits(bytes, limits)
}

// Writes limits, those of `fullerecru_fresh`, at the beginning of the bytes, of which only `tape::LIMITS_BYTES` change.
#[unsafe(no_mangle)]
pub extern "C" fn fullerecru_write_limits(limits: &[u64; LIMITS], bytes: &mut [u8]) -> u64
    ensures { Written (limits_write_refusal (limits_from limits.now) bytes.old) (limits_written (limits_from limits.now) bytes.old) result bytes.new }
{
    tapes::fullerecru_write_limits(limits, bytes)
}

// Reads the record that the bytes begin with, `tape::RECORD_BYTES` of them; later bytes play no part.
#[unsafe(no_mangle)]
pub extern "C" fn fullerecru_read_record(
    bytes: &[u8],
    moves: &mut [i64; MOVES],
    numbers: &mut [u64; FIELDS],
) -> u64
    ensures { RecordLent bytes.now result moves.old moves.new numbers.old numbers.new }
{
    tapes::fullerecru_read_record(bytes, moves, numbers)
}

// Writes a block's record at the beginning of the bytes, of which only `tape::RECORD_BYTES` change.
#[unsafe(no_mangle)]
pub extern "C" fn fullerecru_write_record(
    x: i64,
    y: i64,
    z: i64,
    feed: u64,
    radius: u64,
    mark: u64,
    bytes: &mut [u8],
) -> u64
    ensures { Written (record_write_refusal (plain_block x y z feed radius mark) bytes.old) (record_written (plain_block x y z feed radius mark) bytes.old) result bytes.new }
{
    tapes::fullerecru_write_record(x, y, z, feed, radius, mark, bytes)
}
