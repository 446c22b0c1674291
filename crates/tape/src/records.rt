// One record: `RECORD_BYTES`, read and written as two words, alone or in its place on a tape.
ghost use Rattle.std.specs.Prelude.{◌≡◌, ◌+◌, ◌*◌, ◌/◌, ◌%◌, ◌^◌, ◌<◌, ◌≤◌, min, length};
ghost use Rattle.fields.specs.Layouts.{InWidths};
ghost use Rattle.fields.specs.Bytes.{with_bytes};
ghost use Rattle.fields.specs.Fields.{Bits};
ghost use Rattle.tape.specs.Tape.{block_at, block_fields, block_number, record_at, record_bytes, record_layout, record_start, records_in};
ghost use Rattle.display.specs.Display.{outcome_of};
ghost use Rattle.tape.specs.Answers.{read_record, record_write_refusal, record_written, tape_write_refusal, tape_written, Wrote};

use crate::{LIMITS_BYTES, RECORD_BYTES};
use display::Refusal;
use machine::Block;
use machine::blocks::{label_of, labelled_block};
use machine::check::check_block;

// Bits of a move.
const MOVE: usize = 21;

// The feed of the two words of a record: its highest bit ends the first, its 19 others begin the second.
fn feed_of(first: u64, second: u64) -> u64
    ensures { result ≡ first % 2 * 2 ^ 19 + second / 2 ^ 45 }
{
    ((first % 2) << 19) + (second >> 45)
}

// The block that the first bytes say, unchecked. Moves X, Y and Z have 43, 22 and 1
// bits below them in the first word, and the radius has 21 below it in the second: numbers written out and no table, as for limits.
fn decode_record(s: &[u8]) -> Block
    requires { record_bytes ≤ length s.now }
    ensures { result ≡ block_at s.now }
{
    let first = fields::read_word(s, 0);
    let second = fields::read_word(s, 8);
    let x = fields::to_signed(first >> 43, MOVE);
    let y = fields::to_signed(first >> 22, MOVE);
    let z = fields::to_signed(first >> 1, MOVE);
    let feed = feed_of(first, second);
    labelled_block(
        x,
        y,
        z,
        feed,
        (second >> 21) % (1 << 24),
        second % (1 << 21),
    )
}

// The first word of a record, from the bits of its moves and its feed.
fn first_word(x: u64, y: u64, z: u64, feed: u64) -> u64
    requires { (x < 2 ^ 21) × ((y < 2 ^ 21) × ((z < 2 ^ 21) × (feed < 2 ^ 20))) }
    ensures { Bits 64 (x * 2 ^ 43 + y * 2 ^ 22 + z * 2 + feed / 2 ^ 19) result }
{
    (x << 43) + (y << 22) + (z << 1) + (feed >> 19)
}

// The second word of a record.
fn second_word(feed: u64, radius: u64, label: u64) -> u64
    requires { (radius < 2 ^ 24) × (label < 2 ^ 21) }
    ensures { Bits 64 (feed % 2 ^ 19 * 2 ^ 45 + radius * 2 ^ 21 + label) result }
{
    ((feed % (1 << 19)) << 45) + (radius << 21) + label
}

// Stores a block whose values fit their fields in the first bytes.
fn store_record(b: Block, out: &mut [u8])
    requires { (record_bytes ≤ length out.old) × InWidths record_layout (block_fields b) }
    ensures { out.new ≡ with_bytes out.old 0 record_bytes (block_number b) }
{
    let x = fields::to_bits(b.x, MOVE);
    let y = fields::to_bits(b.y, MOVE);
    let z = fields::to_bits(b.z, MOVE);
    let first = first_word(x, y, z, b.feed);
    let label = label_of(b);
    let second = second_word(b.feed, b.radius, label);
    fields::write_word(out, 0, first);
    fields::write_word(out, 8, second);
}

// Reads the record that the bytes begin with; later bytes play no part. 9 comes first, then 2 to 6.
pub fn read_record(s: &[u8]) -> Result<Block, Refusal>
    ensures { outcome_of result ≡ read_record s.now }
{
    if s.len() < RECORD_BYTES {
        return Err(Refusal::Ragged);
    }
    let b = decode_record(s);
    check_block(b)?;
    Ok(b)
}

// Writes a block's record at the beginning of the lent part of a tape, of which only the record's bytes change. 2 to 6 come first, then 9.
// `write_limits` says the same of limits: one generic function would need a trait with a size, a check, a store and their laws for
// these two bodies of four lines.
pub fn write_record(b: Block, out: &mut [u8]) -> Result<(), Refusal>
    ensures { Wrote (record_write_refusal b out.old) (record_written b out.old) result out.new }
{
    check_block(b)?;
    if out.len() < RECORD_BYTES {
        return Err(Refusal::Ragged);
    }
    store_record(b, out);
    Ok(())
}

// The byte at which record k of a tape begins, k counted from 0; the end of the tape where it ends before that. No k is too
// large: a byte past all tapes is any of them.
fn start_within(k: usize, bytes: usize) -> usize
    ensures { result ≡ min (record_start k) bytes }
{
    let behind = RECORD_BYTES.saturating_mul(k);
    LIMITS_BYTES.saturating_add(behind).min(bytes)
}

// How many records a tape has behind its limits.
pub fn records_in(s: &[u8]) -> usize
    ensures { result ≡ records_in s.now }
{
    s.len().saturating_sub(LIMITS_BYTES) / RECORD_BYTES
}

// The block that record k of a tape says, k counted from 0, unchecked.
pub fn block_at(s: &[u8], k: usize) -> Block
    requires { k < records_in s.now }
    ensures { result ≡ record_at s.now k }
{
    let from = LIMITS_BYTES + RECORD_BYTES * k;
    decode_record(&s[from..])
}

// Writes a block as record k of a tape, k counted from 0: the writer of a record is lent the part that begins at that
// record, which is empty if the tape ends before that. Only the record's bytes change. 2 to 6 come first, then 9
// where the tape ends before the record does.
pub fn write_record_at(b: Block, tape: &mut [u8], k: usize) -> Result<(), Refusal>
    ensures { Wrote (tape_write_refusal b k tape.old) (tape_written b k tape.old) result tape.new }
{
    let from = start_within(k, tape.len());
    write_record(b, &mut tape[from..])
}
