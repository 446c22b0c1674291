// The values of a case, each a word of 8 bytes: limits in the order of a tape's limits, and blocks by moves X, Y, Z in two's
// complement, feed, radius and mark.
ghost use Rattle.std.specs.Prelude.{◌+◌, ◌*◌, ◌≤◌, length};
ghost use Rattle.machine.specs.Labels.{fields_size, moves_size};
ghost use Rattle.machine.specs.Lists.{limits_size};

use fields::{read_word, signed_word};
use machine::blocks::{FIELDS, MOVES, plain_block};
use machine::{Axes, Block, Limits};

// Bytes of a word, and of a block.
pub(crate) const WORD: usize = 8;

pub(crate) const BLOCK: usize = (MOVES + FIELDS) * WORD;

// The bytes and a place in them are two values, as `fields` takes them. The signed number that the word at a byte stands for.
fn signed_at(bytes: &[u8], at: usize) -> i64
    requires { at + 8 ≤ length bytes.now }
{
    signed_word(read_word(bytes, at))
}

// The quantities of the three axes that begin at a byte.
fn axes_at(bytes: &[u8], at: usize) -> Axes
    requires { at + 24 ≤ length bytes.now }
{
    Axes {
        x: read_word(bytes, at),
        y: read_word(bytes, at + WORD),
        z: read_word(bytes, at + 2 * WORD),
    }
}

// The limits that begin at a byte.
pub(crate) fn limits_at(bytes: &[u8], at: usize) -> Limits
    requires { at + limits_size * 8 ≤ length bytes.now }
{
    Limits {
        accel: axes_at(bytes, at),
        speed: axes_at(bytes, at + 3 * WORD),
        jump: read_word(bytes, at + 6 * WORD),
        chord: read_word(bytes, at + 7 * WORD),
        tick: read_word(bytes, at + 8 * WORD),
    }
}

// The block that begins at a byte.
pub(crate) fn block_at(bytes: &[u8], at: usize) -> Block
    requires { at + (moves_size + fields_size) * 8 ≤ length bytes.now }
{
    plain_block(
        signed_at(bytes, at),
        signed_at(bytes, at + WORD),
        signed_at(bytes, at + 2 * WORD),
        read_word(bytes, at + 3 * WORD),
        read_word(bytes, at + 4 * WORD),
        read_word(bytes, at + 5 * WORD),
    )
}
