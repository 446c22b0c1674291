// What a line's words do, and the block between two positions.
ghost use Rattle.std.specs.Prelude.{◌≡◌, ◌^◌, ◌<◌, ◌≤◌, cond, is_some, nat_abs, pos};
ghost use Rattle.std.specs.Option.{unwrap_or};
ghost use Rattle.words.specs.Words.{is_value, words_in};
ghost use Rattle.words.specs.Number.{most_number};
ghost use Rattle.rs274.specs.Bounds.{Within, WordsWithin};
ghost use Rattle.rs274.specs.Modal.{begin, block_between, feed_in_force, feed_of, length_in, modal_after, move_of, position_of, rounded_of, unit_of};

use crate::Modal;
use arith::signed::signed_by;
use machine::Block;
use machine::blocks::plain_block;
use words::numbers::PARTS;
use words::scan::is_value;
use words::{FEED, INCHES, INCREMENTAL, MOTION, RAPID, SLOTS, UNIT, WAY, X, Y, Z};

// µm in an inch, and in a millimetre.
const INCH: u64 = 25_400;

const MILLIMETRE: u64 = 1_000;
// Hundredths of a µm in a µm.
const HUNDREDTHS: u64 = 100;
// Seconds of a minute.
const MINUTE: u64 = 60;
// The feed of G0, µm/s.
const RAPID_FEED: u64 = 1_000_000;

// What is in force before the first line: G21, G90, G1, at zero with no feed: `default` by the name of its definition.
pub(crate) fn begin() -> Modal
    ensures { result ≡ begin }
{
    Modal::default()
}

// µm in the unit.
fn unit_of(inches: bool) -> u64
    ensures { result ≡ unit_of inches }
{
    if inches { INCH } else { MILLIMETRE }
}

// A number of a position, ten-thousandths of its unit, in hundredths of a µm. That a number is small is a clause and no type, since
// `read_words` is lent any numbers.
fn length_in(inches: bool, v: i64) -> i64
    requires { nat_abs v ≤ most_number }
    ensures { result ≡ length_in inches v }
{
    v * (unit_of(inches) * HUNDREDTHS / PARTS) as i64
}

// A position on an axis behind a line, hundredths of a µm, by the number of its word, where one stands: by G91 from where
// it was, by G90 from zero.
fn position_of(inches: bool, incremental: bool, before: i64, word: Option<i64>) -> i64
    requires { (nat_abs before < 2 ^ 40) × (nat_abs (unwrap_or word (pos 0)) ≤ most_number) }
    ensures { result ≡ position_of inches incremental before (is_some word) (unwrap_or word (pos 0)) }
{
    match word {
        None => before,
        Some(v) => {
            let length = length_in(inches, v);
            if incremental { before + length } else { length }
        }
    }
}

// A number of a feed, ten-thousandths of its unit per minute, in µm/s, rounded down; 0 for one below 0.
fn feed_of(inches: bool, v: i64) -> u64
    requires { nat_abs v ≤ most_number }
    ensures { result ≡ feed_of inches v }
{
    if v < 0 {
        return 0;
    }
    v.unsigned_abs() * unit_of(inches) / (MINUTE * PARTS)
}

// Whether the G word of a slot has this number, ten-thousandths; where none stands there, what was before.
fn chosen(word: Option<i64>, v: u64, before: bool) -> bool
    ensures { result ≡ cond (is_some word) (is_value v (unwrap_or word (pos 0))) before }
{
    match word {
        Some(number) => is_value(number, v),
        None => before,
    }
}

// The feed behind a line, µm/s, by the number of its F, where one stands.
fn feed_after(word: Option<i64>, inches: bool, before: u64) -> u64
    requires { nat_abs (unwrap_or word (pos 0)) ≤ most_number }
    ensures { result ≡ cond (is_some word) (feed_of inches (unwrap_or word (pos 0))) before }
{
    match word {
        Some(v) => feed_of(inches, v),
        None => before,
    }
}

// What is in force behind a line: its G words act before its other words.
pub(crate) fn modal_after(m: Modal, words: &[Option<i64>; SLOTS]) -> Modal
    requires { WordsWithin (words_in words.now) × Within (2 ^ 40) m }
    ensures { result ≡ modal_after m (words_in words.now) }
{
    let inches = chosen(words[UNIT], INCHES, m.inches);
    let incremental = chosen(words[WAY], INCREMENTAL, m.incremental);
    Modal {
        inches,
        incremental,
        rapid: chosen(words[MOTION], RAPID, m.rapid),
        x: position_of(inches, incremental, m.x, words[X]),
        y: position_of(inches, incremental, m.y, words[Y]),
        z: position_of(inches, incremental, m.z, words[Z]),
        feed: feed_after(words[FEED], inches, m.feed),
    }
}

// A position rounded to the nearest µm, with the half away from zero.
fn rounded(position: i64) -> i64
    requires { nat_abs position < 2 ^ 41 }
    ensures { result ≡ rounded_of position }
{
    signed_by(
        position < 0,
        (position.unsigned_abs() + HUNDREDTHS / 2) / HUNDREDTHS,
    )
}

// The move on an axis between two positions, µm.
fn move_of(before: i64, after: i64) -> i64
    requires { (nat_abs before < 2 ^ 41) × (nat_abs after < 2 ^ 41) }
    ensures { result ≡ move_of before after }
{
    rounded(after) - rounded(before)
}

// The feed of a block, µm/s: that of G0, or the one that F has set.
fn feed_in_force(m: Modal) -> u64
    ensures { result ≡ feed_in_force m }
{
    if m.rapid { RAPID_FEED } else { m.feed }
}

// The block from one position to the next, with the feed in force there.
pub(crate) fn block_between(before: Modal, after: Modal, mark: u64) -> Block
    requires { Within (2 ^ 41) before × Within (2 ^ 41) after }
    ensures { result ≡ block_between before after mark }
{
    let x = move_of(before.x, after.x);
    let y = move_of(before.y, after.y);
    let z = move_of(before.z, after.z);
    plain_block(x, y, z, feed_in_force(after), 0, mark)
}
