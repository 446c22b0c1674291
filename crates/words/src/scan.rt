// The words of a line, one after the other from the left.
ghost use Rattle.std.specs.Prelude.{◌≡◌, ◌<◌, length};
ghost use Rattle.words.specs.Steps.{Puts, Scanned, ScannedApart, Stepped};
ghost use Rattle.words.specs.Words.{InLine, axis_slot, is_value, over, slot_of, slot_of_g, behind_words, with_slot, with_word, words_by, words_in};

use crate::bytes::numerals;
use crate::numbers::read_number;
use crate::{
    ABSOLUTE, FEED, INCHES, INCREMENTAL, LINE, MILLIMETRES, MOTION, RAPID, SLOTS, STRAIGHT, UNIT,
    WAY, X,
};
use display::Refusal;

// Whether a number is so many ten-thousandths.
pub fn is_value(number: i64, v: u64) -> bool
    ensures { result ≡ is_value v number }
{
    number >= 0 && number.unsigned_abs() == v
}

// The slot of a G word by its value, ten-thousandths: G01 is G1.
fn slot_of_g(value: i64) -> Option<usize>
    ensures { (result ≡ slot_of_g value) × InLine result }
{
    if is_value(value, RAPID) || is_value(value, STRAIGHT) {
        Some(MOTION)
    } else if is_value(value, INCHES) || is_value(value, MILLIMETRES) {
        Some(UNIT)
    } else if is_value(value, ABSOLUTE) || is_value(value, INCREMENTAL) {
        Some(WAY)
    } else {
        None
    }
}

// The slot of an axis by its letter: X, Y and Z follow one another as their slots do. By a difference, since of a test for
// each letter the compiler makes a table in read-only memory.
fn axis_slot(letter: u8) -> Option<usize>
    ensures { (result ≡ axis_slot letter) × InLine result }
{
    if letter < b'X' || b'Z' < letter {
        return None;
    }
    Some(X + usize::from(letter - b'X'))
}

// The slot of a word by its letter and its number, ten-thousandths; `None` where it is not listed.
fn slot_of(letter: u8, value: i64) -> Option<usize>
    ensures { (result ≡ slot_of letter value) × InLine result }
{
    if letter == b'G' {
        slot_of_g(value)
    } else if letter == b'N' {
        Some(LINE)
    } else if letter == b'F' {
        Some(FEED)
    } else {
        axis_slot(letter)
    }
}

// Puts a word in its slot: 12 where it is not listed, or one stands there already.
fn put_slot(
    words: &mut [Option<i64>; SLOTS],
    slot: Option<usize>,
    value: i64,
) -> Result<(), Refusal>
    requires { InLine slot }
    ensures { Puts (with_slot slot value (words_in words.old)) (words_in words.old) result (words_in words.new) }
{
    let k = slot.ok_or(Refusal::Word)?;
    if words[k].is_some() {
        return Err(Refusal::Word);
    }
    words[k] = Some(value);
    Ok(())
}

// Puts a word by its letter and its numerals: 13 where its number is badly formed, before 12.
fn put_word(words: &mut [Option<i64>; SLOTS], letter: u8, numerals: &[u8]) -> Result<(), Refusal>
    ensures { Puts (with_word letter numerals.now (words_in words.old)) (words_in words.old) result (words_in words.new) }
{
    let value = read_number(numerals).ok_or(Refusal::Number)?;
    put_slot(words, slot_of(letter, value), value)
}

// What comes of a line's next byte, and of the numerals behind it where it is a capital: how many bytes are done.
fn step(words: &mut [Option<i64>; SLOTS], rest: &[u8]) -> Result<usize, Refusal>
    requires { 0 < length rest.now }
    ensures { Stepped (words_in words.old) rest.now result (words_in words.new) }
{
    let b = rest[0];
    if b == b' ' {
        return Ok(1);
    }
    if !b.is_ascii_uppercase() {
        return Err(Refusal::Word);
    }
    let n = numerals(&rest[1..]);
    put_word(words, b, &rest[1..n + 1])?;
    Ok(n + 1)
}

// Reads the words of a line, behind those that stand already: all of them, or those before its first fault from the
// left, which is answered: 12 or 13.
pub fn read_words(line: &[u8], words: &mut [Option<i64>; SLOTS]) -> Result<(), Refusal>
    ensures { Scanned (behind_words line.now (words_in words.old)) result words.new }
{
    let mut rest = line;
    // By what is left, and no `for`: how far a word goes is found by reading it.
    while !rest.is_empty() {
        let n = step(words, rest)?;
        rest = &rest[n..];
    }
    Ok(())
}

// The words of two lists in one: the number of the word in each slot, or `None` where no word stands.
fn join(stands: &[bool; SLOTS], values: &[i64; SLOTS]) -> [Option<i64>; SLOTS]
    ensures { over values.now (words_in result) ≡ words_by stands.now values.now }
{
    let mut words = [None; SLOTS];
    for (k, value) in values.iter().enumerate() {
        words[k] = stands[k].then_some(*value);
    }
    words
}

// Stores the words of one list in two: whether one stands in each slot, and its number. A number in a slot where none
// stands stays.
fn part(words: &[Option<i64>; SLOTS], stands: &mut [bool; SLOTS], values: &mut [i64; SLOTS])
    ensures { words_by stands.new values.new ≡ over values.old (words_in words.now) }
{
    for (k, word) in words.iter().enumerate() {
        stands[k] = word.is_some();
        values[k] = word.unwrap_or(values[k]);
    }
}

// As `read_words`, with the words in two lists: whether one stands in each slot, and its number, ten-thousandths. A number
// may be lent in a slot where no word stands too: it stays, unless a word is read into that slot.
pub fn read_words_apart(
    line: &[u8],
    stands: &mut [bool; SLOTS],
    values: &mut [i64; SLOTS],
) -> Result<(), Refusal>
    ensures { ScannedApart (behind_words line.now (words_by stands.old values.old)) result stands.new values.new }
{
    let mut words = join(stands, values);
    let answer = read_words(line, &mut words);
    part(&words, stands, values);
    answer
}
