// The words that a program is started with, read one after the other.
ghost use Rattle.std.specs.Prelude.{◌≡◌};
ghost use Rattle.std.specs.Counts.{IsPrefixLen};
ghost use Rattle.arguments.specs.Starts.{SeenBefore, WordRead};

use options::kinds::word_of;
use options::{Form, Seen, Word, none_seen, with_word};
use std::env::FillError;
use std::rt::Env;

// Bytes of a word that are looked at: what is longer is neither an option that is known nor a number.
const WORD: usize = 16;

// Reads the word at a place, one that is too long by its beginning. Returns how many bytes it has. Which bytes are read is
// open, as no contract says what a program is started with. 0 where there is no word: `is_word` tells whether there is one.
pub fn read_word<R: Env>(rt: &R, place: usize, word: &mut [u8]) -> usize
    ensures { IsPrefixLen result word.new }
{
    match rt.arg(place, word) {
        Ok(got) => got,
        Err(FillError::TooLong) => word.len(),
        Err(FillError::NotPresent) => 0,
    }
}

// Whether there is a word at a place.
pub fn is_word<R: Env>(rt: &R, place: usize) -> bool {
    let mut byte = [0u8; 1];
    !matches!(rt.arg(place, &mut byte), Err(FillError::NotPresent))
}

// The word at a place. One that is too long is judged by its beginning.
fn word_at<R: Env>(rt: &R, place: usize) -> Word
    ensures { WordRead result }
{
    let mut word = [0u8; WORD];
    let got = read_word(rt, place, &mut word);
    word_of(&word[..got])
}

// What is seen of the words of a program of this form, from the first at place 1 to the last before the place `end`. Which words
// they are is open; they are looked at in their order, one after the other.
pub fn read_seen<R: Env>(rt: &R, form: Form, end: usize) -> Seen
    ensures { SeenBefore form end result }
{
    let mut seen = none_seen();
    for place in 1..end {
        seen = with_word(form, seen, word_at(rt, place), place);
    }
    seen
}
