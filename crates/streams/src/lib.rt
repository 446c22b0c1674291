// What the programs read and write: standard input or any file that is open; a text and the line of a refusal on standard output, and
// what is wrong on standard error. A program's `main` hands the three streams on.
#![tactic(auto)]

ghost use Rattle.std.specs.Prelude.{◌≡◌, ◌+◌, ◌/◌, ◌≤◌, ◌<◌, ◌^◌, length};
ghost use Rattle.fields.specs.Records.{cut_place};
ghost use Rattle.streams.specs.Input.{next_of, place_of, Within};

use display::{Refusal, refusal_number};
use std::io;
use std::io::{Read, Stderr, Stdin, Stdout};
use text::{behind, put_refused_at};

// The three streams that a program is started with: handles, which are not compared.
#[derive(Clone, Copy)]
pub struct Streams {
    pub input: Stdin,
    pub output: Stdout,
    pub errors: Stderr,
}

// What an answer of `read` says: so many bytes more, at least one; none, as the input has ended; or that the read failed. An error
// may be told once and be followed by an answer of 0, as by a socket that is reset or a terminal that is hung up: so each answer
// counts, and none is asked for again.
fn after(answer: io::Result<usize>) -> io::Result<Option<usize>>
    ensures { result ≡ next_of answer }
{
    let count = answer?;
    if count == 0 {
        Ok(None)
    } else {
        Ok(Some(count))
    }
}

// Reads a stream until the list is full or the input ends, or until a read fails; the bytes are at the list's
// beginning, one read's after the other's. Returns how many there are, or why the read failed.
//
// Open is which of the two it is if the list has room, how many bytes it says, and what the list holds then: that is what
// `read` answers and stores, of which its contract says only that it is an error or no more than there is room for. What is
// promised: so many bytes as it says are in the list, and it fails only if there was room to read into. What it makes of
// each answer is the promise of `after`.
pub fn read_from<R: Read>(stream: &mut R, list: &mut [u8]) -> io::Result<usize>
    ensures { Within (length list.new) result }
{
    // A while loop: a turn goes on by as many bytes as its read stored, which no range or iterator counts.
    let mut got: usize = 0;
    while got < list.len() {
        match after(stream.read(&mut list[got..]))? {
            Some(count) => got += count,
            None => return Ok(got),
        }
    }
    Ok(got)
}

// The same of standard input.
pub fn read_input(mut input: Stdin, list: &mut [u8]) -> io::Result<usize>
    ensures { Within (length list.new) result }
{
    read_from(&mut input, list)
}

// The place from 1 of the record of `size` bytes that the last bytes of an input, after so many records, end inside, if they
// do not end with a whole one.
pub fn cut_at(size: usize, records: u64, bytes: usize) -> Option<u64>
    requires { (0 < size) × (records + bytes / size + 1 < 2 ^ 64) }
    ensures { result ≡ place_of (cut_place size records bytes) }
{
    if bytes.is_multiple_of(size) {
        return None;
    }
    Some(records + (bytes / size) as u64 + 1)
}

// Writes the first n bytes of a text. The text is lent whole, since what stores one answers the place behind it. Fails if not all were
// taken.
pub fn say(output: Stdout, n: usize, text: &[u8]) -> io::Result<()>
    requires { n ≤ length text.now }
{
    output.write_all(&text[..n])
}

// Writes the line of a refusal with its place, two numbers as they are written, made in a lent text. Fails if it was not taken.
pub fn say_refused(output: Stdout, number: u64, place: u64, text: &mut [u8]) -> io::Result<()> {
    let end = behind(put_refused_at(text, 0, number, place), 0);
    say(output, end, text)
}

// Writes the line of a record that an input ends inside, by its place from 1, made in a lent text, if there is one. Fails if it
// was not taken.
pub fn say_cut(output: Stdout, place: Option<u64>, text: &mut [u8]) -> io::Result<()> {
    match place {
        Some(place) => say_refused(output, refusal_number(Refusal::Ragged), place, text),
        None => Ok(()),
    }
}

// Writes a line to standard error. `say` of `calls_run` does the same to standard output, a handle of another type.
pub fn say_error(errors: Stderr, line: &[u8]) {
    let _ = errors.write_all(line);
}
