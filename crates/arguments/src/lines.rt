// What is written: the usage or the version, or in one line on standard error what is wrong.
ghost use Rattle.std.specs.Prelude.{◌≡◌, ◌+◌, ◌≤◌, map, length};
ghost use Rattle.std.specs.Counts.{IsPrefixLen};
ghost use Rattle.text.specs.Store.{Stored};
ghost use Rattle.arguments.specs.Lines.{around_size, failed_line, line_of, line_size, missing_line, name_size, needed, shown_as, unread_line, untaken_line, version_line, word_size, wrong_line};

use crate::scan::read_word;
use crate::{FileError, WorkError};
use arrayvec::ArrayString;
use options::Valued;
use std::fmt::Write;
use std::io::{Error, Stderr, Stdout};
use std::rt::Env;
use streams::{say, say_error};
use text::{behind, put_bytes};

// Bytes of a program's name that are shown, of a word, and most of the words around them.
const NAME: usize = 64;

const WORD: usize = 256;

const AROUND: usize = 62;
// Bytes of the longest line.
const LINE: usize = NAME + WORD + AROUND;
// Bytes of an error's text: the system's longest reason, and what `std` adds to it.
const REASON: usize = 96;

// How a byte is shown in a line: a control character, such as a line feed, as a question mark.
#[tactic(auto, unfolding(crate::specs::Lines::shown_as))]
fn shown(byte: u8) -> u8
    ensures { result ≡ shown_as byte }
{
    if byte < 32 || byte == 127 { b'?' } else { byte }
}

// Makes a text fit to be shown in a line.
fn show(text: &mut [u8])
    ensures { text.new ≡ map shown_as text.old }
{
    for byte in text.iter_mut() {
        *byte = shown(*byte);
    }
}

// Stores a part of a line, for which there is room. The end comes beside the line, as `text` answers it.
fn store(line: &mut [u8; LINE], at: usize, part: &[u8]) -> usize
    requires { at + length part.now ≤ line_size }
    ensures { Stored line.old at part.now result line.new }
{
    behind(put_bytes(line, at, part), at)
}

// Stores a line: what is the matter, the word that it is about, and the rest after it.
fn store_line(
    line: &mut [u8; LINE],
    program: &[u8],
    matter: &[u8],
    word: &[u8],
    rest: &[u8],
) -> usize
    requires { length program.now + length matter.now + length word.now + length rest.now ≤ line_size }
    ensures { Stored line.old 0 (line_of program.now matter.now word.now rest.now) result line.new }
{
    let named = store(line, 0, program);
    let told = store(line, named, matter);
    let quoted = store(line, told, word);
    store(line, quoted, rest)
}

// What is missing: the value of this option, or else another word, which may be a number.
#[tactic(auto, unfolding(crate::specs::Lines::steps_need, crate::specs::Lines::width_needs, crate::specs::Lines::needs_more))]
fn needed(numbers: bool, option: Option<Valued>) -> &'static [u8]
    ensures text { result.now ≡ needed numbers option }
    ensures short { length result.now ≤ around_size }
{
    match option {
        Some(Valued::Steps) => b": '--steps' needs the name of a file, see --help\n",
        Some(Valued::Width) => b": '--width' needs a number, see --help\n",
        None if numbers => b": needs more numbers, see --help\n",
        None => b": needs the name of a file, see --help\n",
    }
}

// Reads the word at a place as it is shown in a line. Returns how many bytes it has.
fn read_shown<R: Env>(rt: &R, place: usize, word: &mut [u8]) -> usize
    ensures { IsPrefixLen result word.new }
{
    let got = read_word(rt, place, word);
    show(word);
    got
}

// Says the reason of an error: its text up to the system's number, which `std` adds after a space and in brackets.
fn say_reason(errors: Stderr, why: Error) {
    let mut text = ArrayString::<REASON>::new();
    let _ = write!(text, "{why}");
    let reason = text.as_str().as_bytes();
    match reason.iter().position(|&byte| byte == b'(') {
        Some(number) => say_error(errors, &reason[..number.saturating_sub(1)]),
        None => say_error(errors, reason),
    }
}

// What a program reports on standard error, and by as much of its name as is shown. Two are never compared.
#[derive(Clone, Copy)]
pub struct Reporter<'a> {
    errors: Stderr,
    program: &'a [u8],
    ghost short: { length program.now ≤ name_size },
}

impl<'a> Reporter<'a> {
    // That of the program of this name.
    pub fn of(errors: Stderr, name: &'a [u8]) -> Reporter<'a> {
        Reporter {
            errors,
            program: &name[..name.len().min(NAME)],
        }
    }

    // Stores the line that names a wrong word of a program that reads standard input, or does not.
    #[tactic(auto, unfolding(crate::specs::Lines::wrong_line, crate::specs::Lines::unexpected, crate::specs::Lines::advice))]
    fn store_wrong(self, line: &mut [u8; LINE], reads: bool, word: &[u8]) -> usize
        requires { length word.now ≤ word_size }
        ensures { Stored line.old 0 (wrong_line self.entry.program.now reads word.now) result line.new }
    {
        let advice = if reads {
            b"'; it reads standard input, see --help\n".as_slice()
        } else {
            b"'; see --help\n".as_slice()
        };
        store_line(line, self.program, b": unexpected argument '", word, advice)
    }

    // Stores the line of what is missing.
    #[tactic(auto, unfolding(crate::specs::Lines::missing_line))]
    fn store_missing(self, line: &mut [u8; LINE], numbers: bool, option: Option<Valued>) -> usize
        ensures { Stored line.old 0 (missing_line self.entry.program.now numbers option) result line.new }
    {
        store_line(line, self.program, needed(numbers, option), b"", b"")
    }

    // Stores the line of the version, which is the header's: a test of the house compares the two.
    #[tactic(auto, unfolding(crate::specs::Lines::version_line, crate::specs::Lines::version_text))]
    fn store_version(self, line: &mut [u8; LINE]) -> usize
        ensures { Stored line.old 0 (version_line self.entry.program.now) result line.new }
    {
        let version = b"0.12.0";
        store_line(line, self.program, b" ", version, b"\n")
    }

    // Stores the line of a file that could not be opened or read, up to the system's reason.
    #[tactic(auto, unfolding(crate::specs::Lines::failed_line, crate::specs::Lines::cannot_open, crate::specs::Lines::cannot_read))]
    fn store_failed(self, line: &mut [u8; LINE], why: FileError, name: &[u8]) -> usize
        requires { length name.now ≤ word_size }
        ensures { Stored line.old 0 (failed_line self.entry.program.now why name.now) result line.new }
    {
        let matter = match why {
            FileError::Unopened(_) => b": cannot open '".as_slice(),
            FileError::Unread(_) => b": cannot read '".as_slice(),
        };
        store_line(line, self.program, matter, name, b"'")
    }

    // Stores the line that standard output did not take this. It is written whole, so that the lines of two programs on one standard
    // error do not mix.
    #[tactic(auto, unfolding(crate::specs::Lines::untaken_line, crate::specs::Lines::untaken))]
    fn store_untaken(self, line: &mut [u8; LINE], what: &[u8]) -> usize
        requires { length what.now ≤ word_size }
        ensures { Stored line.old 0 (untaken_line self.entry.program.now what.now) result line.new }
    {
        store_line(
            line,
            self.program,
            b": standard output did not take ",
            what,
            b"\n",
        )
    }

    // Stores the line that standard input was not read to its end.
    #[tactic(auto, unfolding(crate::specs::Lines::unread_line, crate::specs::Lines::unread))]
    fn store_unread(self, line: &mut [u8; LINE]) -> usize
        ensures { Stored line.old 0 (unread_line self.entry.program.now) result line.new }
    {
        let matter = b": standard input could not be read to its end\n";
        store_line(line, self.program, matter, b"", b"")
    }

    // Says which word is wrong, as much of it as is shown.
    #[tactic(auto, using(text::proofs::Store::within, text::proofs::Store::length_front))]
    pub fn say_wrong<R: Env>(self, rt: &R, reads: bool, place: usize) {
        let mut word = [0u8; WORD];
        let got = read_shown(rt, place, &mut word);
        let mut line = [0u8; LINE];
        let end = self.store_wrong(&mut line, reads, &word[..got]);
        say_error(self.errors, &line[..end]);
    }

    // Says what is missing.
    #[tactic(auto, using(text::proofs::Store::within, text::proofs::Store::length_front))]
    pub fn say_missing(self, numbers: bool, option: Option<Valued>) {
        let mut line = [0u8; LINE];
        let end = self.store_missing(&mut line, numbers, option);
        say_error(self.errors, &line[..end]);
    }

    // Says that the file of this name could not be opened or read, as much of the name as is shown, and why: the system's reason
    // follows a colon and a space.
    #[tactic(auto, using(text::proofs::Store::within, text::proofs::Store::length_front))]
    pub fn say_failed(self, why: FileError, name: &mut [u8]) {
        show(name);
        let named = name.len().min(WORD);
        let mut line = [0u8; LINE];
        let end = self.store_failed(&mut line, why, &name[..named]);
        say_error(self.errors, &line[..end]);
        say_error(self.errors, b": ");
        match why {
            FileError::Unopened(reason) | FileError::Unread(reason) => {
                say_reason(self.errors, reason);
            }
        }
        say_error(self.errors, b"\n");
    }

    // Says that standard output did not take what was written, as much of the words for it as is shown.
    #[tactic(auto, using(text::proofs::Store::within, text::proofs::Store::length_front))]
    fn say_untaken(self, what: &[u8]) {
        let told = what.len().min(WORD);
        let mut line = [0u8; LINE];
        let end = self.store_untaken(&mut line, &what[..told]);
        say_error(self.errors, &line[..end]);
    }

    // Says that standard input was not read to its end.
    #[tactic(auto, using(text::proofs::Store::within, text::proofs::Store::length_front))]
    fn say_unread(self) {
        let mut line = [0u8; LINE];
        let end = self.store_unread(&mut line);
        say_error(self.errors, &line[..end]);
    }

    // Says why the program's work ended before it was done; this is what it writes.
    pub fn say_ended(self, why: WorkError, output: &[u8]) {
        match why {
            WorkError::Input(_) => self.say_unread(),
            WorkError::Output(_) => self.say_untaken(output),
        }
    }

    // Writes the usage to standard output.
    pub fn say_usage(self, output: Stdout, usage: &[u8]) {
        if say(output, usage.len(), usage).is_err() {
            self.say_untaken(b"the usage");
        }
    }

    // Writes the program's name and version to standard output.
    #[tactic(auto, using(text::proofs::Store::within, text::proofs::Store::length_front))]
    pub fn say_version(self, output: Stdout) {
        let mut line = [0u8; LINE];
        let end = self.store_version(&mut line);
        if say(output, end, &line).is_err() {
            self.say_untaken(b"the version");
        }
    }
}
