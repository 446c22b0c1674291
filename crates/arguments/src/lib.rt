// The arguments that a program is started with: a `Form` of `options` says what it takes. What is wrong, what is missing, and a file
// that cannot be opened or read is reported in one line on standard error, and the program does nothing; but if it is one of several
// files, the others are worked on.
#![tactic(auto)]

pub mod file;
mod lines;
mod scan;

ghost use Rattle.std.specs.Prelude.{◌≡◌, ◌≤◌, ◌<◌, ◌^◌, length, IfSome};
ghost use Rattle.arguments.specs.Files.{AtWithin, at_of};
ghost use Rattle.arguments.specs.Starts.{Asking, Carried, Started, file_named, start_of};
ghost use Rattle.options.specs.declared.Seen.{Seen};
ghost use Rattle.streams.specs.declared.Streams.{Streams};

use file::read_file;
use lines::Reporter;
use options::{Asked, Form, Seen, asked_by};
use scan::{is_word, read_seen, read_word};
use std::io::{Error, Stderr};
use std::rt::{Env, Files};
use streams::Streams;

// Bytes that the programs lend for the steps: one more than good steps have, so that a longer file shows itself (the law
// `steps_cut` of `machine`).
pub const STEPS: usize = machine::torque::STEPS + 1;

// Bytes of the longest name that can be opened, and one more.
pub const PATH_MAX: usize = 4_096;

// A program: its name, its usage, what its work writes to standard output, and what it takes. Two are never compared.
#[derive(Clone, Copy)]
pub struct Program<'a> {
    pub name: &'a [u8],
    pub usage: &'a [u8],
    pub output: &'a [u8],
    pub form: Form,
}

// A program's work: what its words say, and so many bytes of the file that is read at once, at the beginning of the list that was
// lent. A number beside the list, as std's `read` answers it.
#[derive(Clone, Copy, Debug, PartialEq, Eq, Hash)]
pub struct Work {
    pub seen: Seen,
    pub got: usize,
}

// Why a program's work ended before it was done, with the system's reason, which has no equality.
#[derive(Clone, Copy, Debug)]
pub enum WorkError {
    // standard input could not be read to its end
    Input(Error),
    // standard output did not take all that was written
    Output(Error),
}

// Why a file's bytes could not be had, with the system's reason, which has no equality.
#[derive(Clone, Copy, Debug)]
pub enum FileError {
    Unopened(Error),
    Unread(Error),
}

// So many bytes of a file's name and so many of the file were read, each at the beginning of its list.
#[derive(Clone, Copy, Debug, PartialEq, Eq, Hash)]
pub struct FileRead {
    pub named: usize,
    pub got: usize,
}

// What was read of a file whose name has so many bytes.
fn at_of(read: Result<usize, FileError>, named: usize) -> Option<FileRead>
    ensures { result ≡ at_of read named }
{
    let got = read.ok()?;
    Some(FileRead { named, got })
}

// The place of the file that is read at once, if there is one: the steps', or the first other word if the program knows no steps.
fn file_named(f: Form, s: Seen) -> Option<usize>
    ensures { result ≡ file_named f s }
{
    if f.steps { s.steps } else { s.first }
}

// What is left to do once so many bytes of the file were read, or it was not.
fn start_of(seen: Seen, read: Option<usize>) -> Option<Work>
    ensures { result ≡ start_of seen read }
{
    let got = read?;
    Some(Work { seen, got })
}

// Reads the name at this place and the file of that name. If that fails it is reported.
fn read_at<R: Env + Files>(
    rt: &R,
    reporter: Reporter,
    place: usize,
    name: &mut [u8],
    list: &mut [u8],
) -> Option<FileRead>
    ensures { AtWithin (length name.new) (length list.new) result }
{
    let named = read_word(rt, place, name);
    let read = read_file(rt, &name[..named], list);
    if let Err(why) = read {
        reporter.say_failed(why, &mut name[..named]);
    }
    at_of(read, named)
}

// Reads the file whose name is at this place, if one is named. If that fails it is reported. The list for the name has one byte
// more than the longest name that can be opened: what is longer cannot, whatever follows.
fn read_named<R: Env + Files>(
    rt: &R,
    reporter: Reporter,
    place: Option<usize>,
    list: &mut [u8],
) -> Option<usize>
    ensures { IfSome result (λ got. got ≤ length list.new) }
{
    let Some(place) = place else {
        return Some(0);
    };
    let mut name = [0u8; PATH_MAX];
    let read = read_at(rt, reporter, place, &mut name, list)?;
    Some(read.got)
}

// Does what the words of a program ask for, but its work. Returns what is left.
fn carry_out<R: Env + Files>(
    rt: &R,
    streams: Streams,
    program: Program,
    s: Seen,
    list: &mut [u8],
) -> Option<Work>
    ensures { Carried program.entry.form s (length list.new) result }
{
    let f = program.form;
    let reporter = Reporter::of(streams.errors, program.name);
    match asked_by(f, s) {
        Asked::Work => {
            return start_of(s, read_named(rt, reporter, file_named(f, s), list));
        }
        Asked::Usage => reporter.say_usage(streams.output, program.usage),
        Asked::Version => reporter.say_version(streams.output),
        Asked::Wrong(place) => reporter.say_wrong(rt, f.input, place),
        Asked::Missing(option) => reporter.say_missing(f.numbers, option),
    }
    None
}

// What is left to do for a program: its work if its words ask for it, with the bytes of the steps' file, or of the file that it needs
// if it knows no steps, at the beginning of the list that is lent, as many as there is room for. Else what it is asked has been done:
// the usage or the version is written to standard output, or the first word that is wrong, what is missing, or a file that could not be
// opened or read is reported on standard error. All words are looked at before that.
//
// Open is what the words are and what the file holds, so which of these it is; that is the system's part. What is made of the words is
// the promise of `options`, and what is written that of `lines`. If the work is left, there are words that ask for it (`AsksWork`) and
// say this, and so many bytes as are said to be in the list are in it.
pub fn read_start<R: Env + Files>(
    rt: &R,
    streams: Streams,
    program: Program,
    list: &mut [u8],
) -> Option<Work>
    ensures { Started program.entry.form (length list.new) result }
{
    let seen = read_seen(rt, program.form, words_end(rt));
    carry_out(rt, streams, program, seen, list)
}

// Starts a program: does its work with the first bytes, at most N, of the file that is read at once, if its words ask for it, and
// reports if that ends before it is done; else what they ask for. The work is done only with words that ask for it.
pub fn start<const N: usize, F: FnOnce(Streams, Seen, &[u8]) -> Result<(), WorkError>>(
    rt: &HostRuntime,
    program: Program,
    work: F,
)
    requires room { N < 2 ^ 63 }
    requires callable { (streams : Streams) (seen : Seen) (list : _) → Asking program.form seen → length list.now ≤ N → F.pre work streams seen list }
{
    let streams = Streams {
        input: rt.stdin(),
        output: rt.stdout(),
        errors: rt.stderr(),
    };
    let mut list = [0u8; N];
    if let Some(left) = read_start(rt, streams, program, &mut list) {
        let done = work(streams, left.seen, &list[..left.got]);
        if let Err(why) = done {
            Reporter::of(streams.errors, program.name).say_ended(why, program.output);
        }
    }
}

// The place after the last word. A program has as many words as long as it runs.
pub fn words_end<R: Env>(rt: &R) -> usize {
    (0..usize::MAX)
        .find(|&place| !is_word(rt, place))
        .unwrap_or(usize::MAX)
}

// Reads the name at a place, and the file of that name until the list is full or the file ends. A name that fills its list may be
// longer: `PATH_MAX` bytes are enough for each that can be opened. If the file cannot be opened or read that is reported on
// standard error, and nothing else is done.
//
// Open is what the name is, which file it leads to and what that holds. So many bytes as it says are in each list.
pub fn read_file_at<R: Env + Files>(
    rt: &R,
    errors: Stderr,
    program: &[u8],
    place: usize,
    name: &mut [u8],
    list: &mut [u8],
) -> Option<FileRead>
    ensures { AtWithin (length name.new) (length list.new) result }
{
    read_at(rt, Reporter::of(errors, program), place, name, list)
}
