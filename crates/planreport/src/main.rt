// Reports on the tapes of the files that are named, planned with the torque steps of the file that `--steps` names, or the
// built-in ones: a header, a line for each tape in the order of the names, and a line for all. A file that cannot be opened or
// read is reported on standard error; it has no line and counts nowhere. If the output does not take a line, a line on standard
// error says so, and nothing follows.
#![tactic(auto)]

use arguments::{PATH_MAX, Program, STEPS, WorkError, read_file_at, start, words_end};
use options::{Form, MANY};
use report::NUMBERS;
use report_text::{LINE, put_all, put_header, put_tape};
use std::io;
use std::io::Stdout;
use std::rt::{Env, Files};
use streams::{Streams, say};
use tape::MOST_BYTES;
use text::behind;

// One byte more than the longest tape: a longer file is refused by 10 whatever follows, so no more of it is read.
const INPUT: usize = MOST_BYTES + 1;
// Bytes of the longest line: what is longest beside a name, and the longest name that can be opened.
const TEXT: usize = LINE + PATH_MAX;

// The report of the tapes so far, planned with these loaded steps, and room for the text of a line.
#[derive(Drop)]
struct Report<'a> {
    steps: &'a [u8],
    all: [u64; NUMBERS],
    text: [u8; TEXT],
}

impl<'a> Report<'a> {
    // That of no tape.
    fn new(steps: &'a [u8]) -> Report<'a> {
        let mut all = [0u64; NUMBERS];
        report::fresh(&mut all);
        Report {
            steps,
            all,
            text: [0u8; TEXT],
        }
    }

    // Writes the header.
    fn say_header(&mut self, output: Stdout) -> io::Result<()> {
        let end = behind(put_header(&mut self.text), 0);
        say(output, end, &self.text)
    }

    // Adds a tape and writes its line, with the name of its file.
    fn say_tape(&mut self, output: Stdout, tape: &[u8], name: &[u8]) -> io::Result<()> {
        let answer = report::add(&mut self.all, tape, self.steps);
        let end = behind(put_tape(answer, name, &mut self.text), 0);
        say(output, end, &self.text)
    }

    // Does that with the file whose name is at this place; if it cannot be opened or read, only that is reported.
    fn say_file<R: Env + Files>(
        &mut self,
        rt: &R,
        streams: Streams,
        place: usize,
    ) -> io::Result<()> {
        let mut name = [0u8; PATH_MAX];
        let mut tape = [0u8; INPUT];
        match read_file_at(
            rt,
            streams.errors,
            b"planreport",
            place,
            &mut name,
            &mut tape,
        ) {
            Some(read) => self.say_tape(streams.output, &tape[..read.got], &name[..read.named]),
            None => Ok(()),
        }
    }

    // Writes the line of all tapes.
    fn say_all(&mut self, output: Stdout) -> io::Result<()> {
        let end = behind(put_all(&self.all, &mut self.text), 0);
        say(output, end, &self.text)
    }
}

// Writes the report of the files that are named from this place on, as long as its lines are taken.
fn say_report<R: Env + Files>(
    rt: &R,
    streams: Streams,
    first: usize,
    steps: &[u8],
) -> io::Result<()> {
    let mut report = Report::new(steps);
    report.say_header(streams.output)?;
    for place in first..words_end(rt) {
        report.say_file(rt, streams, place)?;
    }
    report.say_all(streams.output)
}

fn main(rt: HostRuntime) {
    let program = Program {
        name: b"planreport",
        usage: b"usage: planreport [--steps FILE] TAPE...\n\
            Plans each tape and writes a header, a line for each tape, and a line for all.\n\
            Length is um, peak a squared speed; feed, corner, chord, reach: junctions held.\n\
            A tape that is refused gives `refused N at P` and its name, and does not count.\n\
            FILE: the owner's 8 torque percentages, a byte each; if none or empty, built-in.\n",
        output: b"the whole report",
        form: Form {
            steps: true,
            width: false,
            least: 1,
            most: MANY,
            numbers: false,
            input: false,
        },
    };
    // The words name one file at least, so there is a first.
    start::<STEPS, _>(&rt, program, |streams, seen, steps| match seen.first {
        Some(first) => say_report(&rt, streams, first, steps).map_err(WorkError::Output),
        None => Ok(()),
    });
}
