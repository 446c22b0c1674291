// The text of a report: the line `blocks length peak feed corner chord reach tape`, a line for each tape with its name, and a
// line for all. Each is stored at the beginning of bytes that the caller lends, whole, or not at all where it has too little
// room: it has at most `LINE` bytes beside the name, and the header at most as many.
#![tactic(auto)]

ghost use Rattle.std.specs.Prelude.{◌≡◌, length};
ghost use Rattle.report.specs.Figures.{figure_count};
ghost use Rattle.report.specs.Report.{all_of};
ghost use Rattle.report_text.specs.Text.{PutLine, all_word, figures_line, report_header, tape_line};
ghost use Rattle.display.specs.Display.{placed_outcome_of, refusal_number};
ghost use Rattle.text.specs.Store.{Answered};
ghost use Rattle.text.specs.Text.{named_row, refused_named};

use display::{RefusedAt, refusal_number};
use report::tapes::{FIGURES, store_figures};
use report::{Figures, NUMBERS, all};
use text::{put_bytes, put_named_row, put_refused_named};

// Most bytes of a line beside its name: seven numbers, and a line feed.
pub const LINE: usize = 21 * FIGURES + 1;

// Stores the header.
#[tactic(auto, unfolding(crate::specs::Text::report_header))]
pub fn put_header(text: &mut [u8]) -> Option<usize>
    ensures { Answered text.old 0 report_header result text.new }
{
    put_bytes(
        text,
        0,
        b"blocks length peak feed corner chord reach tape\n",
    )
}

// Stores the seven numbers of figures and a name.
fn put_numbers(numbers: &[u64; FIGURES], name: &[u8], text: &mut [u8]) -> Option<usize>
    ensures { PutLine (named_row numbers.now name.now) name.now text.old result text.new }
{
    put_named_row(text, 0, numbers, name)
}

// Stores the line of figures with a name.
fn put_figures(f: Figures, name: &[u8], text: &mut [u8]) -> Option<usize>
    ensures { PutLine (figures_line f name.now) name.now text.old result text.new }
{
    let mut numbers = [0u64; FIGURES];
    store_figures(f, &mut numbers);
    put_numbers(&numbers, name, text)
}

// Stores the line of a refusal with a name.
fn put_refusal(r: RefusedAt, name: &[u8], text: &mut [u8]) -> Option<usize>
    ensures { PutLine (refused_named (refusal_number r.why) r.place name.now) name.now text.old result text.new }
{
    put_refused_named(text, 0, refusal_number(r.why), r.place as u64, name)
}

// Stores the line of a tape by what it was answered.
pub fn put_tape(answer: Result<Figures, RefusedAt>, name: &[u8], text: &mut [u8]) -> Option<usize>
    ensures { PutLine (tape_line (placed_outcome_of answer) name.now) name.now text.old result text.new }
{
    match answer {
        Ok(f) => put_figures(f, name, text),
        Err(r) => put_refusal(r, name, text),
    }
}

// Stores the line of all tapes.
pub fn put_all(report: &[u64; NUMBERS], text: &mut [u8]) -> Option<usize>
    ensures { PutLine (figures_line (all_of report.now) all_word) all_word text.old result text.new }
{
    put_figures(all(report), b"all", text)
}
