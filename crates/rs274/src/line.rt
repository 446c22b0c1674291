// One line of a text: its words, what they do, and its block, kept until the whole text is read.
ghost use Rattle.std.specs.Prelude.{◌≡◌, List};
ghost use Rattle.machine.specs.declared.Block.{Block};
ghost use Rattle.rs274.specs.Kept.{Holds, Near, Takes};
ghost use Rattle.words.specs.Words.{words_in};
ghost use Rattle.rs274.specs.Bounds.{WordsWithin};
ghost use Rattle.rs274.specs.Text.{run_of, with_line, with_words};

use crate::Modal;
use crate::kept::Kept;
use crate::state::{block_between, modal_after};
use display::Refusal;
use words::SLOTS;
use words::scan::read_words;

// What is in force behind the words of the line with this number, counted from 1; its block is kept.
fn take_words(
    m: Modal,
    place: usize,
    words: &[Option<i64>; SLOTS],
    kept: &mut Kept,
) -> Result<Modal, Refusal>
    requires { WordsWithin (words_in words.now) × Near kept.old.count m }
    ensures { (blocks : List Block) → Holds kept.old.bytes kept.old.count blocks → Takes (with_words place (run_of m blocks) (words_in words.now)) result kept.new }
{
    let next = modal_after(m, words);
    kept.keep(block_between(m, next, place as u64))?;
    Ok(next)
}

// What is in force behind the line with this number, counted from 1; its block is kept.
pub(crate) fn take_line(
    m: Modal,
    place: usize,
    line: &[u8],
    kept: &mut Kept,
) -> Result<Modal, Refusal>
    requires { Near kept.old.count m }
    ensures { (blocks : List Block) → Holds kept.old.bytes kept.old.count blocks → Takes (with_line place (run_of m blocks) line.now) result kept.new }
{
    let mut words = [None; SLOTS];
    read_words(line, &mut words)?;
    take_words(m, place, &words, kept)
}
