// A whole text: its lines one after the other, and the records of its blocks, all or none.
ghost use Rattle.std.specs.Prelude.{◌≡◌, []};
ghost use Rattle.rs274.specs.Answers.{WroteText};
ghost use Rattle.rs274.specs.Kept.{Holds, Reads};
ghost use Rattle.rs274.specs.Text.{text_run};

use crate::kept::Kept;
use crate::line::take_line;
use crate::state::begin;
use display::RefusedAt;
use words::bytes::line_length;

// Reads the lines of a text and keeps the records of its blocks. Refuses with the number of the line at fault, counted
// from 1.
fn read_lines(text: &[u8], kept: &mut Kept) -> Result<(), RefusedAt>
    requires { Holds kept.old.bytes kept.old.count [] }
    ensures { Reads (text_run text.now) result kept.new }
{
    let mut m = begin();
    let mut place = 0;
    // By what is left, and no `for`: from the pieces of `split_inclusive` the line feeds would have to be taken off again, and std
    // has no clause `runs` of it, so that a proof over `split_inclusive(..).enumerate()` did not close.
    let mut rest = text;
    while !rest.is_empty() {
        let size = line_length(rest);
        place += 1;
        m = take_line(m, place, &rest[..size], kept).map_err(|why| RefusedAt { why, place })?;
        // behind the line feed, which the last line may not have
        rest = &rest[rest.len().min(size + 1)..];
    }
    Ok(())
}

// Writes the blocks of a text as tape records from the first lent byte on, all or none, and answers how many there are.
// Any bytes are a text. Refuses with the number of the line at fault, counted from 1; 0 where too little is lent.
pub fn text_records(text: &[u8], records: &mut [u8]) -> Result<usize, RefusedAt>
    ensures { WroteText text.now records.old result records.new }
{
    let mut kept = Kept::new();
    read_lines(text, &mut kept)?;
    kept.write(records)
}
