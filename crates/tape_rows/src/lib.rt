// A tape's list: a row of numbers for each block, in a list that the caller lends.
#![tactic(auto)]

ghost use Rattle.std.specs.Prelude.{◌≡◌, ◌+◌, ◌*◌, ◌<◌, ◌≤◌, length};
ghost use Rattle.tape.specs.Tape.{records_in};
ghost use Rattle.tape.specs.Answers.{most_blocks};
ghost use Rattle.tape_rows.specs.Rows.{ListedTape, row_from, row_size, rows_from, sheet_row};

use display::{Refusal, RefusedAt};
use line::Given;
use line::lists::{GIVEN, store_given_numbers};
use machine::Block;
use machine::corner::cap_beside;
use ramps::given_between;
use tape::records::{block_at, records_in};
use tapeplan::sheet::SHEET;
use tapeplan::whole::{JUNCTIONS, plan_on_work_sheet};
use tapeplan::{Measured, Planned};

// Numbers of a row: those of a block given out, its cap, and the cap of the junction where it begins, (µm/s)².
pub const ROW: usize = GIVEN + 2;

// Stores the row of a block given out: its numbers, its cap, and the cap of the junction where it begins, both (µm/s)². A row is a
// part of the lent list, so it is a slice with its length in a clause.
fn store_row(g: Given, cap: u64, junction: u64, row: &mut [u64])
    requires { length row.old ≡ row_size }
    ensures { row.new ≡ row_from g cap junction }
{
    store_given_numbers(g, row);
    row[GIVEN] = cap;
    row[GIVEN + 1] = junction;
}

// Stores the row of block k, from its row of the sheet, which has its mark too, and the one before it, of which the first block
// needs none, since its corner is 0, and the plan's numbers at its two ends.
#[tactic(auto, unfolding(line::specs::Answers::given_between))]
fn put_row(s: &[u8], tape: Planned, k: usize, row: &mut [u64])
    requires { (k < records_in s.now) × (k < most_blocks) × (length row.old ≡ row_size) }
    ensures { row.new ≡ sheet_row s.now tape.entry.sheet.now tape.entry.plan.now k }
{
    let last = tape.row(k.saturating_sub(1));
    let here = tape.row(k);
    let b = Block {
        mark: here.mark,
        ..block_at(s, k)
    };
    let given = given_between(b, here.numbers, tape.plan[k], tape.plan[k + 1]);
    let junction = cap_beside(last.numbers, here.numbers, here.corner);
    store_row(given, here.numbers.cap, junction, row);
}

// Stores the rows of the first n blocks.
fn put_rows(s: &[u8], tape: Planned, n: usize, list: &mut [u64])
    requires { (n ≤ records_in s.now) × (n ≤ most_blocks) × (length list.old ≡ row_size * n) }
    ensures { list.new ≡ rows_from (sheet_row s.now tape.entry.sheet.now tape.entry.plan.now) 0 n }
{
    // By index: over `chunks_exact_mut` the proof did not close, since the facts of such a loop do not speak of the list.
    for k in 0..n {
        let first = ROW * k;
        put_row(s, tape, k, &mut list[first..first + ROW]);
    }
}

// Fills the lent list with a row for each block of a tape, in order, planned from rest to rest with the torque steps that are
// loaded, eight bytes, or none for the built-in steps. Checks 10, 9, 1, 14, each record in turn, then 11 where the list has not
// exactly `ROW` numbers for each block; on a refusal the list holds what it held.
pub fn list_tape(s: &[u8], steps: &[u8], list: &mut [u64]) -> Result<(), RefusedAt>
    ensures { ListedTape s.now steps.now list.old list.new result }
{
    let mut sheet = [Measured::default(); SHEET];
    let mut plan = [0u64; JUNCTIONS];
    plan_on_work_sheet(s, steps, &mut sheet, &mut plan)?;
    let n = records_in(s);
    if list.len() != ROW * n {
        return Err(Refusal::List.into());
    }
    let tape = Planned {
        sheet: &sheet,
        plan: &plan,
    };
    put_rows(s, tape, n, list);
    Ok(())
}
