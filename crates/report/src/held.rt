// What held each inner junction of a tape back.
ghost use Rattle.std.specs.Prelude.{◌≡◌, ◌+◌, ◌<◌, length};
ghost use Rattle.tape.specs.Answers.{most_blocks};
ghost use Rattle.report.specs.Counts.{list_from};
ghost use Rattle.report.specs.Rows.{held_from, held_number, row_held};
ghost use Rattle.report.specs.Held.{HeldTape};

use display::{Refusal, RefusedAt};
use tape::records::records_in;
use tapeplan::sheet::SHEET;
use tapeplan::whole::{JUNCTIONS, plan_on_work_sheet};
use tapeplan::{Measured, Planned};

// What held a junction back, with its number in a list.
#[derive(Clone, Copy, Debug, PartialEq, Eq, Hash)]
pub enum HeldBy {
    // the feed or an axis
    Feed = 0,
    Corner = 1,
    // the chord rule
    Chord = 2,
    // the reach of the blocks around it
    Reach = 3,
}

impl HeldBy {
    // Its number in a list. No `From`: it is for this crate alone.
    fn number(self) -> u64
        ensures { result ≡ held_number self }
    {
        self as u64
    }
}

// What held the junction between two blocks at the plan's squared speed there, (µm/s)². A junction at its cap is held by the
// first of feed, corner and chord that is this speed, so what neither of the first two is, the chord rule's cap is.
#[tactic(auto, unfolding(crate::specs::Rows::held_from))]
pub(crate) fn held_by(a: Measured, b: Measured, speed: u64) -> HeldBy
    ensures { held_number result ≡ held_from a b speed }
{
    let block = a.numbers.cap.min(b.numbers.cap);
    let cap = block.min(b.corner);
    if speed != cap {
        return HeldBy::Reach;
    }
    let feed = a.square.min(b.square);
    if feed == speed {
        return HeldBy::Feed;
    }
    if b.corner == speed {
        return HeldBy::Corner;
    }
    HeldBy::Chord
}

// Stores the number of what held each junction between the first blocks of a sheet.
fn store_held(tape: Planned, list: &mut [u64])
    requires { length list.old < most_blocks }
    ensures { list.new ≡ list_from (row_held tape.entry.sheet.now tape.entry.plan.now) 0 (length list.old) }
{
    for (i, held) in list.iter_mut().enumerate() {
        let a = tape.row(i);
        let b = tape.row(i + 1);
        *held = held_by(a, b, tape.plan[i + 1]).number();
    }
}

// Fills the lent list with what held each inner junction of a tape, in order, planned with the torque steps that are loaded,
// eight bytes, or none for the built-in steps. Checks 10, 9, 1, 14, each record in turn, then 11 where the list has not exactly
// as many numbers as the tape has inner junctions, one fewer than blocks and 0 without a block; on a refusal the list holds
// what it held.
pub fn held_back(s: &[u8], steps: &[u8], list: &mut [u64]) -> Result<(), RefusedAt>
    ensures { HeldTape s.now steps.now list.old list.new result }
{
    let mut sheet = [Measured::default(); SHEET];
    let mut plan = [0u64; JUNCTIONS];
    plan_on_work_sheet(s, steps, &mut sheet, &mut plan)?;
    if list.len() != records_in(s).saturating_sub(1) {
        return Err(Refusal::List.into());
    }
    let tape = Planned {
        sheet: &sheet,
        plan: &plan,
    };
    store_held(tape, list);
    Ok(())
}
