// The plan of a whole tape, from rest to rest, into a lent list of squared speeds, (µm/s)².
#![tactic(auto)]

mod junctions;
pub mod sheet;
mod survey;
pub mod whole;

use machine::Numbers;
use sheet::{SHEET, measured_at};
use whole::JUNCTIONS;

// What a sheet has of a block: its mark, its numbers, the square of its speed, (µm/s)², and the corner cap where
// it begins, as a number beside the block caps of that junction (`machine::corner::corner_beside`); 0 for the first block.
#[derive(Clone, Copy, Debug, Default, PartialEq, Eq, Hash)]
pub struct Measured {
    pub mark: u64,
    pub numbers: Numbers,
    pub square: u64,
    pub corner: u64,
}

// Who plans a tape makes sheet and plan, has them filled by `plan_on_work_sheet` and puts them together: four lines in three crates,
// since a function over a closure would have to say in its contract what the closure may ask of them.

// A tape that was planned: the sheet of what is measured of its blocks, a row for each, and the squared speed at each junction,
// (µm/s)². How many blocks it has is the tape's to say, and a listing keeps it of a refused tape too. Two are never compared.
#[derive(Clone, Copy)]
pub struct Planned<'a> {
    pub sheet: &'a [Measured; SHEET],
    pub plan: &'a [u64; JUNCTIONS],
}

impl Planned<'_> {
    ghost use Rattle.std.specs.Prelude.{◌≡◌, ◌<◌};
    ghost use Rattle.tape.specs.Answers.{most_blocks};
    ghost use Rattle.tapeplan.specs.Sheet.{measured_at};

    // What is measured of block k.
    pub fn row(self, k: usize) -> Measured
        requires { k < most_blocks }
        ensures { result ≡ measured_at self.entry.sheet.now k }
    {
        let sheet = self.sheet;
        measured_at(sheet, k)
    }
}
