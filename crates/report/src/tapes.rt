// The figures of one tape.
ghost use Rattle.std.specs.Prelude.{◌≡◌, length};
ghost use Rattle.display.specs.Display.{placed_outcome_of};
ghost use Rattle.report.specs.Figures.{figure_count, figure_numbers, tape_figures};

use crate::Figures;
use crate::counting::count_rows;
use display::RefusedAt;
use tape::records::records_in;
use tapeplan::sheet::SHEET;
use tapeplan::whole::{JUNCTIONS, plan_on_work_sheet};
use tapeplan::{Measured, Planned};

// Figures of a tape.
pub const FIGURES: usize = 7;

// The figures of a tape, planned with the torque steps that are loaded, eight bytes, or none for the built-in steps. Checks 10,
// 9, 1, 14, then each record in turn. Each record is decoded and its numbers are worked out once.
pub fn figures_of(s: &[u8], steps: &[u8]) -> Result<Figures, RefusedAt>
    ensures { placed_outcome_of result ≡ tape_figures s.now steps.now }
{
    let mut sheet = [Measured::default(); SHEET];
    let mut plan = [0u64; JUNCTIONS];
    plan_on_work_sheet(s, steps, &mut sheet, &mut plan)?;
    let tape = Planned {
        sheet: &sheet,
        plan: &plan,
    };
    Ok(count_rows(tape, records_in(s)))
}

// Stores figures as numbers: blocks, length, peak, and the junctions held by feed, corner, chord and reach. No `From`: the list is
// the caller's.
pub fn store_figures(f: Figures, list: &mut [u64; FIGURES])
    ensures { list.new ≡ figure_numbers f }
{
    *list = [
        f.blocks, f.length, f.peak, f.feed, f.corner, f.chord, f.reach,
    ];
}
