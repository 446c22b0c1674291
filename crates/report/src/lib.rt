// What held tapes back: the figures of a tape, and one report over up to 100 tapes. The figures are the tape's blocks, their
// total length, the greatest peak, and its inner junctions counted by what held them. A report is `NUMBERS` numbers that the
// caller lends, C too, and no type of this crate; every content of them is answered. What the calls answer and leave is in
// specs/Figures.antt and Report.antt.
#![tactic(auto)]

mod counting;
pub mod held;
pub mod tapes;

ghost use Rattle.std.specs.Prelude.{◌≡◌};
ghost use Rattle.display.specs.Display.{placed_outcome_of};
ghost use Rattle.report.specs.Report.{Reported, all_of, fresh_report, report_numbers, with_figures};

use counting::none;
use display::{Refusal, RefusedAt};
use tapes::figures_of;

// Numbers of a report: how many tapes were accepted, and the seven figures of all of them.
pub const NUMBERS: usize = 8;
// Tapes that a report accepts at most.
pub const MOST_TAPES: u64 = 100;

// The figures of a tape, or of all tapes of a report.
#[derive(Clone, Copy, Debug, Default, PartialEq, Eq, Hash)]
pub struct Figures {
    pub blocks: u64,
    // total length, µm
    pub length: u64,
    // the greatest peak, (µm/s)²; 0 without blocks
    pub peak: u64,
    // inner junctions held by the feed or an axis, by the corner, by the chord rule, and by the reach of blocks
    pub feed: u64,
    pub corner: u64,
    pub chord: u64,
    pub reach: u64,
}

// The figures of all with those of one more tape: sums in 64 bits, and the greater peak.
#[tactic(auto, unfolding(crate::specs::Report::with_figures))]
fn with_figures(all: Figures, f: Figures) -> Figures
    ensures { result ≡ with_figures all f }
{
    Figures {
        blocks: all.blocks.wrapping_add(f.blocks),
        length: all.length.wrapping_add(f.length),
        peak: all.peak.max(f.peak),
        feed: all.feed.wrapping_add(f.feed),
        corner: all.corner.wrapping_add(f.corner),
        chord: all.chord.wrapping_add(f.chord),
        reach: all.reach.wrapping_add(f.reach),
    }
}

// Stores a report's numbers. No `From`: the list is the caller's, and is stored in place.
fn store(report: &mut [u64; NUMBERS], tapes: u64, all: Figures)
    ensures { report.new ≡ report_numbers tapes all }
{
    *report = [
        tapes, all.blocks, all.length, all.peak, all.feed, all.corner, all.chord, all.reach,
    ];
}

// Makes a fresh report: no tape was accepted.
pub fn fresh(report: &mut [u64; NUMBERS])
    ensures { report.new ≡ fresh_report }
{
    store(report, 0, none());
}

// Adds a tape, planned with the torque steps that are loaded, eight bytes, or none for the built-in steps, and answers its own
// figures. Refuses by 10 after 100 accepted tapes, at place 0, then as `tapes::figures_of`; a refused tape changes nothing.
pub fn add(report: &mut [u64; NUMBERS], tape: &[u8], steps: &[u8]) -> Result<Figures, RefusedAt>
    ensures { Reported report.old tape.now steps.now (placed_outcome_of result) report.new }
{
    let tapes = report[0];
    if MOST_TAPES <= tapes {
        return Err(Refusal::Many.into());
    }
    let f = figures_of(tape, steps)?;
    let sum = with_figures(all(report), f);
    store(report, tapes + 1, sum);
    Ok(f)
}

// The figures of all tapes that were accepted.
pub fn all(report: &[u64; NUMBERS]) -> Figures
    ensures { result ≡ all_of report.now }
{
    let [_, blocks, length, peak, feed, corner, chord, reach] = *report;
    Figures {
        blocks,
        length,
        peak,
        feed,
        corner,
        chord,
        reach,
    }
}
