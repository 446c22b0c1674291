// What held tapes back, for C: a report over up to 100 tapes in numbers that the caller lends, and what held each inner
// junction of one tape. Bytes and lists are handed over as a pointer and their number.
ghost use Rattle.std.specs.Prelude.{◌≡◌};
ghost use Rattle.report.specs.Report.{fresh_report};
ghost use Rattle.fullerecru.specs.Reports.{HeldLent, ReportLent};

use crate::numbers::{COUNT, planned_number, put_number, refused_number};
use report::held::held_back;
use report::tapes::{FIGURES, store_figures};

// Makes a fresh report: no tape was accepted.
#[unsafe(no_mangle)]
pub extern "C" fn fullerecru_report_fresh(report: &mut [u64; report::NUMBERS])
    ensures { report.new ≡ fresh_report }
{
    report::fresh(report);
}

// Adds a tape to a report, planned with the torque steps of `fullerecru_fresh`: `figures` gets the tape's blocks, total length,
// µm, greatest peak, (µm/s)², and its inner junctions held by feed or axis, corner, chord and reach; the report's numbers are
// how many tapes were accepted and these figures of all. Refuses by 10 after 100 accepted, then by 10, 9, 1, 14, each record
// in turn by 2 to 5, and then report and figures stay as they were. The place is that of the record at fault, counted from 1,
// or 0 where no record is at fault.
#[unsafe(no_mangle)]
pub extern "C" fn fullerecru_report_add(
    report: &mut [u64; report::NUMBERS],
    tape: &[u8],
    steps: &[u8],
    figures: &mut [u64; FIGURES],
    place: &mut [u64; COUNT],
) -> u64
    ensures { ReportLent report.old tape.now steps.now result report.new figures.old figures.new place.new }
{
    match report::add(report, tape, steps) {
        Ok(f) => {
            store_figures(f, figures);
            put_number(place, 0);
            0
        }
        Err(fault) => refused_number(fault, place),
    }
}

// Fills the list with what held each inner junction of a tape, in order: 0 the feed or an axis, 1 the corner, 2 the chord rule,
// 3 the reach of blocks. Refuses as `fullerecru_plan_tape`, by 11 where the list has not exactly as many numbers as the tape
// has inner junctions, one fewer than blocks and 0 without a block, and then the list stays as it was.
#[unsafe(no_mangle)]
pub extern "C" fn fullerecru_held_by(
    tape: &[u8],
    steps: &[u8],
    list: &mut [u64],
    place: &mut [u64; COUNT],
) -> u64
    ensures { HeldLent tape.now steps.now result list.old list.new place.new }
{
    planned_number(held_back(tape, steps, list), place)
}
