// What held tapes back: `fullerecru::reports` for C.
ghost use Rattle.std.specs.Prelude.{◌≡◌};
ghost use Rattle.report.specs.Report.{fresh_report};
ghost use Rattle.fullerecru.specs.Reports.{HeldLent, ReportLent};

use fullerecru::{COUNT, reports};
use report::tapes::FIGURES;

// Makes a fresh report.
#[unsafe(no_mangle)]
pub extern "C" fn fullerecru_report_fresh(report: &mut [u64; report::NUMBERS])
    ensures { report.new ≡ fresh_report }
{
    reports::fullerecru_report_fresh(report);
}

// Adds a tape to a report, planned with the torque steps of `fullerecru_fresh`.
#[unsafe(no_mangle)]
pub extern "C" fn fullerecru_report_add(
    report: &mut [u64; report::NUMBERS],
    tape: &[u8],
    steps: &[u8],
    figures: &mut [u64; FIGURES],
    place: &mut [u64; COUNT],
) -> u64
    ensures { ReportLent report.old tape.now steps.now result report.new figures.old figures.new place.new }
{
    reports::fullerecru_report_add(report, tape, steps, figures, place)
}

// Fills the list with what held each inner junction of a tape, in order.
#[unsafe(no_mangle)]
pub extern "C" fn fullerecru_held_by(
    tape: &[u8],
    steps: &[u8],
    list: &mut [u64],
    place: &mut [u64; COUNT],
) -> u64
    ensures { HeldLent tape.now steps.now result list.old list.new place.new }
{
    reports::fullerecru_held_by(tape, steps, list, place)
}
