// The plan of a whole tape.
ghost use Rattle.std.specs.Prelude.{◌≡◌, length};
ghost use Rattle.display.specs.Display.{outcome_of};
ghost use Rattle.tapeplan.specs.Planned.{PlannedTape, SurveyedTape, WholeTape, most_junctions, planned_means, start_answer, whole_fault};
ghost use Rattle.tapeplan.specs.Sheet.{sheet_size};

use crate::Measured;
use crate::sheet::SHEET;
use crate::survey::survey;
use display::{Refusal, RefusedAt};
use machine::Machine;
use machine::torque::with_steps;
use passes::plan_from;
use profile::Span;
use tape::MOST_BLOCKS;
use tape::records::records_in;
use tape::whole::{check_records, read_head};

// A tape and the loaded steps are two lists, as C lends them.

// Junctions of the longest tape.
pub const JUNCTIONS: usize = MOST_BLOCKS + 1;

// The machine of a tape's limits and the loaded steps, by the checks that come before the tape's records: 10, 9, 1, 14.
fn machine_of(s: &[u8], steps: &[u8]) -> Result<Machine, Refusal>
    ensures { outcome_of result ≡ start_answer s.now steps.now }
{
    with_steps(read_head(s)?, steps)
}

// The checks of a whole tape with the loaded steps: 10, 9, 1, 14, which are of no record, then each record in turn.
#[tactic(auto, using(crate::proofs::Answered::start_fault, crate::proofs::Answered::records_fault, crate::proofs::Answered::whole_passes))]
pub fn check_whole(s: &[u8], steps: &[u8]) -> Result<(), RefusedAt>
    ensures { planned_means result ≡ whole_fault s.now steps.now }
{
    machine_of(s, steps)?;
    check_records(s)?;
    Ok(())
}

// Plans a tape as `plan_tape` does, and fills a work sheet with a row for each of its blocks, as far as it has rows. If the tape
// is refused, the work sheet holds anything.
fn plan_surveyed(
    s: &[u8],
    steps: &[u8],
    work: &mut [Measured],
    list: &mut [u64],
) -> Result<(), RefusedAt>
    ensures { SurveyedTape s.now steps.now work.old work.new list.old list.new result }
{
    let m = machine_of(s, steps)?;
    let mut line = [Span::default(); MOST_BLOCKS];
    let n = survey(s, m, work, &mut line)?;
    if list.len() != n + 1 {
        return Err(Refusal::List.into());
    }
    plan_from(0, &line[..n], list);
    Ok(())
}

// Plans a tape as `plan_tape` does, but into a list that has room for the plan of any tape, so that 11 is never given: the plan
// is at its beginning. What is measured of each block is stored, a row for each, at the beginning of the work sheet. On a
// refusal the plan holds what it held, but the work sheet anything: it is work memory of the function that calls this one, or
// that one has checked the tape. That only `tape_rows`, `listing` and `report` call it is tested (tests/run).
pub fn plan_on_work_sheet(
    s: &[u8],
    steps: &[u8],
    work: &mut [Measured; SHEET],
    plan: &mut [u64; JUNCTIONS],
) -> Result<(), RefusedAt>
    ensures { WholeTape s.now steps.now work.old work.new plan.old plan.new result }
{
    let junctions = records_in(s).min(MOST_BLOCKS) + 1;
    plan_surveyed(s, steps, work, &mut plan[..junctions])
}

// Fills the lent list with the highest lawful profile of the tape's blocks from rest to rest, one number for each
// junction, (µm/s)², on the machine of the tape's limits and the torque steps that are loaded, eight bytes, or none for the
// built-in steps. Checks 10, 9, 1, 14, each record in turn, 11; on a refusal the list holds what it held.
pub fn plan_tape(s: &[u8], steps: &[u8], list: &mut [u64]) -> Result<(), RefusedAt>
    ensures { PlannedTape s.now steps.now list.old list.new result }
{
    let mut none = [Measured::default(); 0];
    plan_surveyed(s, steps, &mut none, list)
}
