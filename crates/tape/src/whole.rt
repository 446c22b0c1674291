// A whole tape: its limits, and then its records to the end.
ghost use Rattle.std.specs.Prelude.{◌≡◌};
ghost use Rattle.display.specs.Display.{outcome_of, placed_outcome_of};
ghost use Rattle.tape.specs.Answers.{check_records, check_tape, read_head};

use crate::limits::read_limits;
use crate::records::{block_at, records_in};
use crate::{LIMITS_BYTES, MOST_BYTES, RECORD_BYTES};
use display::{Refusal, RefusedAt};
use machine::Limits;
use machine::check::check_block;

// The limits of a whole tape, by the checks that come before its records: 10, 9, 1.
pub fn read_head(s: &[u8]) -> Result<Limits, Refusal>
    ensures { outcome_of result ≡ read_head s.now }
{
    if MOST_BYTES < s.len() {
        return Err(Refusal::Many);
    }
    if s.len() < LIMITS_BYTES {
        return Err(Refusal::Ragged);
    }
    if !(s.len() - LIMITS_BYTES).is_multiple_of(RECORD_BYTES) {
        return Err(Refusal::Ragged);
    }
    read_limits(s)
}

// Checks each record in turn, and answers how many there are. Each lies whole in the tape. Refuses with the place of the
// record at fault, counted from 1.
pub fn check_records(s: &[u8]) -> Result<usize, RefusedAt>
    ensures { placed_outcome_of result ≡ check_records s.now }
{
    let n = records_in(s);
    for k in 0..n {
        check_block(block_at(s, k)).map_err(|why| RefusedAt { why, place: k + 1 })?;
    }
    Ok(n)
}

// Checks a whole tape: 10, 9, 1, which are of no record, then each record in turn.
pub fn check_tape(s: &[u8]) -> Result<usize, RefusedAt>
    ensures { placed_outcome_of result ≡ check_tape s.now }
{
    read_head(s)?;
    check_records(s)
}
