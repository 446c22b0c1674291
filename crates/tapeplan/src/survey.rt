// What a plan needs of a tape, the junction cap where each block begins and its reach, and what a listing or a report needs
// besides, in a sheet. Each record is decoded and its numbers are worked out once.
ghost use Rattle.std.specs.Prelude.{◌≤◌, length};
ghost use Rattle.machine.specs.Numbers.{LimitsBelow};
ghost use Rattle.tape.specs.Tape.{records_in};
ghost use Rattle.tapeplan.specs.Survey.{Surveyed};

use crate::Measured;
use crate::junctions::corner_of;
use crate::sheet::keep;
use display::RefusedAt;
use machine::blocks::no_block;
use machine::check::check_block;
use machine::corner::cap_beside;
use machine::measure::gauge;
use machine::{Machine, Numbers};
use profile::Span;
use tape::records::{block_at, records_in};

// Checks each record in turn and fills the line with the spans of the blocks, and the sheet with a row for each as far as it has
// rows. Answers how many records there are, or refuses with the place of the one at fault, counted from 1.
pub fn survey(
    s: &[u8],
    m: Machine,
    sheet: &mut [Measured],
    line: &mut [Span],
) -> Result<usize, RefusedAt>
    requires { LimitsBelow m.limits × (records_in s.now ≤ length line.old) }
    ensures { Surveyed m s.now sheet.old sheet.new line.new result }
{
    let count = records_in(s);
    // No block and numbers of 0 before the first: an Option of both would be no plainer, since the cap there, which these
    // numbers make 0, would need a case of its own.
    let mut before = no_block();
    let mut known = Numbers::default();
    for k in 0..count {
        let b = block_at(s, k);
        check_block(b).map_err(|why| RefusedAt { why, place: k + 1 })?;
        let gauged = gauge(m, b);
        let n = gauged.numbers;
        let corner = corner_of(k, m.limits.jump, before, known, b, n);
        keep(
            sheet,
            k,
            Measured {
                mark: b.mark,
                numbers: n,
                square: gauged.square,
                corner,
            },
        );
        line[k] = Span {
            cap: cap_beside(known, n, corner),
            reach: n.reach,
        };
        before = b;
        known = n;
    }
    Ok(count)
}
