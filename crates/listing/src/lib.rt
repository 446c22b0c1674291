// The listing of a whole tape as document 01 words it, for every bytes: a header and one line for each block, or the one
// line of the refusal. A tape is planned once, and its text comes in parts, each stored in bytes that the caller lends.
#![tactic(auto)]

ghost use Rattle.std.specs.Prelude.{◌≡◌, ◌+◌, ◌<◌, ◌≤◌, length};
ghost use Rattle.text.specs.Text.{refused_at};
ghost use Rattle.text.specs.Store.{Stored};
ghost use Rattle.display.specs.Display.{refusal_number};
ghost use Rattle.tape.specs.Answers.{most_blocks};
ghost use Rattle.given_text.specs.Given.{WroteLine, most_given};
ghost use Rattle.listing.specs.Parts.{LentTape, ListingFrom, head_in, header_size, line_of, only_first, part_blocks, part_of, part_size, planned_part, row_lines};

use display::{RefusedAt, refusal_number};
use given_text::{LINE, Listed, store_listed};
use ramps::ramp_between;
use tape::MOST_BLOCKS;
use tape::records::records_in;
use tapeplan::sheet::SHEET;
use tapeplan::whole::{JUNCTIONS, check_whole, plan_on_work_sheet};
use tapeplan::{Measured, Planned};
use text::{behind, put_header, put_refused_at};

// Lines of a part at most, and parts of a listing at most.
const BLOCKS: usize = 128;

pub const PARTS: usize = MOST_BLOCKS / BLOCKS;
// Bytes of the header, and bytes that hold any part: the header, and a longest line for each block.
const HEADER: usize = 49;

pub const TEXT: usize = HEADER + BLOCKS * LINE;
// Stores the line of block k, from its row of the sheet and the plan's numbers at its two ends.
fn put_block(tape: Planned, k: usize, text: &mut [u8], at: usize) -> usize
    requires { (k < most_blocks) × (at + most_given ≤ length text.old) }
    ensures { WroteLine (line_of tape.entry.sheet.now tape.entry.plan.now k) text.old at result text.new }
{
    let row = tape.row(k);
    let n = row.numbers;
    let entry = tape.plan[k];
    let exit = tape.plan[k + 1];
    let ramp = ramp_between(n, entry, exit);
    store_listed(
        text,
        at,
        Listed {
            mark: row.mark,
            length: n.length,
            accel: n.accel,
            entry,
            exit,
            ramp,
        },
    )
}

// Stores the lines of 128 blocks from block `first` on, as far as there are so many.
fn put_lines(blocks: usize, tape: Planned, first: usize, text: &mut [u8; TEXT], at: usize) -> usize
    requires { (first + part_blocks ≤ most_blocks) × (at ≤ header_size) }
    ensures { Stored text.old at (row_lines blocks tape.entry.sheet.now tape.entry.plan.now first part_blocks) result text.new }
{
    let to = (first + BLOCKS).min(blocks);
    let mut end = at;
    for k in first..to {
        end = put_block(tape, k, text, end);
    }
    end
}

// Stores the header in part 0.
fn put_head(p: usize, text: &mut [u8; TEXT]) -> usize
    ensures { Stored text.old 0 (head_in p) result text.new }
{
    if 0 < p {
        return 0;
    }
    behind(put_header(text, 0), 0)
}

// Stores the line of a refusal in part 0.
fn put_refusal(p: usize, r: RefusedAt, text: &mut [u8; TEXT]) -> usize
    ensures { Stored text.old 0 (only_first p (refused_at (refusal_number r.why) r.place)) result text.new }
{
    if 0 < p {
        return 0;
    }
    behind(
        put_refused_at(text, 0, refusal_number(r.why), r.place as u64),
        0,
    )
}

// Stores a part of a tape that was planned.
fn put_part(blocks: usize, tape: Planned, p: usize, text: &mut [u8; TEXT]) -> usize
    ensures { Stored text.old 0 (planned_part blocks tape.entry.sheet.now tape.entry.plan.now p) result text.new }
{
    if PARTS <= p {
        return 0;
    }
    let at = put_head(p, text);
    put_lines(blocks, tape, BLOCKS * p, text, at)
}

// Plans a tape into a lent sheet and a lent plan. On a refusal both hold what they held: the tape is checked before the planner
// takes the sheet for its work.
fn plan_lent(
    s: &[u8],
    steps: &[u8],
    sheet: &mut [Measured; SHEET],
    plan: &mut [u64; JUNCTIONS],
) -> Result<(), RefusedAt>
    ensures { LentTape s.now steps.now sheet.old sheet.new plan.old plan.new result }
{
    check_whole(s, steps)?;
    plan_on_work_sheet(s, steps, sheet, plan)
}

// What a tape's listing is made from, besides its sheet and its plan. Only `of` makes one.
#[derive(Clone, Copy, Debug, PartialEq, Eq, Hash)]
pub struct Listing {
    // that the tape was planned, or why not
    planned: Result<(), RefusedAt>,
    // how many blocks the tape has; the number of blocks is promised of a refused tape too
    blocks: usize,
}

impl Listing {
    // Plans a tape with the torque steps that are loaded, eight bytes, or none for the built-in steps, and stores what is
    // measured of each block in the lent sheet, and the squared speed at each junction, (µm/s)², at the beginning of the lent
    // plan. On a refusal sheet and plan hold what they held. The numbers of each block are worked out once.
    pub fn of(
        s: &[u8],
        steps: &[u8],
        sheet: &mut [Measured; SHEET],
        plan: &mut [u64; JUNCTIONS],
    ) -> Listing
        ensures { ListingFrom s.now steps.now sheet.old sheet.new plan.old plan.new result }
    {
        let planned = plan_lent(s, steps, sheet, plan);
        Listing {
            planned,
            blocks: records_in(s).min(MOST_BLOCKS),
        }
    }

    // Stores part p, counted from 0, of the listing of the tape that this, the sheet and the plan were made from at the beginning
    // of the lent text, whose other bytes stay as they are. Returns how many bytes it has: 0 after the last part, and then of
    // every later one. No Option of it, and sheet and plan apart: the laws `parts_end` and `listing_written` speak of them so.
    pub fn part(
        self,
        sheet: &[Measured; SHEET],
        plan: &[u64; JUNCTIONS],
        p: usize,
        text: &mut [u8; TEXT],
    ) -> usize
        ensures { Stored text.old 0 (part_of self sheet.now plan.now p) result text.new }
    {
        match self.planned {
            Ok(()) => put_part(self.blocks, Planned { sheet, plan }, p, text),
            Err(r) => put_refusal(p, r, text),
        }
    }
}
