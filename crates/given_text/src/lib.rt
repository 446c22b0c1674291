// The line of a block given out: `mark length accel entry peak exit up cruise down`.
#![tactic(auto)]

ghost use Rattle.std.specs.Prelude.{◌+◌, ◌≤◌, length};
ghost use Rattle.text.specs.Text.{row};
ghost use Rattle.given_text.specs.Given.{WroteLine, given_text, listed_numbers, most_given};

use line::Given;
use machine::Ramp;
use text::{behind, put_row};

// Most bytes of such a line: nine numbers of 64 bits, 21 for each and one more.
pub const LINE: usize = 21 * 9 + 1;

// Not `line::Given`, whose whole block a listing does not have: its sheet keeps the mark alone.
// What the line shows of a block: its mark, length, µm, and acceleration, µm/s², the squared speeds at its ends, (µm/s)², and its
// ramp.
#[derive(Clone, Copy, Debug, PartialEq, Eq, Hash)]
pub struct Listed {
    pub mark: u64,
    pub length: u64,
    pub accel: u64,
    pub entry: u64,
    pub exit: u64,
    pub ramp: Ramp,
}

// Stores the line of what is shown of a block, if there is room for the longest.
pub fn store_listed(out: &mut [u8], at: usize, l: Listed) -> usize
    requires { at + most_given ≤ length out.old }
    ensures { WroteLine (row (listed_numbers l)) out.old at result out.new }
{
    let ramp = l.ramp;
    let numbers = [
        l.mark,
        l.length,
        l.accel,
        l.entry,
        ramp.peak,
        l.exit,
        ramp.up,
        ramp.cruise,
        ramp.down,
    ];
    behind(put_row(out, at, &numbers), at)
}

// Stores the line of a block given out, if there is room for the longest.
#[tactic(auto, unfolding(crate::specs::Given::given_text))]
pub fn store_given(out: &mut [u8], at: usize, g: Given) -> usize
    requires { at + most_given ≤ length out.old }
    ensures { WroteLine (given_text g) out.old at result out.new }
{
    let b = g.block;
    let ramp = g.ramp;
    store_listed(
        out,
        at,
        Listed {
            mark: b.mark,
            length: g.length,
            accel: g.accel,
            entry: g.entry,
            exit: g.exit,
            ramp,
        },
    )
}
