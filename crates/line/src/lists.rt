// A block given out as the numbers of a lent list, and what stands for one where there is none.
ghost use Rattle.std.specs.Prelude.{◌≡◌, ◌≤◌, length};
ghost use Rattle.std.proofs.lemmas.List.Edits.{sets};
ghost use Rattle.line.specs.Answers.{given_numbers, given_size, no_given};

use crate::Given;
use machine::blocks::FIELDS;

// A list of at least so many numbers, since in a replay's row they stand behind others; so no `From` either, which makes a whole list.
// Numbers of a block given out, beside its moves: its fields, length, acceleration, entry, exit, peak, and the lengths of speeding
// up, of constant speed and of braking.
pub const GIVEN: usize = FIELDS + 8;

// Stores the numbers of a block given out at the beginning of the list.
pub fn store_given_numbers(g: Given, list: &mut [u64])
    requires { given_size ≤ length list.old }
    ensures { list.new ≡ sets list.old 0 (given_numbers g) }
{
    list[0] = g.block.feed;
    list[1] = g.block.radius;
    list[2] = g.block.mark;
    list[3] = g.length;
    list[4] = g.accel;
    list[5] = g.entry;
    list[6] = g.exit;
    list[7] = g.ramp.peak;
    list[8] = g.ramp.up;
    list[9] = g.ramp.cruise;
    list[10] = g.ramp.down;
}

// What stands for a block given out where there is none: `default` by the name of its definition.
pub fn no_given() -> Given
    ensures { result ≡ no_given }
{
    Given::default()
}
