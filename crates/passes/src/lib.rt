// The two passes over a line of blocks that is lent as its spans, (µm/s)². The plan is made in place, in one list of one number
// for each junction: one more than blocks, so the two are no one list.
#![tactic(auto)]

ghost use Rattle.std.specs.Prelude.{◌≡◌, ◌+◌, length};
ghost use Rattle.profile.specs.Passes.{forward};
ghost use Rattle.passes.specs.Lent.{BrakedList};

use profile::Span;

// Backward: at each junction but the first, the greatest squared speed from which the blocks after it can brake.
fn brake_pass(line: &[Span], list: &mut [u64])
    requires { length list.old ≡ length line.now + 1 }
    ensures { BrakedList line.now list.new }
{
    let n = line.len();
    list[n] = 0;
    for k in (1..n).rev() {
        list[k] = profile::brake_from(line[k].cap, line[k].reach, list[k + 1]);
    }
}

// Forward: from the start's squared speed, as fast as each block's reach and the limit at its end allow.
fn forward_pass(start: u64, line: &[Span], list: &mut [u64])
    requires { BrakedList line.now list.old }
    ensures { list.new ≡ forward start line.now }
{
    list[0] = start;
    for (k, span) in line.iter().enumerate() {
        list[k + 1] = profile::exit_from(list[k], span.reach, list[k + 1]);
    }
}

// Both passes: the plan of the line from the start's squared speed to rest, where the line can brake from it.
pub fn plan_from(start: u64, line: &[Span], list: &mut [u64])
    requires { length list.old ≡ length line.now + 1 }
    ensures { list.new ≡ forward start line.now }
{
    brake_pass(line, list);
    forward_pass(start, line, list);
}
