// The corner between two blocks. That moves are small is a clause of each function and no type, since `planner` has cut blocks, and
// a tape checked ones, that meet it for different reasons.
ghost use Rattle.std.specs.Prelude.{◌≡◌, ◌*◌, ◌^◌, ◌<◌, min};
ghost use Rattle.machine.specs.Checks.{block_refusal, moves_of};
ghost use Rattle.machine.specs.Numbers.{AxesBelow, Joinable, LimitsBelow, corner_beside, corner_from, dot_of, junction_cap, junction_from, turn_from, under_cap};

use crate::measure::numbers;
use crate::torque::built_in;
use crate::{Block, Limits, Numbers};
use arith::quotient::capped_quotient;
use arith::signed::{gap, plus, times};

// The square of the parts of a µm in which a length is counted.
const UNIT_SQUARE: i64 = 1;

// The sum over axes of the products of two blocks' moves, µm².
fn dot(a: Block, b: Block) -> i64
    requires { AxesBelow (2 ^ 21) (moves_of a) × AxesBelow (2 ^ 21) (moves_of b) }
    ensures { result ≡ dot_of a b }
{
    plus(plus(times(a.x, b.x), times(a.y, b.y)), times(a.z, b.z))
}

// The product of the lengths less that sum, or 0.
fn turn(product: u64, a: Block, b: Block) -> u64
    requires { (product < 2 ^ 62) × AxesBelow (2 ^ 21) (moves_of a) × AxesBelow (2 ^ 21) (moves_of b) }
    ensures { result ≡ turn_from product a b }
{
    gap(product, times(UNIT_SQUARE, dot(a, b)))
}

// A cap, (µm/s)², under the corner cap between two blocks, whose lengths are given. Most junctions have no turn, 0 µm², and so
// no corner cap: they need no division.
pub fn under_corner(cap: u64, jump: u64, a: Block, length_a: u64, b: Block, length_b: u64) -> u64
    requires { (jump < 2 ^ 32) × (length_a < 2 ^ 30) × (length_b < 2 ^ 30) × AxesBelow (2 ^ 21) (moves_of a) × AxesBelow (2 ^ 21) (moves_of b) }
    ensures { result ≡ under_cap (corner_from jump (length_a * length_b) (turn_from (length_a * length_b) a b)) cap }
{
    let product = length_a * length_b;
    let turned = turn(product, a, b);
    if turned == 0 {
        return cap;
    }
    capped_quotient(cap, jump * jump, product, 2 * turned)
}

// The junction cap between two blocks, (µm/s)², from the corner jump and both blocks' numbers.
pub fn junction_from(jump: u64, a: Block, na: Numbers, b: Block, nb: Numbers) -> u64
    requires { Joinable jump a na b nb }
    ensures { result ≡ junction_from jump a na b nb }
{
    let cap = na.cap.min(nb.cap);
    under_corner(cap, jump, a, na.length, b, nb.length)
}

// The corner cap between two blocks, (µm/s)², as a number beside their block caps: one more than the smaller of these where it
// is greater or none.
pub fn corner_beside(jump: u64, a: Block, na: Numbers, b: Block, nb: Numbers) -> u64
    requires { Joinable jump a na b nb × (nb.cap < 2 ^ 62) }
    ensures { result ≡ corner_beside jump a na b nb }
{
    let least = na.cap.min(nb.cap);
    under_corner(least + 1, jump, a, na.length, b, nb.length)
}

// The junction cap between two blocks with these numbers, (µm/s)², from the corner beside their block caps.
pub fn cap_beside(na: Numbers, nb: Numbers, corner: u64) -> u64
    ensures { result ≡ min (min na.cap nb.cap) corner }
{
    na.cap.min(nb.cap).min(corner)
}

// The junction cap between two blocks that pass 2 to 6. No torque plays a part.
pub(crate) fn junction_cap(l: Limits, a: Block, b: Block) -> u64
    requires { LimitsBelow l × (block_refusal a ≡ 0) × (block_refusal b ≡ 0) }
    ensures { result ≡ junction_cap l a b }
{
    let m = built_in(l);
    let na = numbers(m, a);
    let nb = numbers(m, b);
    junction_from(l.jump, a, na, b, nb)
}
