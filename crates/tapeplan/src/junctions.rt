// The corner of the junction where a block begins.
ghost use Rattle.std.specs.Prelude.{◌≡◌, ◌<◌, ◌^◌, eqb, cond};
ghost use Rattle.machine.specs.Numbers.{Joinable, corner_beside};

use machine::corner::corner_beside;
use machine::{Block, Numbers};

// The corner cap where block k begins, (µm/s)², as a number beside the block caps of both blocks: 0 for the first, before which
// there is no block, so that the cap at rest is 0.
pub fn corner_of(k: usize, jump: u64, before: Block, known: Numbers, b: Block, n: Numbers) -> u64
    requires { (0 < k → Joinable jump before known b n) × (n.cap < 2 ^ 62) }
    ensures { result ≡ cond (eqb k 0) 0 (corner_beside jump before known b n) }
{
    if k == 0 {
        return 0;
    }
    corner_beside(jump, before, known, b, n)
}
