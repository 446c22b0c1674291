// Limits as `LIMITS` numbers of a lent list, in the order of a tape's limits.
ghost use Rattle.std.specs.Prelude.{[], ◌≡◌, ◌≤◌, length};
ghost use Rattle.std.proofs.lemmas.List.Edits.{sets};
ghost use Rattle.machine.specs.Lists.{limit_numbers, limits_from, limits_size};

use crate::{Axes, Limits};

// Lists of at least so many numbers, since a planner's memory begins with limits too; so no `From` either, which speaks of the whole
// list. Numbers of limits: acceleration X, Y, Z, µm/s², speed X, Y, Z, µm/s, corner jump, µm/s, chord tolerance, µm, tick, µs.
pub const LIMITS: usize = 9;

// The limits that the first numbers say.
pub fn limits_from(list: &[u64]) -> Limits
    requires { limits_size ≤ length list.now }
    ensures { result ≡ limits_from list.now }
{
    Limits {
        accel: Axes {
            x: list[0],
            y: list[1],
            z: list[2],
        },
        speed: Axes {
            x: list[3],
            y: list[4],
            z: list[5],
        },
        jump: list[6],
        chord: list[7],
        tick: list[8],
    }
}

// Stores limits as the first numbers.
pub fn store_limits(l: Limits, list: &mut [u64])
    requires { limits_size ≤ length list.old }
    ensures { list.new ≡ sets list.old 0 (limit_numbers l []) }
{
    list[0] = l.accel.x;
    list[1] = l.accel.y;
    list[2] = l.accel.z;
    list[3] = l.speed.x;
    list[4] = l.speed.y;
    list[5] = l.speed.z;
    list[6] = l.jump;
    list[7] = l.chord;
    list[8] = l.tick;
}
