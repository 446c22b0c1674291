// The planner for C, on memory that the caller lends: `NUMBERS` numbers of 64 bits, whose content is
// the planner's.
ghost use Rattle.std.specs.Prelude.{◌≡◌, length};
ghost use Rattle.machine.specs.Labels.{moves_size, plain_block};
ghost use Rattle.machine.specs.Lists.{limits_from};
ghost use Rattle.line.specs.Answers.{answer_by, given_numbers, given_size};
ghost use Rattle.line.specs.Blocks as blocks;
ghost use Rattle.planner.specs.Calls.{Called, Freshened, Showed, Told};
ghost use Rattle.fullerecru.specs.Moves.{Stored};
ghost use Rattle.fullerecru.specs.Planners.{TakenOut};

use crate::numbers::{done_number, put_moves};
use display::{checked_number, refusal_number};
use line::Given;
use line::lists::{GIVEN, store_given_numbers};
use machine::blocks::{MOVES, plain_block};
use machine::lists::{LIMITS, limits_from};
use planner::{NUMBERS, add, fresh, shown, take, told};

// Stores a block given out in the lent lists.
fn hand_out(g: Given, moves: &mut [i64; MOVES], numbers: &mut [u64; GIVEN])
    ensures { Stored g.block (given_numbers g) moves.new numbers.new }
{
    put_moves(g.block, moves);
    store_given_numbers(g, numbers);
}

// Makes a fresh planner of limits: accelerations x, y, z, µm/s²; speeds x, y, z, µm/s; corner
// jump, µm/s; chord tolerance, µm; tick, microseconds; and of the torque steps that are loaded, handed
// over as a pointer and their number: eight percentages, a byte each, or none for the built-in steps.
// Refuses by 1, then by 14.
#[unsafe(no_mangle)]
pub extern "C" fn fullerecru_fresh(
    memory: &mut [u64; NUMBERS],
    limits: &[u64; LIMITS],
    steps: &[u8],
) -> u64
    ensures { Freshened memory.old (limits_from limits.now) steps.now result memory.new }
{
    checked_number(fresh(memory, limits_from(limits), steps))
}

// Adds a block: moves, µm; feed, µm/s; radius, µm, 0 for no curve; mark. Refuses by 2 to 7.
#[unsafe(no_mangle)]
pub extern "C" fn fullerecru_add(
    memory: &mut [u64; NUMBERS],
    x: i64,
    y: i64,
    z: i64,
    feed: u64,
    radius: u64,
    mark: u64,
) -> u64
    ensures { Called memory.old (blocks.add (plain_block x y z feed radius mark)) (answer_by result) memory.new }
{
    done_number(add(memory, plain_block(x, y, z, feed, radius, mark)))
}

// Gives out the first block: its moves, µm, and feed, radius, mark, length, µm, acceleration, µm/s²,
// entry, exit and peak, (µm/s)², and the lengths of speeding up, of constant speed and of braking,
// µm. Refuses by 8. Like the reader of a record (`tapes`), but for C a function of its own.
#[unsafe(no_mangle)]
pub extern "C" fn fullerecru_take(
    memory: &mut [u64; NUMBERS],
    moves: &mut [i64; MOVES],
    numbers: &mut [u64; GIVEN],
) -> u64
    ensures { TakenOut memory.old result memory.new moves.old moves.new numbers.old numbers.new }
{
    match take(memory) {
        Err(why) => refusal_number(why),
        Ok(g) => {
            hand_out(g, moves, numbers);
            0
        }
    }
}

// How many blocks are held.
#[unsafe(no_mangle)]
pub extern "C" fn fullerecru_told(memory: &[u64; NUMBERS]) -> u64
    ensures { Told memory.now result }
{
    told(memory)
}

// Shows the plan, (µm/s)² at each junction, in a list of one number more than blocks are held; the
// list is handed over as a pointer and its length. Refuses by 11.
#[unsafe(no_mangle)]
pub extern "C" fn fullerecru_shown(memory: &[u64; NUMBERS], list: &mut [u64]) -> u64
    ensures { Showed memory.now list.old (answer_by result) list.new }
{
    done_number(shown(memory, list))
}
