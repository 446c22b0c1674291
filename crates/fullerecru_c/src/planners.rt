// The planner: `fullerecru::planners` for C.
ghost use Rattle.machine.specs.Labels.{plain_block};
ghost use Rattle.machine.specs.Lists.{limits_from};
ghost use Rattle.line.specs.Answers.{answer_by};
ghost use Rattle.line.specs.Blocks as blocks;
ghost use Rattle.planner.specs.Calls.{Called, Freshened, Showed, Told};
ghost use Rattle.fullerecru.specs.Planners.{TakenOut};

use fullerecru::planners;
use line::lists::GIVEN;
use machine::blocks::MOVES;
use machine::lists::LIMITS;
use planner::NUMBERS;

// Makes a fresh planner of limits.
#[unsafe(no_mangle)]
pub extern "C" fn fullerecru_fresh(
    memory: &mut [u64; NUMBERS],
    limits: &[u64; LIMITS],
    steps: &[u8],
) -> u64
    ensures { Freshened memory.old (limits_from limits.now) steps.now result memory.new }
{
    planners::fullerecru_fresh(memory, limits, steps)
}

// Adds a block.
#[unsafe(no_mangle)]
pub extern "C" fn fullerecru_add(
    memory: &mut [u64; NUMBERS],
    x: i64,
    y: i64,
    z: i64,
    feed: u64,
    radius: u64,
    mark: u64,
) -> u64
    ensures { Called memory.old (blocks.add (plain_block x y z feed radius mark)) (answer_by result) memory.new }
{
    planners::fullerecru_add(memory, x, y, z, feed, radius, mark)
}

// Gives out the first block.
#[unsafe(no_mangle)]
pub extern "C" fn fullerecru_take(
    memory: &mut [u64; NUMBERS],
    moves: &mut [i64; MOVES],
    numbers: &mut [u64; GIVEN],
) -> u64
    ensures { TakenOut memory.old result memory.new moves.old moves.new numbers.old numbers.new }
{
    planners::fullerecru_take(memory, moves, numbers)
}

// How many blocks are held.
#[unsafe(no_mangle)]
pub extern "C" fn fullerecru_told(memory: &[u64; NUMBERS]) -> u64
    ensures { Told memory.now result }
{
    planners::fullerecru_told(memory)
}

// Shows the plan, (µm/s)² at each junction, in a list of one number more than blocks are held; the list is handed over as a
// pointer and its length.
#[unsafe(no_mangle)]
pub extern "C" fn fullerecru_shown(memory: &[u64; NUMBERS], list: &mut [u64]) -> u64
    ensures { Showed memory.now list.old (answer_by result) list.new }
{
    planners::fullerecru_shown(memory, list)
}
