// What the functions for C share: the numbers on the display of the planner's answers and of planning a tape, with its place, a
// block's moves in a list, and a list for a count.
ghost use Rattle.std.specs.Prelude.{◌∷◌, [], ◌≡◌, length};
ghost use Rattle.display.specs.Display.{fault_of};
ghost use Rattle.line.specs.Answers.{answer_number, done_means};
ghost use Rattle.machine.specs.Labels.{moves_size};
ghost use Rattle.tapeplan.specs.Planned.{planned_means};
ghost use Rattle.fullerecru.specs.Moves.{block_moves};
ghost use Rattle.fullerecru.specs.Plans.{count_size};

use display::{Refusal, RefusedAt, checked_number, refusal_number};
use machine::Block;
use machine::blocks::MOVES;

// Numbers of a list for a count: of blocks, or the place of a record or a line, counted from 1.
pub const COUNT: usize = 1;

// The number on the display of what an add or showing the plan answers: that of a check, said of a line's answer.
pub fn done_number(answer: Result<(), Refusal>) -> u64
    ensures { result ≡ answer_number (done_means answer) }
{
    checked_number(answer)
}

// Stores the moves of a block, µm. The point of `orders` is stored likewise: one line each, over another type of number.
pub fn put_moves(b: Block, moves: &mut [i64; MOVES])
    ensures { moves.new ≡ block_moves b }
{
    *moves = [b.x, b.y, b.z];
}

// Stores a count in its list.
pub fn put_number(list: &mut [u64; COUNT], n: u64)
    ensures { list.new ≡ n ∷ [] }
{
    *list = [n];
}

// Stores the place of a refusal, and gives its number on the display.
pub fn refused_number(fault: RefusedAt, place: &mut [u64; COUNT]) -> u64
    ensures { (result ≡ (fault_of fault).number) × (place.new ≡ (fault_of fault).place ∷ []) }
{
    put_number(place, fault.place as u64);
    refusal_number(fault.why)
}

// Stores the place of what planning a tape answers, and gives the number on the display.
pub fn planned_number(answer: Result<(), RefusedAt>, place: &mut [u64; COUNT]) -> u64
    ensures { (result ≡ (planned_means answer).number) × (place.new ≡ (planned_means answer).place ∷ []) }
{
    match answer {
        Ok(()) => {
            put_number(place, 0);
            0
        }
        Err(fault) => refused_number(fault, place),
    }
}
