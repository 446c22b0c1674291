// The machine's calls on limits and blocks of any values: nothing is required, what document 01
// refuses is refused.
ghost use Rattle.std.specs.Prelude.{◌≡◌};
ghost use Rattle.display.specs.Display.{◌then◌, checked_means, outcome_of};
ghost use Rattle.machine.specs.Answers.{call_refusal, junction_answer, machine_answer, numbers_answer};
ghost use Rattle.machine.specs.Checks.{block_refusal};

use crate::check::{check_block, check_limits};
use crate::corner::junction_cap;
use crate::measure::numbers;
use crate::torque::with_steps;
use crate::{Block, Limits, Machine, Numbers};
use display::Refusal;

// Refusal 1, then the first of 2 to 6 that the block meets, or none.
pub fn check_call(l: Limits, b: Block) -> Result<(), Refusal>
    ensures { checked_means result ≡ call_refusal l b }
{
    check_limits(l)?;
    check_block(b)
}

// The same with a second block, whose refusals come last.
fn check_pair(l: Limits, a: Block, b: Block) -> Result<(), Refusal>
    ensures { checked_means result ≡ (call_refusal l a then block_refusal b) }
{
    check_call(l, a)?;
    check_block(b)
}

// The machine with these limits and the steps that are loaded: eight bytes, or none for the built-in steps. Refuses by 1, then
// by 14. The two travel together only up to here: `Machine` is the struct of both.
pub fn machine_answer(l: Limits, steps: &[u8]) -> Result<Machine, Refusal>
    ensures { outcome_of result ≡ machine_answer l steps.now }
{
    check_limits(l)?;
    with_steps(l, steps)
}

// All numbers of a block on that machine. Refuses by 1, 14, then by the first of 2 to 6 that the block meets.
pub fn numbers_answer(l: Limits, steps: &[u8], b: Block) -> Result<Numbers, Refusal>
    ensures { outcome_of result ≡ numbers_answer l steps.now b }
{
    let m = machine_answer(l, steps)?;
    check_block(b)?;
    Ok(numbers(m, b))
}

// The junction cap between two blocks, (µm/s)².
pub fn junction_answer(l: Limits, a: Block, b: Block) -> Result<u64, Refusal>
    ensures { outcome_of result ≡ junction_answer l a b }
{
    check_pair(l, a, b)?;
    Ok(junction_cap(l, a, b))
}
