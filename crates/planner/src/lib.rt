// A planner of at most `PLACES` blocks in `NUMBERS` numbers that the caller lends. Every content of the memory
// is answered: nothing is required of it. What the calls answer and leave is in specs/Calls.antt.
#![tactic(auto)]

ghost use Rattle.std.specs.Prelude.{replicate};
ghost use Rattle.display.specs.Display.{checked_means};
ghost use Rattle.line.specs.Answers.{answer_means, done_means, take_means};
ghost use Rattle.line.specs.Blocks as blocks;
ghost use Rattle.planner.specs.Calls.{Called, Freshened, Showed, Told};
ghost use Rattle.planner.specs.View.{memory_size};

use display::Refusal;
use line::{Call, Given};
use machine::answer::machine_answer;
use machine::check::check_block;
use machine::{Block, Limits};
use memory::{COUNT, PLACES, store_fresh};
use ring::{give_first, put_last, show};

mod memory;
mod ring;

// Numbers of a planner's memory.
pub const NUMBERS: usize = memory::NUMBERS;

// Makes a fresh planner of the limits and the torque steps that are loaded, eight bytes, or none for the built-in steps; its
// places hold whatever they held. Refusals 1 and 14 change nothing.
pub fn fresh(memory: &mut [u64; NUMBERS], l: Limits, steps: &[u8]) -> Result<(), Refusal>
    ensures { Freshened memory.old l steps.now (checked_means result) memory.new }
{
    let m = machine_answer(l, steps)?;
    store_fresh(memory, m);
    Ok(())
}

// Adds a block behind those held. The first of refusals 2 to 7 that it meets changes nothing.
pub fn add(memory: &mut [u64; NUMBERS], b: Block) -> Result<(), Refusal>
    ensures { Called memory.old (blocks.add b) (done_means result) memory.new }
{
    check_block(b)?;
    if PLACES <= memory[COUNT] {
        return Err(Refusal::Full);
    }
    put_last(memory, b);
    Ok(())
}

// Gives out the first block held with its speeds and its ramp. Refusal 8 changes nothing.
pub fn take(memory: &mut [u64; NUMBERS]) -> Result<Given, Refusal>
    ensures { Called memory.old blocks.take (take_means result) memory.new }
{
    if memory[COUNT] == 0 {
        return Err(Refusal::Empty);
    }
    Ok(give_first(memory))
}

// An add or a take, as a value.
pub fn call(memory: &mut [u64; NUMBERS], c: Call) -> Result<Option<Given>, Refusal>
    ensures { Called memory.old (blocks.call_means c) (answer_means result) memory.new }
{
    match c {
        Call::Add(b) => {
            add(memory, b)?;
            Ok(None)
        }
        Call::Take => take(memory).map(Some),
    }
}

// How many blocks are held.
pub fn told(memory: &[u64; NUMBERS]) -> u64
    ensures { Told memory.now result }
{
    memory[COUNT].min(PLACES)
}

// Shows the plan, (µm/s)² at each junction, in a list of one number more than blocks are held.
// Refusal 11 changes nothing.
pub fn shown(memory: &[u64; NUMBERS], list: &mut [u64]) -> Result<(), Refusal>
    ensures { Showed memory.now list.old (done_means result) list.new }
{
    let n = told(memory) as usize;
    if list.len() != n + 1 {
        return Err(Refusal::List);
    }
    show(memory, list, n);
    Ok(())
}

// A planner by value: the same calls on numbers of its own.
// No equality: numbers of places and stairs that hold nothing are whatever they were.
#[derive(Clone, Copy)]
pub struct Planner {
    numbers: [u64; NUMBERS],
}

// The answer of a call by value, and the planner after it. The planner of refused limits or steps is all zeros: it holds nothing,
// and is not to be used. No equality, as a planner has none.
#[derive(Clone, Copy)]
pub struct After<T> {
    pub answer: Result<T, Refusal>,
    pub planner: Planner,
}

impl Planner {
    // Blocks that are held at most.
    pub const PLACES: u64 = memory::PLACES;
    // Ranges of the limits, both ends allowed. Acceleration of an axis, µm/s².
    pub const LEAST_ACCEL: u64 = machine::check::LEAST_ACCEL;

    pub const MOST_ACCEL: u64 = machine::check::MOST_ACCEL;
    // Speed of an axis, µm/s.
    pub const LEAST_SPEED: u64 = machine::check::LEAST_SPEED;

    pub const MOST_SPEED: u64 = machine::check::MOST_SPEED;
    // Corner jump, µm/s.
    pub const LEAST_JUMP: u64 = machine::check::LEAST_JUMP;

    pub const MOST_JUMP: u64 = machine::check::MOST_JUMP;
    // Chord tolerance, µm.
    pub const LEAST_CHORD: u64 = machine::check::LEAST_CHORD;

    pub const MOST_CHORD: u64 = machine::check::MOST_CHORD;
    // Tick, microseconds.
    pub const LEAST_TICK: u64 = machine::check::LEAST_TICK;

    pub const MOST_TICK: u64 = machine::check::MOST_TICK;
    // Loaded torque steps, and the range of the percentage of each.
    pub const STEPS: usize = machine::torque::STEPS;

    pub const LEAST_PERCENT: u64 = machine::torque::LEAST_PERCENT;

    pub const MOST_PERCENT: u64 = machine::torque::MOST_PERCENT;

    pub fn fresh(l: Limits, steps: &[u8]) -> After<()>
        ensures { Freshened (replicate memory_size 0) l steps.now (checked_means result.answer) result.planner.numbers }
    {
        let mut numbers = [0u64; NUMBERS];
        let answer = fresh(&mut numbers, l, steps);
        After {
            answer,
            planner: Planner { numbers },
        }
    }

    pub fn add(mut self, b: Block) -> After<()>
        ensures { Called self.numbers (blocks.add b) (done_means result.answer) result.planner.numbers }
    {
        let answer = add(&mut self.numbers, b);
        After {
            answer,
            planner: self,
        }
    }

    pub fn take(mut self) -> After<Given>
        ensures { Called self.numbers blocks.take (take_means result.answer) result.planner.numbers }
    {
        let answer = take(&mut self.numbers);
        After {
            answer,
            planner: self,
        }
    }

    pub fn told(self) -> u64
        ensures { Told self.numbers result }
    {
        told(&self.numbers)
    }

    pub fn shown(self, list: &mut [u64]) -> Result<(), Refusal>
        ensures { Showed self.numbers list.old (done_means result) list.new }
    {
        shown(&self.numbers, list)
    }
}
