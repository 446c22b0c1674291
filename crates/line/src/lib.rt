// What a planner answers, and (in specs/) document 01's line of blocks and the ring of places that holds one.
#![tactic(auto)]

use machine::{Block, Ramp};

pub mod lists;

// A block given out.
#[derive(Clone, Copy, Debug, Default, PartialEq, Eq, Hash)]
pub struct Given {
    pub block: Block,
    // µm
    pub length: u64,
    // µm/s²
    pub accel: u64,
    // squared speeds, (µm/s)²
    pub entry: u64,
    pub exit: u64,
    pub ramp: Ramp,
}

// A call of a planner: an add with its block, or a take. No Option: a take is a call like an add, and not the lack of one.
#[derive(Clone, Copy, Debug, PartialEq, Eq, Hash)]
pub enum Call {
    Add(Block),
    Take,
}
