// The machine and the block: limits, blocks, what is refused of them, and the numbers that a plan
// is made of. Lengths are in µm, speeds in µm/s, squared speeds in (µm/s)², accelerations in µm/s².
#![tactic(auto)]

pub mod answer;
pub mod blocks;
pub mod check;
pub mod corner;
pub mod lists;
pub mod measure;
pub mod torque;

// A quantity of each axis.
#[derive(Clone, Copy, Debug, PartialEq, Eq, Hash)]
pub struct Axes {
    pub x: u64,
    pub y: u64,
    pub z: u64,
}

// The limits of a machine.
#[derive(Clone, Copy, Debug, PartialEq, Eq, Hash)]
pub struct Limits {
    // greatest acceleration of each axis, µm/s²
    pub accel: Axes,
    // greatest speed of each axis, µm/s
    pub speed: Axes,
    // corner jump, µm/s
    pub jump: u64,
    // chord tolerance, µm
    pub chord: u64,
    // tick, microseconds
    pub tick: u64,
}

// A machine: its limits and the torque of its motors.
#[derive(Clone, Copy, Debug, PartialEq, Eq, Hash)]
pub struct Machine {
    pub limits: Limits,
    // percent of the acceleration that the motors give at each of eight speed steps, a byte for each,
    // the first step's most significant: one number, as a planner's memory keeps it
    pub torque: u64,
}

// A straight move of the table.
#[derive(Clone, Copy, Debug, Default, PartialEq, Eq, Hash)]
pub struct Block {
    // the move on each axis, µm
    pub x: i64,
    pub y: i64,
    pub z: i64,
    // µm/s
    pub feed: u64,
    // radius of the curve that the block is a chord of, µm; 0 means no curve, as on tape and for C
    pub radius: u64,
    // a label for the operator
    pub mark: u64,
}

// What a plan needs of one block. A block and its numbers are handed on as two values: a plan needs the numbers alone, and a corner
// both.
#[derive(Clone, Copy, Debug, Default, PartialEq, Eq, Hash)]
pub struct Numbers {
    // length, µm
    pub length: u64,
    // acceleration, µm/s²
    pub accel: u64,
    // reach, (µm/s)²
    pub reach: u64,
    // block cap, (µm/s)²
    pub cap: u64,
}

// A block's numbers and the square of its speed, (µm/s)², which is its cap but on a curve.
#[derive(Clone, Copy, Debug, PartialEq, Eq, Hash)]
pub struct Gauged {
    pub square: u64,
    pub numbers: Numbers,
}

// How a block is driven between its entry and its exit.
#[derive(Clone, Copy, Debug, Default, PartialEq, Eq, Hash)]
pub struct Ramp {
    // greatest squared speed, (µm/s)²
    pub peak: u64,
    // lengths of speeding up, of constant speed and of braking, µm
    pub up: u64,
    pub cruise: u64,
    pub down: u64,
}
