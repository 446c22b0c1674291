// The tape: `LIMITS_BYTES` of limits and then `RECORD_BYTES` for each block, in fields packed without gaps, most significant bit first.
// Any bytes and any values are answered: nothing is required of who reads, writes or checks.
#![tactic(auto)]

pub mod limits;
pub mod records;
pub mod whole;

// Bytes of the limits, and of each record behind them.
pub const LIMITS_BYTES: usize = 24;

pub const RECORD_BYTES: usize = 16;
// Most blocks on a tape, and the greatest length of a tape in bytes: its limits and so many records.
pub const MOST_BLOCKS: usize = 2_048;

pub const MOST_BYTES: usize = LIMITS_BYTES + RECORD_BYTES * MOST_BLOCKS;
