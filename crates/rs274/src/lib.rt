// Programs in RS-274 text: what the lines do, the blocks between their positions, and the records that are written of them.
// Nothing here knows a plan.
#![tactic(auto)]

mod kept;
mod line;
mod state;
pub mod tapes;
pub mod whole;

// What is in force behind a line.
#[derive(Clone, Copy, Debug, Default, PartialEq, Eq, Hash)]
pub struct Modal {
    // G20, else G21
    pub inches: bool,
    // G91, else G90
    pub incremental: bool,
    // G0, else G1
    pub rapid: bool,
    // the position, hundredths of a µm
    pub x: i64,
    pub y: i64,
    pub z: i64,
    // µm/s; 0 where none was set, or one below 1 µm/s: both are refused alike, so an Option would be no plainer
    pub feed: u64,
}
