// RS-274 text: its lines, the words of a line and their numbers. Nothing here knows what a word does, nor a machine.
#![tactic(auto)]

pub mod bytes;
pub mod numbers;
pub mod scan;

// The slots of a line's words: one for each letter but G, and one for each pair of G words. What stands on a line is
// a list of as many numbers, ten-thousandths: that of the word in each slot, or `None` where no word stands. Slots are
// numbers and no enum, since the letters X, Y and Z are counted to theirs (`scan::axis_slot`): of a match on letters the
// compiler makes a table in read-only memory, of which the library may have 128 bytes.
// G0 or G1
pub const MOTION: usize = 0;
// G20 or G21
pub const UNIT: usize = 1;
// G90 or G91
pub const WAY: usize = 2;
// N
pub const LINE: usize = 3;

pub const X: usize = 4;

pub const Y: usize = 5;

pub const Z: usize = 6;

pub const FEED: usize = 7;

pub const SLOTS: usize = 8;

// The numbers of the G words, ten-thousandths: G0, G1, G20, G21, G90 and G91.
pub const RAPID: u64 = 0;

pub const STRAIGHT: u64 = 10_000;

pub const INCHES: u64 = 200_000;

pub const MILLIMETRES: u64 = 210_000;

pub const ABSOLUTE: u64 = 900_000;

pub const INCREMENTAL: u64 = 910_000;

// Digits that stand at the beginning of bytes. Here, and not where they are read, so that the definitions can speak of them.
#[derive(Clone, Copy)]
struct Digits {
    // how many
    count: usize,
    // the number that they write
    value: u64,
}
