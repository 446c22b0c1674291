// The numbers of a planner's memory: where each stands, read and stored. Indices are within the
// memory whatever it holds.
ghost use Rattle.std.specs.Prelude.{◌≡◌, ◌+◌, ◌%◌, ◌<◌, ◌≤◌, [], length};
ghost use Rattle.std.proofs.lemmas.List.Edits.{sets};
ghost use Rattle.line.specs.Blocks.{most_held};
ghost use Rattle.profile.specs.Passes.{brake_from};
ghost use Rattle.profile.specs.Stairs.{stair};
ghost use Rattle.line.specs.Ring.{block_in, cut_axes, cut_block, cut_limits, cut_machine, cut_numbers, fresh_ring, numbers_in, place_of};
ghost use Rattle.planner.specs.View.{base_of, head_numbers, last_base, last_stair, machine_from, memory_size, numbers_for, place_from, stair_base, stair_numbers};

use fields::{signed_word, to_signed, to_word};
use machine::blocks::{label_of, labelled_block};
use machine::lists::{LIMITS, limits_from, store_limits};
use machine::{Axes, Block, Limits, Machine, Numbers};
use profile::brake_from;

// Blocks that a planner holds at most.
pub const PLACES: u64 = 64;
// The memory is numbers at fixed places and no struct, since C lends it. Numbers of the head, of a place, of a stair, and of the memory;
// where the stairs begin.
const HEAD: usize = 16;

const PLACE: usize = 11;

const STAIR: usize = 2;

const STAIRS: usize = HEAD + PLACE * PLACES as usize;

pub const NUMBERS: usize = STAIRS + STAIR * PLACES as usize;
// The head, after the limits: the place of the first block, how many blocks are held, the committed
// squared speed, the torque, where the first stair stands, how many stairs stand before the line's end,
// and the reaches of all blocks held together.
pub const FIRST: usize = LIMITS;

pub const COUNT: usize = 10;

pub const COMMITTED: usize = 11;

const TORQUE: usize = 12;

pub const FIRST_STAIR: usize = 13;

pub const STAIRS_BEFORE: usize = 14;

pub const TOTAL: usize = 15;
// A place, from its first number on: the moves as words, feed, radius, label, the block's numbers, and
// the cap of the junction where it begins.
const X: usize = 0;

const Y: usize = 1;

const Z: usize = 2;

const FEED: usize = 3;

const RADIUS: usize = 4;

const LABEL: usize = 5;

const LENGTH: usize = 6;

const ACCEL: usize = 7;

const REACH: usize = 8;

const CAP: usize = 9;

const JUNCTION: usize = 10;
// A stair, from its first number on: the reaches since the stair before, and its cap, (µm/s)².
pub const GAP: usize = 0;

pub const STAIR_CAP: usize = 1;
// Bits of a move that a corner is worked out from.
const MOVE_BITS: usize = 21;
// Limits are used below this.
const LIMIT_END: u64 = 0x1_0000_0000;
// Lengths of held blocks are used below this, µm.
const LENGTH_END: u64 = 0x4000_0000;

// The k-th place of the ring behind place `first`, whatever both are.
fn turned(first: u64, k: u64) -> usize
    ensures { (result ≡ (first + k) % most_held) × (result < most_held) }
{
    ((first % PLACES + k % PLACES) % PLACES) as usize
}

// Where the numbers of a block begin: all of them are within the memory. Places are asked for their numbers, never compared.
#[derive(Clone, Copy)]
pub struct HeldPlace {
    base: usize,
    ghost within: { base ≤ last_base },
}

// Where the numbers of block k begin, block 0 at place `first`.
pub fn place(first: u64, k: u64) -> HeldPlace
    ensures { result.base ≡ base_of ((first + k) % most_held) }
{
    HeldPlace {
        base: HEAD + PLACE * turned(first, k),
    }
}

// Where the numbers of stair j begin, stair 0 at `first`.
pub fn stair_place(first: u64, j: u64) -> usize
    ensures { (result ≡ stair_base ((first + j) % most_held)) × (result ≤ last_stair) }
{
    STAIRS + STAIR * turned(first, j)
}

// Limits cut to 32 bits.
fn cut_limits(l: Limits) -> Limits
    ensures { result ≡ cut_limits l }
{
    Limits {
        accel: cut_axes(l.accel),
        speed: cut_axes(l.speed),
        jump: l.jump % LIMIT_END,
        chord: l.chord % LIMIT_END,
        tick: l.tick % LIMIT_END,
    }
}

fn cut_axes(a: Axes) -> Axes
    ensures { result ≡ cut_axes a }
{
    Axes {
        x: a.x % LIMIT_END,
        y: a.y % LIMIT_END,
        z: a.z % LIMIT_END,
    }
}

// The machine, its limits cut.
pub fn machine_in(memory: &[u64; NUMBERS]) -> Machine
    ensures { result ≡ cut_machine (machine_from memory.now) }
{
    Machine {
        limits: cut_limits(limits_from(memory)),
        torque: memory[TORQUE],
    }
}

// The block of a place. It and the next function differ in how a move is read, a word or 21 bits of one: one function for both would
// take a closure for it, and its contract the definition of a block read so, beside the two that are there.
pub fn block_in(memory: &[u64; NUMBERS], at: HeldPlace) -> Block
    ensures { result ≡ block_in (place_from memory.now at.base) }
{
    labelled_block(
        signed_word(memory[at.base + X]),
        signed_word(memory[at.base + Y]),
        signed_word(memory[at.base + Z]),
        memory[at.base + FEED],
        memory[at.base + RADIUS],
        memory[at.base + LABEL],
    )
}

// The same with its moves cut to 21 bits, as the cap of the junction behind the block is worked out from
// them.
pub fn cut_block_in(memory: &[u64; NUMBERS], at: HeldPlace) -> Block
    ensures { result ≡ cut_block (place_from memory.now at.base) }
{
    labelled_block(
        to_signed(memory[at.base + X], MOVE_BITS),
        to_signed(memory[at.base + Y], MOVE_BITS),
        to_signed(memory[at.base + Z], MOVE_BITS),
        memory[at.base + FEED],
        memory[at.base + RADIUS],
        memory[at.base + LABEL],
    )
}

// The numbers of its block.
pub fn numbers_in(memory: &[u64; NUMBERS], at: HeldPlace) -> Numbers
    ensures { result ≡ numbers_in (place_from memory.now at.base) }
{
    Numbers {
        length: memory[at.base + LENGTH],
        accel: memory[at.base + ACCEL],
        reach: memory[at.base + REACH],
        cap: memory[at.base + CAP],
    }
}

// The same with the length cut to 30 bits, as the cap of the junction behind the block is worked out
// from them.
pub fn cut_numbers_in(memory: &[u64; NUMBERS], at: HeldPlace) -> Numbers
    ensures { result ≡ cut_numbers (place_from memory.now at.base) }
{
    let n = numbers_in(memory, at);
    Numbers {
        length: n.length % LENGTH_END,
        ..n
    }
}

// The reach of a place's block, (µm/s)².
pub fn reach_at(memory: &[u64; NUMBERS], at: HeldPlace) -> u64
    ensures { result ≡ (place_from memory.now at.base).reach }
{
    memory[at.base + REACH]
}

// The greatest squared speed where a place's block begins, under its junction cap, from which it can
// brake to `after` at its end, (µm/s)².
pub fn brake_at(memory: &[u64; NUMBERS], at: HeldPlace, after: u64) -> u64
    ensures { result ≡ brake_from (place_from memory.now at.base).junction (place_from memory.now at.base).reach after }
{
    brake_from(memory[at.base + JUNCTION], memory[at.base + REACH], after)
}

// Stores a block with its numbers in a place.
pub fn store_place(memory: &mut [u64; NUMBERS], at: HeldPlace, b: Block, n: Numbers, junction: u64)
    ensures { memory.new ≡ sets memory.old at.base (numbers_for (place_of b n junction)) }
{
    memory[at.base + X] = to_word(b.x);
    memory[at.base + Y] = to_word(b.y);
    memory[at.base + Z] = to_word(b.z);
    memory[at.base + FEED] = b.feed;
    memory[at.base + RADIUS] = b.radius;
    memory[at.base + LABEL] = label_of(b);
    memory[at.base + LENGTH] = n.length;
    memory[at.base + ACCEL] = n.accel;
    memory[at.base + REACH] = n.reach;
    memory[at.base + CAP] = n.cap;
    memory[at.base + JUNCTION] = junction;
}

// Stores a stair.
pub fn store_stair(memory: &mut [u64; NUMBERS], at: usize, gap: u64, cap: u64)
    requires { at ≤ last_stair }
    ensures { memory.new ≡ sets memory.old at (stair_numbers (stair gap cap)) }
{
    memory[at + GAP] = gap;
    memory[at + STAIR_CAP] = cap;
}

// Stores the head of a planner that holds nothing and stands still.
pub fn store_fresh(memory: &mut [u64; NUMBERS], m: Machine)
    ensures { memory.new ≡ sets memory.old 0 (head_numbers (fresh_ring m [] [])) }
{
    store_limits(m.limits, memory);
    memory[FIRST] = 0;
    memory[COUNT] = 0;
    memory[COMMITTED] = 0;
    memory[TORQUE] = m.torque;
    memory[FIRST_STAIR] = 0;
    memory[STAIRS_BEFORE] = 0;
    memory[TOTAL] = 0;
}
