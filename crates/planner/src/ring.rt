// What the calls of a planner do to the numbers of its memory. A pass over the blocks held is one loop; an add's is
// over stairs that go, each of them once, and a take has none.
ghost use Rattle.std.specs.Prelude.{◌≡◌, ◌+◌, ◌-◌, ◌^◌, ◌<◌, length, if◌then◌else◌, nat_eq};
ghost use Rattle.profile.specs.Passes.{exit_from, forward};
ghost use Rattle.machine.specs.Checks.{block_refusal, moves_of};
ghost use Rattle.machine.specs.Numbers.{AxesBelow};
ghost use Rattle.line.specs.Blocks.{most_held};
ghost use Rattle.line.specs.Ring.{climbed, ended, junction_after, lowered, place_at, put_last, spans_in, start_in, stay_in};
ghost use Rattle.planner.specs.Calls.{BrakedHeld, GaveFirst, Memory};
ghost use Rattle.planner.specs.View.{view_of};

use crate::memory::{
    COMMITTED, COUNT, FIRST, FIRST_STAIR, GAP, NUMBERS, PLACES, STAIR_CAP, STAIRS_BEFORE, TOTAL,
    block_in, brake_at, cut_block_in, cut_numbers_in, machine_in, numbers_in, place, reach_at,
    stair_place, store_fresh, store_place, store_stair,
};
use line::Given;
use machine::corner::junction_from;
use machine::measure::numbers;
use machine::{Block, Numbers};
use profile::{Stay, brake_from, exit_from};
use ramps::given_between;

// The cap of the junction between the last block held and a new one, (µm/s)²; 0 where none is held.
fn new_junction(memory: &[u64; NUMBERS], jump: u64, b: Block, n: Numbers) -> u64
    requires { (jump < 2 ^ 32) × (n.length < 2 ^ 30) × AxesBelow (2 ^ 21) (moves_of b) }
    ensures { result ≡ (if nat_eq (view_of memory.now).count 0 then 0 else junction_after jump (place_at (view_of memory.now) ((view_of memory.now).count - 1)) b n) }
{
    let count = memory[COUNT];
    if count == 0 {
        return 0;
    }
    let at = place(memory[FIRST], count - 1);
    let before = cut_block_in(memory, at);
    let held = cut_numbers_in(memory, at);
    junction_from(jump, before, held, b, n)
}

// The walk down the stairs from the last on, where a junction with a cap is put behind them: those that it
// hides go. A stair is hidden where the new junction, with the reaches up to it, allows no more there.
fn stay(memory: &[u64; NUMBERS], cap: u64) -> Stay
    ensures { result ≡ stay_in (view_of memory.now) cap }
{
    let first = memory[FIRST_STAIR];
    let mut s = memory[STAIRS_BEFORE] % PLACES;
    let end = stair_place(first, s);
    let mut allows = memory[end + GAP].wrapping_add(cap);
    // Not `for`: where the walk ends, how many stairs stay, is its result.
    while 0 < s {
        let at = stair_place(first, s - 1);
        if memory[at + STAIR_CAP] < allows {
            break;
        }
        allows = allows.wrapping_add(memory[at + GAP]);
        s -= 1;
    }
    Stay { count: s, allows }
}

// The line's end behind so many stairs, a reach after the last, and the total of the reaches.
fn store_end(memory: &mut [u64; NUMBERS], before: u64, reach: u64, total: u64)
    ensures { Memory (ended (view_of memory.old) before reach total) memory.new }
{
    let at = stair_place(memory[FIRST_STAIR], before);
    store_stair(memory, at, reach, 0);
    memory[STAIRS_BEFORE] = before;
    memory[TOTAL] = total;
}

// Puts the junction where a block begins, (µm/s)², and the block's end behind the stairs that stay. The
// first block of a line has its end alone.
fn climb(memory: &mut [u64; NUMBERS], held: u64, cap: u64, reach: u64)
    ensures { Memory (climbed held (view_of memory.old) cap reach) memory.new }
{
    if held == 0 {
        store_end(memory, 0, reach, reach);
        return;
    }
    let w = stay(memory, cap);
    let at = stair_place(memory[FIRST_STAIR], w.count);
    store_stair(memory, at, w.allows.saturating_sub(cap), cap);
    let total = memory[TOTAL].wrapping_add(reach);
    store_end(memory, w.count + 1, reach, total);
}

// Puts a block that passes 2 to 6 behind those held, which leave room for one.
pub fn put_last(memory: &mut [u64; NUMBERS], b: Block)
    requires { (block_refusal b ≡ 0) × ((view_of memory.old).count < most_held) }
    ensures { Memory (put_last (view_of memory.old) b) memory.new }
{
    let m = machine_in(memory);
    let n = numbers(m, b);
    let junction = new_junction(memory, m.limits.jump, b, n);
    let count = memory[COUNT];
    let at = place(memory[FIRST], count);
    store_place(memory, at, b, n, junction);
    memory[COUNT] = count + 1;
    climb(memory, count, junction, n.reach);
}

// The exit of the first block, of a reach, from its entry, (µm/s)²: under what the first stair and the
// line's end allow where the block begins, less its reach.
fn exit_in(memory: &[u64; NUMBERS], entry: u64, reach: u64) -> u64
    ensures { result ≡ exit_from entry reach (start_in (view_of memory.now) - reach) }
{
    let at = stair_place(memory[FIRST_STAIR], 0);
    let start = brake_from(memory[TOTAL], memory[at + GAP], memory[at + STAIR_CAP]);
    exit_from(entry, reach, start.saturating_sub(reach))
}

// The stairs without the reach of the first block, (µm/s)².
fn lower(memory: &mut [u64; NUMBERS], reach: u64)
    ensures { Memory (lowered (view_of memory.old) reach) memory.new }
{
    let first = memory[FIRST_STAIR];
    let at = stair_place(first, 0);
    let left = memory[at + GAP].saturating_sub(reach);
    memory[TOTAL] = memory[TOTAL].saturating_sub(reach);
    if left == 0 {
        let before = memory[STAIRS_BEFORE].saturating_sub(1);
        memory[FIRST_STAIR] = (first % PLACES + 1) % PLACES;
        memory[STAIRS_BEFORE] = before;
        return;
    }
    memory[at + GAP] = left;
}

// Gives out the first block of those held, of which there is one.
pub fn give_first(memory: &mut [u64; NUMBERS]) -> Given
    requires { 0 < (view_of memory.old).count }
    ensures { GaveFirst memory.old result memory.new }
{
    let first = memory[FIRST];
    let count = memory[COUNT];
    let entry = memory[COMMITTED];
    let at = place(first, 0);
    let block = block_in(memory, at);
    let n = numbers_in(memory, at);
    let exit = exit_in(memory, entry, n.reach);
    lower(memory, n.reach);
    memory[FIRST] = (first % PLACES + 1) % PLACES;
    memory[COUNT] = count - 1;
    memory[COMMITTED] = exit;
    given_between(block, n, entry, exit)
}

// The same two passes stand in `passes` over a lent line: one function for both would need a trait or a closure, with its law, for
// where a block's cap and reach are read, or a list of spans made first.

// The number n of blocks comes beside its list of n + 1 numbers: the clauses here, `BrakedHeld` and `spans_in` speak of n, and with
// `list.len() - 1` in its place each clause would say `length list.old - 1`.

// Backward over n blocks: at each junction but the first, the greatest squared speed from which the
// blocks after it can brake, (µm/s)².
fn brake_pass(memory: &[u64; NUMBERS], list: &mut [u64], n: usize)
    requires { length list.old ≡ n + 1 }
    ensures { BrakedHeld memory.now n list.new }
{
    let first = memory[FIRST];
    list[n] = 0;
    for k in (1..n).rev() {
        list[k] = brake_at(memory, place(first, k as u64), list[k + 1]);
    }
}

// Forward: from the committed squared speed, as fast as each block's reach and the limit at its end allow.
fn forward_pass(memory: &[u64; NUMBERS], list: &mut [u64], n: usize)
    requires { BrakedHeld memory.now n list.old }
    ensures { list.new ≡ forward (view_of memory.now).committed (spans_in (view_of memory.now) n 0) }
{
    let first = memory[FIRST];
    list[0] = memory[COMMITTED];
    for k in 0..n {
        let reach = reach_at(memory, place(first, k as u64));
        list[k + 1] = exit_from(list[k], reach, list[k + 1]);
    }
}

// The plan of n blocks, n + 1 squared speeds, (µm/s)².
pub fn show(memory: &[u64; NUMBERS], list: &mut [u64], n: usize)
    requires { length list.old ≡ n + 1 }
    ensures { list.new ≡ forward (view_of memory.now).committed (spans_in (view_of memory.now) n 0) }
{
    brake_pass(memory, list, n);
    forward_pass(memory, list, n);
}
