// One step of the backward and of the forward pass over a line of blocks.
// Squared speeds, caps and reaches are in (µm/s)². No sum wraps, whatever the numbers.
#![tactic(auto)]

ghost use Rattle.std.specs.Prelude.{◌≡◌, ◌+◌, min};
ghost use Rattle.profile.specs.Passes.{brake_from, exit_from};

// What a profile knows of one block: the junction cap where the block begins, and the block's reach, (µm/s)². The cap of a line's
// first span, at junction 0, is never read.
#[derive(Clone, Copy, Debug, Default, PartialEq, Eq, Hash)]
pub struct Span {
    pub cap: u64,
    pub reach: u64,
}

// Where the stairs that stay end when a new junction is put behind them: how many stay, and what the new junction allows at
// the last of them, (µm/s)².
#[derive(Clone, Copy, Debug, PartialEq, Eq, Hash)]
pub struct Stay {
    pub count: u64,
    pub allows: u64,
}

// The smaller of `limit` and `speed + reach`.
fn limited(limit: u64, speed: u64, reach: u64) -> u64
    ensures { result ≡ min limit (speed + reach) }
{
    limit.min(speed.saturating_add(reach))
}

// Backward: the greatest squared speed where a block begins, under its junction cap, from which it can brake to `after`.
pub fn brake_from(cap: u64, reach: u64, after: u64) -> u64
    ensures { result ≡ brake_from cap reach after }
{
    limited(cap, after, reach)
}

// Forward: the greatest squared speed at a block's end that its entry and reach allow, under the limit there.
pub fn exit_from(entry: u64, reach: u64, limit: u64) -> u64
    ensures { result ≡ exit_from entry reach limit }
{
    limited(limit, entry, reach)
}
