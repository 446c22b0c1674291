// The figures of a tape, counted row by row of its sheet.
ghost use Rattle.std.specs.Prelude.{◌≡◌, ◌+◌, ◌^◌, ◌<◌};
ghost use Rattle.report.specs.Figures.{no_figures};
ghost use Rattle.report.specs.Rows.{Countable, block_figures, held_figures, held_number, row_figures};

use crate::Figures;
use crate::held::{HeldBy, held_by};
use machine::Numbers;
use ramps::peak_of;
use tapeplan::Planned;

// No block was counted: `default` by a name of its own, for the definition `no_figures`.
pub fn none() -> Figures
    ensures { result ≡ no_figures }
{
    Figures::default()
}

// The figures with one block more, driven between two squared speeds of the plan, (µm/s)².
fn with_block(f: Figures, n: Numbers, entry: u64, exit: u64) -> Figures
    requires { (f.blocks < 2 ^ 62) × (f.length < 2 ^ 62) × (n.length < 2 ^ 62) × (n.reach < 2 ^ 62) × (entry < 2 ^ 62) × (exit < 2 ^ 62) }
    ensures { result ≡ block_figures f n entry exit }
{
    Figures {
        blocks: f.blocks + 1,
        length: f.length + n.length,
        peak: f.peak.max(peak_of(n, entry, exit)),
        ..f
    }
}

// The figures with one inner junction more, by what held it.
fn with_held(f: Figures, held: HeldBy) -> Figures
    requires { (f.feed < 2 ^ 62) × (f.corner < 2 ^ 62) × (f.chord < 2 ^ 62) × (f.reach < 2 ^ 62) }
    ensures { result ≡ held_figures f (held_number held) }
{
    match held {
        HeldBy::Feed => Figures {
            feed: f.feed + 1,
            ..f
        },
        HeldBy::Corner => Figures {
            corner: f.corner + 1,
            ..f
        },
        HeldBy::Chord => Figures {
            chord: f.chord + 1,
            ..f
        },
        HeldBy::Reach => Figures {
            reach: f.reach + 1,
            ..f
        },
    }
}

// The figures of the rows before row k, with those of row k: its block, and the junction where it begins.
fn with_row(f: Figures, tape: Planned, k: usize) -> Figures
    requires { (f ≡ row_figures tape.sheet.now tape.plan.now k) × Countable tape.sheet.now tape.plan.now (k + 1) }
    ensures { result ≡ row_figures tape.entry.sheet.now tape.entry.plan.now (k + 1) }
{
    let row = tape.row(k);
    let g = with_block(f, row.numbers, tape.plan[k], tape.plan[k + 1]);
    if k == 0 {
        return g;
    }
    let before = tape.row(k - 1);
    with_held(g, held_by(before, row, tape.plan[k]))
}

// The figures of the first n rows of a sheet, with the plan's squared speeds at the ends of their blocks.
pub fn count_rows(tape: Planned, n: usize) -> Figures
    requires { Countable tape.sheet.now tape.plan.now n }
    ensures { result ≡ row_figures tape.entry.sheet.now tape.entry.plan.now n }
{
    let mut f = none();
    for k in 0..n {
        f = with_row(f, tape, k);
    }
    f
}
