// The torque steps: how much of the acceleration the motors give at a speed, in percent. The built-in steps serve where the
// owner has loaded none.
ghost use Rattle.std.specs.Prelude.{[], ◌≡◌, ◌≤◌, ◌<◌};
ghost use Rattle.display.specs.Display.{outcome_of};
ghost use Rattle.machine.specs.Answers.{loaded_answer};
ghost use Rattle.machine.specs.Ranges.{most_feed, most_percent};
ghost use Rattle.machine.specs.Torque.{falling, machine_of, torque_percent};

use crate::check::is_within;
use crate::{Limits, Machine};
use display::Refusal;
use fields::read_word;

// Torque steps, a byte each where they are loaded.
pub const STEPS: usize = 8;
// Smallest and greatest percentage of a step.
pub const LEAST_PERCENT: u64 = 1;

pub const MOST_PERCENT: u64 = 100;
// The built-in torque: 100, 100, 90, 80, 70, 60, 50 and 40 percent.
const BUILT_IN: u64 = 0x6464_5A50_463C_3228;

// Width of a torque step, µm/s: the first ends at this speed.
const STEP: u32 = 125_000;

// The machine with these limits and the built-in torque.
pub(crate) fn built_in(l: Limits) -> Machine
    ensures { result ≡ machine_of l [] }
{
    Machine {
        limits: l,
        torque: BUILT_IN,
    }
}

// Whether each percentage is 1 to 100, and none exceeds the one before it.
fn is_falling(steps: &[u8]) -> bool
    ensures { result ≡ falling most_percent steps.now }
{
    let mut most = MOST_PERCENT;
    for step in steps {
        let percent = u64::from(*step);
        if !is_within(LEAST_PERCENT, most, percent) {
            return false;
        }
        most = percent;
    }
    true
}

// The machine with these limits, which are not looked at, and the steps that are loaded: eight bytes, or none for the built-in
// steps. Refuses by 14.
pub fn with_steps(l: Limits, steps: &[u8]) -> Result<Machine, Refusal>
    ensures { outcome_of result ≡ loaded_answer l steps.now }
{
    if steps.is_empty() {
        return Ok(built_in(l));
    }
    if steps.len() != STEPS {
        return Err(Refusal::Steps);
    }
    if !is_falling(steps) {
        return Err(Refusal::Steps);
    }
    Ok(Machine {
        limits: l,
        torque: read_word(steps, 0),
    })
}

// Percent of the acceleration that the motors give at a block speed, whose bound is a clause like that of limits (`measure`): the byte of its step, shifted to the top of the number.
// The step is worked out in 32 bits, where the division costs one product.
pub(crate) fn torque_percent(torque: u64, speed: u64) -> u64
    requires { speed ≤ most_feed }
    ensures { (result ≡ torque_percent torque speed) × (result < 256) }
{
    let step = speed.saturating_sub(1) as u32 / STEP;
    (torque << (8 * step)) >> 56
}
