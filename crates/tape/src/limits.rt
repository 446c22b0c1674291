// The limits of a machine: `LIMITS_BYTES`, read field by field and written as three words.
ghost use Rattle.std.specs.Prelude.{◌≡◌, ◌+◌, ◌*◌, ◌/◌, ◌%◌, ◌^◌, ◌<◌, ◌≤◌, length};
ghost use Rattle.fields.specs.Layouts.{InWidths};
ghost use Rattle.fields.specs.Bytes.{with_bytes};
ghost use Rattle.fields.specs.Fields.{Bits};
ghost use Rattle.machine.specs.Numbers.{AxesBelow};
ghost use Rattle.tape.specs.Tape.{limits_at, limits_bytes, limits_fields, limits_layout, limits_number};
ghost use Rattle.display.specs.Display.{outcome_of};
ghost use Rattle.tape.specs.Answers.{limits_write_refusal, limits_written, read_limits, Wrote};

use crate::LIMITS_BYTES;
use display::Refusal;
use machine::check::check_limits;
use machine::{Axes, Limits};

// The limits that the first bytes say, unchecked, whatever the zero bits are. A field is named by its first bit and its width,
// written out and in no table, since the library has no tables in read-only memory (at most 128 bytes).
fn decode_limits(s: &[u8]) -> Limits
    requires { limits_bytes ≤ length s.now }
    ensures { result ≡ limits_at s.now }
{
    Limits {
        accel: Axes {
            x: fields::read_field(s, 0, 25),
            y: fields::read_field(s, 25, 25),
            z: fields::read_field(s, 50, 25),
        },
        speed: Axes {
            x: fields::read_field(s, 75, 20),
            y: fields::read_field(s, 95, 20),
            z: fields::read_field(s, 115, 20),
        },
        jump: fields::read_field(s, 135, 20),
        chord: fields::read_field(s, 155, 10),
        tick: fields::read_field(s, 165, 14),
    }
}

// The first word of limits: accelerations X and Y, and Z without its 11 low bits.
fn first_word(accel: Axes) -> u64
    requires { AxesBelow (2 ^ 25) accel }
    ensures { Bits 64 (accel.x * 2 ^ 39 + accel.y * 2 ^ 14 + accel.z / 2 ^ 11) result }
{
    (accel.x << 39) + (accel.y << 14) + (accel.z >> 11)
}

// The second word: the 11 low bits of acceleration Z, speeds X and Y, and Z without its 7 low bits.
fn second_word(z: u64, speed: Axes) -> u64
    requires { AxesBelow (2 ^ 20) speed }
    ensures { Bits 64 (z % 2 ^ 11 * 2 ^ 53 + speed.x * 2 ^ 33 + speed.y * 2 ^ 13 + speed.z / 2 ^ 7) result }
{
    ((z % (1 << 11)) << 53) + (speed.x << 33) + (speed.y << 13) + (speed.z >> 7)
}

// The third word: the 7 low bits of speed Z, corner jump, chord tolerance, tick and 13 zero bits.
fn third_word(z: u64, jump: u64, chord: u64, tick: u64) -> u64
    requires { (jump < 2 ^ 20) × ((chord < 2 ^ 10) × (tick < 2 ^ 14)) }
    ensures { Bits 64 (z % 2 ^ 7 * 2 ^ 57 + jump * 2 ^ 37 + chord * 2 ^ 27 + tick * 2 ^ 13) result }
{
    ((z % (1 << 7)) << 57) + (jump << 37) + (chord << 27) + (tick << 13)
}

// Stores limits whose values fit their fields in the first bytes.
fn store_limits(l: Limits, out: &mut [u8])
    requires { (limits_bytes ≤ length out.old) × InWidths limits_layout (limits_fields l) }
    ensures { out.new ≡ with_bytes out.old 0 limits_bytes (limits_number l) }
{
    let accel = l.accel;
    let speed = l.speed;
    let first = first_word(accel);
    let second = second_word(accel.z, speed);
    let third = third_word(speed.z, l.jump, l.chord, l.tick);
    fields::write_word(out, 0, first);
    fields::write_word(out, 8, second);
    fields::write_word(out, 16, third);
}

// Reads the limits that the bytes begin with; later bytes play no part. 9 comes first, then 1.
pub fn read_limits(s: &[u8]) -> Result<Limits, Refusal>
    ensures { outcome_of result ≡ read_limits s.now }
{
    if s.len() < LIMITS_BYTES {
        return Err(Refusal::Ragged);
    }
    if fields::read_field(s, 179, 13) != 0 {
        return Err(Refusal::Limits);
    }
    let l = decode_limits(s);
    check_limits(l)?;
    Ok(l)
}

// Writes limits at the beginning of the lent bytes, of which only `LIMITS_BYTES` change. 1 comes first, then 9.
// Why it is no one function with `write_record` stands there.
pub fn write_limits(l: Limits, out: &mut [u8]) -> Result<(), Refusal>
    ensures { Wrote (limits_write_refusal l out.old) (limits_written l out.old) result out.new }
{
    check_limits(l)?;
    if out.len() < LIMITS_BYTES {
        return Err(Refusal::Ragged);
    }
    store_limits(l, out);
    Ok(())
}
