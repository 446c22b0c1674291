// Limits and a text as a whole tape, or the line of their refusal: what a program writes of them.
ghost use Rattle.std.specs.Prelude.{◌≡◌, ◌+◌, ◌*◌, ◌≤◌, length, take};
ghost use Rattle.display.specs.Display.{refusal_number};
ghost use Rattle.tape.specs.Tape.{limits_bytes, record_bytes};
ghost use Rattle.tape.specs.Answers.{most_blocks, most_bytes};
ghost use Rattle.text.specs.Store.{Stored};
ghost use Rattle.text.specs.Text.{refused_at};
ghost use Rattle.rs274.specs.Answers.{Makes, tape_or_line};

use crate::whole::text_records;
use display::{RefusedAt, refusal_number};
use tape::limits::read_limits;
use tape::{LIMITS_BYTES, MOST_BYTES, RECORD_BYTES};
use text::{behind, put_bytes, put_refused_at};

// Stores the line of a refusal. Here and below a slice with its length in a clause, and no array: of the part behind an array's limits
// the length is a number, and the proof that `text_records` is lent that part did not close.
fn put_refusal(r: RefusedAt, out: &mut [u8]) -> usize
    requires { length out.old ≡ most_bytes }
    ensures { Stored out.old 0 (refused_at (refusal_number r.why) r.place) result out.new }
{
    behind(
        put_refused_at(out, 0, refusal_number(r.why), r.place as u64),
        0,
    )
}

// Stores the limits' bytes before so many records, and answers how long the tape is.
fn put_limits(head: &[u8], blocks: usize, out: &mut [u8]) -> usize
    requires { (limits_bytes ≤ length head.now) × ((blocks ≤ most_blocks) × (length out.old ≡ most_bytes)) }
    ensures { Stored out.old 0 (take limits_bytes head.now) limits_bytes out.new × (result ≡ limits_bytes + record_bytes * blocks) }
{
    let end = behind(put_bytes(out, 0, &head[..LIMITS_BYTES]), 0);
    end + RECORD_BYTES * blocks
}

// Stores the tape of limits and a text, and answers how many bytes it has; else the lent bytes stay. The refusal of the
// limits comes before those of the text.
fn put_tape(head: &[u8], text: &[u8], out: &mut [u8]) -> Result<usize, RefusedAt>
    requires { length out.old ≡ most_bytes }
    ensures { Makes head.now text.now out.old result out.new }
{
    read_limits(head)?;
    let blocks = text_records(text, &mut out[LIMITS_BYTES..])?;
    Ok(put_limits(head, blocks, out))
}

// Stores the tape of limits, as bytes of which the first 24 count, and a text at the beginning of the lent bytes, or the
// line `refused`, the number, `at`, the place. Returns how many bytes that is; every other byte stays as it is.
pub fn text_tape(head: &[u8], text: &[u8], out: &mut [u8; MOST_BYTES]) -> usize
    ensures { Stored out.old 0 (tape_or_line head.now text.now) result out.new }
{
    match put_tape(head, text, out) {
        Ok(end) => end,
        Err(refused) => put_refusal(refused, out),
    }
}
