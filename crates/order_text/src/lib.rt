// The text of a host's orders and takes that are run through a planner: a line for each event, and the
// closing lines, those of the planner and the host's point, stored in bytes that the caller lends. Events
// of any number are run chunk by chunk in one such list. An event is 68 bytes, most significant byte
// first: its kind, one word of 32 bits (0 is a take, 1 a rapid, 2 a feed, any other a curve chord), then
// eight doubles by their bits: target X, Y, Z, offset X, Y, Z, speed, radius.
#![tactic(auto)]

mod events;

ghost use Rattle.std.specs.Prelude.{◌+◌, ◌≤◌, ◌≡◌, length};
ghost use Rattle.host.specs.State.{host_of, position_of};
ghost use Rattle.given_text.specs.Given.{WroteLine};
ghost use Rattle.replay_text.specs.Chunks.{chunk_calls, line_bytes};
ghost use Rattle.replay_text.specs.Runs.{RanText};
ghost use Rattle.order_text.specs.Texts.{point_text, recorded_events};
ghost use Rattle.order_text.specs.Closes.{ClosedOrders};

use doubles::bits_of;
use events::read_event;
use planner::NUMBERS;
use replay_text::{CALLS, TEXT, records_of, write_answer};
use text::behind;

// Bytes of an event.
pub const EVENT_BYTES: usize = 68;
// Events of a chunk that are run at most, as many as calls of a trace: their lines have room in a list of `replay_text::TEXT` bytes.
pub const EVENTS: usize = CALLS;

// Runs the events of a chunk in turn, and stores their lines from the first byte on, each behind the one
// before it. Returns how many bytes they take. Events beyond `EVENTS`, and bytes behind the last whole
// event, play no part. The loop is replay_text's but for its step: one function for both needs a trait or a
// closure for the step, with its law, and one for each, which is longer than these lines twice.
pub fn run_chunk(
    bytes: &[u8],
    memory: &mut [u64; NUMBERS],
    host: &mut [u64; host::NUMBERS],
    text: &mut [u8; TEXT],
) -> usize
    ensures { RanText recorded_events (chunk_calls recorded_events bytes.now) (record { memory = memory.old; host = host.old }) (record { memory = memory.new; host = host.new }) text.old result text.new }
{
    let mut end: usize = 0;
    for k in 0..records_of(bytes, EVENT_BYTES, EVENTS) {
        let answer = host::event(memory, host, read_event(bytes, k));
        end = write_answer(answer, text, end);
    }
    end
}

// Stores the line of the host's point: the patterns of its three doubles, µm.
fn write_point(host: &[u64; host::NUMBERS], text: &mut [u8], at: usize) -> usize
    requires { at + line_bytes ≤ length text.old }
    ensures { WroteLine (point_text (position_of (host_of host.now))) text.old at result text.new }
{
    let p = host::position(host);
    behind(
        text::put_line(
            text,
            at,
            b"point",
            &[bits_of(p.x), bits_of(p.y), bits_of(p.z)],
        ),
        at,
    )
}

// Stores the closing lines from the first byte on: the number of blocks held, the plan, and the host's
// point. Returns how many bytes they take.
pub fn close(memory: &[u64; NUMBERS], host: &[u64; host::NUMBERS], text: &mut [u8; TEXT]) -> usize
    ensures { ClosedOrders (record { memory = memory.now; host = host.now }) text.old result text.new }
{
    let end = replay_text::close(memory, text);
    write_point(host, text, end)
}
