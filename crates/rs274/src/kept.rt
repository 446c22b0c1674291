// The records of a text's blocks, kept until the whole text is read, so that all of them are written or none.
ghost use Rattle.std.specs.Prelude.{◌≡◌, List, [], ◌*◌, ◌≤◌, eqb, take};
ghost use Rattle.machine.specs.Checks.{greatest_move};
ghost use Rattle.machine.specs.declared.Block.{Block};
ghost use Rattle.tape.specs.Answers.{most_blocks};
ghost use Rattle.tape.specs.Tape.{record_bytes};

use display::{Refusal, RefusedAt};
use machine::Block;
use machine::check::check_block;
use machine::measure::moves_of;
use tape::records::write_record;
use tape::{MOST_BLOCKS, RECORD_BYTES};
use text::put_bytes;

// Bytes of as many records as a tape has at most.
const KEPT: usize = RECORD_BYTES * MOST_BLOCKS;

// Whether a block moves nothing.
fn is_still(b: Block) -> bool
    ensures { result ≡ eqb (greatest_move b) 0 }
{
    let m = moves_of(b);
    (m.x == 0) & (m.y == 0) & (m.z == 0)
}

// The records of the blocks kept so far, one behind the other, in `RECORD_BYTES` bytes each. Not an `ArrayVec`: that lends only the
// bytes in use, and a record is written in place into those behind them; and `Holds` speaks of the whole list and the count.
#[derive(Drop)]
pub(crate) struct Kept {
    // the records, from the first byte on
    bytes: [u8; KEPT],
    // how many there are
    count: usize,
    ghost few: { count ≤ most_blocks },
}

impl Kept {
    ghost use Rattle.rs274.specs.Kept.{Holds, Keeps, WroteKept};
    ghost use Rattle.rs274.specs.Text.{with_block};

    pub(crate) fn new() -> Kept
        ensures { Holds result.bytes result.count [] }
    {
        Kept {
            bytes: [0; KEPT],
            count: 0,
        }
    }

    // Keeps a block's record behind those that are kept. One that moves nothing is none; 3 to 6 come before 10.
    pub(crate) fn keep(&mut self, b: Block) -> Result<(), Refusal>
        ensures { (blocks : List Block) → Holds self.old.bytes self.old.count blocks → Keeps (with_block b blocks) result self.new }
    {
        if is_still(b) {
            return Ok(());
        }
        if MOST_BLOCKS <= self.count {
            check_block(b)?;
            return Err(Refusal::Many);
        }
        let from = RECORD_BYTES * self.count;
        write_record(b, &mut self.bytes[from..])?;
        self.count += 1;
        Ok(())
    }

    // Writes the kept records at the beginning of the lent list, and answers how many there are: 9 where it is too short.
    pub(crate) fn write(&self, records: &mut [u8]) -> Result<usize, RefusedAt>
        ensures { WroteKept self.now.count (take (record_bytes * self.now.count) self.now.bytes) records.old result records.new }
    {
        let end = RECORD_BYTES * self.count;
        put_bytes(records, 0, &self.bytes[..end]).ok_or(Refusal::Ragged)?;
        Ok(self.count)
    }
}
