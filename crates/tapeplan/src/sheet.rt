// The sheet of a survey: what is measured of each block, a row for each, in a list that is lent. A block that has no row in it is
// not kept, so who needs no sheet lends an empty list: a closure in its place would need a contract of what it keeps.
ghost use Rattle.std.specs.Prelude.{◌≡◌, ◌<◌};
ghost use Rattle.tapeplan.specs.Sheet.{Keeps, measured_at, rows_in};

use crate::Measured;
use tape::MOST_BLOCKS;

// Rows of a sheet with one for each block of the longest tape.
pub const SHEET: usize = MOST_BLOCKS;

// Keeps what is measured of block k as row k, if the sheet has one.
pub(crate) fn keep(sheet: &mut [Measured], k: usize, row: Measured)
    ensures { Keeps sheet.old k row sheet.new }
{
    if k < sheet.len() {
        sheet[k] = row;
    }
}

// Row k.
pub fn measured_at(sheet: &[Measured], k: usize) -> Measured
    requires { k < rows_in sheet.now }
    ensures { result ≡ measured_at sheet.now k }
{
    sheet[k]
}
