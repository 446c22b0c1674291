// Programs in RS-274 text for C. Bytes are handed over as a pointer and their number.
ghost use Rattle.fullerecru.specs.Texts.{TextLent};

use crate::numbers::{COUNT, put_number, refused_number};
use rs274::whole::text_records;

// Writes the blocks of a text as tape records, `tape::RECORD_BYTES` each, from the first byte of `records` on, all or none, and their number to `blocks`. Refuses
// line by line by 12 or 13, by 3, 4 or 6 of its block, then by 10, and after all lines by 9 where `records` has too few bytes; then
// `records` and `blocks` stay as they were. The place is the number of the line at fault, counted from 1, or 0 where none is.
#[unsafe(no_mangle)]
pub extern "C" fn fullerecru_text(
    text: &[u8],
    records: &mut [u8],
    blocks: &mut [u64; COUNT],
    place: &mut [u64; COUNT],
) -> u64
    ensures { TextLent text.now result records.old records.new blocks.old blocks.new place.new }
{
    match text_records(text, records) {
        Ok(count) => {
            put_number(blocks, count as u64);
            put_number(place, 0);
            0
        }
        Err(fault) => refused_number(fault, place),
    }
}
