// Programs in RS-274 text: `fullerecru::texts` for C.
ghost use Rattle.fullerecru.specs.Texts.{TextLent};

use fullerecru::{COUNT, texts};

// Writes the blocks of a text as tape records, `tape::RECORD_BYTES` each, from the first byte of `records` on, all or none,
// and their number to `blocks`.
#[unsafe(no_mangle)]
pub extern "C" fn fullerecru_text(
    text: &[u8],
    records: &mut [u8],
    blocks: &mut [u64; COUNT],
    place: &mut [u64; COUNT],
) -> u64
    ensures { TextLent text.now result records.old records.new blocks.old blocks.new place.new }
{
    texts::fullerecru_text(text, records, blocks, place)
}
