// Records written to an image: from lent columns to whole blocks, each filled from its own place onward, or refused and nothing stored.
#![tactic(auto)]

ghost use Rattle.writer.specs.Filling.{held};
ghost use Rattle.writer.specs.Promise.{WritePromise};

use columns::Records;
use meaning::Refusal;

pub mod filling; // filling.rt: blocks filled in a lent stretch of bytes

// The records in the first `count` entries of eight lent columns, as a node image from the first byte of a lent stretch on: how many bytes
// were written, and the bytes past them stay; or refused as the reader would refuse that image, with 1 for a count of none or too many, or
// with 12 for a short column or a short image, and every byte stays. Cost: the document's tests, then one look at each record and three at
// each byte written.
pub fn write_nodes(count: usize, records: Records<'_>, image: &mut [u8]) -> Result<usize, Refusal>
    ensures { WritePromise count (held records.entry) image.old result image.new }
{
    // not `?`, so that the edits that answer another refusal here are refused by a fact
    let read = document::front::accept_lent(count, records);
    if let Err(why) = read {
        return Err(why);
    }
    let size = 512 * filling::blocks_for(count);
    if image.len() < size {
        return Err(Refusal {
            number: 12,
            place: 0,
        });
    }
    filling::fill_blocks(count, records, image);
    Ok(size)
}
