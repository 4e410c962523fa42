// The public face of the checker: the slice of a day, the change days of a rule and the verdict on a rule, for every byte string; and a node image written from records, for all columns.
#![tactic(auto)]

ghost use Rattle.writer.specs.Filling.{held};
ghost use Rattle.writer.specs.Promise.{WritePromise};
ghost use Rattle.opening.specs.Promises.{VerdictPromise, SlicePromise, ChangesPromise};

use columns::Records;
use meaning::{Refusal, Verdict};

pub mod opened; // opened.rt: the answers over opened images
pub mod looking; // looking.rt: the verdict, with how many places were looked into for it

// The slice of a day, into a lent list: the records of the versions in the bank on that day, ascending, from the list's first entry on; or
// refused, and the list stays as it was. Cost: reading the image, then three looks at each record.
pub fn slice(nodes: &[u8], day: usize, out: &mut [u16]) -> Result<usize, Refusal>
    ensures { SlicePromise nodes.now day out.old result out.new }
{
    let columns = opening::open_nodes(nodes);
    let n = columns.loaded?;
    opened::slice_of(columns, n, day, out)
}

// The change days of a sequenced rule, into a lent list, ascending, from the list's first entry on; or refused, and the list stays as it was.
// Cost: reading the images, two sorted lists of the versions, three passes over the records for the rule, three more for the rule that a
// reference refers to, a look at each position of both lists, and two more for each change day.
pub fn change_days(
    nodes: &[u8],
    rules: &[u8],
    rule: usize,
    out: &mut [u16],
) -> Result<usize, Refusal>
    ensures { ChangesPromise nodes.now rules.now rule out.old result out.new }
{
    let columns = opening::open(nodes, rules);
    let n = columns.loaded?;
    opened::changes_of(columns, n, rules, rule, out)
}

// The verdict on a rule: holds, with how many slices or windows were looked at; fails, with the first failing day or window start, the lowest
// offending record and how many; or refused. Cost: reading both images, then the verdict on the rule.
pub fn verdict(nodes: &[u8], rules: &[u8], rule: usize) -> Result<Verdict, Refusal>
    ensures { VerdictPromise nodes.now rules.now rule result }
{
    let found = looking::judge(nodes, rules, rule)?;
    Ok(found.verdict)
}

// The records in the first `count` entries of eight lent columns, written as a node image from the first byte of a lent stretch on: how many
// bytes were written, and the bytes past them stay; or refused, and every byte stays. Cost: as `writer::write_nodes`, which it is.
pub fn write_nodes(count: usize, records: Records<'_>, image: &mut [u8]) -> Result<usize, Refusal>
    ensures { WritePromise count (held records.entry) image.old result image.new }
{
    writer::write_nodes(count, records, image)
}
