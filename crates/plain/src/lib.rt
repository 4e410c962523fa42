// The plain engine: the slice of a day and the verdict on a sequenced rule, worked out the long way, for every byte string. It shares the readers
// and the columns with the quick engine (`bank`) and nothing else; what its calls promise is what those of `bank` promise.
#![tactic(auto)]

ghost use Rattle.opening.specs.Promises.{SlicePromise, SequencedPromise};

use meaning::{Refusal, Verdict};

pub mod days; // days.rt: every day of a period, each judged on its slice
pub mod counting; // counting.rt: change days, counted plainly
pub mod opened; // opened.rt: the answers over opened images

// The slice of a day, into a lent list: the records of the versions in the bank on that day, ascending, from the list's first entry on; or
// refused, and the list stays as it was. Cost: reading the image, a pass that chains its records, then a look at each version of an item come to.
pub fn slice(nodes: &[u8], day: usize, out: &mut [u16]) -> Result<usize, Refusal>
    ensures { SlicePromise nodes.now day out.old result out.new }
{
    let columns = opening::open_nodes(nodes);
    let n = columns.loaded?;
    opened::slice_of(columns, n, day, out)
}

// The verdict on a sequenced rule: holds, with how many change days its period has; fails, with the first failing day, the lowest offending
// record and the place of that day among the change days; or refused, with 11 also where the rule is not sequenced. Cost: reading both
// images, then that of `opened::verdict_of`.
pub fn verdict(nodes: &[u8], rules: &[u8], rule: usize) -> Result<Verdict, Refusal>
    ensures { SequencedPromise nodes.now rules.now rule result }
{
    let columns = opening::open(nodes, rules);
    let n = columns.loaded?;
    opened::verdict_opened(columns, n, rules, rule)
}
