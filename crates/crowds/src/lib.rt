// The pass over crowds: the soonest place at which more than so many records of one key are present at once.
#![tactic(auto)]

ghost use Rattle.std.specs.Prelude.{◌≡◌, ◌-◌, ◌≤◌, length};
ghost use Rattle.meaning.specs.Block.{limit};
ghost use Rattle.crowds.specs.Crowds.{ByMany, Ordered};
ghost use Rattle.crowds.specs.Tallies.{Room, Cleared, Ended};

use numbers::index;
use passes::{NEVER, Spans};

pub mod level; // level.rt: on which places at least so many are present

// Takes the ends from position `from` on that lie by `until` off the tallies of their keys; the position of the first that does not. Cost:
// five looks and a store for each end taken.
fn endings(
    closes: &[u16],
    spans: Spans,
    n: usize,
    from: usize,
    until: u16,
    tally: &mut [u16],
) -> usize
    requires { Ordered closes.now spans.hi.now spans.key.now n × Room spans.key.now spans.lo.now spans.hi.now tally.old n × (from ≤ length closes.now) }
    ensures { Ended closes.now spans.entry.key.now spans.entry.lo.now spans.entry.hi.now n until from result tally.old tally.new }
{
    for j in from..closes.len() {
        let y = index(closes[j]);
        let a = spans.lo[y];
        let b = spans.hi[y];
        if until < b {
            return j;
        }
        let k = index(spans.key[y]);
        if (a < b) & (k < n) {
            tally[k] = tally[k].saturating_sub(1);
        }
    }
    closes.len()
}

// What `crowd` answers, by tallies that are clear: for each key how many of its records have begun and not ended. Cost: six looks and a store
// for each record of the two orders, up to the place that is answered.
fn sweep(
    opens: &[u16],
    closes: &[u16],
    spans: Spans,
    n: usize,
    most: usize,
    tally: &mut [u16],
) -> u16
    requires { Ordered opens.now spans.lo.now spans.key.now n × Ordered closes.now spans.hi.now spans.key.now n × Room spans.key.now spans.lo.now spans.hi.now tally.old n × (n ≤ limit) × Cleared tally.old n }
    ensures { ByMany spans.entry.key.now spans.entry.lo.now spans.entry.hi.now n most result }
{
    let mut j: usize = 0;
    for &number in opens {
        let x = index(number);
        let a = spans.lo[x];
        let b = spans.hi[x];
        let k = index(spans.key[x]);
        if (a < b) & (k < n) {
            j = endings(closes, spans, n, j, a, tally);
            let t = tally[k];
            if most <= index(t) {
                return a;
            }
            tally[k] = t + 1;
        }
    }
    NEVER
}

// A place no later than any at which more than `most` of n records of one key are present; NEVER where there is none. A record takes part if
// its key is below n; `opens` has those that do in the order of lo, `closes` in the order of hi, and each may have others too. `tally` is lent,
// and its first n entries are lost. Cost: a store for each of the n, and six looks and a store for each record of the two orders.
pub fn crowd(
    opens: &[u16],
    closes: &[u16],
    spans: Spans,
    n: usize,
    most: usize,
    tally: &mut [u16],
) -> u16
    requires { Ordered opens.now spans.lo.now spans.key.now n × Ordered closes.now spans.hi.now spans.key.now n × Room spans.key.now spans.lo.now spans.hi.now tally.old n × (n ≤ limit) }
    ensures { ByMany spans.entry.key.now spans.entry.lo.now spans.entry.hi.now n most result }
{
    tally[..n].fill(0);
    sweep(opens, closes, spans, n, most, tally)
}
