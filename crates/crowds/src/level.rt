// The pass over levels: the stretches of places on which at least so many records of one key are present at once.
ghost use Rattle.std.specs.Prelude.{ℕ, ◌≤◌, ◌<◌, length};
ghost use Rattle.meaning.specs.Block.{limit};
ghost use Rattle.crowds.specs.Crowds.{at, Ordered};
ghost use Rattle.crowds.specs.Tallies.{Room, Cleared};
ghost use Rattle.crowds.specs.Levels.{Levels, First, Joins, Joined, Leaves, Left};

use numbers::index;
use passes::Spans;

// Whether the record at position i of the order, if there is one, begins before place h.
fn comes_first(order: &[u16], lo: &[u16], i: usize, h: u16) -> bool
    requires { (j : ℕ) → j < length order.now → at order.now j < length lo.now }
    ensures { First order.now lo.now i h result }
{
    if order.len() <= i {
        return false;
    }
    lo[index(order[i])] < h
}

// Adds a record that begins to the tally of its key; where that comes to `least`, the record is its opener.
fn join(spans: Spans, n: usize, met: u16, least: usize, tally: &mut [u16], opener: &mut [u16])
    requires { Room spans.key.now spans.lo.now spans.hi.now tally.old n × (n ≤ length opener.old) × (n ≤ limit) × Joins spans.key.now spans.lo.now spans.hi.now n met tally.old }
    ensures { Joined spans.entry.key.now spans.entry.lo.now spans.entry.hi.now least met tally.old opener.old tally.new opener.new }
{
    let x = index(met);
    let k = index(spans.key[x]);
    if (spans.hi[x] <= spans.lo[x]) | (n <= k) {
        return;
    }
    let t = tally[k];
    tally[k] = t + 1;
    if index(t) + 1 == least {
        opener[k] = met;
    }
}

// Takes a record that ends off the tally of its key; where that falls below `least`, its opener is told the place.
fn leave(
    spans: Spans,
    n: usize,
    met: u16,
    least: usize,
    tally: &mut [u16],
    opener: &[u16],
    until: &mut [u16],
)
    requires { Room spans.key.now spans.lo.now spans.hi.now tally.old n × (n ≤ length opener.now) × (n ≤ length until.old) × Leaves spans.key.now n least met tally.old opener.now }
    ensures { Left spans.entry.key.now spans.entry.lo.now spans.entry.hi.now n least met tally.old opener.now until.old tally.new until.new }
{
    let y = index(met);
    let k = index(spans.key[y]);
    let h = spans.hi[y];
    if (h <= spans.lo[y]) | (n <= k) {
        return;
    }
    let t = tally[k];
    tally[k] = t.saturating_sub(1);
    if index(t) == least {
        until[index(opener[k])] = h;
    }
}

// What `level` does, by tallies that are clear: begins and ends are taken in the order of their places, of one place the ends first. Cost: three
// looks at the orders for each record of either, six more, and a store or two.
fn walk(
    opens: &[u16],
    closes: &[u16],
    spans: Spans,
    n: usize,
    least: usize,
    tally: &mut [u16],
    opener: &mut [u16],
    until: &mut [u16],
)
    requires { Ordered opens.now spans.lo.now spans.key.now n × Ordered closes.now spans.hi.now spans.key.now n × Room spans.key.now spans.lo.now spans.hi.now tally.old n × (n ≤ length opener.old) × (n ≤ length until.old) × (n ≤ limit) × (1 ≤ least) × Cleared tally.old n × Cleared until.old n }
    ensures { Levels spans.entry.key.now spans.entry.lo.now spans.entry.hi.now n least until.new }
{
    let mut i: usize = 0;
    let mut j: usize = 0;
    // a while: i and j move by turns
    while j < closes.len() {
        let y = closes[j];
        let h = spans.hi[index(y)];
        if comes_first(opens, spans.lo, i, h) {
            join(spans, n, opens[i], least, tally, opener);
            i += 1;
        } else {
            leave(spans, n, y, least, tally, opener, until);
            j += 1;
        }
    }
}

// For each record the place up to which, from its own lo on, at least `least` of n records of its key are present; 0 for one that does not bring
// them to as many. A record takes part if its key is below n; `opens` has those that do in the order of lo, `closes` in the order of hi, and each may
// have others too. `tally` and `opener` are lent, and their first n entries are lost; the first n of `until` are lent clear. Cost: a store for
// each of the n, and nine looks and a store or two for each record of the two orders.
pub fn level(
    opens: &[u16],
    closes: &[u16],
    spans: Spans,
    n: usize,
    least: usize,
    tally: &mut [u16],
    opener: &mut [u16],
    until: &mut [u16],
)
    requires { Ordered opens.now spans.lo.now spans.key.now n × Ordered closes.now spans.hi.now spans.key.now n × Room spans.key.now spans.lo.now spans.hi.now tally.old n × (n ≤ length opener.old) × (n ≤ length until.old) × (n ≤ limit) × (1 ≤ least) × Cleared until.old n }
    ensures { Levels spans.entry.key.now spans.entry.lo.now spans.entry.hi.now n least until.new }
{
    tally[..n].fill(0);
    walk(opens, closes, spans, n, least, tally, opener, until);
}
