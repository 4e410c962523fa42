// Parts of an offence that are a matter of how many: too few and too many of one key at once.
ghost use Rattle.std.specs.Prelude.{◌≤◌, length};
ghost use Rattle.parts.specs.Ground.{GroundOf, CrowdingOf};
ghost use Rattle.parts.specs.Parts.{ByFew, BelowWhole, Small};
ghost use Rattle.crowds.specs.Crowds.{ByMany};

use crate::{Asking, Bounds, Counted, Line, below_whole, holders, keys};
use columns::LIMIT;
use passes::{NEVER, Spans};

// A place no later than any at which a marked record is present, and no record whose key is its class is. Cost: three passes over n records, one
// along the order.
pub fn lacking(
    line: Line,
    asking: Asking,
    key: &[u16],
    demand: &mut [u16],
    reach: &mut [u16],
    need: &mut [u16],
) -> u16
    requires { GroundOf line × (line.n ≤ length asking.marks.now) × (line.n ≤ length key.now) × Small line.n asking.class.now × (line.n ≤ length demand.old) × (line.n ≤ length reach.old) × (line.n ≤ length need.old) }
    ensures { ByFew line.entry.order.now asking.entry.marks.now asking.entry.class.now key.now line.entry.lo.now line.entry.hi.now line.entry.n 1 result }
{
    keys::demand_keys(asking.marks, asking.class, line.n, demand);
    let demands = Spans {
        key: demand,
        lo: line.lo,
        hi: line.hi,
    };
    passes::gap(line.order, demands, key, line.hi, line.n, reach, need)
}

// A place no later than any at which a marked record is present, and fewer than `low`, one or more, of the records whose key is its class are: its
// class is supplied where at least `low` are. Cost: four passes over n records, two along the order and one along the ends.
fn below(
    all: Counted,
    asking: Asking,
    low: usize,
    demand: &mut [u16],
    reach: &mut [u16],
    need: &mut [u16],
) -> u16
    requires { CrowdingOf all × (all.line.n ≤ length asking.marks.now) × Small all.line.n asking.class.now × (1 ≤ low) × (all.line.n ≤ length demand.old) × (all.line.n ≤ length reach.old) × (all.line.n ≤ length need.old) }
    ensures { ByFew all.entry.line.order.now asking.entry.marks.now asking.entry.class.now all.entry.key.now all.entry.line.lo.now all.entry.line.hi.now all.entry.line.n low result }
{
    let Line { order, lo, hi, n } = all.line;
    let key = all.key;
    let mut until = [0u16; LIMIT];
    let spans = Spans { key, lo, hi };
    crowds::level::level(order, all.closes, spans, n, low, reach, need, &mut until);
    keys::demand_keys(asking.marks, asking.class, n, demand);
    let demands = Spans {
        key: demand,
        lo,
        hi,
    };
    passes::gap(order, demands, key, &until, n, reach, need)
}

// A place no later than any at which a marked record is present, and fewer than `low` records whose key is its class are.
// Cost: four passes over n records at most, two along the order and one along the ends.
pub fn too_few(
    all: Counted,
    asking: Asking,
    low: usize,
    demand: &mut [u16],
    reach: &mut [u16],
    need: &mut [u16],
) -> u16
    requires { CrowdingOf all × (all.line.n ≤ length asking.marks.now) × Small all.line.n asking.class.now × (all.line.n ≤ length demand.old) × (all.line.n ≤ length reach.old) × (all.line.n ≤ length need.old) }
    ensures { ByFew all.entry.line.order.now asking.entry.marks.now asking.entry.class.now all.entry.key.now all.entry.line.lo.now all.entry.line.hi.now all.entry.line.n low result }
{
    if low == 0 {
        return NEVER;
    }
    if low == 1 {
        return lacking(all.line, asking, all.key, demand, reach, need);
    }
    below(all, asking, low, demand, reach, need)
}

// A place no later than any at which more than `high` records of one key are present, where some key has more in all.
// Cost: a pass over n records, and one along each order.
fn crowd(all: Counted, high: usize, own: &mut [u16], tally: &mut [u16], holder: &mut [u16]) -> u16
    requires { CrowdingOf all × (all.line.n ≤ length own.old) × (all.line.n ≤ length tally.old) × (all.line.n ≤ length holder.old) }
    ensures { ByMany all.entry.key.now all.entry.line.lo.now all.entry.line.hi.now all.entry.line.n high result }
{
    let Line { order, lo, hi, n } = all.line;
    let key = all.key;
    let spans = Spans { key, lo, hi };
    if high == 0 {
        return passes::least(order, spans, n);
    }
    if high == 1 {
        keys::numbered(n, own);
        return holders::twice(all.line, key, own, tally, holder);
    }
    crowds::crowd(order, all.closes, spans, n, high, tally)
}

// A place no later than any at which more than `high` records of one key are present. Where no key has more in all there is none.
// Cost: two passes over n records, and one along each order.
pub fn too_many(
    all: Counted,
    high: usize,
    own: &mut [u16],
    tally: &mut [u16],
    holder: &mut [u16],
) -> u16
    requires { CrowdingOf all × (all.line.n ≤ length own.old) × (all.line.n ≤ length tally.old) × (all.line.n ≤ length holder.old) }
    ensures { ByMany all.entry.key.now all.entry.line.lo.now all.entry.line.hi.now all.entry.line.n high result }
{
    let n = all.line.n;
    if !passes::crowded(all.key, n, n, high, tally) {
        return NEVER;
    }
    crowd(all, high, own, tally, holder)
}

// A cardinality: too few of the class of a marked record, at a place below `whole`, or too many of one key.
pub fn cardinality(
    all: Counted,
    asking: Asking,
    bounds: Bounds,
    demand: &mut [u16],
    top: &mut [u16],
    holder: &mut [u16],
) -> u16
    requires { CrowdingOf all × (all.line.n ≤ length asking.marks.now) × Small all.line.n asking.class.now × (all.line.n ≤ length demand.old) × (all.line.n ≤ length top.old) × (all.line.n ≤ length holder.old) }
    ensures { BelowWhole (ByFew all.entry.line.order.now asking.entry.marks.now asking.entry.class.now all.entry.key.now all.entry.line.lo.now all.entry.line.hi.now all.entry.line.n bounds.low) bounds.whole result × ByMany all.entry.key.now all.entry.line.lo.now all.entry.line.hi.now all.entry.line.n bounds.high result }
{
    let few = too_few(all, asking, bounds.low, demand, top, holder);
    let many = too_many(all, bounds.high, demand, top, holder);
    below_whole(few, bounds.whole).min(many)
}
