// Too few and too many values of one key at once: records of one value count once, so each counts from the end of those of its value before it.
ghost use Rattle.std.specs.Prelude.{◌≡◌, ◌||◌, cond, ◌≤◌, eqb, ltb, length};
ghost use Rattle.meaning.specs.Block.{limit};
ghost use Rattle.crowds.specs.Crowds.{ByMany, Ordered};
ghost use Rattle.distinct.specs.Classes.{Valued};
ghost use Rattle.distinct.specs.Values.{ByManyValues};
ghost use Rattle.parts.specs.Ground.{CrowdingOf};
ghost use Rattle.parts.specs.Keyed.{KeyMarks, Parted};
ghost use Rattle.parts.specs.Parts.{ByFewValues, ByFewFirst, BelowWhole, Small};

use crate::{Asking, Bounds, Counted, Line, below_whole, counts};
use columns::LIMIT;
use distinct::classes::Values;
use numbers::index;
use passes::{NEVER, Spans};

// The marks of n records: 2 where the key is below n, else 0. Cost: one pass.
fn key_marks(key: &[u16], n: usize) -> [u8; LIMIT]
    requires { (n ≤ limit) × (n ≤ length key.now) }
    ensures { KeyMarks n key.now result }
{
    let mut out = [0u8; LIMIT];
    for i in 0..n {
        out[i] = if index(key[i]) < n { 2 } else { 0 };
    }
    out
}

// Records with keys that count from `first` up to hi: n in columns, and by their ends in `closes`.
#[derive(Clone, Copy)]
struct Shifted<'a> {
    closes: &'a [u16],
    key: &'a [u16],
    first: &'a [u16],
    hi: &'a [u16],
    n: usize,
}

// A place no later than any at which more than `high` records of one key are present, each from `first` up to hi: they are sorted by `first`.
// Cost: a pass for the marks, that of sorting, two passes over n records, and one along each order.
fn resorted(
    all: Shifted,
    high: usize,
    own: &mut [u16],
    tally: &mut [u16],
    holder: &mut [u16],
) -> u16
    requires { (all.n ≤ limit) × (all.n ≤ length all.key.now) × (all.n ≤ length all.first.now) × (all.n ≤ length all.hi.now) × Ordered all.closes.now all.hi.now all.key.now all.n × (all.n ≤ length own.old) × (all.n ≤ length tally.old) × (all.n ≤ length holder.old) }
    ensures { ByMany all.entry.key.now all.entry.first.now all.entry.hi.now all.entry.n high result }
{
    let marks = key_marks(all.key, all.n);
    let sorted = orders::versions_by(&marks[0..all.n], all.first);
    let order = sorted.order;
    let line = Line {
        order: &order[0..sorted.many],
        lo: all.first,
        hi: all.hi,
        n: all.n,
    };
    let counted = Counted {
        line,
        closes: all.closes,
        key: all.key,
    };
    counts::too_many(counted, high, own, tally, holder)
}

// A place no later than any at which more than `high` values of one key are present. Where no key has more records in all there is none.
// Cost: a pass over n records; where a key has more, also those for classes and places, and what it takes to sort anew if one is moved.
pub fn too_many(
    all: Counted,
    rep: &[u16],
    high: usize,
    own: &mut [u16],
    tally: &mut [u16],
    holder: &mut [u16],
) -> u16
    requires { CrowdingOf all × Valued all.key.now rep.now all.line.n × (all.line.n ≤ length own.old) × (all.line.n ≤ length tally.old) × (all.line.n ≤ length holder.old) }
    ensures { ByManyValues all.entry.key.now rep.now all.entry.line.lo.now all.entry.line.hi.now all.entry.line.n high result }
{
    let Counted { line, closes, key } = all;
    let Line { order, lo, hi, n } = line;
    if !passes::crowded(key, n, n, high, tally) {
        return NEVER;
    }
    let pair = distinct::classes::pairs_of(Values { key, rep, n });
    let classed = Spans { key: &pair, lo, hi };
    let begins = distinct::shifts::firsts(order, classed, n);
    let first = &begins.first;
    if !begins.raised {
        let line = Line {
            order,
            lo: first,
            hi,
            n,
        };
        return counts::too_many(Counted { line, closes, key }, high, own, tally, holder);
    }
    let shifted = Shifted {
        closes,
        key,
        first,
        hi,
        n,
    };
    resorted(shifted, high, own, tally, holder)
}

// Lays out the marked ones of n records from lo on, without a key, and the others from `first` on; in `kinds` by 2 those that are marked or have a key.
// Cost: one pass.
fn part(
    all: Shifted,
    marks: &[u8],
    lo: &[u16],
    supply: &mut [u16],
    from: &mut [u16],
    kinds: &mut [u8],
)
    requires { (all.n ≤ length marks.now) × (all.n ≤ length all.key.now) × (all.n ≤ length lo.now) × (all.n ≤ length all.first.now) × (all.n ≤ length supply.old) × (all.n ≤ length from.old) × (all.n ≤ length kinds.old) }
    ensures { Parted all.entry.n marks.now all.entry.key.now lo.now all.entry.first.now supply.new from.new kinds.new }
{
    let Shifted { key, first, n, .. } = all;
    for i in 0..n {
        let marked = marks[i] == 1;
        supply[i] = if marked { LIMIT as u16 } else { key[i] };
        from[i] = if marked { lo[i] } else { first[i] };
        kinds[i] = if marked | (index(key[i]) < n) { 2 } else { 0 };
    }
}

// A place no later than any at which a marked one of n records is present, from lo on, and fewer than `low` records whose key is its class are, from
// `first` on: both are sorted into one order. Cost: a pass for the columns, that of sorting, and that of counting along the order.
fn supplied(
    all: Shifted,
    asking: Asking,
    lo: &[u16],
    low: usize,
    demand: &mut [u16],
    reach: &mut [u16],
    need: &mut [u16],
) -> u16
    requires { (all.n ≤ limit) × (all.n ≤ length asking.marks.now) × (all.n ≤ length all.key.now) × (all.n ≤ length lo.now) × (all.n ≤ length all.first.now) × (all.n ≤ length all.hi.now) × Small all.n asking.class.now × Ordered all.closes.now all.hi.now all.key.now all.n × (all.n ≤ length demand.old) × (all.n ≤ length reach.old) × (all.n ≤ length need.old) }
    ensures { ByFewFirst asking.entry.marks.now asking.entry.class.now all.entry.key.now lo.now all.entry.first.now all.entry.hi.now all.entry.n low result }
{
    let mut supply = [0u16; LIMIT];
    let mut from = [0u16; LIMIT];
    let mut kinds = [0u8; LIMIT];
    part(all, asking.marks, lo, &mut supply, &mut from, &mut kinds);
    let sorted = orders::versions_by(&kinds[0..all.n], &from);
    let order = sorted.order;
    let line = Line {
        order: &order[0..sorted.many],
        lo: &from,
        hi: all.hi,
        n: all.n,
    };
    let counted = Counted {
        line,
        closes: all.closes,
        key: &supply,
    };
    counts::too_few(counted, asking, low, demand, reach, need)
}

// A place no later than any at which a marked record is present, and fewer than `low` values of the records whose key is its class are. One value is
// there where one record is. Cost: that of counting records; for two values and more also those for classes and places, and for sorting anew.
pub fn too_few(
    all: Counted,
    asking: Asking,
    rep: &[u16],
    low: usize,
    demand: &mut [u16],
    reach: &mut [u16],
    need: &mut [u16],
) -> u16
    requires { CrowdingOf all × Valued all.key.now rep.now all.line.n × (all.line.n ≤ length asking.marks.now) × Small all.line.n asking.class.now × (all.line.n ≤ length demand.old) × (all.line.n ≤ length reach.old) × (all.line.n ≤ length need.old) }
    ensures { ByFewValues all.entry.line.order.now asking.entry.marks.now asking.entry.class.now all.entry.key.now rep.now all.entry.line.lo.now all.entry.line.hi.now all.entry.line.n low result }
{
    if low <= 1 {
        return counts::too_few(all, asking, low, demand, reach, need);
    }
    let Counted { line, closes, key } = all;
    let Line { order, lo, hi, n } = line;
    let pair = distinct::classes::pairs_of(Values { key, rep, n });
    let classed = Spans { key: &pair, lo, hi };
    let begins = distinct::shifts::firsts(order, classed, n);
    let shifted = Shifted {
        closes,
        key,
        first: &begins.first,
        hi,
        n,
    };
    supplied(shifted, asking, lo, low, demand, reach, need)
}

// A cardinality of values: too few of the class of a marked record, at a place below `whole`, or too many of one key.
pub fn cardinality(
    all: Counted,
    asking: Asking,
    rep: &[u16],
    bounds: Bounds,
    demand: &mut [u16],
    top: &mut [u16],
    holder: &mut [u16],
) -> u16
    requires { CrowdingOf all × Valued all.key.now rep.now all.line.n × (all.line.n ≤ length asking.marks.now) × Small all.line.n asking.class.now × (all.line.n ≤ length demand.old) × (all.line.n ≤ length top.old) × (all.line.n ≤ length holder.old) }
    ensures { BelowWhole (ByFewValues all.entry.line.order.now asking.entry.marks.now asking.entry.class.now all.entry.key.now rep.now all.entry.line.lo.now all.entry.line.hi.now all.entry.line.n bounds.low) bounds.whole result × ByManyValues all.entry.key.now rep.now all.entry.line.lo.now all.entry.line.hi.now all.entry.line.n bounds.high result }
{
    let few = too_few(all, asking, rep, bounds.low, demand, top, holder);
    let many = too_many(all, rep, bounds.high, demand, top, holder);
    below_whole(few, bounds.whole).min(many)
}
