// The soonest place at which a value that is referred to is no row's only one: each row of the other rule holds out its value on the stretches
// on which it has one value only.
ghost use Rattle.std.specs.Prelude.{◌≡◌, ◌≤◌, ◌<◌, length};
ghost use Rattle.meaning.specs.Block.{limit};
ghost use Rattle.passes.specs.Passes.{at, Covers};
ghost use Rattle.parts.specs.Ground.{Ground, GroundOf};
ghost use Rattle.parts.specs.Parts.{Small};
ghost use Rattle.parts.specs.Matched.{SoleKeys, Below, Columns, AnyOf, ByUnmatched};

use crate::{Line, keys};
use columns::LIMIT;
use numbers::index;
use passes::Spans;
use pieces::apart;

// For each of n records the representative of the one that is alone on its stretch. Cost: one pass.
fn sole_keys(sole: &[u16], rep: &[u16], n: usize) -> [u16; LIMIT]
    requires { (n ≤ limit) × (n ≤ length sole.now) × (n ≤ length rep.now) }
    ensures { SoleKeys n sole.now rep.now result }
{
    let mut out = [0u16; LIMIT];
    for i in 0..n {
        let x = index(sole[i]);
        out[i] = if x < n { rep[x] } else { LIMIT as u16 };
    }
    out
}

// Whether the stretches come in the order of the records, which then serves for them. Nothing is promised: the other order only costs more.
// Cost: two looks for each record of the order.
fn is_kept(order: &[u16], from: &[u16]) -> bool
    requires { Covers order.now from.now }
{
    // by `is_sorted_by_key` it was tried: that its closure looks inside `from` was not proved
    let mut last: u16 = 0;
    for x in order {
        let a = from[index(*x)];
        if a < last {
            return false;
        }
        last = a;
    }
    true
}

// The stretches of n records that have a place, as kinds: 2, that of a version, for one that has, else 0. Cost: one pass.
fn kinds(from: &[u16], to: &[u16], n: usize) -> [u8; LIMIT]
    requires { (n ≤ limit) × (n ≤ length from.now) × (n ≤ length to.now) }
    ensures { n ≤ length result }
{
    let mut out = [0u8; LIMIT];
    for i in 0..n {
        out[i] = if from[i] < to[i] { 2 } else { 0 };
    }
    out
}

// A place no later than any at which a demand is present, and no supply of its key is, the supplies of n records in the order listed. Cost: that of
// the pass.
fn along(
    demands: apart::Line,
    supplies: Spans,
    listed: &[u16],
    n: usize,
    reach: &mut [u16],
    need: &mut [u16],
) -> u16
    requires { (n ≤ length reach.old) × (n ≤ length need.old) × Ground demands.order.now demands.spans.lo.now demands.spans.hi.now n × Below listed.now n × Columns n demands.spans.key.now supplies.lo.now supplies.key.now supplies.hi.now }
    ensures { AnyOf demands.entry supplies.entry n result }
{
    let supplies = apart::Line {
        order: listed,
        spans: supplies,
    };
    apart::gap_apart(demands, supplies, n, reach, need)
}

// The same, the supplies sorted by their begins. Cost: that of sorting those that have a place, and of the pass.
fn sorted(
    demands: apart::Line,
    supplies: Spans,
    n: usize,
    reach: &mut [u16],
    need: &mut [u16],
) -> u16
    requires { (n ≤ limit) × (n ≤ length reach.old) × (n ≤ length need.old) × Ground demands.order.now demands.spans.lo.now demands.spans.hi.now n × Columns n demands.spans.key.now supplies.lo.now supplies.key.now supplies.hi.now }
    ensures { AnyOf demands.entry supplies.entry n result }
{
    let kind = kinds(supplies.lo, supplies.hi, n);
    let by_begin = orders::versions_by(&kind[0..n], supplies.lo);
    let listed = by_begin.order;
    let many = by_begin.many;
    along(demands, supplies, &listed[0..many], n, reach, need)
}

// The same, the supplies in the order of the records where that is one of their begins. Cost: that of the test and of the pass.
fn either(
    demands: apart::Line,
    supplies: Spans,
    n: usize,
    reach: &mut [u16],
    need: &mut [u16],
) -> u16
    requires { (n ≤ limit) × (n ≤ length reach.old) × (n ≤ length need.old) × Ground demands.order.now demands.spans.lo.now demands.spans.hi.now n × Columns n demands.spans.key.now supplies.lo.now supplies.key.now supplies.hi.now }
    ensures { AnyOf demands.entry supplies.entry n result }
{
    if is_kept(demands.order, supplies.lo) {
        return along(demands, supplies, demands.order, n, reach, need);
    }
    sorted(demands, supplies, n, reach, need)
}

// A place no later than any at which a record in a row is present, and no one of the other rows has its value as the only one. Cost: that of the
// stretches, two passes over n records, and one along the order.
pub fn unmatched(
    line: Line,
    row: &[u16],
    other: &[u16],
    rep: &[u16],
    value: &mut [u16],
    reach: &mut [u16],
    need: &mut [u16],
) -> u16
    requires { (line.n ≤ limit) × GroundOf line × (line.n ≤ length row.now) × (line.n ≤ length other.now) × Small line.n rep.now × (line.n ≤ length value.old) × (line.n ≤ length reach.old) × (line.n ≤ length need.old) }
    ensures { ByUnmatched line.entry.order.now row.now other.now rep.now line.entry.lo.now line.entry.hi.now line.entry.n result }
{
    let n = line.n;
    keys::value_keys(row, rep, n, value);
    let rows = Spans {
        key: other,
        lo: line.lo,
        hi: line.hi,
    };
    let s = pieces::sole(line.order, rows, n);
    let from = s.from;
    let to = s.to;
    let sole = s.sole;
    let held = sole_keys(&sole, rep, n);
    let demands = apart::Line {
        order: line.order,
        spans: Spans {
            key: value,
            lo: line.lo,
            hi: line.hi,
        },
    };
    let supplies = Spans {
        key: &held,
        lo: &from,
        hi: &to,
    };
    either(demands, supplies, n, reach, need)
}
