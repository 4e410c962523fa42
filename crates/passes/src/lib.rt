// Passes: one sweep over records in the order of their first places, and the soonest place at which something is amiss. They know columns
// of numbers and no document: a record belongs to a pass if its key is below `room`. What a scratch array holds beforehand is of no account.
#![tactic(auto)]

ghost use Rattle.std.specs.Prelude.{◌≡◌, false, ℕ, ◌≤◌, ◌<◌, eqb, length, get_or};
ghost use Rattle.meaning.specs.Block.{limit};
ghost use Rattle.meaning.specs.Walk.{count};
ghost use Rattle.passes.specs.Passes.{at, ByLeast, ByClash, ByGap};
ghost use Rattle.passes.specs.Given.{GivenLeast, GivenClash, GivenGap};
ghost use Rattle.passes.specs.Gaps.{Raised, Missed, Demanded, Supplied, Unmet};

use numbers::index;

// No place: above every place of a column.
pub const NEVER: u16 = 65535;

// Of records the key of each, and the places from lo up to, not including, hi at which it is present.
#[derive(Clone, Copy)]
pub struct Spans<'a> {
    pub key: &'a [u16],
    pub lo: &'a [u16],
    pub hi: &'a [u16],
}

// A place no later than any at which a record with a key is present; NEVER where there is none. Cost: at most four looks for each record
// up to the first that is ever present.
pub fn least(order: &[u16], spans: Spans, room: usize) -> u16
    requires { GivenLeast order.now spans.key.now spans.lo.now spans.hi.now }
    ensures { ByLeast order.now spans.entry.key.now spans.entry.lo.now spans.entry.hi.now room result }
{
    for &number in order {
        let x = index(number);
        if index(spans.key[x]) < room {
            let a = spans.lo[x];
            if a < spans.hi[x] {
                return a;
            }
        }
    }
    NEVER
}

// A place no later than any at which two records of one key and of different owners are present; NEVER where there is none. By key, `top`
// is the latest end met, and `holder` the owner of the record that has it. Cost: at most nine looks for each record, and one for each key.
pub fn clash(
    order: &[u16],
    spans: Spans,
    owner: &[u16],
    room: usize,
    top: &mut [u16],
    holder: &mut [u16],
) -> u16
    requires { GivenClash order.now spans.key.now owner.now spans.lo.now spans.hi.now room top.old holder.old }
    ensures { ByClash order.now spans.entry.key.now owner.now spans.entry.lo.now spans.entry.hi.now room result }
{
    top[..room].fill(0);
    for &number in order {
        let x = index(number);
        let k = index(spans.key[x]);
        if k < room {
            let a = spans.lo[x];
            let b = spans.hi[x];
            if a < b {
                let o = owner[x];
                let t = top[k];
                if (a < t) & (holder[k] != o) {
                    return a;
                }
                if t < b {
                    top[k] = b;
                    holder[k] = o;
                }
            }
        }
    }
    NEVER
}

// The reach of a key once a demand begins at a: from there on, where no demand waits.
fn raised(need: u16, reach: u16, a: u16) -> u16
    ensures { Raised need reach a result }
{
    if reach < need {
        return reach;
    }
    reach.max(a)
}

// The answer once a supply begins at a: the reach of its key, where a demand waits there and the supply comes too late.
fn missed(reach: u16, need: u16, a: u16, d: u16) -> u16
    ensures { Missed reach need a d result }
{
    if (a <= reach) | (need <= reach) {
        return d;
    }
    d.min(reach)
}

// Takes record x, which begins at a, as a demand, if its key is below `room` and it is ever present. Cost: at most six looks.
pub fn take_demand(
    x: usize,
    a: u16,
    demand: &[u16],
    dhi: &[u16],
    room: usize,
    reach: &mut [u16],
    need: &mut [u16],
)
    requires { (x < length demand.now) × (x < length dhi.now) × (room ≤ length reach.old) × (room ≤ length need.old) }
    ensures { Demanded (at demand.now x) a (at dhi.now x) room reach.old need.old reach.new need.new }
{
    let k = index(demand[x]);
    if room <= k {
        return;
    }
    let b = dhi[x];
    if b <= a {
        return;
    }
    let n = need[k];
    reach[k] = raised(n, reach[k], a);
    need[k] = n.max(b);
}

// Takes record x, which begins at a, as a supply, if its key is below `room` and it is ever present; the answer, of which d is what it was
// before. Cost: at most five looks.
pub fn take_supply(
    x: usize,
    a: u16,
    supply: &[u16],
    shi: &[u16],
    room: usize,
    reach: &mut [u16],
    need: &[u16],
    d: u16,
) -> u16
    requires { (x < length supply.now) × (x < length shi.now) × (room ≤ length reach.old) × (room ≤ length need.now) }
    ensures { Supplied (at supply.now x) a (at shi.now x) reach.old need.now d reach.new result }
{
    let k = index(supply[x]);
    if room <= k {
        return d;
    }
    let b = shi[x];
    if b <= a {
        return d;
    }
    let r = reach[k];
    reach[k] = r.max(b);
    missed(r, need[k], a, d)
}

// The least of d and of the reaches of the keys below `room` at which a demand waits. Cost: two looks for each key.
pub fn unmet(reach: &[u16], need: &[u16], room: usize, d: u16) -> u16
    requires { (room ≤ length reach.now) × (room ≤ length need.now) }
    ensures { Unmet reach.now need.now d room result }
{
    let mut r = d;
    for k in 0..room {
        r = missed(reach[k], need[k], NEVER, r);
    }
    r
}

// A place no later than any at which a demand is present, and no supply of its key is; NEVER where there is none. A record is a demand as
// `demands` says, and a supply from its lo up to `shi`, by a key of its own, which is in `supply`. By key, `reach` is the place up to which the
// demands met are supplied, or the answer tells, and `need` the latest end of a demand met. Cost: at most fourteen looks for each record, and four
// for each key.
pub fn gap(
    order: &[u16],
    demands: Spans,
    supply: &[u16],
    shi: &[u16],
    room: usize,
    reach: &mut [u16],
    need: &mut [u16],
) -> u16
    requires { GivenGap order.now demands.lo.now demands.key.now demands.hi.now supply.now shi.now room reach.old need.old }
    ensures { ByGap order.now demands.entry.lo.now demands.entry.key.now demands.entry.hi.now supply.now shi.now room result }
{
    reach[..room].fill(0);
    need[..room].fill(0);
    let mut d = NEVER;
    for &number in order {
        let x = index(number);
        let a = demands.lo[x];
        take_demand(x, a, demands.key, demands.hi, room, reach, need);
        d = take_supply(x, a, supply, shi, room, reach, need, d);
    }
    unmet(reach, need, room, d)
}

// Some key below `room` has more than `most` of the first n records; it answers as soon as one has. Cost: three looks for each record, and
// one for each key.
pub fn crowded(key: &[u16], n: usize, room: usize, most: usize, tally: &mut [u16]) -> bool
    requires { (room ≤ length tally.old) × (n ≤ length key.now) × (n ≤ limit) }
    ensures { result ≡ false → (k : ℕ) → k < room → count (λ x. eqb (get_or key.now x 0) k) 0 n ≤ most }
{
    tally[..room].fill(0);
    for &number in &key[..n] {
        let k = index(number);
        if k < room {
            let c = tally[k];
            if most <= index(c) {
                return true;
            }
            tally[k] = c + 1;
        }
    }
    false
}
