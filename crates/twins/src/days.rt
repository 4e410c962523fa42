// Then days: whether the versions of one class lie apart, along a list that has all versions.
ghost use Rattle.std.specs.Prelude.{◌≡◌, true, ◌<◌, ◌≤◌, length};
ghost use Rattle.meaning.specs.Block.{limit};
ghost use Rattle.twins.specs.Apart.{Lists};
ghost use Rattle.twins.specs.Classes.{HeldBy, FollowsBy, ApartBy};

use columns::{LIMIT, Records};
use numbers::index;

// What the passes look at: the records, of which they read the kinds, items and periods, and the class of each.
#[derive(Clone, Copy)]
pub struct Classes<'a> {
    pub records: Records<'a>,
    pub class: &'a [u16],
}

// Whether version v, if it is one of an item below m, begins and ends no earlier than those of its class that were met before; its end is then the
// reach of its class. Cost: at most eight looks.
fn follows(of: Classes, v: usize, m: usize, reach: &mut [u16]) -> bool
    requires { HeldBy of m × (v < length of.records.kind.now) × (limit ≤ length reach.old) }
    ensures { result ≡ true → FollowsBy of.entry m v reach.old reach.new }
{
    let p = index(of.records.parent[v]);
    if of.records.kind[v] != 2 || m <= p {
        return true;
    }
    let c = index(of.class[p]);
    if (of.records.begin[v] < reach[c]) | (of.records.end[v] < reach[c]) {
        return false;
    }
    reach[c] = of.records.end[v];
    true
}

// Whether, along the first `many` of a list, each version of an item below m follows those before it of its class: true only if no two of one class
// share a day, in whatever order the list has them. Cost: that of `follows` for each of the list.
pub fn lie_apart(of: Classes, order: &[u16], many: usize, m: usize) -> bool
    requires { HeldBy of m × Lists of.records.kind.now order.now many }
    ensures { result ≡ true → ApartBy of.entry m }
{
    let mut reach = [0u16; LIMIT];
    for k in 0..many {
        let v = index(order[k]);
        if !follows(of, v, m, &mut reach) {
            return false;
        }
    }
    true
}

// The highest item up to m below which they lie apart along a list, found by halves. Cost: that of `lie_apart` for each halving of m, and once.
pub fn apart_below(of: Classes, order: &[u16], many: usize, m: usize) -> usize
    requires { HeldBy of m × Lists of.records.kind.now order.now many }
    ensures { (result ≤ m) × ApartBy of.entry result }
{
    if lie_apart(of, order, many, m) {
        return m;
    }
    let mut low = 0;
    let mut high = m;
    // a while: low and high move by halves
    while 1 < high - low {
        let middle = low + (high - low) / 2;
        if lie_apart(of, order, many, middle) {
            low = middle;
        } else {
            high = middle;
        }
    }
    low
}
