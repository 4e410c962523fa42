// One item number in a window: how many of its field versions, or of their values, are present, and whether that is out of range.
ghost use Rattle.std.specs.Prelude.{◌≡◌, Bool, true, ℕ, ◌+◌, ◌<◌, ◌≤◌, length, get_or};
ghost use Rattle.day.specs.Along.{size, there, stands};
ghost use Rattle.day.specs.Row.{Chain};
ghost use Rattle.counting.specs.Number.{Room, Fits, UpTo, Below, Weighed, number_in, breaks, Met};

use crate::Asked;
use day::lent::{Stretch, Trail};
use numbers::index;

// How much field version f, which is present, adds to the number: 1 or, if values are counted and its value has the token already, 0; its value
// gets the token. Two looks.
fn weigh(rep: &[u16], distinct: bool, f: usize, token: u16, seen: &mut [u16]) -> usize
    requires { (f < length rep.now) × (get_or rep.now f 0 < length seen.old) }
    ensures { Weighed true (get_or rep.now f 0) distinct token seen.old seen.new result }
{
    let x = index(rep[f]);
    if distinct & (seen[x] == token) {
        return 0;
    }
    seen[x] = token;
    1
}

// The number of those that are present, or of their values, in the chain that ends one below `past`; no value has the token before.
// Cost: a look for each of the chain.
fn tally(
    trail: Trail,
    stretch: Stretch,
    distinct: bool,
    past: usize,
    token: u16,
    seen: &mut [u16],
) -> usize
    requires { Room (size stretch) stretch.end.now stretch.rep.now trail.lower.now seen.old × ((row : ℕ → Bool) × Chain row (size stretch) past trail.lower.now) × Below token seen.old }
    ensures number { (row : ℕ → Bool) → Chain row (size stretch.entry) past trail.entry.lower.now → result ≡ number_in (there stretch.entry) (size stretch.entry) (stands stretch.entry) distinct row }
    ensures tokens { UpTo token seen.new }
{
    let mut count: usize = 0;
    let mut at = past;
    // a while: it follows links
    while 0 < at {
        if stretch.has(at - 1) {
            let more = weigh(stretch.rep, distinct, at - 1, token, seen);
            count += more;
        }
        at = index(trail.lower[at - 1]);
    }
    count
}

// Whether version v is present, the first of its item number, and that out of range; `done` marks the classes that were counted, and v + 1 is the
// token of v, above all that were given before. Cost: a look for each field version of the item number.
pub fn item_breaks(
    trail: Trail,
    stretch: Stretch,
    group: &[u16],
    asked: Asked,
    v: usize,
    done: &mut [u8],
    seen: &mut [u16],
) -> bool
    requires { (v < size stretch) × Fits (size stretch) stretch.end.now stretch.rep.now group.now trail.last.now trail.lower.now done.old seen.old × ((row : ℕ → Bool) × Chain row (size stretch) (get_or trail.last.now (get_or group.now v 0) 0) trail.lower.now) × Below (v + 1) seen.old }
    ensures met { (row : ℕ → Bool) → Chain row (size stretch.entry) (get_or trail.entry.last.now (get_or group.now v 0) 0) trail.entry.lower.now → Met (there stretch.entry v) (breaks (there stretch.entry) (size stretch.entry) (stands stretch.entry) asked.distinct asked.low asked.high row) (get_or group.now v 0) done.old done.new result }
    ensures tokens { UpTo (v + 1) seen.new }
{
    if !stretch.has(v) {
        return false;
    }
    let g = index(group[v]);
    if done[g] == 1 {
        return false;
    }
    done[g] = 1;
    let past = index(trail.last[g]);
    let own = (v + 1) as u16;
    let number = tally(trail, stretch, asked.distinct, past, own, seen);
    (number < asked.low) | (asked.high < number)
}
