// One row of a rule on a day: how many of its field versions are present, and whether it offends.
ghost use Rattle.std.specs.Prelude.{◌≡◌, Bool, true, ℕ, ◌<◌, ◌≤◌, length, get_or};
ghost use Rattle.day.specs.Along.{size, there, stands};
ghost use Rattle.day.specs.Row.{Chain, Fits, Tallied, Met};

use crate::lent::{Stretch, Trail};
use crate::terms::Bounds;
use crate::{COUNTED, REFERRING};
use numbers::index;

// How many of a row are present, and the representative of the last of them that the walk met.
#[derive(Clone, Copy)]
pub struct Tally {
    pub count: usize,
    pub rep: usize,
}

// The present ones of the row that ends one below `past`. Cost: a look for each of the row.
fn tally_row(trail: Trail, stretch: Stretch, past: usize) -> Tally
    requires rooms { (size stretch ≤ length stretch.end.now) × (size stretch ≤ length trail.lower.now) × (size stretch ≤ length stretch.rep.now) }
    requires chain { (row : ℕ → Bool) × Chain row (size stretch) past trail.lower.now }
    ensures { (row : ℕ → Bool) → Chain row (size stretch.entry) past trail.entry.lower.now → Tallied (there stretch.entry) (size stretch.entry) row (stands stretch.entry) result.count result.rep }
{
    let mut count: usize = 0;
    let mut last: usize = 0;
    let mut at = past;
    // a while: it follows links
    while 0 < at {
        if stretch.has(at - 1) {
            count += 1;
            last = index(stretch.rep[at - 1]);
        }
        at = index(trail.lower[at - 1]);
    }
    Tally { count, rep: last }
}

// Whether a row of which so many are present offends; by the mode, the value of an only one is marked. Two looks.
fn count_offends(tally: Tally, bounds: Bounds, seen: &mut [u8]) -> bool
    requires { tally.count ≡ 1 → tally.rep < length seen.old }
    ensures { (p : ℕ → Bool) (n : ℕ) (rep : ℕ → ℕ) (row : ℕ → Bool) (v : ℕ) → p v ≡ true → Tallied p n row rep tally.count tally.rep → Met p n rep bounds.mode bounds.low bounds.high row v seen.old seen.new result }
{
    let count = tally.count;
    let out = (count < bounds.low) | (bounds.high < count);
    if out | (bounds.mode == COUNTED) | (count != 1) {
        return out;
    }
    let x = tally.rep;
    let known = seen[x] == 1;
    if bounds.mode == REFERRING {
        return !known;
    }
    seen[x] = 1;
    known
}

// Whether the row of version v offends; by the mode, its only value is marked. Cost: a look for each of the row.
pub fn row_offends(
    trail: Trail,
    stretch: Stretch,
    v: usize,
    bounds: Bounds,
    seen: &mut [u8],
) -> bool
    requires rooms { (v < size stretch) × Fits (size stretch) trail.last.now trail.lower.now stretch.end.now stretch.rep.now seen.old }
    requires chain { (row : ℕ → Bool) × Chain row (size stretch) (get_or trail.last.now v 0) trail.lower.now }
    ensures { (row : ℕ → Bool) → Chain row (size stretch.entry) (get_or trail.entry.last.now v 0) trail.entry.lower.now → Met (there stretch.entry) (size stretch.entry) (stands stretch.entry) bounds.mode bounds.low bounds.high row v seen.old seen.new result }
{
    if !stretch.has(v) {
        return false;
    }
    let tally = tally_row(trail, stretch, index(trail.last[v]));
    count_offends(tally, bounds, seen)
}
