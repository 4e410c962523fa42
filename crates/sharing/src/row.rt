// One row of a rule in a window: what is asked of its present field versions, and what is written at their representatives.
ghost use Rattle.std.specs.Prelude.{◌≡◌, Bool, ◌&&◌, not, ℕ, ◌+◌, ◌<◌, ◌≤◌, length, get_or};
ghost use Rattle.meaning.specs.Block.{limit};
ghost use Rattle.marks.specs.Marks.{marked};
ghost use Rattle.day.specs.Along.{size, there, stands};
ghost use Rattle.day.specs.Row.{Chain, Fits};
ghost use Rattle.sharing.specs.Row.{asks, Laid, Took, Claimed, Marked, Met, Room};

use day::lent::{Stretch, Trail};
use numbers::index;

// Whether a value of the row is not marked. Cost: at most a look for each of the row.
fn has_unmarked(trail: Trail, stretch: Stretch, past: usize, seen: &[u8]) -> bool
    requires rooms { Room (size stretch) trail.lower.now stretch.end.now stretch.rep.now seen.now }
    requires chain { (row : ℕ → Bool) × Chain row (size stretch) past trail.lower.now }
    ensures { (row : ℕ → Bool) → Chain row (size stretch.entry) past trail.entry.lower.now → result ≡ asks (there stretch.entry) (size stretch.entry) (stands stretch.entry) row (λ x. not (marked seen.now x)) }
{
    let mut at = past;
    // a while: it follows links
    while 0 < at {
        let x = index(stretch.rep[at - 1]);
        if stretch.has(at - 1) & (seen[x] != 1) {
            return true;
        }
        at = index(trail.lower[at - 1]);
    }
    false
}

// Marks the representative of each present one of the row. Cost: a look for each of the row.
fn lay(trail: Trail, stretch: Stretch, past: usize, seen: &mut [u8])
    requires rooms { Room (size stretch) trail.lower.now stretch.end.now stretch.rep.now seen.old }
    requires chain { (row : ℕ → Bool) × Chain row (size stretch) past trail.lower.now }
    ensures { (row : ℕ → Bool) → Chain row (size stretch.entry) past trail.entry.lower.now → Laid (there stretch.entry) (size stretch.entry) (stands stretch.entry) row 1 seen.old seen.new }
{
    let mut at = past;
    // a while: it follows links
    while 0 < at {
        if stretch.has(at - 1) {
            let y = index(stretch.rep[at - 1]);
            seen[y] = 1;
        }
        at = index(trail.lower[at - 1]);
    }
}

// Whether record f has a value that is held by another class than `mine`, counted from one; where not, it is held by that now. Two looks.
fn take_value(rep: &[u16], f: usize, mine: u16, owner: &mut [u16]) -> bool
    requires { (f < length rep.now) × (get_or rep.now f 0 < length owner.old) }
    ensures { Took mine (get_or rep.now f 0) owner.old owner.new result }
{
    let x = index(rep[f]);
    let held = owner[x];
    if (0 < held) & (held != mine) {
        return true;
    }
    owner[x] = mine;
    false
}

// Whether the row that ends one below `past` has a value that is held by another class than `mine`, counted from one, or none where one is
// needed; where not, its values are held by that now. Cost: at most a look for each of the row.
fn claim(
    trail: Trail,
    stretch: Stretch,
    needy: bool,
    past: usize,
    mine: u16,
    owner: &mut [u16],
) -> bool
    requires rooms { Room (size stretch) trail.lower.now stretch.end.now stretch.rep.now owner.old }
    requires chain { (row : ℕ → Bool) × Chain row (size stretch) past trail.lower.now }
    ensures { (row : ℕ → Bool) → Chain row (size stretch.entry) past trail.entry.lower.now → Claimed (there stretch.entry) (size stretch.entry) (stands stretch.entry) row needy mine owner.old owner.new result }
{
    let mut at = past;
    let mut bare = needy;
    // a while: it follows links
    while 0 < at {
        if stretch.has(at - 1) {
            if take_value(stretch.rep, at - 1, mine, owner) {
                return true;
            }
            bare = false;
        }
        at = index(trail.lower[at - 1]);
    }
    bare
}

// Marks the values of the row of version v. Cost: a look for each of the row, none where v is not present.
pub fn mark_row(trail: Trail, stretch: Stretch, v: usize, seen: &mut [u8])
    requires rooms { (v < size stretch) × Fits (size stretch) trail.last.now trail.lower.now stretch.end.now stretch.rep.now seen.old }
    requires chain { (row : ℕ → Bool) × Chain row (size stretch) (get_or trail.last.now v 0) trail.lower.now }
    ensures { (row : ℕ → Bool) → Chain row (size stretch.entry) (get_or trail.entry.last.now v 0) trail.entry.lower.now → Marked (there stretch.entry) (size stretch.entry) (stands stretch.entry) row v seen.old seen.new }
{
    if stretch.has(v) {
        lay(trail, stretch, index(trail.last[v]), seen);
    }
}

// Whether version v is present and has a value that is not marked. Cost: a look for each of the row, none where v is not present.
pub fn row_misses(trail: Trail, stretch: Stretch, v: usize, seen: &[u8]) -> bool
    requires rooms { (v < size stretch) × Fits (size stretch) trail.last.now trail.lower.now stretch.end.now stretch.rep.now seen.now }
    requires chain { (row : ℕ → Bool) × Chain row (size stretch) (get_or trail.last.now v 0) trail.lower.now }
    ensures { (row : ℕ → Bool) → Chain row (size stretch.entry) (get_or trail.entry.last.now v 0) trail.entry.lower.now → result ≡ (there stretch.entry v && asks (there stretch.entry) (size stretch.entry) (stands stretch.entry) row (λ x. not (marked seen.now x))) }
{
    if !stretch.has(v) {
        return false;
    }
    has_unmarked(trail, stretch, index(trail.last[v]), seen)
}

// Whether version v is present and its row lacks a value or has one that another class holds; where not, its values are held by its class.
// Cost: a look for each of the row, none where v is not present.
pub fn row_shares(
    trail: Trail,
    stretch: Stretch,
    group: &[u16],
    needy: bool,
    v: usize,
    owner: &mut [u16],
) -> bool
    requires rooms { (v < size stretch) × Fits (size stretch) trail.last.now trail.lower.now stretch.end.now stretch.rep.now owner.old × (size stretch ≤ length group.now) × (get_or group.now v 0 < limit) }
    requires chain { (row : ℕ → Bool) × Chain row (size stretch) (get_or trail.last.now v 0) trail.lower.now }
    ensures { (row : ℕ → Bool) → Chain row (size stretch.entry) (get_or trail.entry.last.now v 0) trail.entry.lower.now → Met (there stretch.entry) (size stretch.entry) (stands stretch.entry) row needy v (get_or group.now v 0 + 1) owner.old owner.new result }
{
    if !stretch.has(v) {
        return false;
    }
    let mine = group[v] + 1;
    claim(trail, stretch, needy, index(trail.last[v]), mine, owner)
}
