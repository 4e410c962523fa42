// Stacks of levels, all of them in three columns: along the members of each chain, the last one before a place that is lower than a bound
// is found in few steps.
ghost use Rattle.std.specs.Prelude.{◌≡◌, Bool, true, ◌⊎◌, ℕ, ◌-◌, ◌<◌, ◌≤◌, length};
ghost use Rattle.meaning.specs.Block.{limit};
ghost use Rattle.steps.specs.Stacks.{Latest, Leads, Stacked, Built, level_at, hop, onward};

use columns::LIMIT;
use numbers::index;

// From each place the step down to the last one before it that is lower, and a leap to a farther one; counted from one, 0 for none.
#[derive(Drop)]
pub struct Stacks {
    pub below: [u16; LIMIT],
    pub leap: [u16; LIMIT],
}

// A leap, and how many steps it spares.
#[derive(Clone, Copy)]
struct Leap {
    to: u16,
    span: u16,
}

// Where to look next on the way down to a level below the bound. Cost: one look.
fn onward(level: &[u64], below: u16, leap: u16, bound: u64) -> u16
    requires { leap ≤ length level.now }
    ensures { result ≡ onward level.now below leap bound }
{
    if leap == 0 {
        return below;
    }
    if level[index(leap) - 1] < bound {
        return below;
    }
    leap
}

// One past the last member up to the one before `start` whose level is below the bound, 0 for none. Cost: a look for each step and leap, which are
// some two for each doubling of the stack.
pub fn latest_below(level: &[u64], below: &[u16], leap: &[u16], start: u16, bound: u64) -> u16
    requires { (n : ℕ) × (start ≤ n) × (n ≤ length level.now) × Leads n below.now × Leads n leap.now }
    ensures { (result ≤ start) × ((member : ℕ → Bool) (n : ℕ) → start ≤ n → Stacked member (level_at level.now) n below.now leap.now → (0 < start → member (start - 1) ≡ true) → Latest member (level_at level.now) bound start result) }
{
    // a while: it follows links
    let mut at = start;
    while 0 < at {
        let j = index(at) - 1;
        if level[j] < bound {
            return at;
        }
        at = onward(level, below[j], leap[j], bound);
    }
    0
}

// What stands in a column at a place counted from one; 0 at 0. Cost: one look.
fn hop(column: &[u16], place: u16) -> u16
    requires { place ≤ length column.now }
    ensures { result ≡ hop column.now place }
{
    if place == 0 {
        return 0;
    }
    column[index(place) - 1]
}

// The leap from a place whose step leads to b: as far as two leaps on from b, where those two spare as much as each other, else to b.
// So from each place the leaps that follow it spare more and more. Cost: four looks.
fn leap_from(leap: &[u16], span: &[u16], b: u16) -> Leap
    requires { (n : ℕ) × (b ≤ n) × Leads n leap.now × (n ≤ length span.now) }
    ensures { (result.to ≡ b) ⊎ (result.to ≡ hop leap.now (hop leap.now b)) }
{
    let first = hop(leap, b);
    let a = hop(span, b);
    let c = hop(span, first);
    if a != c {
        return Leap { to: b, span: 1 };
    }
    Leap {
        to: hop(leap, first),
        span: a.saturating_add(c).saturating_add(1),
    }
}

// The member before place j on its chain, which is told where `prior` leads to a place before j; else none: so no minimum. Cost: one test.
fn earlier(prior: u16, j: usize) -> u16
    ensures { (result ≤ j) × (prior ≤ j → result ≡ prior) }
{
    if index(prior) <= j {
        return prior;
    }
    0
}

// The steps and leaps of n places, along the chains `prior`. Cost: the looks of one search for each place.
pub fn stack(level: &[u64], prior: &[u16], n: usize) -> Stacks
    requires { (n ≤ limit) × (n ≤ length level.now) × (n ≤ length prior.now) }
    ensures { Built level.now prior.now n result.below result.leap }
{
    let mut below = [0u16; LIMIT];
    let mut leap = [0u16; LIMIT];
    let mut span = [0u16; LIMIT];
    for j in 0..n {
        let b = latest_below(level, &below, &leap, earlier(prior[j], j), level[j]);
        let far = leap_from(&leap, &span, b);
        below[j] = b;
        leap[j] = far.to;
        span[j] = far.span;
    }
    Stacks { below, leap }
}
