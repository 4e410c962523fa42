// From where on each record counts, if those of one class count once.
ghost use Rattle.std.specs.Prelude.{◌≡◌, false, ◌≤◌, ◌<◌, length};
ghost use Rattle.meaning.specs.Block.{limit};
ghost use Rattle.crowds.specs.Crowds.{at, Ordered};
ghost use Rattle.distinct.specs.Shifts.{CountsOnce, Unmoved, Rooms, Placed};

use columns::LIMIT;
use numbers::index;
use passes::Spans;

// For each record the place from which on it counts, and whether one of them is later than the record's own first place.
#[derive(Drop)]
pub struct Begins {
    pub first: [u16; LIMIT],
    pub raised: bool,
}

// Gives record x its place: its own first one, or the latest end so far of its class, if that is later, and tells whether it is. Cost: at
// most four looks and two stores.
fn place(x: usize, spans: Spans, n: usize, top: &mut [u16], first: &mut [u16]) -> bool
    requires { Rooms spans.key.now spans.lo.now spans.hi.now first.old top.old n × (x < n) }
    ensures { Placed (at spans.entry.key.now x) (at spans.entry.lo.now x) (at spans.entry.hi.now x) n x top.old first.old top.new first.new result }
{
    let a = spans.lo[x];
    let b = spans.hi[x];
    let c = index(spans.key[x]);
    if n <= c {
        first[x] = a;
        return false;
    }
    let t = top[c];
    top[c] = t.max(b);
    first[x] = a.max(t);
    a < t
}

// For each of n records, which has its class for its key, the place from which on it counts: at a place at which some of a class are present exactly
// one of them counts. The order has those that have a class, by their first places. Cost: at most five looks and two stores for each record of the order.
pub fn firsts(order: &[u16], spans: Spans, n: usize) -> Begins
    requires { (n ≤ limit) × Ordered order.now spans.lo.now spans.key.now n × (n ≤ length spans.key.now) × (n ≤ length spans.lo.now) × (n ≤ length spans.hi.now) }
    ensures { CountsOnce spans.entry.key.now spans.entry.lo.now spans.entry.hi.now n result.first × (result.raised ≡ false → Unmoved order.now spans.entry.lo.now result.first) }
{
    let mut top = [0u16; LIMIT];
    let mut first = [0u16; LIMIT];
    let mut raised = false;
    for &number in order {
        let x = index(number);
        let moved = place(x, spans, n, &mut top, &mut first);
        raised = raised | moved;
    }
    Begins { first, raised }
}
