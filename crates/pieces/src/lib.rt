// Pieces: the stretches of places on which a row has one record only, and a pass for gaps whose supplies come in an order of their own. They
// know columns of numbers and no document: a record is in a row if its key is below n. What a scratch array holds beforehand is of no account.
#![tactic(auto)]

ghost use Rattle.std.specs.Prelude.{◌≡◌, ◌≤◌, ◌<◌, length};
ghost use Rattle.meaning.specs.Block.{limit};
ghost use Rattle.pieces.specs.Lone.{Laid, Stretched};
ghost use Rattle.pieces.specs.Steps.{Ranked, Drawn, Cut};

use columns::LIMIT;
use numbers::index;
use passes::{NEVER, Spans};

pub mod apart; // apart.rt: the pass for gaps whose supplies come in an order of their own

// A stretch for each record: from `from` up to `to`, on which `sole` is the only record of its row that is present.
#[derive(Drop)]
pub struct Stretches {
    pub from: [u16; LIMIT],
    pub to: [u16; LIMIT],
    pub sole: [u16; LIMIT],
}

// By row: the latest end met, the record that has it, and the latest end of another.
#[derive(Drop)]
struct Rows {
    top: [u16; LIMIT],
    who: [u16; LIMIT],
    second: [u16; LIMIT],
}

impl Rows {
    // Takes record x, which ends at b, into row k. Cost: at most four looks.
    fn rank(&mut self, k: usize, x: u16, b: u16)
        requires { k < limit }
        ensures { Ranked k x b self.old.top self.old.who self.old.second self.new.top self.new.who self.new.second }
    {
        let t = self.top[k];
        if t < b {
            self.top[k] = b;
            self.who[k] = x;
            self.second[k] = t;
            return;
        }
        self.second[k] = self.second[k].max(b);
    }
}

// The stretch of each record, were no other of its row to begin after it: from its begin, or from the end of all but the last to end of those
// met, up to the end of that one. Cost: six arrays, and at most fourteen looks for each record of the order.
fn draw(order: &[u16], spans: Spans, n: usize) -> Stretches
    requires { (n ≤ limit) × Laid order.now spans.key.now spans.lo.now n × (n ≤ length spans.hi.now) }
    ensures { Drawn order.now spans.entry.key.now spans.entry.lo.now spans.entry.hi.now n (length order.now) result.from result.to result.sole }
{
    let mut rows = Rows {
        top: [0; LIMIT],
        who: [0; LIMIT],
        second: [0; LIMIT],
    };
    let mut drawn = Stretches {
        from: [0; LIMIT],
        to: [0; LIMIT],
        sole: [0; LIMIT],
    };
    for &number in order {
        let x = index(number);
        let k = index(spans.key[x]);
        if k < n {
            rows.rank(k, number, spans.hi[x]);
            drawn.from[x] = spans.lo[x].max(rows.second[k]);
            drawn.to[x] = rows.top[k];
            drawn.sole[x] = rows.who[k];
        } else {
            drawn.from[x] = spans.lo[x];
        }
    }
    drawn
}

// Ends each stretch where the next record of its row begins, which is in `next` by row. Cost: at most six looks for each record of the order.
fn cut(order: &[u16], spans: Spans, n: usize, next: &mut [u16], to: &mut [u16])
    requires { Laid order.now spans.key.now spans.lo.now n × (n ≤ length next.old) × (n ≤ length to.old) }
    ensures { Cut order.now spans.entry.key.now spans.entry.lo.now n to.old to.new }
{
    for i in (0..order.len()).rev() {
        let x = index(order[i]);
        let k = index(spans.key[x]);
        if k < n {
            to[x] = to[x].min(next[k]);
            next[k] = spans.lo[x];
        }
    }
}

// For each of n records a stretch of places on which its row has one record only; nothing is said of places outside. Cost: two passes along
// the order, and seven arrays.
pub fn sole(order: &[u16], spans: Spans, n: usize) -> Stretches
    requires { (n ≤ limit) × Laid order.now spans.key.now spans.lo.now n × (n ≤ length spans.hi.now) }
    ensures { Stretched order.now spans.entry.key.now spans.entry.lo.now spans.entry.hi.now n result.from result.to result.sole }
{
    let mut stretches = draw(order, spans, n);
    let mut next = [NEVER; LIMIT];
    cut(order, spans, n, &mut next, &mut stretches.to);
    stretches
}
