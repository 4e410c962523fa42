// The pass for gaps where demands and supplies come in orders of their own, as supplies do that begin later than the records they are made of.
ghost use Rattle.std.specs.Prelude.{◌≤◌, ◌<◌, length};
ghost use Rattle.passes.specs.Passes.{Covers};
ghost use Rattle.pieces.specs.Merged.{GivenLines, ByGapLines, Turn};

use numbers::index;
use passes::{NEVER, Spans, take_demand, take_supply, unmet};

// Records in an order, by their numbers: the key and the places of each.
#[derive(Clone, Copy)]
pub struct Line<'a> {
    pub order: &'a [u16],
    pub spans: Spans<'a>,
}

// Whether the next to be taken is the demand at i, not the supply at j: it is where no supply is left, or none that begins before the demand.
// Cost: at most four looks.
fn demand_next(demands: Line, i: usize, supplies: Line, j: usize) -> bool
    requires { Covers demands.order.now demands.spans.lo.now × Covers supplies.order.now supplies.spans.lo.now × (length supplies.order.now ≤ j → i < length demands.order.now) }
    ensures { Turn demands.entry.order.now demands.entry.spans.lo.now i supplies.entry.order.now supplies.entry.spans.lo.now j result }
{
    if supplies.order.len() <= j {
        return true;
    }
    if demands.order.len() <= i {
        return false;
    }
    let x = index(demands.order[i]);
    let y = index(supplies.order[j]);
    demands.spans.lo[x] <= supplies.spans.lo[y]
}

// A place no later than any at which a demand is present, and no supply of its key is; NEVER where there is none. The demands
// rise by lo; where the supplies do not the answer is only sooner. Cost: at most twelve looks for each demand and each supply, and four for each key.
pub fn gap_apart(
    demands: Line,
    supplies: Line,
    room: usize,
    reach: &mut [u16],
    need: &mut [u16],
) -> u16
    requires { GivenLines demands supplies room reach.old need.old }
    ensures { ByGapLines demands.entry supplies.entry room result }
{
    reach[..room].fill(0);
    need[..room].fill(0);
    let mut d = NEVER;
    let mut i = 0;
    let mut j = 0;
    // a while: i and j move by turns
    while (i < demands.order.len()) | (j < supplies.order.len()) {
        if demand_next(demands, i, supplies, j) {
            let x = index(demands.order[i]);
            i += 1;
            let a = demands.spans.lo[x];
            take_demand(x, a, demands.spans.key, demands.spans.hi, room, reach, need);
        } else {
            let y = index(supplies.order[j]);
            j += 1;
            let a = supplies.spans.lo[y];
            d = take_supply(
                y,
                a,
                supplies.spans.key,
                supplies.spans.hi,
                room,
                reach,
                need,
                d,
            );
        }
    }
    unmet(reach, need, room, d)
}
