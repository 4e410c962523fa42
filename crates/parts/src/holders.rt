// Parts of an offence that two records make, or one without another: two in one row, one value of two owners, a value that nobody has.
ghost use Rattle.std.specs.Prelude.{◌≤◌, length};
ghost use Rattle.meaning.specs.Block.{limit};
ghost use Rattle.parts.specs.Keyed.{Numbered};
ghost use Rattle.parts.specs.Ground.{GroundOf};
ghost use Rattle.parts.specs.Parts.{ByTwice, ByShared, ByUnheld, Small};

use crate::{Line, keys};
use passes::Spans;

// A place no later than any at which two records of one row are present; `own` has each record's own number. Cost: one pass along the order, a
// store for each key.
pub fn twice(line: Line, row: &[u16], own: &[u16], top: &mut [u16], holder: &mut [u16]) -> u16
    requires { GroundOf line × (line.n ≤ length row.now) × Numbered line.n own.now × (line.n ≤ length top.old) × (line.n ≤ length holder.old) }
    ensures { ByTwice line.entry.order.now row.now line.entry.lo.now line.entry.hi.now line.entry.n result }
{
    let spans = Spans {
        key: row,
        lo: line.lo,
        hi: line.hi,
    };
    passes::clash(line.order, spans, own, line.n, top, holder)
}

// A place no later than any at which two records in rows, of one representative and of different owners, are present. Cost: a pass over
// n records, one along the order, a store for each key.
pub fn shared(
    line: Line,
    row: &[u16],
    rep: &[u16],
    owner: &[u16],
    value: &mut [u16],
    top: &mut [u16],
    holder: &mut [u16],
) -> u16
    requires { GroundOf line × (line.n ≤ length row.now) × (line.n ≤ length owner.now) × Small line.n rep.now × (line.n ≤ length value.old) × (line.n ≤ length top.old) × (line.n ≤ length holder.old) }
    ensures { ByShared line.entry.order.now row.now rep.now owner.now line.entry.lo.now line.entry.hi.now line.entry.n result }
{
    keys::value_keys(row, rep, line.n, value);
    let spans = Spans {
        key: value,
        lo: line.lo,
        hi: line.hi,
    };
    passes::clash(line.order, spans, owner, line.n, top, holder)
}

// A place no later than any at which a record in a row is present, and no record in one of the other rows that has its representative is.
// Cost: two passes over n records, one along the order, four looks for each key.
pub fn unheld(
    line: Line,
    row: &[u16],
    other: &[u16],
    rep: &[u16],
    value: &mut [u16],
    held: &mut [u16],
    reach: &mut [u16],
    need: &mut [u16],
) -> u16
    requires { (line.n ≤ limit) × GroundOf line × (line.n ≤ length row.now) × (line.n ≤ length other.now) × Small line.n rep.now × (line.n ≤ length value.old) × (line.n ≤ length held.old) × (line.n ≤ length reach.old) × (line.n ≤ length need.old) }
    ensures { ByUnheld line.entry.order.now row.now other.now rep.now line.entry.lo.now line.entry.hi.now line.entry.n result }
{
    keys::value_keys(row, rep, line.n, value);
    keys::value_keys(other, rep, line.n, held);
    let demands = Spans {
        key: value,
        lo: line.lo,
        hi: line.hi,
    };
    passes::gap(line.order, demands, held, line.hi, line.n, reach, need)
}
