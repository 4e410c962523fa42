// Items of one number, looked at in passes over the records and never in pairs: an item below which none clashes with a lower one.
#![tactic(auto)]

mod names; // names.rt: numbers, then names: the items of one number as a class
mod days; // days.rt: then days: whether the versions of one class lie apart

ghost use Rattle.std.specs.Prelude.{◌≤◌, length};
ghost use Rattle.meaning.specs.Block.{limit};
ghost use Rattle.columns.specs.Chains.{Twins};
ghost use Rattle.twins.specs.Clear.{Clear, OneLength, unvalued};
ghost use Rattle.twins.specs.Classed.{OwnPlaces};

use columns::{LIMIT, Records};
use days::{Classes, apart_below, lie_apart};
use names::classes;
use orders::versions_by;

// The numbers below n, each at its own place: the records in their order, and each a class by itself. Cost: n stores.
fn own_places(n: usize) -> [u16; LIMIT]
    requires { n ≤ limit }
    ensures { OwnPlaces result n }
{
    let mut own = [0u16; LIMIT];
    for k in 0..n {
        own[k] = k as u16;
    }
    own
}

// An item below which none clashes with a lower one, or the number of records. Most items differ in their numbers, so these come first, then the
// names of those that share one, then the days of their versions: in the order of the records and, if one comes too early there, by begin.
// Cost: two passes over the records; where items share a number, one more; where their versions do not come in the order of their days, those
// of `versions_by` and a pass over the versions; and where two share a day, such a pass for each halving of the number of records.
pub fn clear_below(records: Records<'_>, twin: &[u16]) -> usize
    requires { (length records.kind.now ≤ limit) × OneLength records × Twins (unvalued records) twin.now }
    ensures { Clear (unvalued records.entry) result }
{
    let n = records.kind.len();
    let own = own_places(n);
    let mut class = own;
    // Numbers, then names: where no two items share a number, that is all.
    let named = classes(records, twin, &mut class);
    let m = named.below;
    if !named.shared {
        return m;
    }
    // Then days.
    let of = Classes {
        records,
        class: &class,
    };
    if lie_apart(of, &own, n, m) {
        return m;
    }
    let sorted = versions_by(records.kind, records.begin);
    let order = sorted.order;
    let many = sorted.many;
    apart_below(of, &order, many, m)
}
