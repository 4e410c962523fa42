// Numbers, then names: the items of one number as a class, up to the first whose name is another.
ghost use Rattle.std.specs.Prelude.{◌≡◌, false, length};
ghost use Rattle.columns.specs.Chains.{Twins, numbered};
ghost use Rattle.twins.specs.Classed.{OwnPlaces, Classed, Alone};

use columns::Records;
use columns::chains::namesake;

// What looking at numbers and names gave: up to which item those of one number have one name, and whether any two have one number.
#[derive(Clone, Copy)]
pub struct Named {
    pub below: usize,
    pub shared: bool,
}

// Gives each item the class of the next lower one of its number, up to the first whose name is another; that item, or the number of records.
// Cost: for each item that of `namesake` and three looks.
pub fn classes(records: Records<'_>, twin: &[u16], class: &mut [u16]) -> Named
    requires { (length records.name.now ≡ length records.kind.now) × (length records.item.now ≡ length records.kind.now) × Twins (numbered records.kind.now records.item.now) twin.now × OwnPlaces class.old (length records.kind.now) }
    ensures classed { Classed records.entry.kind.now records.entry.name.now records.entry.item.now class.new result.below }
    ensures alone { result.shared ≡ false → Alone records.entry.kind.now records.entry.item.now result.below }
{
    let mut shared = false;
    for i in 0..records.kind.len() {
        if records.kind[i] == 1 {
            let j = namesake(records.kind, records.item, twin, i);
            if records.name[j] != records.name[i] {
                return Named { below: i, shared };
            }
            class[i] = class[j];
            shared |= j < i;
        }
    }
    Named {
        below: records.kind.len(),
        shared,
    }
}
