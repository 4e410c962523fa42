// The test 7 in one pass over the versions: for each item record the end of its last version so far.
ghost use Rattle.std.specs.Prelude.{◌≡◌, [], ◌<◌, length, get_or};
ghost use Rattle.meaning.specs.Walk.{first};
ghost use Rattle.meaning.specs.Nodes.{leaves, misplaced};
ghost use Rattle.document.specs.Steady.{periods, periods_in, PlacingBy, WayBy};

use columns::{LIMIT, Records};
use numbers::index;

// The parent of record i, which is lower.
fn up(parent: &[u16], i: usize) -> usize
    requires { (i < length parent.now) × (get_or parent.now i 0 < i) }
    ensures { (result ≡ get_or parent.now i 0) × (result < i) }
{
    index(parent[i])
}

// Whether version v of item p leaves the period of the version in which p stands. The root stands in none.
fn leaves(records: Records<'_>, v: usize, p: usize) -> bool
    requires { WayBy records v p }
    ensures { result ≡ leaves (periods [] records.entry.parent.now records.entry.begin.now records.entry.end.now) v }
{
    if p == 0 {
        return false;
    }
    let a = up(records.parent, p);
    (records.begin[v] < records.begin[a]) | (records.end[a] < records.end[v])
}

// The lowest version that begins before a lower one of its item ends, or leaves the period in which its item stands.
// Each record is looked at once, a version with two records above it: the cost is linear in the number of records.
pub fn first_misplaced(records: Records<'_>) -> Option<usize>
    requires { PlacingBy records }
    ensures { result ≡ first (misplaced (periods_in records.entry)) 0 (length records.entry.kind.now) }
{
    let mut last = [0u16; LIMIT];
    for i in 0..records.kind.len() {
        if records.kind[i] == 2 {
            let p = up(records.parent, i);
            if (records.begin[i] < last[p]) | leaves(records, i, p) {
                return Some(i);
            }
            last[p] = records.end[i];
        }
    }
    None
}
