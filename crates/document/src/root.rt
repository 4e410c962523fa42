// 10: the root has versions, and each begins on the day on which the one before it ended.
ghost use Rattle.std.specs.Prelude.{◌≡◌};
ghost use Rattle.meaning.specs.Nodes.{whole};
ghost use Rattle.document.specs.Level.{PeriodsLevel};
ghost use Rattle.document.specs.Steady.{periods_in};

use columns::Records;

// Whether the root has versions, each beginning where the last ended. Cost: one pass over the columns, a look for each record.
pub fn is_whole(records: Records<'_>) -> bool
    requires { PeriodsLevel records }
    ensures { result ≡ whole (periods_in records.entry) }
{
    // the end of the last version so far; an end is never day 0
    let mut last: u16 = 0;
    for i in 0..records.kind.len() {
        if (records.kind[i] == 2) & (records.parent[i] == 0) {
            if (last == 0) | (records.begin[i] == last) {
                last = records.end[i];
            } else {
                return false;
            }
        }
    }
    0 < last
}
