// The soonest place at which a nil in a row is present: a key and a reference take none.
ghost use Rattle.std.specs.Prelude.{◌≡◌, ◌&&◌, ◌≤◌, ◌<◌, eqb, ltb, length, get_or};
ghost use Rattle.calendar.specs.Entries.{MonthTable};
ghost use Rattle.meaning.specs.declared.Rule.{Rule};
ghost use Rattle.meaning.specs.Document.{Doc};
ghost use Rattle.soonest.specs.Soon.{Unspoilt};
ghost use Rattle.soonest.specs.Nils.{Nilled};

use columns::Records;
use meaning::Rule;
use numbers::index;
use passes::NEVER;
use places::Places;

// Whether record f is a nil in a row. Cost: two looks.
fn in_row(vkind: &[u8], row: &[u16], f: usize) -> bool
    requires { (f < length vkind.now) × (length vkind.now ≤ length row.now) }
    ensures { result ≡ (eqb (get_or vkind.now f 0) 3 && ltb (get_or row.now f 0) (length vkind.now)) }
{
    (vkind[f] == 3) & (index(row[f]) < vkind.len())
}

// A place no later than any at which a nil in a row is present; NEVER where there is none. Of the nils in rows, by their begins, the first that has a
// place has the soonest. Cost: three looks for each version, and the places of each such nil up to the first that has one.
pub fn soonest_nil(
    records: Records,
    row: &[u16],
    opens: &[u16],
    table: &[u16; 1201],
    at: Places,
    rule: Rule,
) -> u16
    requires { MonthTable table.now × ((doc : Doc) × Nilled doc rule at records.vkind.now row.now records.begin.now records.end.now opens.now) }
    ensures { (doc : Doc) → Nilled doc rule at records.entry.vkind.now row.now records.entry.begin.now records.entry.end.now opens.now → Unspoilt doc rule at result }
{
    if !((rule.kind == 1) | (rule.kind == 3)) {
        return NEVER;
    }
    for &number in opens {
        let f = index(number);
        if in_row(records.vkind, row, f) {
            let lo = places::low(table, at, records.begin[f]);
            if lo < places::high(table, at, records.end[f]) {
                return lo;
            }
        }
    }
    NEVER
}
