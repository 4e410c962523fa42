// The version to which each field version belongs.
ghost use Rattle.std.specs.Prelude.{◌≡◌, ℕ, ◌<◌, eqb, length};
ghost use Rattle.meaning.specs.Document.{Doc};
ghost use Rattle.meaning.specs.declared.Rule.{Rule};
ghost use Rattle.meaning.specs.Select.{field_of};
ghost use Rattle.columns.specs.Lent.{TreeOf, HasTree};
ghost use Rattle.prepare.specs.Holders.{Holders};

use columns::{LIMIT, Records};
use meaning::Rule;
use numbers::index;

// A number that is no record's.
const NONE: u16 = 65535;

// The version of which f is a field version, or a number that is no record's: f itself for field 0, else the record above
// a version of an item of that name. Cost: a look at f and at its item.
fn holder(records: Records<'_>, field: u16, f: usize) -> u16
    requires { (f < length records.kind.now) × HasTree records }
    ensures { (doc : Doc) (rule : Rule) → TreeOf doc records.entry → rule.field ≡ field → (v : ℕ) → v < doc.size → eqb result v ≡ field_of doc rule v f }
{
    if field == 0 {
        return f as u16;
    }
    if records.kind[f] != 2 {
        return NONE;
    }
    let item = index(records.parent[f]);
    if records.name[item] != field {
        return NONE;
    }
    records.parent[item]
}

// The holder of each record. Cost: one pass over the records.
pub fn holders(records: Records<'_>, rule: Rule) -> [u16; LIMIT]
    requires { HasTree records }
    ensures { (doc : Doc) → TreeOf doc records.entry → Holders doc rule result }
{
    let mut out = [0u16; LIMIT];
    for i in 0..records.kind.len() {
        out[i] = holder(records, rule.field, i);
    }
    out
}
