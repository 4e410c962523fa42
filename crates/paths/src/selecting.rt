// Which versions a rule selects: from each version the names are compared with the path, from its own item's up to the root's.
ghost use Rattle.std.specs.Prelude.{◌≡◌, ◌≤◌, ◌<◌, eqb, length};
ghost use Rattle.meaning.specs.Document.{Doc};
ghost use Rattle.meaning.specs.declared.Rule.{Rule};
ghost use Rattle.meaning.specs.Select.{name_fits, path_to, selected};
ghost use Rattle.columns.specs.Lent.{Lends, TreeOf, HasTree};
ghost use Rattle.marks.specs.Marks.{Marks};
ghost use Rattle.paths.specs.Standing.{Stands};

use columns::{LIMIT, Records};
use meaning::Rule;
use numbers::index;

// Whether a name of a path fits a name: 65,535 fits any. Cost: two tests.
// `prepare::select` has the same: the plain engine may share nothing with the quick one (tests/apart)
fn name_fits(wanted: u16, name: u16) -> bool
    ensures { result ≡ name_fits wanted name }
{
    (wanted == 65535) | (wanted == name)
}

// Whether the first k names of a path fit the names from the root to the item of version v, no more and no fewer: the last of them
// fits the item's, and those before it the names down to the version above, or it is the only one and the item is the root.
// Cost: at most k calls, of four looks each.
fn path_fits(name: &[u16], parent: &[u16], path: &[u16; 8], k: usize, v: usize) -> bool
    requires { (k ≤ 8) × Stands name.now parent.now v }
    ensures { (doc : Doc) (r : Rule) → Lends doc.size doc.name 0 name.now → Lends doc.size doc.parent 0 parent.now → r.path ≡ path.now → result ≡ path_to doc r k v }
{
    if k == 0 {
        return false;
    }
    let item = index(parent[v]);
    if !name_fits(path[k - 1], name[item]) {
        return false;
    }
    if item == 0 {
        return k == 1;
    }
    path_fits(name, parent, path, k - 1, index(parent[item]))
}

// The mark of record v: 1 where it is a version and the whole path fits the names down to it. Cost: one look, and at most eight calls.
fn selected_mark(records: Records<'_>, path: &[u16; 8], steps: u8, v: usize) -> u8
    requires { (steps ≤ 8) × (v < length records.kind.now) × HasTree records }
    ensures { (doc : Doc) (r : Rule) → TreeOf doc records.entry → r.path ≡ path.now → r.steps ≡ steps → eqb result 1 ≡ selected doc r v }
{
    if records.kind[v] != 2 {
        return 0;
    }
    u8::from(path_fits(records.name, records.parent, path, usize::from(steps), v))
}

// A mark on each selected version. Cost: for each record at most eight calls.
pub fn mark_selected(records: Records<'_>, rule: Rule) -> [u8; LIMIT]
    requires { (rule.steps ≤ 8) × HasTree records }
    ensures { (doc : Doc) → TreeOf doc records.entry → Marks (selected doc rule) doc.size result }
{
    let path = rule.path;
    let mut marks = [0u8; LIMIT];
    for i in 0..records.kind.len() {
        marks[i] = selected_mark(records, &path, rule.steps, i);
    }
    marks
}
