// Which versions a rule selects: those whose item's names from the root on fit its path.
ghost use Rattle.std.specs.Prelude.{◌≡◌, ℕ, suc, ◌<◌, ◌≤◌, length, get_or};
ghost use Rattle.meaning.specs.Document.{Doc};
ghost use Rattle.meaning.specs.declared.Rule.{Rule};
ghost use Rattle.meaning.specs.Select.{name_fits, selected};
ghost use Rattle.columns.specs.Lent.{TreeOf, HasTree};
ghost use Rattle.marks.specs.Marks.{Marks};
ghost use Rattle.prepare.specs.Descent.{Passes, Left, DescendsIn};

use columns::{LIMIT, Records};
use meaning::Rule;
use numbers::index;

// Whether a name of a path fits a name: 65,535 fits any. Cost: two tests.
fn name_fits(wanted: u16, name: u16) -> bool
    ensures { result ≡ name_fits wanted name }
{
    (wanted == 65535) | (wanted == name)
}

// What is left of a path of `steps` names before that of an item: all of it before the root's, else what is left below the version in which
// the item stands. Cost: two looks.
pub fn left_before(parent: &[u16], left: &[u8], steps: u8, item: usize) -> u8
    requires { (steps ≤ 8) × (item < length parent.now) × (0 < item → get_or parent.now item 0 < length left.now) }
    ensures { (item ≡ 0 → result ≡ suc steps) × (0 < item → result ≡ get_or left.now (get_or parent.now item 0) 0) }
{
    if item == 0 {
        return steps + 1;
    }
    left[index(parent[item])]
}

// What is left after one more name: one name less where the next one of the path fits it, else 0. Cost: at most three tests.
pub fn left_after(path: &[u16; 8], steps: u8, before: u8, name: u16) -> u8
    requires { (steps ≤ 8) × (before ≤ suc steps) }
    ensures { Passes path.now steps before name result }
{
    if before < 2 {
        return 0;
    }
    let k = (steps + 1 - before) as usize;
    if name_fits(path[k], name) {
        return before - 1;
    }
    0
}

// What is left below record v, 0 where it is no version. Cost: five looks.
fn left_below(records: Records<'_>, left: &[u8], path: &[u16; 8], steps: u8, v: usize) -> u8
    requires { DescendsIn records left.now steps v }
    ensures { (doc : Doc) (r : Rule) → TreeOf doc records.entry → r.path ≡ path.now → r.steps ≡ steps → ((w : ℕ) → w < v → Left doc r w (get_or left.now w 0)) → Left doc r v result }
{
    if records.kind[v] != 2 {
        return 0;
    }
    let item = index(records.parent[v]);
    let before = left_before(records.parent, left, steps, item);
    left_after(path, steps, before, records.name[item])
}

// A mark on each selected version: what is left below it is one, no name and no more. Cost: one pass over the records.
pub fn mark_selected(records: Records<'_>, rule: Rule) -> [u8; LIMIT]
    requires { (rule.steps ≤ 8) × HasTree records }
    ensures { (doc : Doc) → TreeOf doc records.entry → Marks (selected doc rule) doc.size result }
{
    let path = rule.path;
    let mut left = [0u8; LIMIT];
    for i in 0..records.kind.len() {
        left[i] = left_below(records, &left, &path, rule.steps, i);
    }
    left
}
