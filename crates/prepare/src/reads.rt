// Which versions a rule reads: the selected ones and their field versions.
ghost use Rattle.std.specs.Prelude.{◌≡◌, ◌<◌, ◌≤◌, eqb, length};
ghost use Rattle.meaning.specs.Document.{Doc};
ghost use Rattle.meaning.specs.declared.Rule.{Rule};
ghost use Rattle.meaning.specs.Select.{selected, reads_own};
ghost use Rattle.meaning.specs.Block.{limit};
ghost use Rattle.columns.specs.Lent.{TreeOf, HasTree};
ghost use Rattle.marks.specs.Marks.{Marks};
ghost use Rattle.prepare.specs.Holders.{Holders};

use crate::fields::holders;
use crate::select::mark_selected;
use columns::{LIMIT, Records};
use meaning::Rule;
use numbers::index;

// The mark of record i, of n: 1 where it is selected or its holder is. Cost: two looks.
fn read_mark(chosen: &[u8], holder: &[u16], n: usize, i: usize) -> u8
    requires { (i < n) × (n ≤ length chosen.now) × (n ≤ length holder.now) }
    ensures { (doc : Doc) (rule : Rule) → doc.size ≡ n → Marks (selected doc rule) doc.size chosen.now → Holders doc rule holder.now → eqb result 1 ≡ reads_own doc rule i }
{
    if chosen[i] == 1 {
        return 1;
    }
    let v = index(holder[i]);
    if v < n {
        return chosen[v];
    }
    0
}

// A mark on each of n records that is read, from the marks of the selected ones and the holders. Cost: one pass over the records.
pub fn mark_by(chosen: &[u8], holder: &[u16], n: usize) -> [u8; LIMIT]
    requires { (n ≤ limit) × (n ≤ length chosen.now) × (n ≤ length holder.now) }
    ensures { (doc : Doc) (rule : Rule) → doc.size ≡ n → Marks (selected doc rule) doc.size chosen.now → Holders doc rule holder.now → Marks (reads_own doc rule) doc.size result }
{
    let mut marks = [0u8; LIMIT];
    for i in 0..n {
        marks[i] = read_mark(chosen, holder, n, i);
    }
    marks
}

// A mark on each version that the rule by itself reads. Cost: three passes over the records.
pub fn mark_read(records: Records<'_>, rule: Rule) -> [u8; LIMIT]
    requires { (rule.steps ≤ 8) × HasTree records }
    ensures { (doc : Doc) → TreeOf doc records.entry → Marks (reads_own doc rule) doc.size result }
{
    let chosen = mark_selected(records, rule);
    let holder = holders(records, rule);
    mark_by(&chosen, &holder, records.kind.len())
}
