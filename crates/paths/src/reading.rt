// Which versions a rule reads: the selected ones, the field versions that stand in them, and those of the rule it refers to.
ghost use Rattle.std.specs.Prelude.{◌≡◌, true, false, ◌||◌, ◌≤◌, ◌<◌, eqb, length};
ghost use Rattle.meaning.specs.Document.{Doc};
ghost use Rattle.meaning.specs.declared.Rule.{Rule};
ghost use Rattle.meaning.specs.Rules.{is_reference};
ghost use Rattle.meaning.specs.Select.{selected, reads_own, reads};
ghost use Rattle.columns.specs.Lent.{TreeOf, HasTree};
ghost use Rattle.columns.specs.Judgeable.{Judgeable};
ghost use Rattle.marks.specs.Marks.{Marks};

use columns::{LIMIT, Records};
use meaning::Rule;
use numbers::index;

// Whether a rule by itself reads record i: it is one of the chosen versions, or a version of an item of that name, field 0 being no
// name, that stands in a chosen one. Cost: at most six looks.
fn reads_own(records: Records<'_>, chosen: &[u8], field: u16, i: usize) -> bool
    requires { (i < length records.kind.now) × (length records.kind.now ≤ length chosen.now) × HasTree records }
    ensures { (doc : Doc) (r : Rule) → TreeOf doc records.entry → Judgeable doc → r.field ≡ field → Marks (selected doc r) doc.size chosen.now → result ≡ reads_own doc r i }
{
    if chosen[i] == 1 {
        return true;
    }
    if (field == 0) | (records.kind[i] != 2) {
        return false;
    }
    let item = index(records.parent[i]);
    if (item == 0) | (records.name[item] != field) {
        return false;
    }
    chosen[index(records.parent[item])] == 1
}

// The mark of record i: 1 where one of two rules by itself reads it, of which the chosen versions and the field are given.
// Cost: at most twelve looks.
fn read_mark(
    records: Records<'_>,
    own: &[u8],
    held: &[u8],
    field: u16,
    referred: u16,
    i: usize,
) -> u8
    requires { (i < length records.kind.now) × (length records.kind.now ≤ length own.now) × (length records.kind.now ≤ length held.now) × HasTree records }
    ensures { (doc : Doc) (r q : Rule) → TreeOf doc records.entry → Judgeable doc → r.field ≡ field → q.field ≡ referred → Marks (selected doc r) doc.size own.now → Marks (selected doc q) doc.size held.now → eqb result 1 ≡ (reads_own doc r i || reads_own doc q i) }
{
    let by_itself = reads_own(records, own, field, i);
    u8::from(by_itself || reads_own(records, held, referred, i))
}

// A mark on each version that rule r reads, from the marks of those that it selects, and of those that `other` does, the rule that a
// reference refers to, and r again if it is none. Cost: one pass over the records.
pub fn mark_read(records: Records<'_>, own: &[u8], held: &[u8], other: Rule, r: Rule) -> [u8; LIMIT]
    requires { (doc : Doc) × TreeOf doc records × Judgeable doc × (doc.size ≤ length own.now) × (doc.size ≤ length held.now) }
    ensures { (doc : Doc) (q : Rule) → TreeOf doc records.entry → Judgeable doc → Marks (selected doc r) doc.size own.now → Marks (selected doc other) doc.size held.now → (is_reference r ≡ true → other ≡ q) → (is_reference r ≡ false → other ≡ r) → Marks (reads doc q r) doc.size result }
{
    let mut marks = [0u8; LIMIT];
    for i in 0..records.kind.len() {
        marks[i] = read_mark(records, own, held, r.field, other.field, i);
    }
    marks
}
