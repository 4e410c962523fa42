// The rows of a rule: the way from one selected version to the next, and the chain of the field versions that matter with each.
ghost use Rattle.std.specs.Prelude.{◌≡◌, Bool, cond, ℕ, ◌<◌, ◌≤◌, eqb, pos, length};
ghost use Rattle.meaning.specs.Document.{Doc};
ghost use Rattle.meaning.specs.declared.Rule.{Rule};
ghost use Rattle.meaning.specs.Select.{selected};
ghost use Rattle.meaning.specs.Block.{limit};
ghost use Rattle.columns.specs.Lent.{Lends, ValuesOf};
ghost use Rattle.columns.specs.Judgeable.{Judgeable};
ghost use Rattle.marks.specs.Marks.{Marks};
ghost use Rattle.prepare.specs.Holders.{Holders, Skips};
ghost use Rattle.prepare.specs.Rows.{over_nils, wants, in_row};
ghost use Rattle.prepare.specs.Keys.{Keys, Linked};

use columns::chains::{Links, chain};
use columns::{LIMIT, Records};
use meaning::Rule;
use numbers::index;

// The way along some records: where it starts, and from each record the next one; the number of records ends it.
#[derive(Drop)]
pub struct Way {
    pub start: usize,
    pub next: [u16; LIMIT],
}

// Whether the rule passes over nils in windows. Cost: three tests.
fn over_nils(rule: Rule) -> bool
    ensures { result ≡ over_nils rule }
{
    (5 <= rule.kind) | ((rule.kind == 4) & (rule.distinct == 1))
}

// Whether a field version with this value matters to the rule. Cost: a fixed number of tests.
pub fn wanted(vkind: u8, value: i32, rule: Rule) -> bool
    ensures { (doc : Doc) (f : ℕ) → doc.vkind f ≡ vkind → doc.value f ≡ value → result ≡ wants doc rule f }
{
    if (rule.windowed != 0) | (rule.kind <= 3) {
        if vkind == 3 {
            return !over_nils(rule);
        }
        return 0 < vkind;
    }
    if rule.kind == 4 {
        return true;
    }
    let fits = numbers::in_range(value, rule.low, rule.high);
    (0 < vkind) & !((vkind == 3) | ((vkind == 1) & fits))
}

// The key of record f, of n: its holder where that is selected and f is wanted, else LIMIT, which has no chain. Cost: two looks.
fn key(chosen: &[u8], holder: &[u16], n: usize, wanted: bool, f: usize) -> u16
    requires { (f < n) × (n ≤ limit) × (n ≤ length chosen.now) × (n ≤ length holder.now) }
    ensures { (doc : Doc) (rule : Rule) → doc.size ≡ n → Marks (selected doc rule) doc.size chosen.now → Holders doc rule holder.now → wanted ≡ wants doc rule f → (v : ℕ) → v < doc.size → eqb result v ≡ in_row doc rule v f }
{
    if !wanted {
        return LIMIT as u16;
    }
    let v = index(holder[f]);
    if n <= v {
        return LIMIT as u16;
    }
    if chosen[v] == 1 {
        return v as u16;
    }
    LIMIT as u16
}

// The key of each record. Cost: one pass over the records.
pub fn keys(vkind: &[u8], value: &[i32], chosen: &[u8], holder: &[u16], rule: Rule) -> [u16; LIMIT]
    requires { (length vkind.now ≤ limit) × (length vkind.now ≤ length value.now) × (length vkind.now ≤ length chosen.now) × (length vkind.now ≤ length holder.now) }
    ensures { (doc : Doc) → Lends doc.size doc.vkind 0 vkind.now → Lends doc.size doc.value (pos 0) value.now → Marks (selected doc rule) doc.size chosen.now → Holders doc rule holder.now → Keys doc rule result }
{
    let mut out = [0u16; LIMIT];
    for f in 0..vkind.len() {
        let matters = wanted(vkind[f], value[f], rule);
        out[f] = key(chosen, holder, vkind.len(), matters, f);
    }
    out
}

// The row of each selected version as a chain. Cost: two passes over the records.
pub fn link(records: Records<'_>, chosen: &[u8], holder: &[u16], rule: Rule) -> Links
    requires { (length records.kind.now ≤ length chosen.now) × (length records.kind.now ≤ length holder.now) × ((doc : Doc) × ValuesOf doc records × Judgeable doc) }
    ensures { (doc : Doc) → ValuesOf doc records.entry → Marks (selected doc rule) doc.size chosen.now → Holders doc rule holder.now → Linked doc rule result.last result.lower }
{
    let key = keys(records.vkind, records.value, chosen, holder, rule);
    chain(records.kind, &key, 2)
}

// Record i where it is marked, else `at`. Cost: one test.
fn nearer(mark: u8, i: usize, at: u16) -> u16
    requires { i < limit }
    ensures { result ≡ cond (eqb mark 1) i at }
{
    if mark == 1 {
        return i as u16;
    }
    at
}

// The way along the marked ones of n records. Cost: one pass over them, from the last down.
pub fn way_along(marks: &[u8], n: usize) -> Way
    requires { (n ≤ limit) × (n ≤ length marks.now) }
    ensures { (passes : ℕ → Bool) → Marks passes n marks.now → Skips passes n result.start result.next }
{
    let mut next = [0u16; LIMIT];
    let mut at = n as u16;
    for i in (0..n).rev() {
        next[i] = at;
        at = nearer(marks[i], i, at);
    }
    Way {
        start: index(at),
        next,
    }
}
