// Whether one version offends a rule, by the words of the rule's kind.
ghost use Rattle.std.specs.Prelude.{◌≡◌, Bool, ◌&&◌, ◌||◌, not, ℕ, ◌≤◌, ◌<◌, eqb, pos, length};
ghost use Rattle.std.specs.Int.Signed.{le_z};
ghost use Rattle.meaning.specs.declared.Rule.{Rule};
ghost use Rattle.meaning.specs.Block.{limit};
ghost use Rattle.meaning.specs.Document.{Doc};
ghost use Rattle.meaning.specs.Walk.{any};
ghost use Rattle.meaning.specs.Select.{selected, gives};
ghost use Rattle.meaning.specs.Day.{cardinality, datatype, breaks, offends};
ghost use Rattle.columns.specs.Lent.{TreeOf};
ghost use Rattle.marks.specs.Marks.{Marks};
ghost use Rattle.literal.specs.Laid.{LiesIn, RoomsIn, LaidIn, Valued, ValuedBy};
ghost use Rattle.literal.specs.Counts.{Counts};
ghost use Rattle.literal.specs.Wrong.{gives_wrong};
ghost use Rattle.literal.specs.Only.{Inside, shares_at};
ghost use Rattle.literal.specs.Posed.{Compares, ReadyFor, PosedFor};

use crate::fields::{Tally, fields_present, gives, values};
use crate::only::shared;
use columns::Records;
use meaning::Rule;

// A rule as it is asked on a day: the marks of the versions that it selects and of those that are present, the only values with which it compares,
// and the rule.
#[derive(Clone, Copy)]
pub struct Asked<'a> {
    pub own: &'a [u8],
    pub present: &'a [u8],
    pub only: &'a [u16],
    pub rule: Rule,
}

// Whether a count, of a document's records, lies outside low..high. Cost: two tests.
fn outside(many: usize, low: i32, high: i32) -> bool
    requires { many ≤ limit }
    ensures { result ≡ not (le_z low (pos many) && le_z (pos many) high) }
{
    let z = many as i32;
    !((low <= z) & (z <= high))
}

// Whether a value is neither a nil nor a number in low..high. Cost: four tests.
fn wrong(vkind: u8, value: i32, low: i32, high: i32) -> bool
    ensures { result ≡ not (eqb vkind 3 || (eqb vkind 1 && (le_z low value && le_z value high))) }
{
    !((vkind == 3) | ((vkind == 1) & ((low <= value) & (value <= high))))
}

// Whether v has too few or too many field versions. Cost: a look at each record.
fn wrong_count(records: Records<'_>, asked: Asked, v: usize) -> bool
    requires { (length records.kind.now ≤ length asked.present.now) × LiesIn records }
    ensures { (doc : Doc) (p : ℕ → Bool) → TreeOf doc records.entry → Marks p doc.size asked.entry.present.now → result ≡ cardinality doc p asked.entry.rule v }
{
    let many = fields_present(records, asked.present, asked.rule.field, v);
    outside(many, asked.rule.low, asked.rule.high)
}

// Whether f gives v a value that is neither a nil nor a number within the bounds. Cost: at most eight looks.
fn gives_wrong(records: Records<'_>, asked: Asked, v: usize, f: usize) -> bool
    requires { (f < length records.kind.now) × (length records.kind.now ≤ length records.value.now) × RoomsIn records asked.present.now }
    ensures { (doc : Doc) (p : ℕ → Bool) → LaidIn doc p records.entry asked.entry.present.now → ValuedBy doc records.entry → result ≡ gives_wrong doc p asked.entry.rule v f }
{
    let r = asked.rule;
    let given = gives(records, asked.present, r.field, v, f);
    given & wrong(records.vkind[f], records.value[f], r.low, r.high)
}

// Whether some value of v is neither a nil nor a number within the bounds. Cost: a look at each record.
fn wrong_value(records: Records<'_>, asked: Asked, v: usize) -> bool
    requires { (length records.kind.now ≤ length records.value.now) × RoomsIn records asked.present.now }
    ensures { (doc : Doc) (p : ℕ → Bool) → LaidIn doc p records.entry asked.entry.present.now → ValuedBy doc records.entry → result ≡ datatype doc p asked.entry.rule v }
{
    for f in 0..records.kind.len() {
        if gives_wrong(records, asked, v, f) {
            return true;
        }
    }
    false
}

// Whether there is one value, equal to the only value of a version below `upto`. Cost: five looks for each of these.
fn taken(vkind: &[u8], value: &[i32], only: &[u16], t: Tally, upto: usize) -> bool
    requires { (0 < t.many → t.only < length vkind.now) × (upto ≤ length vkind.now) × (length vkind.now ≤ length value.now) × Inside (length vkind.now) only.now }
    ensures { (doc : Doc) → Valued doc vkind.now value.now → result ≡ (eqb t.many 1 && any (shares_at doc only.now t.only) 0 upto) }
{
    if t.many != 1 {
        return false;
    }
    shared(vkind, value, only, upto, t.only)
}

// Whether v, with these values, breaks a key, a unique rule or a reference: a key or a unique rule looks at the versions below v,
// a reference at all; a key is broken by a nil too. Cost: five looks for each of these, and one at the value for a key.
fn breaks_values(vkind: &[u8], value: &[i32], only: &[u16], kind: u8, t: Tally, v: usize) -> bool
    requires { (0 < t.many → t.only < length vkind.now) × (v ≤ length vkind.now) × (length vkind.now ≤ length value.now) × Inside (length vkind.now) only.now }
    ensures { (doc : Doc) (p : ℕ → Bool) (q r : Rule) → Valued doc vkind.now value.now → Compares doc p q r only.now → Counts (gives doc p r v) doc.size t.many t.only → r.kind ≡ kind → 1 ≤ kind → kind ≤ 3 → result ≡ breaks doc p q r v r.kind }
{
    let n = vkind.len();
    if kind == 3 {
        let held = taken(vkind, value, only, t, n);
        return (1 < t.many) | ((t.many == 1) & !held);
    }
    let twice = taken(vkind, value, only, t, v);
    if kind == 2 {
        return (1 < t.many) | twice;
    }
    if t.many != 1 {
        return true;
    }
    (vkind[t.only] == 3) | twice
}

// Whether v breaks the rule, by its kind. Cost: two looks at each record.
fn breaks(records: Records<'_>, asked: Asked, v: usize) -> bool
    requires { (1 ≤ asked.rule.kind) × (v ≤ length records.kind.now) × ReadyFor records asked }
    ensures { (doc : Doc) (p : ℕ → Bool) (q : Rule) → PosedFor doc p q records.entry asked.entry → result ≡ breaks doc p q asked.entry.rule v asked.entry.rule.kind }
{
    let r = asked.rule;
    if r.kind == 4 {
        return wrong_count(records, asked, v);
    }
    if 4 < r.kind {
        return wrong_value(records, asked, v);
    }
    let t = values(records, asked.present, r.field, v);
    breaks_values(records.vkind, records.value, asked.only, r.kind, t, v)
}

// Whether v offends the rule: it is selected and present, and breaks it. Cost: two looks at each record.
pub fn offends(records: Records<'_>, asked: Asked, v: usize) -> bool
    requires { (1 ≤ asked.rule.kind) × (v < length records.kind.now) × (length records.kind.now ≤ length asked.own.now) × ReadyFor records asked }
    ensures { (doc : Doc) (p : ℕ → Bool) (q : Rule) → PosedFor doc p q records.entry asked.entry → Marks (selected doc asked.entry.rule) doc.size asked.entry.own.now → result ≡ offends doc p q asked.entry.rule v }
{
    if !((asked.own[v] == 1) & (asked.present[v] == 1)) {
        return false;
    }
    breaks(records, asked, v)
}
