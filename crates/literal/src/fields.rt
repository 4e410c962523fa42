// The field versions of one version that are present, and its values.
ghost use Rattle.std.specs.Prelude.{◌≡◌, Bool, ◌&&◌, ℕ, ◌≤◌, ◌<◌, length};
ghost use Rattle.meaning.specs.declared.Rule.{Rule};
ghost use Rattle.meaning.specs.Document.{Doc};
ghost use Rattle.meaning.specs.Walk.{count};
ghost use Rattle.meaning.specs.Select.{field_of, gives};
ghost use Rattle.columns.specs.Lent.{TreeOf};
ghost use Rattle.marks.specs.Marks.{Marks};
ghost use Rattle.literal.specs.Laid.{LiesIn, RoomsIn, LaidIn};
ghost use Rattle.literal.specs.Counts.{Counts};

use columns::Records;
use numbers::index;

// How many values a version has, and where it has any, the record that gives the last of them.
#[derive(Clone, Copy)]
pub struct Tally {
    pub many: usize,
    pub only: usize,
}

// Whether f is a field version of v: v itself for field 0, else a version of an item of that name that stands in v. Cost: at most four looks.
fn field_of(records: Records<'_>, field: u16, v: usize, f: usize) -> bool
    requires { (f < length records.kind.now) × LiesIn records }
    ensures { (doc : Doc) (r : Rule) → TreeOf doc records.entry → r.field ≡ field → result ≡ field_of doc r v f }
{
    if field == 0 {
        return f == v;
    }
    if records.kind[f] != 2 {
        return false;
    }
    let item = index(records.parent[f]);
    (records.name[item] == field) & (index(records.parent[item]) == v)
}

// Whether f is a field version of v that is present. Cost: at most five looks.
// present, field and v stay parameters here and below: a struct of the three would be written out at each of four calls, and is no plainer
fn present_field(records: Records<'_>, present: &[u8], field: u16, v: usize, f: usize) -> bool
    requires { (f < length records.kind.now) × (length records.kind.now ≤ length present.now) × LiesIn records }
    ensures { (doc : Doc) (p : ℕ → Bool) (r : Rule) → TreeOf doc records.entry → Marks p doc.size present.now → r.field ≡ field → result ≡ (field_of doc r v f && p f) }
{
    field_of(records, field, v, f) & (present[f] == 1)
}

// Whether f gives v a value: it is a present field version of v that has one. Cost: at most six looks.
pub fn gives(records: Records<'_>, present: &[u8], field: u16, v: usize, f: usize) -> bool
    requires { (f < length records.kind.now) × RoomsIn records present.now }
    ensures { (doc : Doc) (p : ℕ → Bool) (r : Rule) → LaidIn doc p records.entry present.now → r.field ≡ field → result ≡ gives doc p r v f }
{
    present_field(records, present, field, v, f) & (0 < records.vkind[f])
}

// How many field versions of v are present, valued or not. Cost: a look at each record.
pub fn fields_present(records: Records<'_>, present: &[u8], field: u16, v: usize) -> usize
    requires { (length records.kind.now ≤ length present.now) × LiesIn records }
    ensures { (result ≤ length records.entry.kind.now) × ((doc : Doc) (p : ℕ → Bool) (r : Rule) → TreeOf doc records.entry → Marks p doc.size present.now → r.field ≡ field → result ≡ count (λ f. field_of doc r v f && p f) 0 doc.size) }
{
    let mut many: usize = 0;
    for f in 0..records.kind.len() {
        if present_field(records, present, field, v, f) {
            many += 1;
        }
    }
    many
}

// How many values v has, and the record that gives the last of them. Cost: a look at each record.
pub fn values(records: Records<'_>, present: &[u8], field: u16, v: usize) -> Tally
    requires { RoomsIn records present.now }
    ensures { (0 < result.many → result.only < length records.entry.kind.now) × ((doc : Doc) (p : ℕ → Bool) (r : Rule) → LaidIn doc p records.entry present.now → r.field ≡ field → Counts (gives doc p r v) doc.size result.many result.only) }
{
    let mut many: usize = 0;
    let mut only: usize = 0;
    for f in 0..records.kind.len() {
        if gives(records, present, field, v, f) {
            many += 1;
            only = f;
        }
    }
    Tally { many, only }
}
