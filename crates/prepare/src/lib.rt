// A rule prepared over the columns of a document: what it selects, which versions it reads, and its rows.
#![tactic(auto)]

ghost use Rattle.std.specs.Prelude.{◌≡◌, true, ◌≤◌, length};
ghost use Rattle.meaning.specs.declared.Rule.{Rule};
ghost use Rattle.meaning.specs.Document.{Doc};
ghost use Rattle.meaning.specs.Rules.{is_reference};
ghost use Rattle.meaning.specs.Select.{reads_own};
ghost use Rattle.columns.specs.Lent.{TreeOf, ValuesOf, HasValues};
ghost use Rattle.marks.specs.Marks.{Marks};
ghost use Rattle.prepare.specs.Rows.{Rows};
ghost use Rattle.prepare.specs.Rowed.{Rowed};
ghost use Rattle.prepare.specs.Sifts.{Sifts};

use columns::{LIMIT, Records};
use meaning::Rule;

pub mod select; // select.rt: the versions that a rule selects
pub mod fields; // fields.rt: the version to which each field version belongs
pub mod reads; // reads.rt: the versions that a rule reads
pub mod roles; // roles.rt: what a rule makes of one record
pub mod rows; // rows.rt: the way along the selected versions, and their rows

// Room enough for what is laid out for a rule over a small bank: where it serves, arrays of this size are declared and not those for the largest
// bank, which take longer to clear.
pub const SMALL: usize = 256;

// The selected versions, from `start` on by `next`; the row of each, down from `last` by `lower`, counted from one, 0 for none; and a mark
// on each version that the rule reads.
#[derive(Clone, Copy)]
pub struct Prepared {
    pub start: usize,
    pub next: [u16; LIMIT],
    pub last: [u16; LIMIT],
    pub lower: [u16; LIMIT],
    pub read: [u8; LIMIT],
}

// What the rule picks out of a document, put into three lent columns: a mark on each version that it selects, for each field version that matters to
// its kind the version in whose row it is, LIMIT for every other record, and a mark on each version that it reads. They are lent and not returned, so
// that nothing is copied; what they held before does not matter. Cost: one pass over the records.
pub fn sift(records: Records<'_>, rule: Rule, chosen: &mut [u8], row: &mut [u16], read: &mut [u8])
    requires { (rule.steps ≤ 8) × (length records.kind.now ≤ length chosen.old) × (length records.kind.now ≤ length row.old) × (length records.kind.now ≤ length read.old) × HasValues records }
    ensures { (doc : Doc) → TreeOf doc records.entry → ValuesOf doc records.entry → Sifts doc rule chosen.new row.new read.new }
{
    let path = rule.path;
    for i in 0..records.kind.len() {
        let role = roles::role_of(records, chosen, &path, rule, i);
        chosen[i] = role.left;
        row[i] = role.row;
        read[i] = role.read;
    }
}

// The rule prepared. Cost: six passes over the records.
pub fn prepare(records: Records<'_>, rule: Rule) -> Prepared
    requires { (rule.steps ≤ 8) × HasValues records }
    ensures rows { (doc : Doc) → TreeOf doc records.entry → ValuesOf doc records.entry → Rows doc rule result.start result.next result.last result.lower }
    ensures read { (doc : Doc) → TreeOf doc records.entry → Marks (reads_own doc rule) doc.size result.read }
{
    let chosen = select::mark_selected(records, rule);
    let holder = fields::holders(records, rule);
    let read = reads::mark_by(&chosen, &holder, records.kind.len());
    let links = rows::link(records, &chosen, &holder, rule);
    let last = links.last;
    let lower = links.lower;
    let way = rows::way_along(&chosen, records.kind.len());
    let next = way.next;
    Prepared {
        start: way.start,
        next,
        last,
        lower,
        read,
    }
}

// The rule that a reference refers to, prepared; the rule itself again if it is none.
pub fn prepare_referred(records: Records<'_>, own: Prepared, q: Rule, r: Rule) -> Prepared
    requires { (is_reference r ≡ true → q.steps ≤ 8) × HasValues records }
    ensures referred { (doc : Doc) → TreeOf doc records.entry → ValuesOf doc records.entry → is_reference r ≡ true → Rowed doc q result }
    ensures some { (doc : Doc) → TreeOf doc records.entry → ValuesOf doc records.entry → Rowed doc r own → ((p : Rule) × Rowed doc p result) }
{
    if r.kind != 3 {
        return own;
    }
    prepare(records, q)
}
