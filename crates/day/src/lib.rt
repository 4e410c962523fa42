// The lowest offender of one day, for a sequenced rule of any kind; that a nil spoils a key and a reference is left aside here.
#![tactic(auto)]

ghost use Rattle.std.specs.Prelude.{◌≡◌, true, ℕ, ◌≤◌, length};
ghost use Rattle.meaning.specs.declared.Rule.{Rule};
ghost use Rattle.meaning.specs.Walk.{any, first};
ghost use Rattle.meaning.specs.Document.{Doc};
ghost use Rattle.meaning.specs.Block.{limit};
ghost use Rattle.meaning.specs.Rules.{is_sequenced, rule_fields};
ghost use Rattle.meaning.specs.Select.{selected};
ghost use Rattle.meaning.specs.Day.{alive, present_on};
ghost use Rattle.marks.specs.Marks.{marked};
ghost use Rattle.prepare.specs.Rows.{in_row};
ghost use Rattle.prepare.specs.Spoiling.{AsideOn};
ghost use Rattle.day.specs.Ready.{Clear};
ghost use Rattle.day.specs.Along.{size, there, stands, ReadyAlong};
ghost use Rattle.day.specs.Table.{holder, row_offends};
ghost use Rattle.day.specs.Settled.{Posed, Settled};

use columns::LIMIT;
use lent::{Stretch, Trail};
use meaning::Rule;
use numbers::index;
use places::Place;
use prepare::Prepared;
use terms::Bounds;

pub mod lent; // lent.rt: what is lent to a look at the rows of a rule
mod row; // row.rt: one row of a rule on a day
pub mod terms; // terms.rt: how a rule of each kind counts

// What becomes of a row with one value: nothing, it must be no lower row's, or it must be a referred row's.
pub const COUNTED: u8 = 0;

pub const DISTINCT: u8 = 1;

pub const REFERRING: u8 = 2;

// Marks the only value of each row. Cost: a look for each selected version and each of its wanted field versions.
fn mark_rows(trail: Trail, stretch: Stretch, seen: &mut [u8])
    requires { (doc : Doc) × (r : Rule) × ReadyAlong doc r trail stretch × Clear doc.size seen.old }
    ensures { (doc : Doc) → (r : Rule) → ReadyAlong doc r trail.entry stretch.entry → (y : ℕ) → marked seen.new y ≡ any (holder (there stretch.entry) (size stretch.entry) (stands stretch.entry) (selected doc r) (in_row doc r) y) 0 (size stretch.entry) }
{
    let bounds = Bounds {
        mode: DISTINCT,
        low: 0,
        high: 1,
    };
    let mut v = trail.start;
    // a while: it follows links
    while v < stretch.begin.len() {
        row::row_offends(trail, stretch, v, bounds, seen);
        v = index(trail.next[v]);
    }
}

// The lowest selected version whose row offends. Cost: a look for each selected version and each of its wanted field versions.
fn first_row(trail: Trail, stretch: Stretch, bounds: Bounds, seen: &mut [u8]) -> Option<usize>
    requires { (doc : Doc) × (r : Rule) × ReadyAlong doc r trail stretch × (doc.size ≤ length seen.old) }
    ensures { (doc : Doc) → (r : Rule) → ReadyAlong doc r trail.entry stretch.entry → result ≡ first (row_offends (there stretch.entry) (size stretch.entry) (stands stretch.entry) (selected doc r) (in_row doc r) bounds.mode (marked seen.old) bounds.low bounds.high) 0 (size stretch.entry) }
{
    let mut v = trail.start;
    // a while: it follows links
    while v < stretch.begin.len() {
        if row::row_offends(trail, stretch, v, bounds, seen) {
            return Some(v);
        }
        v = index(trail.next[v]);
    }
    None
}

// The lowest offender of a day among the rows of a prepared rule, nils aside, no value being marked before.
// Cost: a look for each selected version and each of its wanted field versions, of this rule and of the one that it refers to.
fn offender_on(
    own: Trail,
    held: Trail,
    stretch: Stretch,
    bounds: Bounds,
    seen: &mut [u8],
) -> Option<usize>
    requires { (doc : Doc) × (r : Rule) × (p : Rule) × ReadyAlong doc r own stretch × ReadyAlong doc p held stretch × Clear doc.size seen.old }
    ensures { (doc : Doc) → (q r : Rule) → Posed doc q r own.entry held.entry stretch.entry bounds → AsideOn doc (alive doc stretch.entry.from) q r result }
{
    let referring = bounds.mode == REFERRING;
    if referring {
        mark_rows(held, stretch, seen);
    }
    first_row(own, stretch, bounds, seen)
}

// The same, with marks of its own. Cost: a clear mark for each record, then a look for each selected version and
// each of its wanted field versions, of this rule and of the one that it refers to.
fn look(own: Trail, held: Trail, stretch: Stretch, bounds: Bounds) -> Option<usize>
    requires { (doc : Doc) × (r : Rule) × (p : Rule) × ReadyAlong doc r own stretch × ReadyAlong doc p held stretch × (doc.size ≤ limit) }
    ensures { (doc : Doc) → (q r : Rule) → Posed doc q r own.entry held.entry stretch.entry bounds → AsideOn doc (alive doc stretch.entry.from) q r result }
{
    let mut seen = [0u8; LIMIT];
    offender_on(own, held, stretch, bounds, &mut seen)
}

// The lowest offender of a prepared sequenced rule at a place, which is a day, nils aside. Cost: that of the look.
pub fn offender_at(
    own: Prepared,
    held: Prepared,
    begin: &[u16],
    end: &[u16],
    rep: &[u16],
    r: Rule,
    here: Place,
) -> Option<usize>
    requires { (rule_fields r ≡ true) × ((doc : Doc) × (q : Rule) × Settled doc q r own held begin.now end.now rep.now) }
    ensures { (doc : Doc) → (q : Rule) → Settled doc q r own held begin.now end.now rep.now → is_sequenced r ≡ true → AsideOn doc (present_on doc here.from) q r result }
{
    let bounds = terms::terms(r);
    let day = here.from;
    let stretch = Stretch {
        begin,
        end,
        rep,
        from: day,
        to: day.saturating_add(1),
    };
    look(Trail::from(&own), Trail::from(&held), stretch, bounds)
}
