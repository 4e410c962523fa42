// The soonest day of a sequenced rule's period on which it can fail, by its kind, nils aside.
ghost use Rattle.std.specs.Prelude.{◌≡◌, true, ◌≤◌, length};
ghost use Rattle.meaning.specs.declared.Rule.{Rule};
ghost use Rattle.meaning.specs.Block.{limit};
ghost use Rattle.meaning.specs.Document.{Doc};
ghost use Rattle.meaning.specs.Rules.{is_sequenced};
ghost use Rattle.places.specs.declared.Places.{Places};
ghost use Rattle.parts.specs.Keyed.{Numbered};
ghost use Rattle.parts.specs.Ground.{GroundOf};
ghost use Rattle.parts.specs.Parts.{ByTwice, ByShared, ByFew, Small, Room};
ghost use Rattle.parts.specs.Matched.{ByUnmatched};
ghost use Rattle.soonest.specs.Soon.{SoonAside};
ghost use Rattle.soonest.specs.Swept.{SweptBy};

use crate::sweeps::{Course, Terms};
use crate::{Picked, Surveyed};
use numbers::index;
use parts::{Asking, Bounds, Counted, Line, alone, counts, holders, keys};
use passes::{NEVER, Spans};

// A unique: two values in a row, or one value in two rows; `own` has each record's own number.
fn unique(
    line: Line,
    own: &[u16],
    row: &[u16],
    rep: &[u16],
    value: &mut [u16],
    top: &mut [u16],
    holder: &mut [u16],
) -> u16
    requires { GroundOf line × (line.n ≤ length row.now) × Numbered line.n own.now × Small line.n rep.now × (line.n ≤ length value.old) × (line.n ≤ length top.old) × (line.n ≤ length holder.old) }
    ensures { ByTwice line.entry.order.now row.now line.entry.lo.now line.entry.hi.now line.entry.n result × ByShared line.entry.order.now row.now rep.now row.now line.entry.lo.now line.entry.hi.now line.entry.n result }
{
    let two = holders::twice(line, row, own, top, holder);
    two.min(holders::shared(line, row, rep, row, value, top, holder))
}

// A reference: two values in a row, or a value that no row of the other rule has as its only one; `own` has each record's own number.
fn reference(
    line: Line,
    own: &[u16],
    picked: Picked,
    rep: &[u16],
    value: &mut [u16],
    top: &mut [u16],
    holder: &mut [u16],
) -> u16
    requires { (line.n ≤ limit) × GroundOf line × (line.n ≤ length picked.row.now) × (line.n ≤ length picked.other.now) × Numbered line.n own.now × Small line.n rep.now × (line.n ≤ length value.old) × (line.n ≤ length top.old) × (line.n ≤ length holder.old) }
    ensures { ByTwice line.entry.order.now picked.entry.row.now line.entry.lo.now line.entry.hi.now line.entry.n result × ByUnmatched line.entry.order.now picked.entry.row.now picked.entry.other.now rep.now line.entry.lo.now line.entry.hi.now line.entry.n result }
{
    let Picked { row, other, .. } = picked;
    let two = holders::twice(line, row, own, top, holder);
    two.min(alone::unmatched(line, row, other, rep, value, top, holder))
}

// A key: no value, two values in a row, or one value in two rows; each selected record asks for its own number.
fn key(
    line: Line,
    asking: Asking,
    row: &[u16],
    rep: &[u16],
    value: &mut [u16],
    top: &mut [u16],
    holder: &mut [u16],
) -> u16
    requires { GroundOf line × (line.n ≤ length asking.marks.now) × (line.n ≤ length row.now) × Numbered line.n asking.class.now × Small line.n rep.now × Small line.n asking.class.now × (line.n ≤ length value.old) × (line.n ≤ length top.old) × (line.n ≤ length holder.old) }
    ensures { ByFew line.entry.order.now asking.entry.marks.now asking.entry.class.now row.now line.entry.lo.now line.entry.hi.now line.entry.n 1 result × ByTwice line.entry.order.now row.now line.entry.lo.now line.entry.hi.now line.entry.n result × ByShared line.entry.order.now row.now rep.now row.now line.entry.lo.now line.entry.hi.now line.entry.n result }
{
    let none = counts::lacking(line, asking, row, value, top, holder);
    none.min(unique(line, asking.class, row, rep, value, top, holder))
}

// The soonest day, counted from the period's first: nils aside, nothing offends on any day before it. Four columns are lent, two for keys and two for what a
// sweep keeps by key; what they hold beforehand is of no account. Cost: that of the parts that the kind has.
pub fn on_days(
    terms: Terms,
    known: Surveyed,
    picked: Picked,
    course: Course,
    n: usize,
    own: &mut [u16],
    value: &mut [u16],
    top: &mut [u16],
    holder: &mut [u16],
) -> u16
    requires { Room n own.old value.old top.old holder.old × ((doc : Doc) × (q : Rule) × (r : Rule) × (places : Places) × SweptBy doc q r places known picked course terms × (doc.size ≡ n)) }
    ensures { (doc : Doc) → (q r : Rule) → (places : Places) → SweptBy doc q r places known.entry picked.entry course.entry terms → doc.size ≡ n → is_sequenced r ≡ true → SoonAside doc q r places result }
{
    let rep = known.rep;
    let row = picked.row;
    let Course {
        order,
        closes,
        lo,
        hi,
    } = course;
    if 5 <= terms.kind {
        let spans = Spans { key: row, lo, hi };
        return passes::least(order, spans, n);
    }
    let line = Line { order, lo, hi, n };
    keys::numbered(n, own);
    if terms.kind == 2 {
        return unique(line, own, row, rep, value, top, holder);
    }
    if terms.kind == 3 {
        return reference(line, own, picked, rep, value, top, holder);
    }
    let asking = Asking {
        marks: picked.chosen,
        class: own,
    };
    if terms.kind == 4 {
        let all = Counted {
            line,
            closes,
            key: row,
        };
        let bounds = Bounds {
            whole: index(NEVER),
            low: terms.low,
            high: terms.high,
        };
        return counts::cardinality(all, asking, bounds, value, top, holder);
    }
    key(line, asking, row, rep, value, top, holder)
}
