// The soonest window of a non-sequenced rule in which it can fail, by its kind, nils aside.
ghost use Rattle.std.specs.Prelude.{◌≡◌, false, List, ℕ, ◌≤◌, ◌<◌, length};
ghost use Rattle.meaning.specs.declared.Rule.{Rule};
ghost use Rattle.meaning.specs.Block.{limit};
ghost use Rattle.meaning.specs.Document.{Doc};
ghost use Rattle.meaning.specs.Rules.{is_sequenced};
ghost use Rattle.groups.specs.Groups.{Groups};
ghost use Rattle.groups.specs.Classes.{class_at};
ghost use Rattle.passes.specs.Passes.{at};
ghost use Rattle.places.specs.declared.Places.{Places};
ghost use Rattle.parts.specs.Keyed.{Numbered};
ghost use Rattle.parts.specs.Ground.{GroundOf};
ghost use Rattle.parts.specs.Parts.{ByShared, ByFew, Small, Room};
ghost use Rattle.soonest.specs.Soon.{SoonAside};
ghost use Rattle.soonest.specs.Swept.{SweptBy};

use crate::sweeps::{Course, Terms};
use crate::{Picked, Surveyed};
use parts::{Asking, Bounds, Counted, Line, by_value, counts, holders, keys};

// A key: no value, or one value of two item numbers. `column` is lent for the records' own numbers and then for the classes of their rows.
fn key(
    line: Line,
    known: Surveyed,
    picked: Picked,
    column: &mut [u16],
    value: &mut [u16],
    top: &mut [u16],
    holder: &mut [u16],
) -> u16
    requires { (line.n ≤ limit) × GroundOf line × (line.n ≤ length picked.chosen.now) × (line.n ≤ length picked.row.now) × (line.n ≤ length known.group.now) × Small line.n known.rep.now × Room line.n column.old value.old top.old holder.old }
    ensures { ((own : List ℕ) × Numbered line.entry.n own × ByFew line.entry.order.now picked.entry.chosen.now own picked.entry.row.now line.entry.lo.now line.entry.hi.now line.entry.n 1 result) × ((number : List ℕ) × ((f : ℕ) → f < line.entry.n → at number f ≡ class_at known.entry.group.now line.entry.n (at picked.entry.row.now f)) × ByShared line.entry.order.now picked.entry.row.now known.entry.rep.now number line.entry.lo.now line.entry.hi.now line.entry.n result) }
{
    let row = picked.row;
    keys::numbered(line.n, column);
    let asking = Asking {
        marks: picked.chosen,
        class: column,
    };
    let none = counts::lacking(line, asking, row, value, top, holder);
    groups::class_keys(row, known.group, line.n, column);
    none.min(holders::shared(line, row, known.rep, column, value, top, holder))
}

// The soonest window, from 0, of a rule that is no datatype: nils aside, nothing offends in any window before it. Four columns are lent, two for keys and two for
// what a sweep keeps by key; what they hold beforehand is of no account. Where windows are shortened no minimum is asked. Cost: that of the parts that
// the kind has, and a pass over the records for the classes of their rows.
pub fn in_windows(
    terms: Terms,
    known: Surveyed,
    picked: Picked,
    course: Course,
    n: usize,
    number: &mut [u16],
    value: &mut [u16],
    top: &mut [u16],
    holder: &mut [u16],
) -> u16
    requires { Room n number.old value.old top.old holder.old × ((doc : Doc) × (q : Rule) × (r : Rule) × (places : Places) × SweptBy doc q r places known picked course terms × Groups doc known.group.now × (doc.size ≡ n)) }
    ensures { (doc : Doc) → (q r : Rule) → (places : Places) → SweptBy doc q r places known.entry picked.entry course.entry terms → Groups doc known.entry.group.now → doc.size ≡ n → is_sequenced r ≡ false → (5 ≤ terms.kind → ⊥) → terms.distinct ≡ r.distinct → terms.whole ≡ places.whole → SoonAside doc q r places result }
{
    let Surveyed { rep, group, .. } = known;
    let Picked { chosen, row, other } = picked;
    let Course {
        order,
        closes,
        lo,
        hi,
    } = course;
    let line = Line { order, lo, hi, n };
    if terms.kind == 3 {
        return holders::unheld(line, row, other, rep, value, number, top, holder);
    }
    if terms.kind == 2 {
        groups::class_keys(row, group, n, number);
        return holders::shared(line, row, rep, number, value, top, holder);
    }
    if terms.kind != 4 {
        return key(line, known, picked, number, value, top, holder);
    }
    groups::class_keys(row, group, n, number);
    let all = Counted {
        line,
        closes,
        key: number,
    };
    let asking = Asking {
        marks: chosen,
        class: group,
    };
    let bounds = Bounds {
        whole: terms.whole,
        low: terms.low,
        high: terms.high,
    };
    if terms.distinct == 1 {
        return by_value::cardinality(all, asking, rep, bounds, value, top, holder);
    }
    counts::cardinality(all, asking, bounds, value, top, holder)
}
