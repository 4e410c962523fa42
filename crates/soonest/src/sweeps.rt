// Every other rule: what it reads is lined up, by begin and for a cardinality by end too, with its places, and swept by its mode and kind, nils aside.
ghost use Rattle.std.specs.Prelude.{◌≡◌, true, false, List, ℕ, ◌≤◌, ℤ, length};
ghost use Rattle.calendar.specs.Entries.{MonthTable};
ghost use Rattle.meaning.specs.declared.Rule.{Rule};
ghost use Rattle.meaning.specs.Block.{limit};
ghost use Rattle.meaning.specs.Document.{Doc};
ghost use Rattle.meaning.specs.Rules.{is_sequenced, rule_fields};
ghost use Rattle.groups.specs.Groups.{Groups};
ghost use Rattle.places.specs.declared.Places.{Places};
ghost use Rattle.soonest.specs.Given.{GivenSweeps};
ghost use Rattle.soonest.specs.Soon.{SoonAside};
ghost use Rattle.soonest.specs.Swept.{SweptOf};

use crate::{Picked, Surveyed, asked, in_windows, on_days};
use columns::{LIMIT, Records};
use day::terms::Bounds;
use meaning::Rule;
use picking::Rows;
use places::Places;
use prepare::SMALL;

// What the rule reads, lined up by begin and for a cardinality by end too, with the first place of each record and the one past its last.
#[derive(Clone, Copy)]
pub struct Course<'a> {
    pub order: &'a [u16],
    pub closes: &'a [u16],
    pub lo: &'a [u16],
    pub hi: &'a [u16],
}

// What the rule asks: its kind, whether it counts values, the bounds of its count, and from which window on they are shortened.
#[derive(Clone, Copy)]
pub struct Terms {
    pub kind: u8,
    pub distinct: u8,
    pub low: usize,
    pub high: usize,
    pub whole: usize,
}

// The soonest place of a rule that is no datatype in windows, by its mode, with columns of its own for what it works out of n records, which have room
// for N. Cost: that of the parts that the kind has.
fn swept_in<const N: usize>(
    of: Surveyed,
    picked: Picked,
    course: Course,
    bounds: Bounds,
    rule: Rule,
    n: usize,
    whole: usize,
) -> u16
    requires { ((n ≤ N) × (N ≤ limit)) × ((doc : Doc) × (q : Rule) × (at : Places) × SweptOf doc q rule at «of» picked course bounds.low bounds.high × Groups doc «of».group.now × (doc.size ≡ n)) }
    ensures { (doc : Doc) → (q : Rule) → (at : Places) → SweptOf doc q rule at «of».entry picked.entry course.entry bounds.low bounds.high → Groups doc «of».entry.group.now → doc.size ≡ n → (is_sequenced rule ≡ false → 5 ≤ rule.kind → ⊥) → whole ≡ at.whole → SoonAside doc q rule at result }
{
    let mut own = [0u16; N];
    let mut value = [0u16; N];
    let mut top = [0u16; N];
    let mut holder = [0u16; N];
    let terms = Terms {
        kind: rule.kind,
        distinct: rule.distinct,
        low: bounds.low,
        high: bounds.high,
        whole,
    };
    if rule.windowed == 0 {
        return on_days::on_days(
            terms,
            of,
            picked,
            course,
            n,
            &mut own,
            &mut value,
            &mut top,
            &mut holder,
        );
    }
    in_windows::in_windows(
        terms,
        of,
        picked,
        course,
        n,
        &mut own,
        &mut value,
        &mut top,
        &mut holder,
    )
}

// The soonest place of any other rule, with columns of its own for what it reads, which have room for N records; `ends` has it in the order of their
// ends, for a cardinality. Cost: as for `soonest`.
fn sweeping_in<const N: usize>(
    records: Records,
    of: Surveyed,
    picked: Picked,
    table: &[u16; 1201],
    at: Places,
    rule: Rule,
) -> u16
    requires { ((length records.begin.now ≤ N) × (N ≤ limit)) × MonthTable table.now × (rule_fields rule ≡ true) × ((doc : Doc) × (q : Rule) × (vkinds : List ℕ) × (values : List ℤ) × GivenSweeps doc q rule at vkinds values records «of» picked) }
    ensures { (doc : Doc) → (q : Rule) → (vkinds : List ℕ) → (values : List ℤ) → GivenSweeps doc q rule at vkinds values records.entry «of».entry picked.entry → (is_sequenced rule ≡ false → 5 ≤ rule.kind → ⊥) → SoonAside doc q rule at result }
{
    let n = records.begin.len();
    let bounds = day::terms::terms(rule);
    let mut read = [0u8; N];
    let mut order = [0u16; N];
    let mut ends = [0u16; N];
    let mut lo = [0u16; N];
    let mut hi = [0u16; N];
    let rows = Rows {
        row: picked.row,
        other: picked.other,
        n,
    };
    picking::read_marks(picked.chosen, asked(rule.kind), rows, &mut read);
    let many = picking::pick(of.opens, &read, &mut order);
    let order = &order[..];
    picking::lay_low(table, at, records.begin, &order[0..many], &mut lo);
    picking::lay_high(table, at, records.end, &order[0..many], &mut hi);
    if rule.kind != 4 {
        let course = Course {
            order: &order[0..many],
            closes: of.closes,
            lo: &lo,
            hi: &hi,
        };
        return swept_in::<N>(of, picked, course, bounds, rule, n, at.whole);
    }
    let last = picking::pick(of.closes, &read, &mut ends);
    let ends = &ends[..];
    let course = Course {
        order: &order[0..many],
        closes: &ends[0..last],
        lo: &lo,
        hi: &hi,
    };
    swept_in::<N>(of, picked, course, bounds, rule, n, at.whole)
}

// The same: small columns where they serve. Cost: as for `soonest`.
pub fn sweeping(
    records: Records,
    of: Surveyed,
    picked: Picked,
    table: &[u16; 1201],
    at: Places,
    rule: Rule,
) -> u16
    requires { MonthTable table.now × (rule_fields rule ≡ true) × ((doc : Doc) × (q : Rule) × (vkinds : List ℕ) × (values : List ℤ) × GivenSweeps doc q rule at vkinds values records «of» picked) }
    ensures { (doc : Doc) → (q : Rule) → (vkinds : List ℕ) → (values : List ℤ) → GivenSweeps doc q rule at vkinds values records.entry «of».entry picked.entry → (is_sequenced rule ≡ false → 5 ≤ rule.kind → ⊥) → SoonAside doc q rule at result }
{
    if records.begin.len() <= SMALL {
        return sweeping_in::<SMALL>(records, of, picked, table, at, rule);
    }
    sweeping_in::<LIMIT>(records, of, picked, table, at, rule)
}
