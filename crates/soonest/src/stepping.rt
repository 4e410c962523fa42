// A datatype in windows: the soonest window in which a version is no number, or a wrong step from one that the window reaches back to.
ghost use Rattle.std.specs.Prelude.{◌≡◌, true, false, List, ℕ, ◌≤◌, length};
ghost use Rattle.calendar.specs.Entries.{MonthTable};
ghost use Rattle.meaning.specs.declared.Rule.{Rule};
ghost use Rattle.meaning.specs.Block.{limit};
ghost use Rattle.meaning.specs.Document.{Doc};
ghost use Rattle.meaning.specs.Rules.{is_sequenced, rule_fields};
ghost use Rattle.columns.specs.Judgeable.{Judgeable};
ghost use Rattle.prepare.specs.Rows.{KnownOnly};
ghost use Rattle.places.specs.Placing.{Counted};
ghost use Rattle.steps.specs.Places.{ClosingOf};
ghost use Rattle.passes.specs.Passes.{Covers};
ghost use Rattle.soonest.specs.Given.{GivenSteps, Reaching, Earlier};
ghost use Rattle.soonest.specs.Soon.{Soon};

use crate::{Picked, Surveyed, asked};
use columns::{LIMIT, Records};
use meaning::Rule;
use passes::Spans;
use picking::Rows;
use places::Places;
use prepare::SMALL;

// For each of n records the earlier of two days. Cost: one pass.
fn earlier_days(one: &[u16], other: &[u16], n: usize, out: &mut [u16])
    requires { (n ≤ length one.now) × (n ≤ length other.now) × (n ≤ length out.old) }
    ensures { Earlier n one.now other.now out.new }
{
    for i in 0..n {
        out[i] = one[i].min(other[i]);
    }
}

// For each record of an order the place from which on it is not present, or no window reaches back far enough for it to offend the datatype rule,
// into a lent column. Cost: that of the reaches, a pass over the records and one along the order.
fn reaching(
    records: Records,
    of: Surveyed,
    picked: Picked,
    order: &[u16],
    table: &[u16; 1201],
    at: Places,
    rule: Rule,
    until: &mut [u16],
)
    requires { MonthTable table.now × Counted at × Covers order.now records.begin.now × (length records.begin.now ≤ length until.old) × ((doc : Doc) × ClosingOf doc rule records picked.row.now «of».group.now «of».closes.now × Judgeable doc) }
    ensures { (doc : Doc) → ClosingOf doc rule records.entry picked.entry.row.now «of».entry.group.now «of».entry.closes.now → Judgeable doc → KnownOnly doc rule → Reaching doc rule at order.now until.new }
{
    let reach = steps::reaches_swept(
        records, picked.row, of.group, of.closes, rule.low, rule.high,
    );
    let mut last = [0u16; LIMIT];
    earlier_days(&reach, records.end, records.begin.len(), &mut last);
    picking::lay_high(table, at, &last, order, until);
}

// The soonest place of a datatype in windows, with columns of its own for what it reads, which have room for N records. Cost: as for `soonest`.
fn stepping_in<const N: usize>(
    records: Records,
    of: Surveyed,
    picked: Picked,
    table: &[u16; 1201],
    at: Places,
    rule: Rule,
) -> u16
    requires { ((length records.begin.now ≤ N) × (N ≤ limit)) × MonthTable table.now × (rule_fields rule ≡ true) × (is_sequenced rule ≡ false) × (5 ≤ rule.kind) × ((doc : Doc) × (q : Rule) × (reps : List ℕ) × GivenSteps doc q rule at reps records «of» picked) }
    ensures { (doc : Doc) → (q : Rule) → (reps : List ℕ) → GivenSteps doc q rule at reps records.entry «of».entry picked.entry → Soon doc q rule at result }
{
    let n = records.begin.len();
    let mut read = [0u8; N];
    let mut order = [0u16; N];
    let mut lo = [0u16; N];
    let mut until = [0u16; N];
    let rows = Rows {
        row: picked.row,
        other: picked.other,
        n,
    };
    picking::read_marks(picked.chosen, asked(rule.kind), rows, &mut read);
    let many = picking::pick(of.opens, &read, &mut order);
    let order = &order[..];
    picking::lay_low(table, at, records.begin, &order[0..many], &mut lo);
    reaching(
        records,
        of,
        picked,
        &order[0..many],
        table,
        at,
        rule,
        &mut until,
    );
    let spans = Spans {
        key: picked.row,
        lo: &lo,
        hi: &until,
    };
    passes::least(&order[0..many], spans, n)
}

// The same: small columns where they serve, since clearing them takes time. Cost: as for `soonest`.
pub fn stepping(
    records: Records,
    of: Surveyed,
    picked: Picked,
    table: &[u16; 1201],
    at: Places,
    rule: Rule,
) -> u16
    requires { MonthTable table.now × (rule_fields rule ≡ true) × (is_sequenced rule ≡ false) × (5 ≤ rule.kind) × ((doc : Doc) × (q : Rule) × (reps : List ℕ) × GivenSteps doc q rule at reps records «of» picked) }
    ensures { (doc : Doc) → (q : Rule) → (reps : List ℕ) → GivenSteps doc q rule at reps records.entry «of».entry picked.entry → Soon doc q rule at result }
{
    if records.begin.len() <= SMALL {
        return stepping_in::<SMALL>(records, of, picked, table, at, rule);
    }
    stepping_in::<LIMIT>(records, of, picked, table, at, rule)
}
