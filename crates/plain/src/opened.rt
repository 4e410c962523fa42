// The plain answers over opened images: what the two calls, and a report on many rules, ask of columns and an accepted table.
ghost use Rattle.std.specs.Prelude.{◌≡◌, true, false, List, ℕ, ◌≤◌, ◌<◌, length, Ok};
ghost use Rattle.meaning.specs.declared.Rule.{Rule};
ghost use Rattle.meaning.specs.Document.{Doc};
ghost use Rattle.meaning.specs.Rules.{is_reference, rule_fields, rules_of};
ghost use Rattle.meaning.specs.Select.{reads};
ghost use Rattle.meaning.specs.Day.{on_days};
ghost use Rattle.columns.specs.Lent.{Periods};
ghost use Rattle.columns.specs.Judgeable.{Judgeable};
ghost use Rattle.marks.specs.Marks.{Marks};
ghost use Rattle.nodes.specs.Unpacking.{Unpacks};
ghost use Rattle.opening.specs.Opening.{Opens};
ghost use Rattle.opening.specs.Promises.{SlicePromise, SequencedPromise};
ghost use Rattle.plain.specs.Laid.{LaidOf, Read};
ghost use Rattle.plain.specs.Walking.{Stopped};

use crate::counting::count_changes;
use crate::days::{Choice, Failing, first_failing};
use columns::chains::chain;
use columns::{Columns, Records};
use descent::Chains;
use meaning::{Refusal, Rule, Verdict};

// The last day of all.
const LAST: usize = 36524;

// The slice of a day.
pub fn slice_of(columns: Columns, n: usize, day: usize, out: &mut [u16]) -> Result<usize, Refusal>
    requires { ((nodes : List ℕ) × Unpacks nodes columns) × (columns.loaded ≡ Ok n) }
    ensures { (nodes : List ℕ) → Unpacks nodes columns → SlicePromise nodes day out.old result out.new }
{
    if LAST < day {
        return Err(Refusal {
            number: 11,
            place: 0,
        });
    }
    descent::slice_front(n, columns.all(), day as u16, out)
}

// The verdict that a walk over the days comes to: `read` marks the versions that the rule reads. Cost: that of the count.
fn told(stop: Option<Failing>, read: &[u8], begin: &[u16], end: &[u16], r: Rule) -> Verdict
    requires { (rule_fields r ≡ true) × ((doc : Doc) × (q : Rule) × Periods doc begin.now end.now × Marks (reads doc q r) doc.size read.now × Stopped doc q r stop) }
    ensures { (doc : Doc) (q : Rule) → Periods doc begin.now end.now → Judgeable doc → Marks (reads doc q r) doc.size read.now → Stopped doc q r stop → result ≡ on_days doc q r }
{
    match stop {
        Some(Failing { day, place }) => Verdict::Fails(
            usize::from(day),
            place,
            count_changes(read, begin, end, r.begin, day + 1),
        ),
        None => Verdict::Holds(count_changes(read, begin, end, r.begin, r.end)),
    }
}

// The verdict on the sequenced rule r over the columns of a document; `other` is the rule that it refers to if it is a reference, else r again.
// Cost: what r selects and reads, the chains of the records, the walk over the days, and the count of the change days.
fn judge_columns(records: Records, other: Rule, r: Rule) -> Verdict
    requires { (rule_fields r ≡ true) × (rule_fields other ≡ true) × ((doc : Doc) × (q : Rule) × LaidOf doc records × (is_reference r ≡ true → other ≡ q) × (is_reference r ≡ false → other ≡ r)) }
    ensures { (doc : Doc) (q : Rule) → LaidOf doc records.entry → (is_reference r ≡ true → other ≡ q) → (is_reference r ≡ false → other ≡ r) → result ≡ on_days doc q r }
{
    let own = paths::selecting::mark_selected(records, r);
    let held = paths::selecting::mark_selected(records, other);
    let read = paths::reading::mark_read(records, &own, &held, other, r);
    let versions = chain(records.kind, records.parent, 2);
    let items = chain(records.kind, records.parent, 1);
    let chains = Chains {
        version_last: &versions.last,
        version_lower: &versions.lower,
        item_last: &items.last,
        item_lower: &items.lower,
        begin: records.begin,
        end: records.end,
    };
    let choice = Choice {
        own: &own,
        held: &held,
        other,
        rule: r,
    };
    let stop = first_failing(records, chains, choice);
    told(stop, &read, records.begin, records.end, r)
}

// The verdict on rule k of the table, over the first n entries of the columns: 11 where it is not sequenced. Cost: reading the rule, and the rule
// that it refers to, from the table; then the verdict.
pub fn verdict_of(n: usize, records: Records, rules: &[u8], k: usize) -> Result<Verdict, Refusal>
    requires { (k < length (rules_of rules.now)) × ((nodes : List ℕ) × Read nodes rules.now n records) }
    ensures { (nodes : List ℕ) → Read nodes rules.now n records.entry → SequencedPromise nodes rules.now k result }
{
    let r = rules::rule_at(rules, k);
    if r.windowed != 0 {
        return Err(Refusal {
            number: 11,
            place: 0,
        });
    }
    let other = rules::referred_rule(rules, k);
    let front = Records {
        kind: &records.kind[0..n],
        vkind: &records.vkind[0..n],
        name: &records.name[0..n],
        parent: &records.parent[0..n],
        begin: &records.begin[0..n],
        end: &records.end[0..n],
        value: &records.value[0..n],
        ..records
    };
    Ok(judge_columns(front, other, r))
}

// What is found of a rule of opened images: 11 where there is no such rule, then the verdict.
pub fn verdict_opened(
    columns: Columns,
    n: usize,
    rules: &[u8],
    rule: usize,
) -> Result<Verdict, Refusal>
    requires { ((nodes : List ℕ) × Opens nodes rules.now columns) × (columns.loaded ≡ Ok n) }
    ensures { (nodes : List ℕ) → Opens nodes rules.now columns → SequencedPromise nodes rules.now rule result }
{
    if rules::count_rules(rules) <= rule {
        return Err(Refusal {
            number: 11,
            place: 0,
        });
    }
    verdict_of(n, columns.all(), rules, rule)
}
