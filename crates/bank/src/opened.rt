// The answers over opened images: what the calls on images, and a report on many rules, ask of columns and an accepted table.
ghost use Rattle.std.specs.Prelude.{◌≡◌, List, ℕ, ◌<◌, length, Ok};
ghost use Rattle.meaning.specs.Rules.{rules_of};
ghost use Rattle.nodes.specs.Unpacking.{Unpacks};
ghost use Rattle.opening.specs.Opening.{Opens};
ghost use Rattle.bank.specs.Opening.{OpenOf};
ghost use Rattle.opening.specs.Promises.{VerdictPromise, SlicePromise, ChangesPromise};

use columns::{Columns, Records};
use judging::Judged;
use meaning::Refusal;
use soonest::Surveyed;

// The last day of all.
const LAST: usize = 36524;

// The slice of a day.
pub fn slice_of(columns: Columns, n: usize, day: usize, out: &mut [u16]) -> Result<usize, Refusal>
    requires { ((nodes : List ℕ) × Unpacks nodes columns) × (columns.loaded ≡ Ok n) }
    ensures { (nodes : List ℕ) → Unpacks nodes columns → SlicePromise nodes day out.old result out.new }
{
    if LAST < day {
        return Err(Refusal {
            number: 11,
            place: 0,
        });
    }
    lists::slices::slice_front(n, columns.all(), day as u16, out)
}

// The change days of a rule of the table: 11 where there is no such rule or it is not sequenced, then 12.
pub fn changes_of(
    columns: Columns,
    n: usize,
    rules: &[u8],
    rule: usize,
    out: &mut [u16],
) -> Result<usize, Refusal>
    requires { ((nodes : List ℕ) × Opens nodes rules.now columns) × (columns.loaded ≡ Ok n) }
    ensures { (nodes : List ℕ) → Opens nodes rules.now columns → ChangesPromise nodes rules.now rule out.old result out.new }
{
    if rules::count_rules(rules) <= rule {
        return Err(Refusal {
            number: 11,
            place: 0,
        });
    }
    let r = rules::rule_at(rules, rule);
    if r.windowed != 0 {
        return Err(Refusal {
            number: 11,
            place: 0,
        });
    }
    let q = rules::referred_rule(rules, rule);
    lists::turning::changes_front(n, columns.all(), q, r, out)
}

// The verdict on rule k of the table, over the first n entries of the columns, with their survey. Cost: reading the rule, and the rule that it refers to, from the table; then the verdict on days or in windows.
pub fn verdict_of(
    n: usize,
    records: Records,
    of: Surveyed,
    many: usize,
    rules: &[u8],
    k: usize,
) -> Judged
    requires { (k < length (rules_of rules.now)) × ((nodes : List ℕ) × OpenOf nodes rules.now n records «of» many) }
    ensures { (nodes : List ℕ) → OpenOf nodes rules.now n records.entry «of».entry many → VerdictPromise nodes rules.now k (Ok result.verdict) }
{
    let r = rules::rule_at(rules, k);
    let q = rules::referred_rule(rules, k);
    judging::judge_front(n, records, of, many, q, r)
}
