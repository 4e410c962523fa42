// The verdict on a rule of two images, with how many places were looked into for it.
ghost use Rattle.std.specs.Prelude.{◌≡◌, List, ℕ, Ok};
ghost use Rattle.opening.specs.Opening.{Opens};
ghost use Rattle.opening.specs.Promises.{VerdictPromise};
ghost use Rattle.bank.specs.Found.{verdict_in};

use columns::Columns;
use judging::Judged;
use meaning::Refusal;
use soonest::Surveyed;

// What is found of a rule of opened images: 11 where there is no such rule; then the columns are surveyed.
fn judge_opened(columns: Columns, n: usize, rules: &[u8], rule: usize) -> Result<Judged, Refusal>
    requires { ((nodes : List ℕ) × Opens nodes rules.now columns) × (columns.loaded ≡ Ok n) }
    ensures { (nodes : List ℕ) → Opens nodes rules.now columns → VerdictPromise nodes rules.now rule (verdict_in result) }
{
    if rules::count_rules(rules) <= rule {
        return Err(Refusal {
            number: 11,
            place: 0,
        });
    }
    let found = survey::survey_columns(columns.front(n));
    let of = Surveyed {
        rep: &found.rep,
        group: &found.group,
        opens: &found.opens,
        closes: &found.closes,
    };
    Ok(crate::opened::verdict_of(n, columns.all(), of, found.many, rules, rule))
}

// The verdict on a rule, with how many places were looked into for it: more than one, or one where the rule holds, only after a false alarm. That
// there is none is tested and not proved, so a test asks for it here. Cost: as `verdict`, which is this.
pub fn judge(nodes: &[u8], rules: &[u8], rule: usize) -> Result<Judged, Refusal>
    ensures { VerdictPromise nodes.now rules.now rule (verdict_in result) }
{
    let columns = opening::open(nodes, rules);
    // not `?`, so that the edit that answers another refusal here is refused by a fact
    let n = match columns.loaded {
        Ok(n) => n,
        Err(why) => return Err(why),
    };
    judge_opened(columns, n, rules, rule)
}
