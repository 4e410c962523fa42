// Every day of a rule's period, in order, each judged on its slice: the first that has an offender. The kind of the rule is known only to
// `literal::offender`, which judges a day.
ghost use Rattle.std.specs.Prelude.{◌≡◌, true, false, ◌≤◌, length, None};
ghost use Rattle.meaning.specs.declared.Rule.{Rule};
ghost use Rattle.meaning.specs.Document.{Doc};
ghost use Rattle.meaning.specs.Rules.{rule_fields};
ghost use Rattle.descent.specs.Links.{Links};
ghost use Rattle.plain.specs.Laid.{LaidOf, ChosenOf};
ghost use Rattle.plain.specs.Walking.{offender_by, Stopped};

use columns::{LIMIT, Records};
use descent::Chains;
use meaning::Rule;

// A day that has an offender, and the lowest of that day.
#[derive(Clone, Copy)]
pub struct Failing {
    pub day: u16,
    pub place: usize,
}

// A rule, and the rule that it refers to if it is a reference, else itself again, with marks on the versions that either selects: `own` for the
// rule, `held` for the other.
#[derive(Clone, Copy)]
pub struct Choice<'a> {
    pub own: &'a [u8],
    pub held: &'a [u8],
    pub other: Rule,
    pub rule: Rule,
}

// The lowest offender of a day whose slice is `present`; one with the slice of the day before, which had none, is not judged again. Cost: a
// look at each record, and that of `literal::offender` where the slice is another or the day is the period's first.
fn found_on(
    records: Records,
    choice: Choice,
    before: &[u8],
    present: &[u8],
    opening: bool,
) -> Option<usize>
    requires { (rule_fields choice.rule ≡ true) × ((doc : Doc) × LaidOf doc records × (doc.size ≤ length choice.own.now) × (doc.size ≤ length choice.held.now) × (doc.size ≤ length before.now) × (doc.size ≤ length present.now)) }
    ensures { (doc : Doc) (q : Rule) → LaidOf doc records.entry → ChosenOf doc q choice.entry → doc.size ≤ length present.now → (opening ≡ false → offender_by doc q choice.entry.rule before.now ≡ None) → result ≡ offender_by doc q choice.entry.rule present.now }
{
    let n = records.kind.len();
    let again = before[..n] == present[..n];
    if again & !opening {
        return None;
    }
    literal::offender(
        records,
        choice.own,
        choice.held,
        present,
        choice.other,
        choice.rule,
    )
}

// The first day of a rule's period that has an offender. Cost: for each day up to it its slice from the root down, and that of `found_on`.
pub fn first_failing(records: Records, chains: Chains, choice: Choice) -> Option<Failing>
    requires { (rule_fields choice.rule ≡ true) × ((doc : Doc) × LaidOf doc records × Links doc chains × (doc.size ≤ length choice.own.now) × (doc.size ≤ length choice.held.now)) }
    ensures { (doc : Doc) (q : Rule) → LaidOf doc records.entry → Links doc chains.entry → ChosenOf doc q choice.entry → Stopped doc q choice.entry.rule result }
{
    let mut before = [0u8; LIMIT];
    for day in choice.rule.begin..choice.rule.end {
        let present = descent::present_on(chains, day);
        let opening = day == choice.rule.begin;
        let found = found_on(records, choice, &before, &present, opening);
        if let Some(place) = found {
            return Some(Failing { day, place });
        }
        before = present;
    }
    None
}
