// The change days of a rule, stored along the versions by their begins and by their ends.
ghost use Rattle.std.specs.Prelude.{◌≡◌, true, ◌≤◌};
ghost use Rattle.meaning.specs.declared.Rule.{Rule};
ghost use Rattle.meaning.specs.Reading.{Accepted};
ghost use Rattle.meaning.specs.Document.{Doc};
ghost use Rattle.meaning.specs.Rules.{is_reference, rule_fields};
ghost use Rattle.meaning.specs.Select.{reads_own};
ghost use Rattle.meaning.specs.Day.{change_days};
ghost use Rattle.meaning.specs.Answer.{storing, lent_after};
ghost use Rattle.columns.specs.Lent.{TreeOf, PeriodsOf, HasTree};
ghost use Rattle.columns.specs.Judgeable.{Judgeable};
ghost use Rattle.marks.specs.Marks.{Marks};
ghost use Rattle.lists.specs.Lending.{TurnableIn, TreeFront, PeriodsFront};

use changes::merging::{Read, Walk, store_changes};
use columns::{LIMIT, Records};
use meaning::{Refusal, Rule};

// The marks of the versions read by the rule that a reference refers to; those of any other rule again.
fn read_referred(records: Records<'_>, own: [u8; LIMIT], q: Rule, r: Rule) -> [u8; LIMIT]
    requires { (is_reference r ≡ true → q.steps ≤ 8) × HasTree records }
    ensures { (doc : Doc) → TreeOf doc records.entry → is_reference r ≡ true → Marks (reads_own doc q) doc.size result }
{
    if r.kind != 3 {
        return own;
    }
    prepare::reads::mark_read(records, q)
}

// The change days of rule r, which refers to q if it is a reference, into a lent list, along the versions by begin and by end.
// Cost: three passes over the records, six for a reference, twice that of `orders::versions_by`, and that of `changes::merging::store_changes`.
fn changes_columns(
    records: Records<'_>,
    q: Rule,
    r: Rule,
    out: &mut [u16],
) -> Result<usize, Refusal>
    requires { (rule_fields r ≡ true) × (is_reference r ≡ true → rule_fields q ≡ true) × ((doc : Doc) × TreeOf doc records × PeriodsOf doc records × Judgeable doc) }
    ensures answer { (doc : Doc) → (p : Rule) → TreeOf doc records.entry → PeriodsOf doc records.entry → (is_reference r ≡ true → p ≡ q) → result ≡ storing Accepted (change_days doc p r) out.old }
    ensures lent { (doc : Doc) → (p : Rule) → TreeOf doc records.entry → PeriodsOf doc records.entry → (is_reference r ≡ true → p ≡ q) → out.new ≡ lent_after result (change_days doc p r) out.old }
{
    let own = prepare::reads::mark_read(records, r);
    let referred = read_referred(records, own, q, r);
    let begins = orders::versions_by(records.kind, records.begin);
    let ends = orders::versions_by(records.kind, records.end);
    let read = Read {
        own: &own,
        reference: r.kind == 3,
        referred: &referred,
    };
    let walk = Walk {
        opens: &begins.order[0..begins.many],
        closes: &ends.order[0..ends.many],
        begin: records.begin,
        end: records.end,
        read,
    };
    store_changes(walk, r.begin, r.end, out)
}

// The same over the first n entries of the columns.
pub fn changes_front(
    n: usize,
    records: Records<'_>,
    q: Rule,
    r: Rule,
    out: &mut [u16],
) -> Result<usize, Refusal>
    requires { (rule_fields r ≡ true) × (is_reference r ≡ true → rule_fields q ≡ true) × TurnableIn n records }
    ensures answer { (doc : Doc) → (p : Rule) → TreeFront doc n records.entry → PeriodsFront doc n records.entry → (is_reference r ≡ true → p ≡ q) → result ≡ storing Accepted (change_days doc p r) out.old }
    ensures lent { (doc : Doc) → (p : Rule) → TreeFront doc n records.entry → PeriodsFront doc n records.entry → (is_reference r ≡ true → p ≡ q) → out.new ≡ lent_after result (change_days doc p r) out.old }
{
    let front = Records {
        kind: &records.kind[..n],
        name: &records.name[..n],
        parent: &records.parent[..n],
        begin: &records.begin[..n],
        end: &records.end[..n],
        ..records
    };
    changes_columns(front, q, r, out)
}
