// What is found once for a document, for all its rules: a representative for each value, a class for each item number, and the versions in
// the order of their begins and of their ends.
#![tactic(auto)]

ghost use Rattle.std.specs.Prelude.{◌≡◌, ℕ, ◌≤◌};
ghost use Rattle.meaning.specs.Document.{Doc};
ghost use Rattle.columns.specs.Lent.{ValuesOf, PeriodsOf, NumbersOf};
ghost use Rattle.columns.specs.Judgeable.{Judgeable};
ghost use Rattle.survey.specs.Surveyed.{Surveyed};

use columns::{LIMIT, Records};

// The representatives and the classes; how many versions there are, and their numbers by begin and by end.
#[derive(Drop)]
pub struct Survey {
    pub rep: [u16; LIMIT],
    pub group: [u16; LIMIT],
    pub many: usize,
    pub opens: [u16; LIMIT],
    pub closes: [u16; LIMIT],
}

// The survey of a document. Cost: that of `values::represent`, of `groups::group`, and twice that of `orders::versions_by`.
pub fn survey_columns(records: Records<'_>) -> Survey
    requires { (doc : Doc) × ValuesOf doc records × PeriodsOf doc records × NumbersOf doc records × Judgeable doc }
    ensures { (doc : Doc) → ValuesOf doc records.entry → PeriodsOf doc records.entry → NumbersOf doc records.entry → Surveyed doc records.entry.begin.now records.entry.end.now result.rep result.group result.opens result.closes result.many }
{
    let rep = values::represent(records);
    let group = groups::group(records);
    let begins = orders::versions_by(records.kind, records.begin);
    let ends = orders::versions_by(records.kind, records.end);
    let opens = begins.order;
    let closes = ends.order;
    let many = begins.many;
    Survey {
        rep,
        group,
        many,
        opens,
        closes,
    }
}
