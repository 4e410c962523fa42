// One day judged by the words of the definitions, over the versions that are present on it: the lowest version that offends.
#![tactic(auto)]

ghost use Rattle.std.specs.Prelude.{◌≡◌, Bool, true, false, ℕ, ◌≤◌, length};
ghost use Rattle.meaning.specs.declared.Rule.{Rule};
ghost use Rattle.meaning.specs.Document.{Doc};
ghost use Rattle.meaning.specs.Walk.{first};
ghost use Rattle.meaning.specs.Rules.{is_reference, rule_fields};
ghost use Rattle.meaning.specs.Select.{selected};
ghost use Rattle.meaning.specs.Day.{offends};
ghost use Rattle.columns.specs.Lent.{TreeOf, ValuesOf};
ghost use Rattle.columns.specs.Judgeable.{Judgeable};
ghost use Rattle.marks.specs.Marks.{Marks};
ghost use Rattle.literal.specs.Posed.{ReadyFor, PosedFor};

use crate::offence::{Asked, offends};
use crate::only::only_values;
use columns::Records;
use meaning::Rule;

mod fields; // fields.rt: the field versions of one version, and its values
mod only; // only.rt: the only value of each version, and whether one is equal to another
mod offence; // offence.rt: whether one version offends

// The lowest version that offends, by the column of only values with which the rule compares. Cost: two looks at each record for each
// version that is selected and present.
fn first_offender(records: Records<'_>, asked: Asked) -> Option<usize>
    requires { (1 ≤ asked.rule.kind) × (length records.kind.now ≤ length asked.own.now) × ReadyFor records asked }
    ensures { (doc : Doc) (p : ℕ → Bool) (q : Rule) → PosedFor doc p q records.entry asked.entry → Marks (selected doc asked.entry.rule) doc.size asked.entry.own.now → result ≡ first (offends doc p q asked.entry.rule) 0 doc.size }
{
    for v in 0..records.kind.len() {
        if offends(records, asked, v) {
            return Some(v);
        }
    }
    None
}

// The lowest version that offends rule r among those present: `own` marks the versions that r selects, and `held` those that `other`
// selects, which is the rule referred to for a reference, else r again. Cost: about three looks at each record for each version that is
// selected and present.
pub fn offender<'a>(
    records: Records<'_>,
    own: &'a [u8],
    held: &'a [u8],
    present: &[u8],
    other: Rule,
    r: Rule,
) -> Option<usize>
    requires { (rule_fields r ≡ true) × ((doc : Doc) × TreeOf doc records × ValuesOf doc records × Judgeable doc × (doc.size ≤ length own.now) × (doc.size ≤ length held.now) × (doc.size ≤ length present.now)) }
    ensures { (doc : Doc) (p : ℕ → Bool) (q : Rule) → TreeOf doc records.entry → ValuesOf doc records.entry → Judgeable doc → Marks (selected doc r) doc.size own.now → Marks (selected doc other) doc.size held.now → Marks p doc.size present.now → (is_reference r ≡ true → other ≡ q) → (is_reference r ≡ false → other ≡ r) → result ≡ first (offends doc p q r) 0 doc.size }
{
    if 3 < r.kind {
        let none = [0u16; 1];
        let asked = Asked {
            own,
            present,
            only: &none,
            rule: r,
        };
        return first_offender(records, asked);
    }
    let only = only_values(records, held, present, other.field);
    let asked = Asked {
        own,
        present,
        only: &only,
        rule: r,
    };
    first_offender(records, asked)
}
