// The soonest place at which a rule can fail: at no place before it does a version offend. It is found in one sweep over the versions that the rule
// reads, in the order of their begins, for each part of an offence, and only that one-sided fact is promised: at the place itself the rule may hold.
#![tactic(auto)]

ghost use Rattle.std.specs.Prelude.{◌≡◌, true, ◌≤◌};
ghost use Rattle.calendar.specs.Entries.{MonthTable};
ghost use Rattle.meaning.specs.declared.Rule.{Rule};
ghost use Rattle.meaning.specs.Document.{Doc};
ghost use Rattle.meaning.specs.Rules.{rule_fields};
ghost use Rattle.soonest.specs.Given.{GivenOf};
ghost use Rattle.soonest.specs.Soon.{Soon};
ghost use Rattle.soonest.specs.Swept.{Asks};

use columns::Records;
use meaning::Rule;
use places::Places;

pub mod on_days; // on_days.rt: a sequenced rule, by its kind
pub mod in_windows; // in_windows.rt: a non-sequenced rule, by its kind
pub mod stepping; // stepping.rt: a datatype in windows
pub mod sweeps; // sweeps.rt: every other rule, lined up and swept, nils aside
pub mod nils; // nils.rt: the nils that a key and a reference do not take

// What a rule picks out: a mark on each version that it selects, in whose row each record is, and the rows of the rule that a reference refers to.
#[derive(Clone, Copy)]
pub struct Picked<'a> {
    pub chosen: &'a [u8],
    pub row: &'a [u16],
    pub other: &'a [u16],
}

// What is known of a document once for all rules: representatives of values, groups of items, and the versions in the order of their begins and of their ends.
#[derive(Clone, Copy)]
pub struct Surveyed<'a> {
    pub rep: &'a [u16],
    pub group: &'a [u16],
    pub opens: &'a [u16],
    pub closes: &'a [u16],
}

// The mark of the selected versions that the kind looks at themselves: 1 for a key and a cardinality; for the others one that no version has.
fn asked(kind: u8) -> u8
    ensures { Asks kind → result ≡ 1 }
{
    if (kind == 1) | (kind == 4) {
        return 1;
    }
    2
}

// The soonest place at which the rule can fail, 65,535 where it fails at none: no version offends at any place before it. Cost: a pass over the
// records, one along the versions by begin, for a cardinality one by end, for a key and a reference one for nils, the places of each one that is read,
// and that of the parts that the kind has.
pub fn soonest(
    records: Records,
    of: Surveyed,
    picked: Picked,
    table: &[u16; 1201],
    at: Places,
    rule: Rule,
) -> u16
    requires { MonthTable table.now × (rule_fields rule ≡ true) × ((doc : Doc) × (q : Rule) × GivenOf doc q rule at records «of» picked) }
    ensures { (doc : Doc) → (q : Rule) → GivenOf doc q rule at records.entry «of».entry picked.entry → Soon doc q rule at result }
{
    if (rule.windowed != 0) & (5 <= rule.kind) {
        return stepping::stepping(records, of, picked, table, at, rule);
    }
    let swept = sweeps::sweeping(records, of, picked, table, at, rule);
    swept.min(nils::soonest_nil(records, picked.row, of.opens, table, at, rule))
}
