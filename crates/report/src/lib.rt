// The text of a report on two images, in a lent buffer: a header and a line for each rule, or one line that says why there is none. Its
// sequenced rules are judged by either engine: the text is the same.
#![tactic(auto)]

ghost use Rattle.std.specs.Prelude.{◌≡◌, List, ℕ, ◌<◌, length, Ok};
ghost use Rattle.meaning.specs.Rules.{rules_of};
ghost use Rattle.meaning.specs.Answer.{verdict};
ghost use Rattle.nodes.specs.Unpacking.{Unpacks};
ghost use Rattle.opening.specs.Opening.{Opens};
ghost use Rattle.opening.specs.Promises.{VerdictPromise};
ghost use Rattle.spelling.specs.Puts.{Puts};
ghost use Rattle.report.specs.Text.{rule_lines, report_of};
ghost use Rattle.report.specs.Surveys.{Surveys};

use columns::{Columns, Records};
use meaning::{Refusal, Verdict};
use soonest::Surveyed;

// No report is longer: the header, and a line for each rule that a table can have (`proofs/Theorems.antt`).
pub const ROOM: usize = 31 + 90 * (block::RULES.each * block::RULES.most);

// Which engine judges the sequenced rules; the others are judged by the quick one in either case.
#[derive(Clone, Copy, PartialEq, Eq)]
pub enum Engine {
    Quick,
    Plain,
}

// Opened images, as their rules are judged on: the columns that the document stands at the front of, how far it goes, and its survey.
#[derive(Clone, Copy)]
struct Opened<'a> {
    n: usize,
    all: Records<'a>,
    of: Surveyed<'a>,
    many: usize,
}

// The verdict on rule k, by the engine asked for if the rule is sequenced, else by the quick one. Cost: that of the verdict.
fn verdict_by(opened: Opened, engine: Engine, rules: &[u8], k: usize) -> Result<Verdict, Refusal>
    requires { (k < length (rules_of rules.now)) × ((nodes : List ℕ) × Surveys nodes rules.now opened) }
    ensures { (nodes : List ℕ) → Surveys nodes rules.now opened.entry → VerdictPromise nodes rules.now k result }
{
    if engine == Engine::Plain {
        let r = rules::rule_at(rules, k);
        if r.windowed == 0 {
            return plain::opened::verdict_of(opened.n, opened.all, rules, k);
        }
    }
    let found = bank::opened::verdict_of(opened.n, opened.all, opened.of, opened.many, rules, k);
    Ok(found.verdict)
}

// A line for each rule. Cost: the verdict on each.
fn put_rules(text: &mut [u8], at: usize, opened: Opened, engine: Engine, rules: &[u8]) -> usize
    requires { (nodes : List ℕ) × Surveys nodes rules.now opened }
    ensures { (nodes : List ℕ) → Surveys nodes rules.now opened.entry → Puts text.old at (rule_lines (verdict nodes rules.now) 0 (length (rules_of rules.now))) text.new result }
{
    let all = rules::count_rules(rules);
    let mut to = at;
    for k in 0..all {
        let verdict = verdict_by(opened, engine, rules, k);
        to = spelling::lines::put_rule(text, to, k, verdict);
    }
    to
}

// The header and the lines, on both images accepted: the columns are surveyed once for all rules.
fn put_table(text: &mut [u8], rules: &[u8], columns: Columns, n: usize, engine: Engine) -> usize
    requires { ((nodes : List ℕ) × Opens nodes rules.now columns) × (columns.loaded ≡ Ok n) }
    ensures { (nodes : List ℕ) → Opens nodes rules.now columns → Puts text.old 0 (report_of nodes rules.now) text.new result }
{
    let at = spelling::lines::put_header(text);
    let found = survey::survey_columns(columns.front(n));
    let of = Surveyed {
        rep: &found.rep,
        group: &found.group,
        opens: &found.opens,
        closes: &found.closes,
    };
    let opened = Opened {
        n,
        all: columns.all(),
        of,
        many: found.many,
    };
    put_rules(text, at, opened, engine, rules)
}

// The report on a node image that was opened: the line of a refusal, or the table. The columns are not laid anew beside the table's answer, as
// `opening::open` does, since on small banks the copy would show.
fn report_rules(text: &mut [u8], rules: &[u8], columns: Columns, engine: Engine) -> usize
    requires { (image : List ℕ) × Unpacks image columns }
    ensures { (image : List ℕ) → Unpacks image columns → Puts text.old 0 (report_of image rules.now) text.new result }
{
    let loaded = columns.loaded;
    let both = opening::after_rules(loaded, rules);
    match both {
        Err(Refusal { number, place }) => spelling::lines::put_refusal(text, number, place),
        Ok(n) => put_table(text, rules, columns, n, engine),
    }
}

// The report on any two byte strings, its sequenced rules judged by the engine asked for: each image is read once, whatever the number
// of rules.
pub fn report_by(text: &mut [u8], nodes: &[u8], rules: &[u8], engine: Engine) -> usize
    ensures { Puts text.old 0 (report_of nodes.now rules.now) text.new result }
{
    let columns = opening::open_nodes(nodes);
    report_rules(text, rules, columns, engine)
}

// The report on any two byte strings, by the quick engine.
pub fn report(text: &mut [u8], nodes: &[u8], rules: &[u8]) -> usize
    ensures { Puts text.old 0 (report_of nodes.now rules.now) text.new result }
{
    report_by(text, nodes, rules, Engine::Quick)
}
