// The verdict on one rule over the columns of a document: the soonest of its places, days or windows, that has an offender.
#![tactic(auto)]

ghost use Rattle.std.specs.Prelude.{◌≡◌, true, ◌||◌, ℕ, ◌≤◌, ◌<◌, length};
ghost use Rattle.calendar.specs.Entries.{MonthTable};
ghost use Rattle.meaning.specs.declared.Rule.{Rule};
ghost use Rattle.meaning.specs.Block.{limit};
ghost use Rattle.meaning.specs.Document.{Doc};
ghost use Rattle.meaning.specs.Rules.{is_key, is_unique, is_reference, is_sequenced, rule_fields};
ghost use Rattle.meaning.specs.Answer.{judged};
ghost use Rattle.columns.specs.Lent.{Periods};
ghost use Rattle.columns.specs.Judgeable.{Judgeable};
ghost use Rattle.places.specs.Placing.{Counted, Placed};
ghost use Rattle.soonest.specs.Given.{GivenOf};
ghost use Rattle.soonest.specs.Soon.{Soon};
ghost use Rattle.judging.specs.Knowing.{SurveyedOf, FrontsOf, WholeFront, SurveyedFront};
ghost use Rattle.judging.specs.Picking.{PickedOf};
ghost use Rattle.judging.specs.Stopping.{Stopped};
ghost use Rattle.judging.specs.Tally.{count_of, TracedOf};

use changes::merging::{Read as Along, Walk};
use columns::{LIMIT, Records};
use meaning::{Rule, Verdict};
use numbers::index;
use places::Places;
use prepare::SMALL;
use soonest::{Picked, Surveyed};
use walking::Stop;

mod walking; // walking.rt: the walk over the places, from one of them on

// What is found of a rule: the verdict, and how many of its places were looked into for it. One is enough where the rule fails and none where it
// holds; more say that the soonest place was a false alarm, which costs time and is never a wrong answer.
#[derive(Clone, Copy)]
pub struct Judged {
    pub verdict: Verdict,
    pub looked: usize,
}

// The marks of what a rule reads: by itself, and if it is a reference, of what the rule reads that it refers to.
#[derive(Clone, Copy)]
pub struct Read<'a> {
    pub own: &'a [u8],
    pub held: &'a [u8],
}

// The number of the soonest place at which rule r can fail: at no place before it does a version offend. Cost: as `soonest::soonest`.
fn soonest_place(
    records: Records,
    of: Surveyed,
    picked: Picked,
    table: &[u16; 1201],
    at: Places,
    r: Rule,
) -> usize
    requires { MonthTable table.now × (rule_fields r ≡ true) × ((doc : Doc) × (q : Rule) × GivenOf doc q r at records «of» picked) }
    ensures { (doc : Doc) → (q : Rule) → GivenOf doc q r at records.entry «of».entry picked.entry → Soon doc q r at result }
{
    index(soonest::soonest(records, of, picked, table, at, r))
}

// The count that a verdict tells: how many change days rule r has before day `past`, or the windows given if it is not sequenced. Cost: a look at
// each position of both orders, and two more for each change day; none for windows.
fn count_to(
    records: Records,
    of: Surveyed,
    read: Read,
    r: Rule,
    windows: usize,
    past: usize,
) -> usize
    requires { (is_sequenced r ≡ true → r.begin < past) × (past ≤ 36525) × ((doc : Doc) × (q : Rule) × Periods doc records.begin.now records.end.now × TracedOf doc q r «of» read) }
    ensures { (doc : Doc) → (q : Rule) → Periods doc records.entry.begin.now records.entry.end.now → TracedOf doc q r «of».entry read.entry → result ≡ count_of doc q r windows past }
{
    if r.windowed == 0 {
        let along = Along {
            own: read.own,
            reference: r.kind == 3,
            referred: read.held,
        };
        let walk = Walk {
            opens: of.opens,
            closes: of.closes,
            begin: records.begin,
            end: records.end,
            read: along,
        };
        return changes::merging::count_changes(walk, r.begin, past as u16);
    }
    windows
}

// The verdict by where the walk over the places of rule r stopped, with its count. Cost: that of the count.
fn tell(
    records: Records,
    of: Surveyed,
    read: Read,
    at: Places,
    r: Rule,
    stop: Option<Stop>,
) -> Verdict
    requires { (rule_fields r ≡ true) × Placed r at × Counted at × ((doc : Doc) × (q : Rule) × (k : ℕ) × Periods doc records.begin.now records.end.now × Judgeable doc × TracedOf doc q r «of» read × Stopped doc q r at k stop) }
    ensures { (doc : Doc) → (q : Rule) → (k : ℕ) → Periods doc records.entry.begin.now records.entry.end.now → Judgeable doc → TracedOf doc q r «of».entry read.entry → Soon doc q r at k → Stopped doc q r at k stop → result ≡ judged doc q r }
{
    if let Some(Stop { here, version }) = stop {
        let count = count_to(records, of, read, r, here.number + 1, here.to);
        return Verdict::Fails(here.from, version, count);
    }
    Verdict::Holds(count_to(records, of, read, r, at.count, at.close))
}

// How many places were looked into by a walk from number `first` on that stopped there. Nothing hangs on it, and nothing is promised of it.
fn looks(at: Places, first: usize, stop: Option<Stop>) -> usize {
    if at.count <= first {
        return 0;
    }
    if let Some(Stop { here, version: _ }) = stop {
        if here.number < at.count {
            if first <= here.number {
                return here.number + 1 - first;
            }
        }
    }
    at.count - first
}

// The verdict on rule r, which refers to q if it is a reference, by what the rule picks out and reads: from the soonest place at which it can fail on,
// the places are walked. Cost: the soonest place, the walk from there on, and the count.
fn judge_found(
    records: Records,
    of: Surveyed,
    picked: Picked,
    read: Read,
    q: Rule,
    r: Rule,
) -> Judged
    requires { (rule_fields r ≡ true) × (is_reference r ≡ true → (rule_fields q ≡ true) × ((is_key q || is_unique q) ≡ true)) × ((doc : Doc) × SurveyedOf doc records «of» × PickedOf doc q r picked read) }
    ensures { (doc : Doc) → (p : Rule) → SurveyedOf doc records.entry «of».entry → PickedOf doc q r picked.entry read.entry → (is_reference r ≡ true → p ≡ q) → result.verdict ≡ judged doc p r }
{
    let table = calendar::starts();
    let at = places::places_of(&table, r);
    let first = soonest_place(records, of, picked, &table, at, r);
    let stop = walking::stop_from(records, of, &table, at, first, q, r);
    let verdict = tell(records, of, read, at, r, stop);
    let looked = looks(at, first, stop);
    Judged { verdict, looked }
}

// The same, with arrays of its own, which have room for N records, for what the rule picks out and reads, and, if it is a reference, for what the rule
// picks out and reads that it refers to. Cost: what one rule or two pick out, and that of `judge_found`.
fn judge_in<const N: usize>(records: Records, of: Surveyed, q: Rule, r: Rule) -> Judged
    requires { (rule_fields r ≡ true) × (is_reference r ≡ true → (rule_fields q ≡ true) × ((is_key q || is_unique q) ≡ true)) × ((length records.kind.now ≤ N) × (N ≤ limit)) × ((doc : Doc) × SurveyedOf doc records «of») }
    ensures { (doc : Doc) → (p : Rule) → SurveyedOf doc records.entry «of».entry → (is_reference r ≡ true → p ≡ q) → result.verdict ≡ judged doc p r }
{
    let mut chosen = [0u8; N];
    let mut row = [0u16; N];
    let mut own = [0u8; N];
    prepare::sift(records, r, &mut chosen, &mut row, &mut own);
    if r.kind != 3 {
        let picked = Picked {
            chosen: &chosen,
            row: &row,
            other: &row,
        };
        let read = Read {
            own: &own,
            held: &own,
        };
        return judge_found(records, of, picked, read, q, r);
    }
    let mut left = [0u8; N];
    let mut other = [0u16; N];
    let mut held = [0u8; N];
    prepare::sift(records, q, &mut left, &mut other, &mut held);
    let picked = Picked {
        chosen: &chosen,
        row: &row,
        other: &other,
    };
    let read = Read {
        own: &own,
        held: &held,
    };
    judge_found(records, of, picked, read, q, r)
}

// The same: small arrays where they serve, which are soon cleared. Cost: what the rules pick out, the soonest place, the walk from there on, and the
// count.
fn judge_columns(records: Records, of: Surveyed, q: Rule, r: Rule) -> Judged
    requires { (rule_fields r ≡ true) × (is_reference r ≡ true → (rule_fields q ≡ true) × ((is_key q || is_unique q) ≡ true)) × ((doc : Doc) × SurveyedOf doc records «of») }
    ensures { (doc : Doc) → (p : Rule) → SurveyedOf doc records.entry «of».entry → (is_reference r ≡ true → p ≡ q) → result.verdict ≡ judged doc p r }
{
    if records.kind.len() <= SMALL {
        return judge_in::<SMALL>(records, of, q, r);
    }
    judge_in::<LIMIT>(records, of, q, r)
}

// The same over the first n entries of the columns, with the survey of the document that they hold, which has so many versions.
pub fn judge_front(
    n: usize,
    records: Records,
    of: Surveyed,
    many: usize,
    q: Rule,
    r: Rule,
) -> Judged
    requires { (rule_fields r ≡ true) × (is_reference r ≡ true → (rule_fields q ≡ true) × ((is_key q || is_unique q) ≡ true)) × ((f : FrontsOf n records) × SurveyedFront f.doc n records «of» many) }
    ensures { (doc : Doc) → (p : Rule) → WholeFront doc n records.entry → SurveyedFront doc n records.entry «of».entry many → (is_reference r ≡ true → p ≡ q) → result.verdict ≡ judged doc p r }
{
    let front = Records {
        kind: &records.kind[0..n],
        vkind: &records.vkind[0..n],
        name: &records.name[0..n],
        parent: &records.parent[0..n],
        begin: &records.begin[0..n],
        end: &records.end[0..n],
        value: &records.value[0..n],
        item: &records.item[0..n],
    };
    let known = Surveyed {
        rep: of.rep,
        group: of.group,
        opens: &of.opens[0..many],
        closes: &of.closes[0..many],
    };
    judge_columns(front, known, q, r)
}
