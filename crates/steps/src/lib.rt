// The lowest offender of one window, for a non-sequenced datatype rule: how far back a window must reach for each field version to offend,
// worked out once for the rule, and a walk over those that can offend.
#![tactic(auto)]

ghost use Rattle.std.specs.Prelude.{◌≡◌, false, ◌<◌, ◌≤◌, eqb, ltb, length, get_or};
ghost use Rattle.meaning.specs.declared.Rule.{Rule};
ghost use Rattle.meaning.specs.Walk.{first};
ghost use Rattle.meaning.specs.Document.{Doc};
ghost use Rattle.meaning.specs.Rules.{is_sequenced};
ghost use Rattle.meaning.specs.Window.{Window, meets, offends_in};
ghost use Rattle.meaning.specs.Block.{limit};
ghost use Rattle.columns.specs.Lent.{Periods};
ghost use Rattle.columns.specs.Judgeable.{Judgeable};
ghost use Rattle.marks.specs.Marks.{Marks};
ghost use Rattle.prepare.specs.Holders.{Skips};
ghost use Rattle.prepare.specs.Rows.{KnownOnly};
ghost use Rattle.steps.specs.Reaching.{Reaches, stepped};
ghost use Rattle.steps.specs.Places.{ClosingOf};

use columns::{LIMIT, Records};
use numbers::index;
use sweep::Course;

mod levels; // levels.rt: how high field versions stand in the stacks, and the bounds
mod places; // places.rt: chains along an order of the field versions, and what is read off at its places
mod spans; // spans.rt: how far apart the numbers of the rows lie
mod stacks; // stacks.rt: the last number before a place that lies below a bound
mod sweep; // sweep.rt: searches along an order of the field versions

// The day before which a window must begin for each record to offend, 0 where none can, by the versions in the order of their ends. Cost: four
// searches for each record, each of some two looks for each doubling of those under its item number, and a fixed number of passes over the
// records and the order.
fn reaches_sought(
    records: Records,
    key: &[u16],
    group: &[u16],
    closes: &[u16],
    low: i32,
    high: i32,
) -> [u16; LIMIT]
    requires { (doc : Doc) × (r : Rule) × ClosingOf doc r records key.now group.now closes.now × Judgeable doc }
    ensures { (doc : Doc) (r : Rule) → ClosingOf doc r records.entry key.now group.now closes.now → Judgeable doc → KnownOnly doc r → low ≡ r.low → high ≡ r.high → Reaches doc r result }
{
    let links = places::thread(key, group, closes, records.vkind.len());
    let last = links.last;
    let prior = links.lower;
    let past = places::lasts(key, group, &last, records.vkind.len());
    let whole = Course {
        order: closes,
        prior: &prior,
        start: &past,
    };
    let start = sweep::sought(levels::ENDS, records, whole, records.begin, low, high);
    let course = Course {
        order: closes,
        prior: &prior,
        start: &start,
    };
    sweep::settle(records, key, course, low, high)
}

// The same: no search is made where no two numbers with a row are a wrong step apart. Cost: two passes over the records, else one and that of the searches.
pub fn reaches_swept(
    records: Records,
    key: &[u16],
    group: &[u16],
    closes: &[u16],
    low: i32,
    high: i32,
) -> [u16; LIMIT]
    requires { (doc : Doc) × (r : Rule) × ClosingOf doc r records key.now group.now closes.now × Judgeable doc }
    ensures { (doc : Doc) (r : Rule) → ClosingOf doc r records.entry key.now group.now closes.now → Judgeable doc → KnownOnly doc r → low ≡ r.low → high ≡ r.high → Reaches doc r result }
{
    if spans::calm(key, records.vkind, records.value, low, high) {
        return places::unmoved(key, records.vkind);
    }
    reaches_sought(records, key, group, closes, low, high)
}

// A mark on each of n records that can offend at all. Cost: one pass over the records.
pub fn mark_reaching(reach: &[u16], n: usize) -> [u8; LIMIT]
    requires { (n ≤ limit) × (n ≤ length reach.now) }
    ensures { Marks (λ f. ltb 0 (get_or reach.now f 0)) n result }
{
    let mut marks = [0u8; LIMIT];
    for i in 0..n {
        marks[i] = u8::from(0 < reach[i]);
    }
    marks
}

// Whether record f shares a day with the window and its reach lies after the window's first day. Three looks.
fn offends_in(begin: &[u16], end: &[u16], reach: &[u16], from: usize, to: usize, f: usize) -> bool
    requires { (f < length begin.now) × (length begin.now ≤ length end.now) × (length begin.now ≤ length reach.now) }
    ensures { result ≡ stepped begin.now end.now reach.now from to f }
{
    (index(begin[f]) < to) & (from < index(end[f])) & (from < index(reach[f]))
}

// The lowest offender of the window that begins on day `from` and ends before day `to`. Cost: a look for each field version that can offend.
// Its parameters are no `Trail` and `Stretch` of crate `day`: it knows no rows and no representatives, and `day` is none of the crates below.
pub fn stepped_in<'a>(
    start: usize,
    next: &'a [u16],
    begin: &[u16],
    end: &[u16],
    reach: &'a [u16],
    from: usize,
    to: usize,
) -> Option<usize>
    requires rooms { (length begin.now ≤ length end.now) × (length begin.now ≤ length reach.now) }
    requires way { Skips (λ f. ltb 0 (get_or reach.now f 0)) (length begin.now) start next.now }
    ensures { (doc : Doc) (q r : Rule) (w : Window) → Periods doc begin.now end.now → Reaches doc r reach.now → Judgeable doc → is_sequenced r ≡ false → r.kind ≡ 5 → w.from ≡ from → w.to ≡ to → from ≤ 36524 → result ≡ first (offends_in doc (meets doc w) w q r) 0 doc.size }
{
    // a while: it follows links
    let mut f = start;
    while f < begin.len() {
        if offends_in(begin, end, reach, from, to, f) {
            return Some(f);
        }
        f = index(next[f]);
    }
    None
}
