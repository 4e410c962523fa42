// The slice of a day, the long way from the root down: an item looks for its one current version, a version looks at each of its items.
// `past` and `past_j` are one past a record of a chain, and 0 at its end.
#![tactic(auto)]

ghost use Rattle.std.specs.Prelude.{◌≡◌, ◌&&◌, ◌||◌, ℕ, ◌-◌, ◌<◌, ◌≤◌, leb, ltb, length, take};
ghost use Rattle.meaning.specs.Reading.{Accepted};
ghost use Rattle.meaning.specs.Block.{limit};
ghost use Rattle.meaning.specs.Walk.{any};
ghost use Rattle.meaning.specs.Document.{Doc};
ghost use Rattle.meaning.specs.Day.{present_on, slice};
ghost use Rattle.meaning.specs.Answer.{storing, lent_after};
ghost use Rattle.columns.specs.Chains.{past_last};
ghost use Rattle.columns.specs.Lent.{Lends, Periods, PeriodsOf};
ghost use Rattle.columns.specs.Judgeable.{Judgeable};
ghost use Rattle.marks.specs.Marks.{marked, Marks};
ghost use Rattle.descent.specs.Descent.{current_of, item_in, comes, Single};
ghost use Rattle.descent.specs.Links.{Links};

use columns::chains::chain;
use columns::{LIMIT, Records};
use meaning::Refusal;
use numbers::index;

// The most items on a way from the root down to a version.
const DEEPEST: usize = 8;

// Whether a period has day d.
fn lasts(begin: u16, end: u16, d: u16) -> bool
    ensures { result ≡ (leb begin d && ltb d end) }
{
    (begin <= d) & (d < end)
}

// The chains of a document and its periods: the versions of each item and the items in each version, from the last down, and the days on which
// each version begins and ends.
#[derive(Clone, Copy)]
pub struct Chains<'a> {
    pub version_last: &'a [u16],
    pub version_lower: &'a [u16],
    pub item_last: &'a [u16],
    pub item_lower: &'a [u16],
    pub begin: &'a [u16],
    pub end: &'a [u16],
}

// One past the current version of item i on day d, 0 where it has none. Cost: a look for each version of i.
fn current(chains: Chains, d: u16, i: usize) -> usize
    requires { (i < limit) × ((doc : Doc) × Links doc chains) }
    ensures { (doc : Doc) → Links doc chains.entry → result ≡ past_last (current_of doc d i) doc.size }
{
    let mut past = index(chains.version_last[i]);
    // a while: it follows links
    while 0 < past {
        if lasts(chains.begin[past - 1], chains.end[past - 1], d) {
            return past;
        }
        past = index(chains.version_lower[past - 1]);
    }
    0
}

// Marks the versions that are come to from item i in at most so many levels.
// Cost: a look for each version of each item come to, and for each item in a version come to.
#[cycle(look_item_look_version)]
fn look_item(chains: Chains, d: u16, levels: usize, i: usize, seen: &mut [u8])
    requires { (i < limit) × (limit ≤ length seen.old) × ((doc : Doc) × Links doc chains) }
    ensures { (doc : Doc) → Links doc chains.entry → (w : ℕ) → marked seen.new w ≡ (marked seen.old w || comes doc d levels i w) }
{
    if levels == 0 {
        return;
    }
    let past = current(chains, d, i);
    if past == 0 {
        return;
    }
    seen[past - 1] = 1;
    look_version(chains, d, levels - 1, past - 1, seen);
}

// Marks the versions that are come to from the items in version v, in at most so many levels from each.
// Cost: as of `look_item`, for each item in v.
#[cycle(look_item_look_version)]
fn look_version(chains: Chains, d: u16, levels: usize, v: usize, seen: &mut [u8])
    requires { (v < limit) × (limit ≤ length seen.old) × ((doc : Doc) × Links doc chains) }
    ensures { (doc : Doc) → Links doc chains.entry → (w : ℕ) → marked seen.new w ≡ (marked seen.old w || any (λ j. item_in doc v j && comes doc d levels j w) 0 doc.size) }
{
    let mut past_j = index(chains.item_last[v]);
    // a while: it follows links
    while 0 < past_j {
        look_item(chains, d, levels, past_j - 1, seen);
        past_j = index(chains.item_lower[past_j - 1]);
    }
}

// Marks on the versions present on day d, found from the root down.
// Cost: an array to clear, and a look for each version of each item come to: no more than one for each record.
pub fn present_on(chains: Chains, d: u16) -> [u8; LIMIT]
    requires { (doc : Doc) × Links doc chains }
    ensures { (doc : Doc) → Links doc chains.entry → Marks (present_on doc d) doc.size result }
{
    let mut seen = [0u8; LIMIT];
    look_item(chains, d, DEEPEST, 0, &mut seen);
    seen
}

// The slice of day d, into a lent list. Cost: a pass over the columns for each chain, the descent, and two looks at each record.
pub fn slice_columns(records: Records<'_>, d: u16, out: &mut [u16]) -> Result<usize, Refusal>
    requires { (doc : Doc) × Lends doc.size doc.kind 0 records.kind.now × Lends doc.size doc.parent 0 records.parent.now × PeriodsOf doc records × Judgeable doc × Single doc }
    ensures answer { (doc : Doc) → Lends doc.size doc.kind 0 records.entry.kind.now → Lends doc.size doc.parent 0 records.entry.parent.now → PeriodsOf doc records.entry → Judgeable doc → Single doc → result ≡ storing Accepted (slice doc d) out.old }
    ensures lent { (doc : Doc) → Lends doc.size doc.kind 0 records.entry.kind.now → Lends doc.size doc.parent 0 records.entry.parent.now → PeriodsOf doc records.entry → Judgeable doc → Single doc → out.new ≡ lent_after result (slice doc d) out.old }
{
    let versions = chain(records.kind, records.parent, 2);
    let items = chain(records.kind, records.parent, 1);
    let chains = Chains {
        version_last: &versions.last,
        version_lower: &versions.lower,
        item_last: &items.last,
        item_lower: &items.lower,
        begin: records.begin,
        end: records.end,
    };
    let seen = present_on(chains, d);
    marks::store_marked(&seen, 0, records.kind.len(), out)
}

// The same over the first n entries of the columns.
pub fn slice_front(
    n: usize,
    records: Records<'_>,
    d: u16,
    out: &mut [u16],
) -> Result<usize, Refusal>
    requires { (n ≤ length records.kind.now) × (n ≤ length records.parent.now) × (n ≤ length records.begin.now) × (n ≤ length records.end.now) × ((doc : Doc) × Lends doc.size doc.kind 0 (take (n - 0) records.kind.now) × Lends doc.size doc.parent 0 (take (n - 0) records.parent.now) × Periods doc (take (n - 0) records.begin.now) (take (n - 0) records.end.now) × Judgeable doc × Single doc) }
    ensures answer { (doc : Doc) → Lends doc.size doc.kind 0 (take (n - 0) records.entry.kind.now) → Lends doc.size doc.parent 0 (take (n - 0) records.entry.parent.now) → Periods doc (take (n - 0) records.entry.begin.now) (take (n - 0) records.entry.end.now) → Judgeable doc → Single doc → result ≡ storing Accepted (slice doc d) out.old }
    ensures lent { (doc : Doc) → Lends doc.size doc.kind 0 (take (n - 0) records.entry.kind.now) → Lends doc.size doc.parent 0 (take (n - 0) records.entry.parent.now) → Periods doc (take (n - 0) records.entry.begin.now) (take (n - 0) records.entry.end.now) → Judgeable doc → Single doc → out.new ≡ lent_after result (slice doc d) out.old }
{
    let front = Records {
        kind: &records.kind[0..n],
        parent: &records.parent[0..n],
        begin: &records.begin[0..n],
        end: &records.end[0..n],
        ..records
    };
    slice_columns(front, d, out)
}
