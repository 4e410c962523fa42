// 9: the lowest item that has the number of a lower one, and another name or a shared day. Only items of one key are compared, and
// only versions of items of one number: `past_j`, `past_u` and `past_v` are one past a record of a chain, and 0 at its end.
ghost use Rattle.std.specs.Prelude.{◌≡◌, [], ◌∷◌, ◌<◌, ◌≤◌, length, get_or};
ghost use Rattle.meaning.specs.Walk.{first};
ghost use Rattle.meaning.specs.Document.{columns};
ghost use Rattle.meaning.specs.Nodes.{share_day, overlap, clash, clashes};
ghost use Rattle.document.specs.Level.{Level, PeriodsLevel, NumbersLevel};
ghost use Rattle.document.specs.Steady.{periods_in};
ghost use Rattle.document.specs.Threads.{Threaded};
ghost use Rattle.meaning.specs.Block.{limit};
ghost use Rattle.columns.specs.Chains.{Twins};
ghost use Rattle.twins.specs.Clear.{Clear, unvalued};
ghost use Rattle.document.specs.Meet.{meets_item};

use columns::Records;
use columns::chains::{buckets, chain};
use numbers::index;
use twins::clear_below;

// The records, and the chains of their versions by item: from an item to the last, and from each to the next lower one, counted from one.
#[derive(Clone, Copy)]
struct Threads<'a> {
    records: Records<'a>,
    last: &'a [u16],
    lower: &'a [u16],
}

// Whether versions u and v share a day.
fn share_day(begin: &[u16], end: &[u16], u: usize, v: usize) -> bool
    requires { Level begin.now (end.now ∷ []) × (u < length begin.now) × (v < length begin.now) }
    ensures { result ≡ share_day (columns [] [] [] [] begin.now end.now [] [] []) u v }
{
    (begin[u] < end[v]) & (begin[v] < end[u])
}

// Whether some version of item i shares a day with version u. A look for each version of i.
fn meets_item(of: Threads, i: usize, u: usize) -> bool
    requires { PeriodsLevel of.records × (i < length of.records.kind.now) × (u < length of.records.kind.now) × Threaded of }
    ensures { result ≡ meets_item (periods_in of.entry.records) i u }
{
    let mut past_v = index(of.last[i]);
    // a while: it follows the links of the chain
    while 0 < past_v {
        if share_day(of.records.begin, of.records.end, u, past_v - 1) {
            return true;
        }
        past_v = index(of.lower[past_v - 1]);
    }
    false
}

// Whether some version of item j shares a day with one of item i. A look for each pair of their versions.
fn overlaps(of: Threads, i: usize, j: usize) -> bool
    requires { PeriodsLevel of.records × (i < length of.records.kind.now) × (j < length of.records.kind.now) × Threaded of }
    ensures { result ≡ overlap (periods_in of.entry.records) i j }
{
    let mut past_u = index(of.last[j]);
    // a while: it follows the links of the chain
    while 0 < past_u {
        if meets_item(of, i, past_u - 1) {
            return true;
        }
        past_u = index(of.lower[past_u - 1]);
    }
    false
}

// Whether item i clashes with item j. Most pairs differ in their numbers, so these come first, then the names, then the days.
fn clashes_with(of: Threads, i: usize, j: usize) -> bool
    requires { NumbersLevel of.records × (i < length of.records.kind.now) × (j < length of.records.kind.now) × (get_or of.records.kind.now j 0 ≡ 1) × Threaded of }
    ensures { result ≡ clash (unvalued of.entry.records) i j }
{
    if of.records.item[j] != of.records.item[i] {
        return false;
    }
    if of.records.name[j] != of.records.name[i] {
        return true;
    }
    overlaps(of, i, j)
}

// Whether record i is an item that clashes with a lower one. A look for each lower item of its key.
fn clashes_lower(of: Threads, twin: &[u16], i: usize) -> bool
    requires { NumbersLevel of.records × (i < length of.records.kind.now) × Threaded of × Twins (unvalued of.records) twin.now }
    ensures { result ≡ clashes (unvalued of.entry.records) i }
{
    if of.records.kind[i] != 1 {
        return false;
    }
    let mut past_j = index(twin[i]);
    // a while: it follows the links of the chain
    while 0 < past_j {
        if clashes_with(of, i, past_j - 1) {
            return true;
        }
        past_j = index(twin[past_j - 1]);
    }
    false
}

// The lowest item that clashes with a lower one, by the chains of versions and of items.
fn first_chained(of: Threads, twin: &[u16]) -> Option<usize>
    requires { NumbersLevel of.records × Threaded of × Twins (unvalued of.records) twin.now }
    ensures { result ≡ first (clashes (unvalued of.entry.records)) 0 (length of.entry.records.kind.now) }
{
    for i in 0..of.records.kind.len() {
        if clashes_lower(of, twin, i) {
            return Some(i);
        }
    }
    None
}

// The lowest item that clashes with a lower one, where none below i does: i, if it clashes. If it does not, which is so in no document that has passed
// 5 and 7, every item is looked at. Cost: a pass over the columns, and a look for each pair of a version of i and one of a lower item of its number.
fn first_from(records: Records<'_>, twin: &[u16], i: usize) -> Option<usize>
    requires { (length records.kind.now ≤ limit) × NumbersLevel records × (i < length records.kind.now) × Twins (unvalued records) twin.now × Clear (unvalued records) i }
    ensures { result ≡ first (clashes (unvalued records.entry)) 0 (length records.entry.kind.now) }
{
    let versions = chain(records.kind, records.parent, 2);
    let of = Threads {
        records,
        last: &versions.last,
        lower: &versions.lower,
    };
    if clashes_lower(of, twin, i) {
        return Some(i);
    }
    first_chained(of, twin)
}

// The lowest item that clashes with a lower one. Numbers, then names, then days are looked at in passes (`clear_below`), and pairs only of the item
// at which these find something amiss.
// Cost: two passes over the columns and those of `clear_below`; where an item clashes, that of `first_from`. Counts are in docs/COST.md.
pub fn first_clash(records: Records<'_>) -> Option<usize>
    requires { (length records.kind.now ≤ limit) × NumbersLevel records }
    ensures { result ≡ first (clashes (unvalued records.entry)) 0 (length records.entry.kind.now) }
{
    let key = buckets(records.item);
    let items = chain(records.kind, &key, 1);
    let twin = items.lower;
    let clear = clear_below(records, &twin);
    if clear == records.kind.len() {
        return None;
    }
    first_from(records, &twin, clear)
}
