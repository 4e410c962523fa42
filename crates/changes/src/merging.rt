// The change days of a rule, counted and stored along two orders of the versions: by begin and by end.
ghost use Rattle.std.specs.Prelude.{◌≡◌, true, ◌++◌, ℕ, ◌+◌, ◌-◌, ◌<◌, ◌≤◌, length, get_or, drop};
ghost use Rattle.meaning.specs.declared.Rule.{Rule};
ghost use Rattle.meaning.specs.Reading.{Accepted};
ghost use Rattle.meaning.specs.Walk.{pick};
ghost use Rattle.meaning.specs.Answer.{storing, lent_after};
ghost use Rattle.meaning.specs.Document.{Doc};
ghost use Rattle.meaning.specs.Day.{is_change};
ghost use Rattle.marks.specs.Marks.{after};
ghost use Rattle.changes.specs.Merging.{Walkable, read_by, turns_after, Turn, DayAt, Come};
ghost use Rattle.changes.specs.Walks.{Walks, MergesAlong};

use meaning::Refusal;
use numbers::index;

// Where a walk along the two orders stands: how many positions of each it has passed, and the day that it has come to.
#[derive(Clone, Copy)]
pub struct Place {
    pub begun: usize,
    pub ended: usize,
    pub day: u16,
}

// What a rule reads: a mark on each record that it reads by itself, and if it is a reference, on each that the rule it refers to reads.
#[derive(Clone, Copy)]
pub struct Read<'a> {
    pub own: &'a [u8],
    pub reference: bool,
    pub referred: &'a [u8],
}

// What a walk goes along: the versions by begin and by end, the days on which each begins and ends, and which of them are read.
#[derive(Clone, Copy)]
pub struct Walk<'a, 'b> {
    pub opens: &'a [u16],
    pub closes: &'a [u16],
    pub begin: &'a [u16],
    pub end: &'a [u16],
    pub read: Read<'b>,
}

// Whether the rule reads record x, by itself or, if it is a reference, by the rule that it refers to. Cost: one look, two for a reference.
fn is_read(read: Read, x: usize) -> bool
    requires { (x < length read.own.now) × (x < length read.referred.now) }
    ensures { result ≡ read_by read.entry.own.now read.entry.reference read.entry.referred.now x }
{
    if read.own[x] == 1 {
        return true;
    }
    if !read.reference {
        return false;
    }
    read.referred[x] == 1
}

// Whether record x is read and its day lies after `day`. Cost: a look at its marks and its day.
fn turns_after(days: &[u16], read: Read, day: u16, x: usize) -> bool
    requires { (x < length days.now) × (x < length read.own.now) × (x < length read.referred.now) }
    ensures { result ≡ turns_after days.now read.entry.own.now read.entry.reference read.entry.referred.now day x }
{
    if !is_read(read, x) {
        return false;
    }
    day < days[x]
}

// The first position of an order, from `from` on, whose record is read and has its day after `day`; the order's length where there is
// none. Cost: a look at each position passed over.
fn next_turn(order: &[u16], days: &[u16], read: Read, day: u16, from: usize) -> usize
    requires { Walkable order.now days.now read.own.now read.referred.now }
    ensures { Turn order.now days.now read.entry.own.now read.entry.reference read.entry.referred.now day from result }
{
    for i in from..order.len() {
        let x = index(order[i]);
        if turns_after(days, read, day, x) {
            return i;
        }
    }
    order.len()
}

// The day of position i of an order, `none` past its end.
fn day_at(order: &[u16], days: &[u16], i: usize, none: u16) -> u16
    requires { (j : ℕ) → j < length order.now → get_or order.now j 0 < length days.now }
    ensures { DayAt order.now days.now i none result }
{
    if order.len() <= i {
        return none;
    }
    let x = index(order[i]);
    days[x]
}

// From one change day to the next: the lesser of the next begin and the next end, or `past` where that is not below it. Cost: a look at
// each position passed over, and at two more.
fn next_change(walk: Walk, past: u16, at: Place) -> Place
    requires { Walks walk }
    ensures later { at.day < past → (at.day < result.day) × (result.day ≤ past) }
    ensures next { (doc : Doc) → (q r : Rule) → MergesAlong doc q r walk.entry → Come doc q r walk.entry.opens.now walk.entry.closes.now at.begun at.ended at.day → at.day < past → Come doc q r walk.entry.opens.now walk.entry.closes.now result.begun result.ended result.day × (result.day ≡ after (is_change doc q r) (at.day + 1) past) }
{
    let day = at.day;
    let begun = next_turn(walk.opens, walk.begin, walk.read, day, at.begun);
    let ended = next_turn(walk.closes, walk.end, walk.read, day, at.ended);
    let opened = day_at(walk.opens, walk.begin, begun, past);
    let closed = day_at(walk.closes, walk.end, ended, past);
    let turned = opened.min(closed);
    Place {
        begun,
        ended,
        day: turned.min(past),
    }
}

// How many change days a rule has from its period's first day on and before day `past`. Cost: a look at each position of both orders, and two
// more for each change day.
pub fn count_changes(walk: Walk, first: u16, past: u16) -> usize
    requires { Walks walk × (first < past) }
    ensures { (doc : Doc) → (q r : Rule) → MergesAlong doc q r walk.entry → first ≡ r.begin → result ≡ length (pick (is_change doc q r) first (past - first)) }
{
    let mut n: usize = 0;
    let mut at = Place {
        begun: 0,
        ended: 0,
        day: first,
    };
    // a while: it goes from one change day to the next, as `next_change` finds them
    while at.day < past {
        n += 1;
        at = next_change(walk, past, at);
    }
    n
}

// Stores the change days of a rule, of which there are n, ascending, at the front of a list that has room. Cost: as for the count.
fn list_changes(walk: Walk, first: u16, past: u16, n: usize, out: &mut [u16])
    requires { Walks walk × (first < past) × (n ≤ length out.old) }
    ensures { (doc : Doc) → (q r : Rule) → MergesAlong doc q r walk.entry → first ≡ r.begin → n ≡ length (pick (is_change doc q r) first (past - first)) → out.new ≡ pick (is_change doc q r) first (past - first) ++ drop (length (pick (is_change doc q r) first (past - first))) out.old }
{
    let mut at = Place {
        begun: 0,
        ended: 0,
        day: first,
    };
    for k in 0..n {
        out[k] = at.day;
        at = next_change(walk, past, at);
    }
}

// The change days of a rule, stored: 12 where the list is too short, and then nothing is stored. Cost: twice that of the count.
pub fn store_changes(walk: Walk, first: u16, past: u16, out: &mut [u16]) -> Result<usize, Refusal>
    requires { Walks walk × (first < past) }
    ensures answer { (doc : Doc) → (q r : Rule) → MergesAlong doc q r walk.entry → first ≡ r.begin → result ≡ storing Accepted (pick (is_change doc q r) first (past - first)) out.old }
    ensures lent { (doc : Doc) → (q r : Rule) → MergesAlong doc q r walk.entry → first ≡ r.begin → out.new ≡ lent_after result (pick (is_change doc q r) first (past - first)) out.old }
{
    let n = count_changes(walk, first, past);
    if out.len() < n {
        return Err(Refusal {
            number: 12,
            place: 0,
        });
    }
    list_changes(walk, first, past, n, out);
    Ok(n)
}
