// The lowest offender of one window, for a non-sequenced key, unique or reference rule, nils aside; and the lowest version that has a nil.
#![tactic(auto)]

ghost use Rattle.std.specs.Prelude.{◌≡◌, ◌⊎◌, true, false, ℕ, ◌≤◌, length};
ghost use Rattle.meaning.specs.declared.Rule.{Rule};
ghost use Rattle.meaning.specs.Walk.{any, first};
ghost use Rattle.meaning.specs.Document.{Doc};
ghost use Rattle.meaning.specs.Rules.{is_sequenced};
ghost use Rattle.meaning.specs.Select.{selected};
ghost use Rattle.meaning.specs.Window.{Window};
ghost use Rattle.meaning.specs.Block.{limit};
ghost use Rattle.marks.specs.Marks.{marked};
ghost use Rattle.prepare.specs.Rows.{in_row};
ghost use Rattle.prepare.specs.Spoiling.{AsideIn};
ghost use Rattle.day.specs.Ready.{Clear};
ghost use Rattle.day.specs.Along.{size, there, stands, ReadyAlong, ReferredAlong};
ghost use Rattle.groups.specs.Groups.{Groups};
ghost use Rattle.sharing.specs.Row.{Unowned};
ghost use Rattle.sharing.specs.Table.{holder, row_misses};

use columns::LIMIT;
use day::lent::{Stretch, Trail};
use numbers::index;

pub mod nils; // nils.rt: the lowest version with a nil
mod row; // row.rt: one row of a rule in a window

// The lowest version that offends a key, which needs a value, or a unique rule in a window, nils aside; `owner` has for each value the class of
// its holders met, counted from one, and none before.
// Cost: a look for each selected version, and one for each field version with a value of one that is present.
fn first_shared(
    trail: Trail,
    stretch: Stretch,
    group: &[u16],
    needy: bool,
    owner: &mut [u16],
) -> Option<usize>
    requires { (doc : Doc) × (r : Rule) × ReadyAlong doc r trail stretch × Groups doc group.now × (doc.size ≤ limit) × Unowned doc.size owner.old }
    ensures { (doc : Doc) → (q r : Rule) → (w : Window) → ReadyAlong doc r trail.entry stretch.entry → Groups doc group.now → is_sequenced r ≡ false → w.from ≡ stretch.entry.from → w.to ≡ stretch.entry.to → (((r.kind ≡ 1) × (needy ≡ true)) ⊎ ((r.kind ≡ 2) × (needy ≡ false))) → AsideIn doc w q r result }
{
    let mut v = trail.start;
    // a while: it follows links
    while v < stretch.begin.len() {
        if row::row_shares(trail, stretch, group, needy, v, owner) {
            return Some(v);
        }
        v = index(trail.next[v]);
    }
    None
}

// The same, with holders of its own. Cost: a clear entry for each record, and that of the walk.
pub fn shared_in(trail: Trail, stretch: Stretch, group: &[u16], needy: bool) -> Option<usize>
    requires { (doc : Doc) × (r : Rule) × ReadyAlong doc r trail stretch × Groups doc group.now × (doc.size ≤ limit) }
    ensures { (doc : Doc) → (q r : Rule) → (w : Window) → ReadyAlong doc r trail.entry stretch.entry → Groups doc group.now → is_sequenced r ≡ false → w.from ≡ stretch.entry.from → w.to ≡ stretch.entry.to → (((r.kind ≡ 1) × (needy ≡ true)) ⊎ ((r.kind ≡ 2) × (needy ≡ false))) → AsideIn doc w q r result }
{
    let mut owner = [0u16; LIMIT];
    first_shared(trail, stretch, group, needy, &mut owner)
}

// Marks every value of the present rows. Not one with that of `day`, which marks the value of a row that has one only: what is asked of a row and left by it
// differs, and a walk over both would need a trait with the law of a row, for a loop of two lines. Cost: a look for each selected version, and one for each field version with a value of one that is present.
fn mark_rows(trail: Trail, stretch: Stretch, seen: &mut [u8])
    requires { (doc : Doc) × (r : Rule) × ReadyAlong doc r trail stretch × Clear doc.size seen.old }
    ensures { (doc : Doc) → (r : Rule) → ReadyAlong doc r trail.entry stretch.entry → (y : ℕ) → marked seen.new y ≡ any (holder (there stretch.entry) (size stretch.entry) (stands stretch.entry) (selected doc r) (in_row doc r) y) 0 (size stretch.entry) }
{
    let mut v = trail.start;
    // a while: it follows links
    while v < stretch.begin.len() {
        row::mark_row(trail, stretch, v, seen);
        v = index(trail.next[v]);
    }
}

// The lowest present version with a value that is not marked. Cost: a look for each selected version, and one for each field version with a value of one that is present.
fn first_missing(trail: Trail, stretch: Stretch, seen: &[u8]) -> Option<usize>
    requires { (doc : Doc) × (r : Rule) × ReadyAlong doc r trail stretch × (doc.size ≤ length seen.now) }
    ensures { (doc : Doc) → (r : Rule) → ReadyAlong doc r trail.entry stretch.entry → result ≡ first (row_misses (there stretch.entry) (size stretch.entry) (stands stretch.entry) (selected doc r) (in_row doc r) (marked seen.now)) 0 (size stretch.entry) }
{
    let mut v = trail.start;
    // a while: it follows links
    while v < stretch.begin.len() {
        if row::row_misses(trail, stretch, v, seen) {
            return Some(v);
        }
        v = index(trail.next[v]);
    }
    None
}

// The lowest version that offends a reference in a window, nils aside. Cost: a clear mark for each record, then a look for each selected version,
// and one for each field version with a value of one that is present, of this rule and of the one that it refers to.
pub fn missing_in(own: Trail, held: Trail, stretch: Stretch) -> Option<usize>
    requires { (doc : Doc) × (r : Rule) × (p : Rule) × ReadyAlong doc r own stretch × ReadyAlong doc p held stretch × (doc.size ≤ limit) }
    ensures { (doc : Doc) → (q r : Rule) → (w : Window) → ReadyAlong doc r own.entry stretch.entry → ReferredAlong doc q held.entry stretch.entry → is_sequenced r ≡ false → r.kind ≡ 3 → w.from ≡ stretch.entry.from → w.to ≡ stretch.entry.to → AsideIn doc w q r result }
{
    let mut seen = [0u8; LIMIT];
    mark_rows(held, stretch, &mut seen);
    first_missing(own, stretch, &seen)
}
