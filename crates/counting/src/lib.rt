// The lowest offender of one window, for a non-sequenced cardinality rule.
#![tactic(auto)]

ghost use Rattle.std.specs.Prelude.{◌≡◌};
ghost use Rattle.meaning.specs.declared.Rule.{Rule};
ghost use Rattle.meaning.specs.Walk.{first};
ghost use Rattle.meaning.specs.Document.{Doc};
ghost use Rattle.meaning.specs.Window.{Window, shortened, meets, offends_in};
ghost use Rattle.counting.specs.Number.{Fresh};
ghost use Rattle.counting.specs.Ready.{ReadyAlong, Terms};

use columns::LIMIT;
use day::lent::{Stretch, Trail};
use numbers::index;

mod item; // item.rt: one item number in a window

// What a cardinality asks of an item number in a window: whether its values are counted, not its field versions, and the bounds of their number.
#[derive(Clone, Copy)]
pub struct Asked {
    pub distinct: bool,
    pub low: usize,
    pub high: usize,
}

// The lowest version that offends in a window; `done` marks the classes that were counted, and `seen` has a token for each value, none before.
// Cost: a look for each selected version, and a look for each field version of the item numbers of which one is present.
fn first_counted(
    trail: Trail,
    stretch: Stretch,
    group: &[u16],
    asked: Asked,
    done: &mut [u8],
    seen: &mut [u16],
) -> Option<usize>
    requires { (doc : Doc) × (r : Rule) × ReadyAlong doc r trail stretch group.now × Fresh doc.size done.old seen.old }
    ensures { (doc : Doc) (q r : Rule) (w : Window) → ReadyAlong doc r trail.entry stretch.entry group.now → Terms r (shortened w) asked.distinct asked.low asked.high → w.from ≡ stretch.entry.from → w.to ≡ stretch.entry.to → result ≡ first (offends_in doc (meets doc w) w q r) 0 doc.size }
{
    let mut v = trail.start;
    // a while: it follows links
    while v < stretch.begin.len() {
        if item::item_breaks(trail, stretch, group, asked, v, done, seen) {
            return Some(v);
        }
        v = index(trail.next[v]);
    }
    None
}

// The same, with marks and tokens of its own. Cost: a clear entry in both for each record, and that of the walk.
pub fn counting_in(trail: Trail, stretch: Stretch, group: &[u16], asked: Asked) -> Option<usize>
    requires { (doc : Doc) × (r : Rule) × ReadyAlong doc r trail stretch group.now }
    ensures { (doc : Doc) (q r : Rule) (w : Window) → ReadyAlong doc r trail.entry stretch.entry group.now → Terms r (shortened w) asked.distinct asked.low asked.high → w.from ≡ stretch.entry.from → w.to ≡ stretch.entry.to → result ≡ first (offends_in doc (meets doc w) w q r) 0 doc.size }
{
    let mut done = [0u8; LIMIT];
    let mut seen = [0u16; LIMIT];
    first_counted(trail, stretch, group, asked, &mut done, &mut seen)
}
