// The lowest version that has a nil, in a window; a day is a window of one day.
ghost use Rattle.std.specs.Prelude.{◌≡◌, ◌&&◌, not, ℕ, ◌≤◌, ◌<◌, eqb, length, get_or};
ghost use Rattle.meaning.specs.declared.Rule.{Rule};
ghost use Rattle.meaning.specs.Walk.{first};
ghost use Rattle.meaning.specs.Document.{Doc};
ghost use Rattle.meaning.specs.Select.{valued, present, has_nil};
ghost use Rattle.meaning.specs.Window.{Window, meets};
ghost use Rattle.meaning.specs.Block.{limit};
ghost use Rattle.columns.specs.Lent.{Lends};
ghost use Rattle.marks.specs.Marks.{marked};
ghost use Rattle.prepare.specs.Rows.{wants};
ghost use Rattle.day.specs.Along.{ReadyAlong};

use crate::first_missing;
use columns::LIMIT;
use day::lent::{Stretch, Trail};

// A mark on each record that has no nil. Cost: one pass.
fn known_marks(vkind: &[u8]) -> [u8; LIMIT]
    requires { length vkind.now ≤ limit }
    ensures { (length result ≡ limit) × ((y : ℕ) → y < length vkind.now → marked result y ≡ not (eqb (get_or vkind.now y 0) 3)) }
{
    let mut known = [0u8; LIMIT];
    for i in 0..vkind.len() {
        known[i] = u8::from(vkind[i] != 3);
    }
    known
}

// The lowest selected version that is present in a window with a nil. Cost: a mark for each record, then a look for each selected version,
// and one for each field version with a value of one that is present.
pub fn nil_in(trail: Trail, stretch: Stretch, vkind: &[u8]) -> Option<usize>
    requires { (doc : Doc) × (r : Rule) × ReadyAlong doc r trail stretch × Lends doc.size doc.vkind 0 vkind.now × (doc.size ≤ limit) }
    ensures { (doc : Doc) → (r : Rule) → (w : Window) → ReadyAlong doc r trail.entry stretch.entry → Lends doc.size doc.vkind 0 vkind.now → ((f : ℕ) → wants doc r f ≡ valued doc f) → w.from ≡ stretch.entry.from → w.to ≡ stretch.entry.to → result ≡ first (λ v. present doc (meets doc w) r v && has_nil doc (meets doc w) r v) 0 doc.size }
{
    let known = known_marks(vkind);
    first_missing(trail, stretch, &known)
}
