// The lowest offender of one window, for a non-sequenced rule of any kind, nils that a key or a reference does not take aside; and the lists that it is
// worked out from.
#![tactic(auto)]

ghost use Rattle.std.specs.Prelude.{◌≡◌, true, false, cond, ◌≤◌};
ghost use Rattle.meaning.specs.declared.Rule.{Rule};
ghost use Rattle.meaning.specs.Document.{Doc};
ghost use Rattle.meaning.specs.Rules.{is_sequenced, rule_fields};
ghost use Rattle.meaning.specs.Window.{Window, shortened, offender_in};
ghost use Rattle.prepare.specs.Spoiling.{AsideIn};
ghost use Rattle.counting.specs.Ready.{ReadyAlong};
ghost use Rattle.window.specs.Settled.{Settled};

use counting::Asked;
use day::lent::{Stretch, Trail};
use layout::Layout;
use meaning::Rule;
use places::Place;
use prepare::Prepared;

pub mod layout; // layout.rt: the lists of a rule

// The minimum that is asked at a place: none, that is 0, where the window is shortened. Cost: none.
fn asked(shortened: bool, low: usize) -> usize
    ensures { result ≡ cond shortened 0 low }
{
    if shortened {
        return 0;
    }
    low
}

// The lowest offender of a cardinality in a window, which may be a shortened one. Cost: that of the walk.
fn counted_at(trail: Trail, stretch: Stretch, group: &[u16], r: Rule, short: bool) -> Option<usize>
    requires { (rule_fields r ≡ true) × (r.kind ≡ 4) × ((doc : Doc) × ReadyAlong doc r trail stretch group.now) }
    ensures { (doc : Doc) → (q : Rule) → (w : Window) → ReadyAlong doc r trail.entry stretch.entry group.now → w.from ≡ stretch.entry.from → w.to ≡ stretch.entry.to → shortened w ≡ short → result ≡ offender_in doc q r w }
{
    let bounds = day::terms::terms(r);
    let asked = Asked {
        distinct: r.distinct == 1,
        low: asked(short, bounds.low),
        high: bounds.high,
    };
    counting::counting_in(trail, stretch, group, asked)
}

// The lowest offender of a non-sequenced rule, whose lists are laid out, at a place, which is a window, nils aside; `held` is the rule that it refers to,
// prepared, if it is a reference. Cost: that of the one walk that the rule's kind asks for.
pub fn offender_at(
    laid: Layout,
    held: Prepared,
    begin: &[u16],
    end: &[u16],
    rep: &[u16],
    group: &[u16],
    r: Rule,
    here: Place,
) -> Option<usize>
    requires { (rule_fields r ≡ true) × (is_sequenced r ≡ false) × (here.from ≤ 36524) × ((doc : Doc) × (q : Rule) × Settled doc q r laid held begin.now end.now rep.now group.now) }
    ensures { (doc : Doc) → (q : Rule) → (w : Window) → Settled doc q r laid held begin.now end.now rep.now group.now → w.from ≡ here.from → w.to ≡ here.to → shortened w ≡ here.shortened → AsideIn doc w q r result }
{
    let from = here.from;
    let to = here.to;
    let trail = Trail::from(&laid);
    let stretch = Stretch {
        begin,
        end,
        rep,
        from,
        to,
    };
    if r.kind == 4 {
        return counted_at(trail, stretch, group, r, here.shortened);
    }
    if r.kind == 5 {
        return steps::stepped_in(laid.start, &laid.next, begin, end, &laid.last, from, to);
    }
    if r.kind == 3 {
        return sharing::missing_in(trail, Trail::from(&held), stretch);
    }
    sharing::shared_in(trail, stretch, group, r.kind == 1)
}
