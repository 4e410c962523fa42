// The walk over a rule's places, days or windows alike, from one of them on: the first that has an offender, with its lowest one.
ghost use Rattle.std.specs.Prelude.{◌≡◌, Bool, true, false, ◌||◌, ℕ, ◌≤◌};
ghost use Rattle.calendar.specs.Entries.{MonthTable};
ghost use Rattle.meaning.specs.declared.Rule.{Rule};
ghost use Rattle.meaning.specs.Walk.{first};
ghost use Rattle.meaning.specs.Document.{Doc};
ghost use Rattle.meaning.specs.Rules.{is_key, is_unique, is_reference, is_sequenced, rule_fields};
ghost use Rattle.meaning.specs.Window.{meets};
ghost use Rattle.values.specs.Represents.{Represents};
ghost use Rattle.prepare.specs.Rows.{Rows};
ghost use Rattle.prepare.specs.Spoiling.{spoils, Aside};
ghost use Rattle.places.specs.declared.Places.{Places};
ghost use Rattle.places.specs.Placing.{window_at, Counted, Placed};
ghost use Rattle.window.specs.Spread.{Spread};
ghost use Rattle.judging.specs.Knowing.{KnownOf};
ghost use Rattle.soonest.specs.Soon.{offends_at};
ghost use Rattle.judging.specs.Armed.{NillingOf, ArmedOf};
ghost use Rattle.judging.specs.Stopping.{offender_at, Stands, Stopped};

use columns::Records;
use day::lent::{Stretch, Trail};
use meaning::Rule;
use places::{Place, Places};
use prepare::Prepared;
use soonest::Surveyed;
use window::layout::Layout;

// Where a walk stopped, with the lowest offender there.
#[derive(Clone, Copy)]
pub struct Stop {
    pub here: Place,
    pub version: usize,
}

// What a walk has at hand: the rule prepared, its lists laid out for windows, and the rule that it refers to, prepared.
#[derive(Clone, Copy)]
pub struct Arms {
    pub own: Prepared,
    pub laid: Layout,
    pub held: Prepared,
}

// The lower of two records that were looked for.
fn lower(a: Option<usize>, b: Option<usize>) -> Option<usize>
    ensures { (f g h : ℕ → Bool) → (n : ℕ) → a ≡ first f 0 n → b ≡ first g 0 n → ((v : ℕ) → h v ≡ (f v || g v)) → result ≡ first h 0 n }
{
    let Some(u) = a else {
        return b;
    };
    let Some(v) = b else {
        return a;
    };
    if u < v {
        return a;
    }
    b
}

// The lowest version at one place that has a nil, if the rule, a key or a reference, takes none. Cost: a look for each selected version, and one for
// each field version with a value of one that is present.
fn spoilt_at(own: Prepared, records: Records, of: Surveyed, r: Rule, here: Place) -> Option<usize>
    requires { (doc : Doc) × Rows doc r own.start own.next own.last own.lower × NillingOf doc records «of» }
    ensures { (doc : Doc) → (at : Places) → Rows doc r own.start own.next own.last own.lower → NillingOf doc records.entry «of».entry → Stands at here → result ≡ first (spoils doc (meets doc (window_at at here.number)) r) 0 doc.size }
{
    if !((r.kind == 1) | (r.kind == 3)) {
        return None;
    }
    let stretch = Stretch {
        begin: records.begin,
        end: records.end,
        rep: of.rep,
        from: here.from,
        to: here.to,
    };
    sharing::nils::nil_in(Trail::from(&own), stretch, records.vkind)
}

// The lowest offender of a prepared rule at one place, on a day or in a window as the rule says, nils aside. Cost: that of the look.
fn aside_at(arms: Arms, records: Records, of: Surveyed, r: Rule, here: Place) -> Option<usize>
    requires { (rule_fields r ≡ true) × (here.from ≤ 36524) × ((doc : Doc) × (q : Rule) × ArmedOf doc q r arms records «of») }
    ensures { (doc : Doc) → (q : Rule) → (at : Places) → ArmedOf doc q r arms records.entry «of».entry → Placed r at → Counted at → Stands at here → Aside doc (meets doc (window_at at here.number)) r (offends_at doc (window_at at here.number) q r) result }
{
    if r.windowed == 0 {
        return day::offender_at(
            arms.own,
            arms.held,
            records.begin,
            records.end,
            of.rep,
            r,
            here,
        );
    }
    window::offender_at(
        arms.laid,
        arms.held,
        records.begin,
        records.end,
        of.rep,
        of.group,
        r,
        here,
    )
}

// The lowest offender of a prepared rule at one place: the lowest that a nil spoils, or that offends otherwise. Cost: that of both looks.
fn offender_at(arms: Arms, records: Records, of: Surveyed, r: Rule, here: Place) -> Option<usize>
    requires { (rule_fields r ≡ true) × (here.from ≤ 36524) × ((doc : Doc) × (q : Rule) × ArmedOf doc q r arms records «of») }
    ensures { (doc : Doc) → (q : Rule) → (at : Places) → ArmedOf doc q r arms records.entry «of».entry → Placed r at → Counted at → Stands at here → result ≡ offender_at doc q r (window_at at here.number) }
{
    let spoilt = spoilt_at(arms.own, records, of, r, here);
    let other = aside_at(arms, records, of, r, here);
    lower(other, spoilt)
}

// The first of a prepared rule's places, from number `first` on, that has an offender. Cost: a look at each place up to it.
fn walk(
    arms: Arms,
    records: Records,
    of: Surveyed,
    table: &[u16; 1201],
    at: Places,
    first: usize,
    r: Rule,
) -> Option<Stop>
    requires { MonthTable table.now × (rule_fields r ≡ true) × Placed r at × Counted at × ((doc : Doc) × (q : Rule) × ArmedOf doc q r arms records «of») }
    ensures { (doc : Doc) → (q : Rule) → ArmedOf doc q r arms records.entry «of».entry → Stopped doc q r at first result }
{
    for k in first..at.count {
        let here = places::place_at(table, at, k);
        if let Some(version) = offender_at(arms, records, of, r, here) {
            return Some(Stop { here, version });
        }
    }
    None
}

// The lists of a prepared rule as they are laid out for windows; its own rows for a sequenced rule, which has none. Cost: that of the layout.
fn lay(records: Records, of: Surveyed, own: Prepared, r: Rule) -> Layout
    requires { (rule_fields r ≡ true) × ((doc : Doc) × KnownOf doc records «of») }
    ensures { (doc : Doc) → KnownOf doc records.entry «of».entry → is_sequenced r ≡ false → Rows doc r own.start own.next own.last own.lower → Spread doc r result.start result.next result.last result.lower «of».entry.group.now }
{
    if r.windowed == 0 {
        let next = own.next;
        let last = own.last;
        let lower = own.lower;
        return Layout {
            start: own.start,
            next,
            last,
            lower,
        };
    }
    window::layout::lay_out(records, of.group, of.closes, own, r)
}

// The first place of rule r, which refers to q if it is a reference, from number `first` on, that has an offender. Cost: none where there are no
// more places; else preparing the rule and the rule that it refers to, its layout, and the walk.
pub fn stop_from(
    records: Records,
    of: Surveyed,
    table: &[u16; 1201],
    at: Places,
    first: usize,
    q: Rule,
    r: Rule,
) -> Option<Stop>
    requires { MonthTable table.now × (rule_fields r ≡ true) × Placed r at × Counted at × (is_reference r ≡ true → (rule_fields q ≡ true) × ((is_key q || is_unique q) ≡ true)) × ((doc : Doc) × KnownOf doc records «of» × Represents doc «of».rep.now) }
    ensures { (doc : Doc) → (p : Rule) → KnownOf doc records.entry «of».entry → Represents doc «of».entry.rep.now → (is_reference r ≡ true → p ≡ q) → Stopped doc p r at first result }
{
    if at.count <= first {
        return None;
    }
    let own = prepare::prepare(records, r);
    let held = prepare::prepare_referred(records, own, q, r);
    let laid = lay(records, of, own, r);
    walk(Arms { own, laid, held }, records, of, table, at, first, r)
}
