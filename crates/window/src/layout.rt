// The lists from which the offenders of a rule's windows are worked out, laid out once for the rule.
ghost use Rattle.std.specs.Prelude.{◌≡◌, true, false, ◌≤◌, length};
ghost use Rattle.meaning.specs.Block.{limit};
ghost use Rattle.meaning.specs.Document.{Doc, is_version};
ghost use Rattle.meaning.specs.Rules.{is_sequenced, rule_fields};
ghost use Rattle.columns.specs.Lent.{TreeOf, ValuesOf, PeriodsOf, HasValues};
ghost use Rattle.columns.specs.Judgeable.{Judgeable};
ghost use Rattle.prepare.specs.Rows.{Rows};
ghost use Rattle.prepare.specs.Keys.{Keys};
ghost use Rattle.day.specs.Along.{LentBy};
ghost use Rattle.groups.specs.Groups.{Groups};
ghost use Rattle.orders.specs.Order.{InOrder};
ghost use Rattle.window.specs.Spread.{Spread};

use columns::{LIMIT, Records};
use day::lent::Trail;
use meaning::Rule;
use prepare::Prepared;

// A way along records, from `start` on by `next`, and two lists that are read along it: what they hold depends on the rule's kind.
#[derive(Clone, Copy)]
pub struct Layout {
    pub start: usize,
    pub next: [u16; LIMIT],
    pub last: [u16; LIMIT],
    pub lower: [u16; LIMIT],
}

impl<'a> From<&'a Layout> for Trail<'a> {
    ghost from_gives = { λ laid trail. LentBy laid.now.start laid.now.next laid.now.last laid.now.lower trail };

    fn from(laid: &'a Layout) -> Trail<'a> {
        Trail {
            start: laid.start,
            next: &laid.next,
            last: &laid.last,
            lower: &laid.lower,
        }
    }
}

// For each field version the version in whose row it is. Cost: three passes over the records.
fn keys_of(records: Records<'_>, rule: Rule) -> [u16; LIMIT]
    requires { (rule_fields rule ≡ true) × HasValues records }
    ensures { (doc : Doc) → TreeOf doc records.entry → ValuesOf doc records.entry → Keys doc rule result }
{
    let chosen = prepare::select::mark_selected(records, rule);
    let holder = prepare::fields::holders(records, rule);
    prepare::rows::keys(records.vkind, records.value, &chosen, &holder, rule)
}

// The layout of a cardinality: the way along its selected versions, and the field versions under each item number as a chain.
// Cost: that of the keys, and two passes over the records.
fn lay_counted(records: Records<'_>, group: &[u16], own: Prepared, rule: Rule) -> Layout
    requires { (rule_fields rule ≡ true) × ((doc : Doc) × TreeOf doc records × ValuesOf doc records × Groups doc group.now × Judgeable doc) }
    ensures { (doc : Doc) → TreeOf doc records.entry → ValuesOf doc records.entry → Groups doc group.now → Rows doc rule own.start own.next own.last own.lower → rule.kind ≡ 4 → Spread doc rule result.start result.next result.last result.lower group.now }
{
    let key = keys_of(records, rule);
    let links = groups::gather(records.kind, &key, group);
    let next = own.next;
    let last = links.last;
    let lower = links.lower;
    Layout {
        start: own.start,
        next,
        last,
        lower,
    }
}

// The layout of a datatype: how far back a window must reach for each field version to offend, and the way along those that can offend.
// Cost: that of the keys, that of the reaches, and two passes over the records.
fn lay_stepped(records: Records<'_>, group: &[u16], closes: &[u16], rule: Rule) -> Layout
    requires { (rule_fields rule ≡ true) × (length closes.now ≤ limit) × ((doc : Doc) × TreeOf doc records × ValuesOf doc records × PeriodsOf doc records × Groups doc group.now × InOrder (is_version doc) records.end.now closes.now (length closes.now) × Judgeable doc) }
    ensures { (doc : Doc) → TreeOf doc records.entry → ValuesOf doc records.entry → PeriodsOf doc records.entry → Groups doc group.now → InOrder (is_version doc) records.entry.end.now closes.now (length closes.now) → Judgeable doc → is_sequenced rule ≡ false → rule.kind ≡ 5 → Spread doc rule result.start result.next result.last result.lower group.now }
{
    let key = keys_of(records, rule);
    let reach = steps::reaches_swept(records, &key, group, closes, rule.low, rule.high);
    let marks = steps::mark_reaching(&reach, records.kind.len());
    let way = prepare::rows::way_along(&marks, records.kind.len());
    let next = way.next;
    Layout {
        start: way.start,
        next,
        last: reach,
        lower: reach,
    }
}

// The layout of a prepared rule, by the versions in the order of their ends: up to a reference its own rows. Cost: that of the layout of its kind;
// else none.
pub fn lay_out(
    records: Records<'_>,
    group: &[u16],
    closes: &[u16],
    own: Prepared,
    rule: Rule,
) -> Layout
    requires { (rule_fields rule ≡ true) × (length closes.now ≤ limit) × ((doc : Doc) × TreeOf doc records × ValuesOf doc records × PeriodsOf doc records × Groups doc group.now × InOrder (is_version doc) records.end.now closes.now (length closes.now) × Judgeable doc) }
    ensures { (doc : Doc) → TreeOf doc records.entry → ValuesOf doc records.entry → PeriodsOf doc records.entry → Groups doc group.now → InOrder (is_version doc) records.entry.end.now closes.now (length closes.now) → Judgeable doc → is_sequenced rule ≡ false → Rows doc rule own.start own.next own.last own.lower → Spread doc rule result.start result.next result.last result.lower group.now }
{
    if rule.kind == 4 {
        return lay_counted(records, group, own, rule);
    }
    if rule.kind == 5 {
        return lay_stepped(records, group, closes, rule);
    }
    let next = own.next;
    let last = own.last;
    let lower = own.lower;
    Layout {
        start: own.start,
        next,
        last,
        lower,
    }
}
