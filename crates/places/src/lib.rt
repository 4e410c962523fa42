// The places of a rule, each a stretch of days: the days of a sequenced rule, or the windows of another; and from which place up to which a
// version is present.
#![tactic(auto)]

ghost use Rattle.std.specs.Prelude.{◌≡◌, true, ◌≤◌, leb};
ghost use Rattle.calendar.specs.Entries.{MonthTable};
ghost use Rattle.meaning.specs.Rules.{rule_fields};
ghost use Rattle.places.specs.Placing.{unit_day, start_of, end_of, Counted, Placed, Low, High};
ghost use Rattle.places.specs.Made.{Small, Made};

use meaning::Rule;
use numbers::index;

mod units; // units.rt: how many units start before a day

// The places of a rule: whether their units are months, the first unit, how many units a place spans, how many the next one is further on,
// the day on which the period ends, how many places there are, and how many of them are whole: the period's end cuts none of those short.
#[derive(Clone, Copy)]
pub struct Places {
    pub monthly: bool,
    pub first: usize,
    pub span: usize,
    pub slide: usize,
    pub close: usize,
    pub count: usize,
    pub whole: usize,
}

// A place: its number, from 0, the days from `from` up to, not including, `to`, and whether the period's end cuts it short.
#[derive(Clone, Copy)]
pub struct Place {
    pub number: usize,
    pub from: usize,
    pub to: usize,
    pub shortened: bool,
}

// The places that these numbers give, with how many there are and how many are whole. Cost: two divisions, and for months some seven looks at
// the table.
fn counted(
    table: &[u16; 1201],
    monthly: bool,
    first: usize,
    span: usize,
    slide: usize,
    close: usize,
) -> Places
    requires { MonthTable table.now × Small first span slide close }
    ensures { Made monthly first span slide close result × Counted result }
{
    let count = units::starting(table, monthly, first, slide, close);
    let ended = units::ending(table, monthly, first + span, slide, close);
    let whole = ended.min(count);
    Places {
        monthly,
        first,
        span,
        slide,
        close,
        count,
        whole,
    }
}

// The places of a rule that fits its table. Cost: a division, and for months the search for the month on whose first day the period begins.
pub fn places_of(table: &[u16; 1201], rule: Rule) -> Places
    requires { MonthTable table.now × (rule_fields rule ≡ true) }
    ensures { Placed rule result × Counted result }
{
    let slide = rule.slide as usize;
    let span = rule.span as usize;
    let close = rule.end as usize;
    let begin = rule.begin as usize;
    if rule.windowed == 0 {
        return counted(table, false, begin, 1, 1, close);
    }
    if rule.unit == 0 {
        let whole = close - begin;
        return counted(table, false, begin, whole, whole, close);
    }
    if rule.unit == 1 {
        return counted(table, false, begin, span, slide, close);
    }
    match calendar::month_in(table, rule.begin) {
        Some(k) => counted(table, true, k, span, slide, close),
        None => counted(table, false, begin, span, slide, close),
    }
}

// The first place that ends after the day on which a version begins: as many as end by that day. From the close on that is all of them;
// before it a place ends by its length, with the unit that its span leads to. Cost: a division, and for months some three looks at the table.
pub fn low(table: &[u16; 1201], at: Places, begin: u16) -> u16
    requires { MonthTable table.now × Counted at }
    ensures { Low at begin result }
{
    let day = begin as usize;
    if at.close <= day {
        return at.count as u16;
    }
    units::starting(table, at.monthly, at.first + at.span, at.slide, day + 1) as u16
}

// The first place that starts on the day on which a version ends, or later: as many as start before it. Cost: as for `low`.
pub fn high(table: &[u16; 1201], at: Places, end: u16) -> u16
    requires { MonthTable table.now × Counted at }
    ensures { High at end result }
{
    let day = (end as usize).min(at.close);
    units::starting(table, at.monthly, at.first, at.slide, day) as u16
}

// The day of unit u: u itself, or the day on which month u starts. Cost: at most one look at the table.
fn unit_day(table: &[u16; 1201], monthly: bool, u: usize) -> usize
    requires { MonthTable table.now }
    ensures { result ≡ unit_day monthly u }
{
    if monthly {
        return index(calendar::entry(table, u));
    }
    u
}

// Place k, which ends with the period if not before. Cost: at most two looks at the table.
pub fn place_at(table: &[u16; 1201], at: Places, k: usize) -> Place
    requires { MonthTable table.now × Counted at × (k ≤ at.count) }
    ensures from { result.from ≡ start_of at k }
    ensures to { result.to ≡ end_of at k }
    ensures number { result.number ≡ k }
    ensures shortened { result.shortened ≡ leb at.whole k }
{
    let start = at.first + k * at.slide;
    let from = unit_day(table, at.monthly, start);
    let past = unit_day(table, at.monthly, start + at.span);
    let to = past.min(at.close);
    Place {
        number: k,
        from,
        to,
        shortened: at.whole <= k,
    }
}
