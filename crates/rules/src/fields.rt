// The table of a rule record (25): a test for each of its rows, and all of them together. A test takes a fixed number of
// steps, but that a window of months looks its begin up among the month starts.
ghost use Rattle.std.specs.Prelude.{◌≡◌, ◌&&◌, cond, not, eqb, leb};
ghost use Rattle.meaning.specs.Walk.{any};
ghost use Rattle.meaning.specs.Rules.{is_month, path_fits, distinct_fits, field_fits, referred_fits, bounds_fit, window_fits, rule_fields};
ghost use Rattle.calendar.specs.Gregorian.{month_on};
ghost use Rattle.rules.specs.Table.{place_fits};

use meaning::Rule;

// One place of a path: a name where the place is used, else 0.
fn place_fits(used: bool, name: u16) -> bool
    ensures { result ≡ cond used (leb 1 name) (eqb name 0) }
{
    if used { 1 <= name } else { name == 0 }
}

// The first places, as many as there are steps, have names, and the others none.
fn places_fit(path: [u16; 8], steps: usize) -> bool
    ensures { result ≡ not (any (λ k. not (place_fits path steps k)) 0 8) }
{
    for (k, name) in path.iter().enumerate() {
        if !place_fits(k < steps, *name) {
            return false;
        }
    }
    true
}

// One name or more, in the first places and in no others.
fn path_fits(rule: Rule) -> bool
    ensures { result ≡ path_fits rule }
{
    let path = rule.path;
    (1 <= rule.steps) & (rule.steps <= 8) & places_fit(path, rule.steps as usize)
}

// Only a non-sequenced cardinality may count distinct values.
fn distinct_fits(rule: Rule) -> bool
    ensures { result ≡ distinct_fits rule }
{
    (rule.distinct == 0) | ((rule.distinct == 1) & (rule.windowed == 1) & (rule.kind == 4))
}

// The least field of a kind: a cardinality counts a field by its name, so 0 is none.
fn least_field(kind: u8) -> u16
    ensures { result ≡ cond (eqb kind 4) 1 0 }
{
    if kind == 4 { 1 } else { 0 }
}

// The field is a name, or 0 where the kind lets it be.
fn field_fits(rule: Rule) -> bool
    ensures { result ≡ field_fits rule }
{
    (least_field(rule.kind) <= rule.field) & (rule.field <= 65534)
}

// Only a reference refers; to what, is asked once the whole table is read.
fn referred_fits(rule: Rule) -> bool
    ensures { result ≡ referred_fits rule }
{
    (rule.kind == 3) | (rule.referred == 65535)
}

// The bounds in order; none for kinds 1 to 3, none below 0 for a cardinality.
fn bounds_fit(rule: Rule) -> bool
    ensures { result ≡ bounds_fit rule }
{
    let ordered = numbers::at_most(rule.low, rule.high);
    if rule.kind <= 3 {
        return ordered & (numbers::is_zero(rule.low) & numbers::is_zero(rule.high));
    }
    ordered & ((rule.kind != 4) | numbers::at_least_zero(rule.low))
}

// Both numbers of a window lie in 1..most.
fn lengths_fit(span: u16, slide: u16, most: u16) -> bool
    ensures { result ≡ (leb 1 span && leb span most && leb 1 slide && leb slide most) }
{
    (1 <= span) & (span <= most) & (1 <= slide) & (slide <= most)
}

// Whether a month starts on the day.
fn starts_month(day: u16) -> bool
    ensures { result ≡ is_month (month_on day) }
{
    calendar::month_on(day).is_some()
}

// The window by its unit: none, days, or months, for which the period begins with one.
fn window_fits(rule: Rule) -> bool
    ensures { result ≡ window_fits rule rule.unit }
{
    let unit = rule.unit;
    match unit {
        0 => (rule.span == 0) & (rule.slide == 0),
        1 => (rule.windowed == 1) & lengths_fit(rule.span, rule.slide, 36525),
        2 => (rule.windowed == 1)
            & lengths_fit(rule.span, rule.slide, 1200)
            & starts_month(rule.begin),
        _ => false,
    }
}

// The whole table.
pub fn rule_fields(rule: Rule) -> bool
    ensures { result ≡ rule_fields rule }
{
    (1 <= rule.kind)
        & (rule.kind <= 5)
        & (rule.windowed <= 1)
        & path_fits(rule)
        & distinct_fits(rule)
        & field_fits(rule)
        & referred_fits(rule)
        & bounds_fit(rule)
        & ((rule.begin < rule.end) & (rule.end <= 36525))
        & window_fits(rule)
}
