// Searches along an order of the field versions, one for each record.
ghost use Rattle.std.specs.Prelude.{ℕ, ◌<◌, ◌≤◌, length, get_or};
ghost use Rattle.meaning.specs.Block.{limit};
ghost use Rattle.steps.specs.Stacks.{Leads};
ghost use Rattle.steps.specs.Sweeping.{Asked, Sweepable, Sought};
ghost use Rattle.steps.specs.Places.{Settled};

use crate::levels::{BEGINS, TURNED, VALUES, bound_of, levels};
use crate::places::{answers, later_ends};
use crate::stacks::{latest_below, stack};
use columns::{LIMIT, Records};

// An order of the records, the chains along it, and for each record the place, counted from one, from which it is sought.
#[derive(Clone, Copy)]
pub struct Course<'a> {
    pub order: &'a [u16],
    pub prior: &'a [u16],
    pub start: &'a [u16],
}

// For each record the last place before its start whose level is below its bound. Cost: a search for each record.
fn ask(
    which: u8,
    value: &[i32],
    start: &[u16],
    days: &[u16],
    low: i32,
    high: i32,
    level: &[u64],
    below: &[u16],
    leap: &[u16],
) -> [u16; LIMIT]
    requires { (length value.now ≤ limit) × (length value.now ≤ length start.now) × (length value.now ≤ length days.now) × ((m : ℕ) × (m ≤ length level.now) × Leads m below.now × Leads m leap.now × ((f : ℕ) → f < length value.now → get_or start.now f 0 ≤ m)) }
    ensures { Asked which value.now start.now days.now low high level.now below.now leap.now result }
{
    let mut out = [0u16; LIMIT];
    for f in 0..value.len() {
        let bound = bound_of(which, value[f], low, high, days[f]);
        out[f] = latest_below(level, below, leap, start[f], bound);
    }
    out
}

// The same, with the levels and the stacks laid out first. Cost: two passes over the order and one over the records, with a search at each.
pub fn sought(
    which: u8,
    records: Records,
    course: Course,
    days: &[u16],
    low: i32,
    high: i32,
) -> [u16; LIMIT]
    requires { Sweepable records.vkind.now records.value.now records.begin.now records.end.now course.order.now course.prior.now course.start.now days.now }
    ensures { Sought which records.entry.vkind.now records.entry.value.now records.entry.begin.now records.entry.end.now course.entry.order.now course.entry.prior.now course.entry.start.now days.now low high result }
{
    let level = levels(which, records, course.order);
    let stacks = stack(&level, course.prior, course.order.len());
    let below = stacks.below;
    let leap = stacks.leap;
    ask(
        which,
        records.value,
        course.start,
        days,
        low,
        high,
        &level,
        &below,
        &leap,
    )
}

// The reach of each record: of the last places before its start from which the step to it is too high or too low, the later one; its end, unless
// one of the item number lies from there to the record. Cost: three searches for each record, and two passes over the records.
pub fn settle(records: Records, key: &[u16], course: Course, low: i32, high: i32) -> [u16; LIMIT]
    requires { Sweepable records.vkind.now records.value.now records.begin.now records.end.now course.order.now course.prior.now course.start.now records.begin.now × (length records.value.now ≤ length key.now) }
    ensures { Settled records.entry.vkind.now records.entry.value.now records.entry.begin.now records.entry.end.now key.now course.entry.order.now course.entry.prior.now course.entry.start.now low high result }
{
    let above = sought(VALUES, records, course, records.begin, low, high);
    let beneath = sought(TURNED, records, course, records.begin, low, high);
    let until = later_ends(
        records.end,
        course.order,
        &above,
        &beneath,
        records.value.len(),
    );
    let parting = sought(BEGINS, records, course, &until, low, high);
    answers(key, records.vkind, &until, &parting)
}
