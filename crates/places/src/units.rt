// How many units, which are days or months, start before a day, or by it; and how many of those a slide apart.
ghost use Rattle.std.specs.Prelude.{true, ℕ, ◌≤◌, ◌<◌};
ghost use Rattle.calendar.specs.Entries.{MonthTable};
ghost use Rattle.calendar.specs.Gregorian.{month_start};
ghost use Rattle.places.specs.Earlier.{Before, Steps, Starting, By, Ending};

use numbers::index;

// The number of the table's last month. It starts past every day of a period.
const LAST: usize = 1200;

// From a guess down to a number of months that all start before the day. Cost: a look at the table for each month too many, and one more.
fn down_from(table: &[u16; 1201], day: usize, guess: usize) -> usize
    requires { MonthTable table.now × (guess ≤ 1200) }
    ensures { (result ≤ 1200) × ((j : ℕ) → j < result → month_start j < day) }
{
    for k in (0..guess).rev() {
        let start = index(calendar::entry(table, k));
        if start < day {
            return k + 1;
        }
    }
    0
}

// From months that all start before the day up to the number of those that do. Cost: a look at the table for each month more, and one more.
fn up_from(table: &[u16; 1201], day: usize, some: usize) -> usize
    requires { MonthTable table.now × (day ≤ 36525) × (some ≤ 1200) × ((j : ℕ) → j < some → month_start j < day) }
    ensures { Before true day result }
{
    for m in some..LAST {
        let start = index(calendar::entry(table, m));
        if day <= start {
            return m;
        }
    }
    LAST
}

// How many months start before the day. Four years of days over four years of months, 1461 / 48 or 487 / 16, guess it to a month or
// two. Cost: some three looks at the table.
fn months_before(table: &[u16; 1201], day: usize) -> usize
    requires { MonthTable table.now × (day ≤ 36525) }
    ensures { Before true day result }
{
    let some = down_from(table, day, day * 16 / 487);
    up_from(table, day, some)
}

// How many units start before the day: as many days as it counts, or months. Cost: for months some three looks at the table.
fn units_before(table: &[u16; 1201], monthly: bool, day: usize) -> usize
    requires { MonthTable table.now × (day ≤ 36525) }
    ensures { Before monthly day result }
{
    if monthly {
        return months_before(table, day);
    }
    day
}

// How many of the numbers from `from` on, a slide apart, lie below u. Cost: a division.
fn steps(from: usize, slide: usize, u: usize) -> usize
    requires { 1 ≤ slide }
    ensures { Steps from slide u result }
{
    if u <= from {
        return 0;
    }
    (u - from - 1) / slide + 1
}

// How many of the units from `from` on, a slide apart, start before the day. Cost: a division, and for months some three looks at the table.
pub fn starting(table: &[u16; 1201], monthly: bool, from: usize, slide: usize, day: usize) -> usize
    requires { MonthTable table.now × (1 ≤ slide) × (day ≤ 36525) }
    ensures { Starting monthly from slide day result }
{
    let u = units_before(table, monthly, day);
    steps(from, slide, u)
}

// How many months start by the day, by the calendar: those that start before it, and one more if it starts on it. Past the table none does.
// Cost: some four looks at the table.
fn months_by(table: &[u16; 1201], day: usize) -> usize
    requires { MonthTable table.now × (day ≤ 36525) }
    ensures { By true day result }
{
    let m = months_before(table, day);
    if index(calendar::entry(table, m)) == day {
        return m + 1;
    }
    m
}

// How many units start by the day, by the calendar. Cost: for months some four looks at the table.
fn units_by(table: &[u16; 1201], monthly: bool, day: usize) -> usize
    requires { MonthTable table.now × (day ≤ 36525) }
    ensures { By monthly day result }
{
    if monthly {
        return months_by(table, day);
    }
    day + 1
}

// How many of the units from `from` on, a slide apart, start by the day, by the calendar. Cost: a division, and for months some four looks
// at the table.
pub fn ending(table: &[u16; 1201], monthly: bool, from: usize, slide: usize, day: usize) -> usize
    requires { MonthTable table.now × (1 ≤ slide) × (day ≤ 36525) }
    ensures { Ending monthly from slide day result }
{
    let u = units_by(table, monthly, day);
    steps(from, slide, u)
}
