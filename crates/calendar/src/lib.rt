// The months from January 2000 on: the day on which each starts, counted from 1 January 2000, and the month that starts on a given day.
#![tactic(auto)]

ghost use Rattle.std.specs.Prelude.{◌≡◌};
ghost use Rattle.calendar.specs.Gregorian.{month_start, month_on};
ghost use Rattle.calendar.specs.Entries.{MonthTable};

mod hundred_years; // hundred_years.rt: the table of month starts

// The number of the table's last entry, January 2100.
const LAST: usize = 1200;

// The table in memory. A constant is laid out anew wherever it is read, so whoever looks months up has it laid out once, here, and lends it on.
pub fn starts() -> [u16; 1201]
    ensures { MonthTable result }
{
    hundred_years::MONTH_STARTS
}

// Entry k of the table, and past the last entry that one.
pub fn entry(table: &[u16; 1201], k: usize) -> u16
    requires { MonthTable table.now }
    ensures { result ≡ month_start k }
{
    table[k.min(LAST)]
}

// The month that starts on the day, by its number counted from January 2000, looked up in the table. A month has at most 31 days, so every month before number `day / 31` starts
// before the day; and after the first start that lies past the day all others do too. So some twenty entries are read, not 1,201.
pub fn month_in(table: &[u16; 1201], day: u16) -> Option<usize>
    requires { MonthTable table.now }
    ensures { result ≡ month_on day }
{
    for k in usize::from(day / 31)..=LAST {
        let start = entry(table, k);
        if start == day {
            return Some(k);
        }
        if day < start {
            return None;
        }
    }
    None
}

// The month that starts on the day, if one of months 0 to 1,200 does.
pub fn month_on(day: u16) -> Option<usize>
    ensures { result ≡ month_on day }
{
    let table = starts();
    month_in(&table, day)
}
