// The part of an order that a rule reads, and the places of its records: what the finder goes along.
#![tactic(auto)]

ghost use Rattle.std.specs.Prelude.{◌≡◌, ℕ, ◌≤◌, ◌<◌, length};
ghost use Rattle.meaning.specs.Block.{limit};
ghost use Rattle.marks.specs.Marks.{marked, Marks};
ghost use Rattle.calendar.specs.Entries.{MonthTable};
ghost use Rattle.places.specs.Placing.{Counted, Low, High};
ghost use Rattle.passes.specs.Passes.{at as «of», Covers};
ghost use Rattle.picking.specs.Picked.{is_read, Picked};

use numbers::index;
use places::Places;

// In which row each of n records is, and in which of the other rows: a row is a number below n.
#[derive(Clone, Copy)]
pub struct Rows<'a> {
    pub row: &'a [u16],
    pub other: &'a [u16],
    pub n: usize,
}

// Puts a mark on each of n records that is read into a lent column: one that has the mark asked for, or is in a row, or in one of the other rows. Cost: a look at each, without a branch, so that the compiler takes many at once.
pub fn read_marks(marks: &[u8], asked: u8, rows: Rows, out: &mut [u8])
    requires { (rows.n ≤ limit) × (rows.n ≤ length marks.now) × (rows.n ≤ length rows.row.now) × (rows.n ≤ length rows.other.now) × (rows.n ≤ length out.old) }
    ensures { Marks (is_read marks.now asked rows.entry.row.now rows.entry.other.now rows.entry.n) rows.entry.n out.new }
{
    let room = rows.n as u16;
    for i in 0..rows.n {
        out[i] = u8::from((marks[i] == asked) | (rows.row[i] < room) | (rows.other[i] < room));
    }
}

// Stores the marked records of an order, in the same order, at the front of a lent list; how many. The rest of the list is lost as far as the
// order is long. Cost: two looks and a store for each record of the order.
pub fn pick(order: &[u16], marks: &[u8], out: &mut [u16]) -> usize
    requires { Covers order.now marks.now × (length order.now ≤ length out.old) }
    ensures { (length out.new ≡ length out.old) × (result ≤ length out.new) × Picked (marked marks.now) order.now (length order.now) out.new result }
{
    let mut k: usize = 0;
    for r in order {
        out[k] = *r;
        k += usize::from(marks[index(*r)] == 1);
    }
    k
}

// What `place` says of the day of each record of an order, by a column of days, into a lent column; the other entries stay. Cost: two looks, a
// call and a store for each record of the order.
fn lay<F: Fn(u16) -> u16>(days: &[u16], order: &[u16], out: &mut [u16], place: F)
    requires callable { F.IsAlwaysCallable place }
    requires in_days { Covers order.now days.now }
    requires in_out { Covers order.now out.old }
    ensures { (length out.new ≡ length out.old) × ((j : ℕ) → j < length order.now → F.post place («of» days.now («of» order.now j)) («of» out.new («of» order.now j))) }
{
    for x in order {
        let x = index(*x);
        out[x] = place(days[x]);
    }
}

// The first places of the records of an order, by the column of their begins, into a lent column; the other entries stay. Cost: as for
// `places::low`, for each record of the order.
pub fn lay_low(table: &[u16; 1201], at: Places, begin: &[u16], order: &[u16], lo: &mut [u16])
    requires { MonthTable table.now × Counted at × Covers order.now begin.now × Covers order.now lo.old }
    ensures { (length lo.new ≡ length lo.old) × ((j : ℕ) → j < length order.now → Low at («of» begin.now («of» order.now j)) («of» lo.new («of» order.now j))) }
{
    lay(begin, order, lo, |day| places::low(table, at, day));
}

// The places past the last of the records of an order, by the column of their ends, into a lent column; the other entries stay. Cost: as for
// `places::high`, for each record of the order.
pub fn lay_high(table: &[u16; 1201], at: Places, end: &[u16], order: &[u16], hi: &mut [u16])
    requires { MonthTable table.now × Counted at × Covers order.now end.now × Covers order.now hi.old }
    ensures { (length hi.new ≡ length hi.old) × ((j : ℕ) → j < length order.now → High at («of» end.now («of» order.now j)) («of» hi.new («of» order.now j))) }
{
    lay(end, order, hi, |day| places::high(table, at, day));
}
