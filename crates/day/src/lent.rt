// What is lent to a look at the rows of a rule: the way along them, and the columns that tell which of their records are present and what these stand for.
ghost use Rattle.std.specs.Prelude.{◌≡◌, ◌<◌, ◌≤◌, length};
ghost use Rattle.day.specs.Along.{LentBy, size, there};

use numbers::index;
use prepare::Prepared;

// The selected versions of a rule, from `start` on by `next`, and two lists that are read along them: for rows `last` leads to the last of each and `lower`
// down from it, counted from one, 0 for none.
#[derive(Clone, Copy)]
pub struct Trail<'a> {
    pub start: usize,
    pub next: &'a [u16],
    pub last: &'a [u16],
    pub lower: &'a [u16],
}

impl<'a> From<&'a Prepared> for Trail<'a> {
    ghost from_gives = { λ own trail. LentBy own.now.start own.now.next own.now.last own.now.lower trail };

    fn from(own: &'a Prepared) -> Trail<'a> {
        Trail {
            start: own.start,
            next: &own.next,
            last: &own.last,
            lower: &own.lower,
        }
    }
}

// The days from `from` up to, not including, `to`, a window or one day, with the periods of the records and the representatives of their values.
#[derive(Clone, Copy)]
pub struct Stretch<'a> {
    pub begin: &'a [u16],
    pub end: &'a [u16],
    pub rep: &'a [u16],
    pub from: usize,
    pub to: usize,
}

impl Stretch<'_> {
    // Whether version i shares a day with the stretch. Two looks.
    pub fn has(self, i: usize) -> bool
        requires { (i < size self) × (size self ≤ length self.end.now) }
        ensures { result ≡ there self.entry i }
    {
        (index(self.begin[i]) < self.to) & (self.from < index(self.end[i]))
    }
}
