// The parts of an offence, each with the soonest place at which there is one: two records in a row, one value of two owners, a value that nobody has,
// too few and too many of one key. They are found by sweeps over columns of numbers, with no document and no rule, and in columns that are lent.
#![tactic(auto)]

ghost use Rattle.std.specs.Prelude.{◌≡◌, cond, ltb};

use numbers::index;
use passes::NEVER;

pub mod keys; // keys.rt: columns of keys for the sweeps
pub mod holders; // holders.rt: two in one row, one value of two owners, a value that nobody has
pub mod alone; // alone.rt: a value that is no row's only one
pub mod counts; // counts.rt: too few and too many of one key
pub mod by_value; // by_value.rt: too few and too many values of one key

// An order of some of n records that rises by their first places, and of each record the places from lo up to, not including, hi.
#[derive(Clone, Copy)]
pub struct Line<'a> {
    pub order: &'a [u16],
    pub lo: &'a [u16],
    pub hi: &'a [u16],
    pub n: usize,
}

// The records of a line by their keys: those that have one come in `closes` by their ends.
#[derive(Clone, Copy)]
pub struct Counted<'a> {
    pub line: Line<'a>,
    pub closes: &'a [u16],
    pub key: &'a [u16],
}

// What asks: the marked records, each for its class.
#[derive(Clone, Copy)]
pub struct Asking<'a> {
    pub marks: &'a [u8],
    pub class: &'a [u16],
}

// How many are asked for at least, which is asked below place `whole`, and at most.
#[derive(Clone, Copy)]
pub struct Bounds {
    pub whole: usize,
    pub low: usize,
    pub high: usize,
}

// A place, if it is below `whole`; else none.
pub fn below_whole(place: u16, whole: usize) -> u16
    ensures { result ≡ cond (ltb place whole) place 65535 }
{
    if index(place) < whole {
        return place;
    }
    NEVER
}
