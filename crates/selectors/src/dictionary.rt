// The dictionary: one line, the first that is bad, and the number that the lines give a name.
ghost use Rattle.std.specs.Prelude.{◌≡◌, ◌+◌, ◌≤◌, ◌<◌, length, take, drop};
ghost use Rattle.selectors.specs.Parts.{parts};
ghost use Rattle.selectors.specs.Dictionary.{number_in};
ghost use Rattle.selectors.specs.Lining.{run, begins, line_at, Entries, of_class, again, Sifted, Took, checked_for, lower, checked};

use crate::profile::{is_first, is_inner};
use crate::sieve;
use typed::BadLine;
use typed::scan::{LINE_FEED, SPACE, number_at, stands};

// A dictionary of at most so many bytes takes a table of as many places, any other the large one.
const FEW: usize = 4096;

const MANY: usize = 262144;

// A line of the form: the place where its name ends, its number, and the place behind its line feed.
#[derive(Clone, Copy)]
pub struct Entry {
    pub end: usize,
    pub number: u16,
    pub next: usize,
}

// The place behind the bytes from `at` on that a name can be made of.
fn run_end(d: &[u8], at: usize) -> usize
    ensures { result ≡ at + run (drop at d.now) }
{
    for end in at..d.len() {
        if !is_inner(d[end]) {
            return end;
        }
    }
    at.max(d.len())
}

// Whether a name can begin at a place.
fn begins(d: &[u8], at: usize) -> bool
    ensures { result ≡ begins (drop at d.now) }
{
    if at < d.len() {
        return is_first(d[at]);
    }
    false
}

// The line from a place on, if it is of the form. At most four looks at each byte.
fn line_at(d: &[u8], at: usize) -> Option<Entry>
    ensures { result ≡ line_at d.now at }
{
    let end = run_end(d, at);
    if !begins(d, at) {
        return None;
    }
    if !stands(d, end, SPACE) {
        return None;
    }
    let (value, next) = number_at(d, end + 1, 65534, LINE_FEED)?;
    if value == 0 {
        return None;
    }
    let number = value as u16;
    Some(Entry { end, number, next })
}

// The number that the first `count` lines give a name, or 0 if none of them has it.
pub fn number_in(d: &[u8], count: usize, name: &[u8]) -> u16
    requires { Entries d.now count }
    ensures { result ≡ number_in (take count (parts 10 d.now)) name.now }
{
    let mut at = 0;
    for _k in 0..count {
        let Some(line) = line_at(d, at) else {
            return 0;
        };
        if &d[at..line.end] == name {
            return line.number;
        }
        at = line.next;
    }
    0
}

// Whether this name is of a class and one of the first `count` lines, whose keys of the class are in the sieve, has it. They are compared
// only where its key looks known; a key of the class that is new is put in.
fn stood(
    d: &[u8],
    count: usize,
    name: &[u8],
    sieve: &mut [u8],
    class: usize,
    classes: usize,
) -> bool
    requires { Sifted (of_class class classes) d.now count sieve.old × (0 < classes) }
    ensures again { result ≡ again (of_class class classes) (take count (parts 10 d.now)) name.now }
    ensures took { Took (of_class class classes) name.now sieve.old sieve.new }
{
    let key = sieve::key_of(name);
    if key % classes != class {
        return false;
    }
    if sieve::holds(sieve, key) {
        return 0 < number_in(d, count, name);
    }
    sieve::put(sieve, key);
    false
}

// All lines: how many there are, or the first that is bad, counted from 0. Of their names those of one class are compared with each other. What is in the sieve at first is wiped out.
fn check_by(d: &[u8], sieve: &mut [u8], class: usize, classes: usize) -> Result<usize, BadLine>
    requires { (64 ≤ length sieve.old) × (0 < classes) }
    ensures { result ≡ checked_for (of_class class classes) d.now }
{
    sieve::clear(sieve);
    let mut at = 0;
    let mut k = 0;
    // a while: it goes from line to line, and k counts them
    while at < d.len() {
        let Some(line) = line_at(d, at) else {
            return Err(BadLine { line: k });
        };
        if stood(d, k, &d[at..line.end], sieve, class, classes) {
            return Err(BadLine { line: k });
        }
        at = line.next;
        k += 1;
    }
    Ok(k)
}

// Of what came of two readings that which is bad, and the lower one if both are.
fn lower(a: Result<usize, BadLine>, b: Result<usize, BadLine>) -> Result<usize, BadLine>
    ensures { result ≡ lower a b }
{
    let Err(i) = a else {
        return b;
    };
    let Err(j) = b else {
        return a;
    };
    if i.line < j.line {
        return a;
    }
    b
}

// All lines, by one reading for each class of names. There are so many classes that the names of one fill a part of the sieve only.
fn check_with(d: &[u8], sieve: &mut [u8]) -> Result<usize, BadLine>
    requires { 64 ≤ length sieve.old }
    ensures { result ≡ checked d.now }
{
    let classes = 1 + d.len() / MANY;
    let mut all = check_by(d, sieve, 0, classes);
    for class in 1..classes {
        let one = check_by(d, sieve, class, classes);
        all = lower(all, one);
    }
    all
}

// All lines of a dictionary: how many there are, or the first that is bad, counted from 0. One reading of it for each 256 kilobytes that it has, and one more of the lines above for each name whose key
// other names of its class have made look known.
pub fn check(d: &[u8]) -> Result<usize, BadLine>
    ensures { result ≡ checked d.now }
{
    if d.len() <= FEW {
        let mut sieve = [0u8; FEW];
        return check_with(d, &mut sieve);
    }
    let mut sieve = [0u8; MANY];
    check_with(d, &mut sieve)
}
