// The steps of a text, one after the other, and the number of each in the path.
ghost use Rattle.std.specs.Prelude.{◌≡◌, true, ◌+◌, ◌≤◌, length, take, drop};
ghost use Rattle.selectors.specs.Parts.{up_to, parts};
ghost use Rattle.selectors.specs.Profile.{is_star, in_profile};
ghost use Rattle.selectors.specs.Lining.{Entries};
ghost use Rattle.selectors.specs.Selecting.{step_number, no_path};
ghost use Rattle.selectors.specs.Walking.{LooksUp, Filled};

use crate::Selector;
use crate::dictionary::number_in;
use meaning::Refusal;

const STAR: u8 = 42;

const SLASH: u8 = 47;

// What the star stands for in a path: any name.
const ANY: u16 = 65535;

// The place of the next slash, or the text's end.
fn step_end(text: &[u8], at: usize) -> usize
    requires { at ≤ length text.now }
    ensures { (result ≡ at + length (up_to 47 (drop at text.now))) × (result ≤ length text.now) }
{
    for end in at..text.len() {
        if text[end] == SLASH {
            return end;
        }
    }
    text.len()
}

// Whether a step is the star.
fn is_star(step: &[u8]) -> bool
    ensures { result ≡ is_star step.now }
{
    if step.len() == 1 {
        return step[0] == STAR;
    }
    false
}

// The number of a step, or 0 for a name that none of the first `count` lines has.
fn step_number(d: &[u8], count: usize, step: &[u8]) -> u16
    requires { Entries d.now count }
    ensures { result ≡ step_number (take count (parts 10 d.now)) step.now }
{
    if is_star(step) {
        return ANY;
    }
    number_in(d, count, step)
}

// The numbers of all steps, put into a path that is empty at first; or 28 for the first that is unknown, with the place where it starts.
fn fill(text: &[u8], d: &[u8], count: usize, path: &mut [u16]) -> Result<usize, Refusal>
    requires { Entries d.now count × (in_profile text.now ≡ true) × (path.old ≡ no_path) }
    ensures { Filled text.now (take count (parts 10 d.now)) result path.new }
{
    let mut at = 0;
    let mut k = 0;
    // a loop: it goes from slash to slash, and there is one step at least
    loop {
        let end = step_end(text, at);
        let number = step_number(d, count, &text[at..end]);
        if number == 0 {
            return Err(Refusal {
                number: 28,
                place: at,
            });
        }
        path[k] = number;
        k += 1;
        if end == text.len() {
            return Ok(k);
        }
        at = end + 1;
    }
}

// What comes of a text of the profile and a sound dictionary of `count` lines.
pub fn look_up(text: &[u8], d: &[u8], count: usize) -> Selector
    requires { Entries d.now count × (in_profile text.now ≡ true) }
    ensures { LooksUp text.now (take count (parts 10 d.now)) result }
{
    let mut path = [0u16; 8];
    let answer = fill(text, d, count, &mut path);
    if let Err(_) = answer {
        return Selector {
            answer,
            path: [0u16; 8],
        };
    }
    Selector { answer, path }
}
