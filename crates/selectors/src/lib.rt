// Selectors typed by people: a text such as `bank/mixer` and a dictionary of names, read into the path and the length of a rule record.
#![tactic(auto)]

ghost use Rattle.std.specs.Prelude.{◌≡◌};
ghost use Rattle.selectors.specs.Selecting.{no_path, SelectorPromise};
ghost use Rattle.meaning.specs.Reading.{Refused};

use meaning::Refusal;

pub mod dictionary; // dictionary.rt: the dictionary, line by line
pub mod line; // line.rt: the line on a selector
pub mod profile; // profile.rt: texts of the profile
pub mod sieve; // sieve.rt: names that may have come before
pub mod walk; // walk.rt: the steps of a text, looked up

// The answer, and beside it the eight numbers of a rule record's path, all 0 where it is refused.
#[derive(Clone, Copy)]
pub struct Selector {
    pub answer: Result<usize, Refusal>,
    pub path: [u16; 8],
}

// A refusal, with no path.
fn refused(number: usize, place: usize) -> Selector
    ensures { (result.answer ≡ Refused number place) × (result.path ≡ no_path) }
{
    Selector {
        answer: Err(Refusal { number, place }),
        path: [0u16; 8],
    }
}

// A selector and the dictionary of its names, for every two byte strings: refused with 27, then 31, then 28, or a path. Cost: a few looks at
// each byte of the text, and up to nine readings of the dictionary, as far as its names have keys of their own.
pub fn read_selector(text: &[u8], dictionary: &[u8]) -> Selector
    ensures { SelectorPromise text.now dictionary.now result }
{
    let place = profile::bad_place(text);
    if let Some(p) = place {
        return refused(27, p);
    }
    let lines = dictionary::check(dictionary);
    match lines {
        Err(bad) => refused(31, bad.line),
        Ok(count) => walk::look_up(text, dictionary, count),
    }
}
