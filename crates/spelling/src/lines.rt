// The lines of a report: what is told of a rule, a refusal, a file that cannot be read, and the header.
ghost use Rattle.spelling.specs.Puts.{Puts};
ghost use Rattle.spelling.specs.Lines.{told, rule_line, header, refused_line, unreadable_line};

use crate::{put, put_next, put_number};
use meaning::{Refusal, Verdict};

// The line of a file that cannot be read.
pub fn unreadable(text: &mut [u8], name: &[u8]) -> usize
    ensures { Puts text.old 0 (unreadable_line name.now) text.new result }
{
    let word = put(text, 0, b"unreadable ");
    let end = put(text, word, name);
    put(text, end, b"\n")
}

// What a verdict says: the word, the day, the record (dashes where the rule holds) and the count.
pub fn put_verdict(text: &mut [u8], at: usize, found: Result<Verdict, Refusal>) -> usize
    ensures { Puts text.old at (told found) text.new result }
{
    match found {
        Ok(Verdict::Holds(count)) => {
            let word = put(text, at, b" holds - -");
            put_next(text, word, count)
        }
        Ok(Verdict::Fails(day, record, count)) => {
            let word = put(text, at, b" fails");
            let first = put_next(text, word, day);
            let second = put_next(text, first, record);
            put_next(text, second, count)
        }
        Err(Refusal { number, place }) => {
            let word = put(text, at, b" refused");
            let first = put_next(text, word, number);
            put_next(text, first, place)
        }
    }
}

// The one line of a refusal: its number and its place.
pub fn put_refusal(text: &mut [u8], number: usize, place: usize) -> usize
    ensures { Puts text.old 0 (refused_line number place) text.new result }
{
    let word = put(text, 0, b"refused");
    let first = put_next(text, word, number);
    let second = put_next(text, first, place);
    put(text, second, b"\n")
}

// The line on rule k.
pub fn put_rule(text: &mut [u8], at: usize, k: usize, found: Result<Verdict, Refusal>) -> usize
    ensures { Puts text.old at (rule_line k found) text.new result }
{
    let number = put_number(text, at, k);
    let end = put_verdict(text, number, found);
    put(text, end, b"\n")
}

// The header of a report's table.
pub fn put_header(text: &mut [u8]) -> usize
    ensures { Puts text.old 0 header text.new result }
{
    put(text, 0, b"rule verdict day record looked\n")
}
