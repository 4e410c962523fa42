// Reads cases of a selector from `selections.blk` of its folder, and prints the line on each. The test program of selectors, over many cases in
// one process. A case is a header of eight bytes, the length of a text and that of a dictionary, and behind it the bytes of the two.
#![tactic(auto)]

ghost use Rattle.std.specs.Prelude.{◌≤◌};

use std::io::Read;
use std::{fs, io};

// The longest text and the longest dictionary of a case.
const TEXT_ROOM: usize = 65536;

const DICTIONARY_ROOM: usize = 1048576;

// Room for any line.
const LINE: usize = 80;

// More cases than any file has.
const MANY: usize = 4294967296;

// The number in four bytes of a header.
fn long(head: &[u8; 8], at: usize) -> usize
    requires { at ≤ 4 }
{
    numbers::four_at(head, at) as usize
}

// Prints the number of a case.
fn print_number(rt: &impl Print, number: usize) -> io::Result<()> {
    let mut line = [0u8; LINE];
    let word = spelling::put(&mut line, 0, b"case");
    let named = spelling::put_next(&mut line, word, number);
    let end = spelling::put(&mut line, named, b"\n");
    rt.write_all(spelling::front(&line, end))
}

// Prints the line on a text and a dictionary.
fn print_selector(rt: &impl Print, text: &[u8], dictionary: &[u8]) -> io::Result<()> {
    let selector = selectors::read_selector(text, dictionary);
    let answer = selector.answer;
    let mut line = [0u8; LINE];
    let end = selectors::line::put_selector(&mut line, answer, &selector.path);
    rt.write_all(spelling::front(&line, end))
}

// Prints the lines of a case whose text and dictionary are the fronts of two buffers, as long as its header says.
fn answer(
    rt: &impl Print,
    number: usize,
    head: &[u8; 8],
    text: &[u8; TEXT_ROOM],
    dictionary: &[u8; DICTIONARY_ROOM],
) -> io::Result<()> {
    print_number(rt, number)?;
    print_selector(
        rt,
        spelling::front(text, long(head, 0)),
        spelling::front(dictionary, long(head, 4)),
    )
}

// Whether the text after this header came, and is no longer than it may be.
fn take_text(cases: &mut impl Read, head: &[u8; 8], text: &mut [u8; TEXT_ROOM]) -> bool {
    files::filled_front(cases, long(head, 0), text)
}

// The same of the dictionary after the text.
fn take_dictionary(
    cases: &mut impl Read,
    head: &[u8; 8],
    dictionary: &mut [u8; DICTIONARY_ROOM],
) -> bool {
    files::filled_front(cases, long(head, 4), dictionary)
}

// Whether there was one more case in the file; its lines are written.
fn one_case(
    rt: &impl Print,
    cases: &mut impl Read,
    number: usize,
    text: &mut [u8; TEXT_ROOM],
    dictionary: &mut [u8; DICTIONARY_ROOM],
) -> io::Result<bool> {
    let mut head = [0u8; 8];
    if !files::filled(cases, &mut head) {
        return Ok(false);
    }
    if !take_text(cases, &head, text) {
        return Ok(false);
    }
    if !take_dictionary(cases, &head, dictionary) {
        return Ok(false);
    }
    answer(rt, number, &head, text, dictionary)?;
    Ok(true)
}

// All cases of the file, in buffers that are lent for each.
fn every_case(
    rt: &impl Print,
    cases: &mut impl Read,
    text: &mut [u8; TEXT_ROOM],
    dictionary: &mut [u8; DICTIONARY_ROOM],
) -> io::Result<()> {
    for number in 0..MANY {
        if !one_case(rt, cases, number, text, dictionary)? {
            return Ok(());
        }
    }
    Ok(())
}

fn main(rt: HostRuntime) -> io::Result<()> {
    let Ok(mut cases) = fs::open(&rt, "selections.blk") else {
        return rt.write_all(b"unreadable selections.blk\n");
    };
    let mut text = [0u8; TEXT_ROOM];
    let mut dictionary = [0u8; DICTIONARY_ROOM];
    every_case(&rt, &mut cases, &mut text, &mut dictionary)
}
