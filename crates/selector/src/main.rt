// The selector's program: reads the files `text` and `dictionary` of its folder, and prints the path that they come to, or why they come to none.
#![tactic(auto)]

ghost use Rattle.selector.specs.Printed.{Printed};

use files::Unreadable;
use std::io;
use std::rt::Files;

// The longest text and the longest dictionary that are read, and one byte more, so that a longer file is told by its length.
const TEXT_ROOM: usize = 65536 + 1;

const DICTIONARY_ROOM: usize = 4194304 + 1;

// Room for any line: some words, and at most nine numbers. The longest line on a selector has 62 bytes, the name of a file that cannot be
// read at most ten.
const LINE: usize = 80;

// Prints the line of a file that cannot be read.
fn print_unreadable(rt: &impl Print, name: &[u8]) -> io::Result<()> {
    let mut line = [0u8; LINE];
    let end = spelling::lines::unreadable(&mut line, name);
    rt.write_all(spelling::front(&line, end))
}

// Writes the line on a text and a dictionary: nothing else may be given to it.
fn write_selector(rt: &impl Print, text: &[u8], dictionary: &[u8], line: &[u8]) -> io::Result<()>
    requires { Printed text.now dictionary.now line.now }
{
    rt.write_all(line)
}

// Prints the line on a text and a dictionary.
fn print_selector(rt: &impl Print, text: &[u8], dictionary: &[u8]) -> io::Result<()> {
    let selector = selectors::read_selector(text, dictionary);
    let answer = selector.answer;
    let mut line = [0u8; LINE];
    let end = selectors::line::put_selector(&mut line, answer, &selector.path);
    write_selector(rt, text, dictionary, spelling::front(&line, end))
}

// The whole of the file of this name, or that it cannot be read or is longer than the buffer has room for.
fn load_whole(rt: &impl Files, name: &[u8], buf: &mut [u8]) -> Result<usize, Unreadable> {
    let n = files::load(rt, name, buf)?;
    if n < buf.len() {
        return Ok(n);
    }
    Err(Unreadable)
}

// The file `dictionary`, whole.
fn load_dictionary(rt: &impl Files, buf: &mut [u8; DICTIONARY_ROOM]) -> Result<usize, Unreadable> {
    load_whole(rt, b"dictionary", buf)
}

// Prints the line on a text and the first m bytes of a dictionary's buffer.
fn print_front(
    rt: &impl Print,
    text: &[u8],
    dictionary: &[u8; DICTIONARY_ROOM],
    m: usize,
) -> io::Result<()> {
    print_selector(rt, text, spelling::front(dictionary, m))
}

// Prints the line on a text and the file `dictionary`, or that it cannot be read.
fn print_on(rt: &(impl Files + Print), text: &[u8]) -> io::Result<()> {
    let mut dictionary = [0u8; DICTIONARY_ROOM];
    let Ok(m) = load_dictionary(rt, &mut dictionary) else {
        return print_unreadable(rt, b"dictionary");
    };
    print_front(rt, text, &dictionary, m)
}

fn main(rt: HostRuntime) -> io::Result<()> {
    let mut text = [0u8; TEXT_ROOM];
    let Ok(n) = load_whole(&rt, b"text", &mut text) else {
        return print_unreadable(&rt, b"text");
    };
    print_on(&rt, spelling::front(&text, n))
}
