// The line on a selector: the eight numbers of its path and its length, or a refusal.
ghost use Rattle.spelling.specs.Puts.{Puts};
ghost use Rattle.selectors.specs.Told.{spaced_all, selector_line};

use meaning::Refusal;
use spelling::lines::put_refusal;
use spelling::{put, put_next};

// Puts each number of a path, behind a space.
fn put_path(line: &mut [u8], at: usize, path: &[u16]) -> usize
    ensures { Puts line.old at (spaced_all path.now) line.new result }
{
    let mut to = at;
    for number in path {
        to = put_next(line, to, usize::from(*number));
    }
    to
}

// Puts the line on an answer and the path beside it.
pub fn put_selector(line: &mut [u8], answer: Result<usize, Refusal>, path: &[u16]) -> usize
    ensures { Puts line.old 0 (selector_line answer path.now) line.new result }
{
    match answer {
        Ok(n) => {
            let word = put(line, 0, b"path");
            let numbers = put_path(line, word, path);
            let length = put(line, numbers, b" length");
            let end = put_next(line, length, n);
            put(line, end, b"\n")
        }
        Err(Refusal { number, place }) => put_refusal(line, number, place),
    }
}
