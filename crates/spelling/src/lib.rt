// Text put together in a lent buffer, piece by piece; what does not fit is left out.
#![tactic(auto)]

ghost use Rattle.std.specs.Prelude.{take, ◌≡◌};
ghost use Rattle.spelling.specs.Spelled.{decimal, spaced};
ghost use Rattle.spelling.specs.Puts.{Puts};

pub mod lines; // lines.rt: the lines of a report

// The first n bytes, or all.
pub fn front(s: &[u8], n: usize) -> &[u8]
    ensures { result.now ≡ take n s.now }
{
    &s[..n.min(s.len())]
}

// Puts a piece at `at`, and gives the place after it.
pub fn put(text: &mut [u8], at: usize, piece: &[u8]) -> usize
    ensures { Puts text.old at piece.now text.new result }
{
    if text.len() <= at {
        return at;
    }
    let n = piece.len().min(text.len() - at);
    text[at..at + n].copy_from_slice(&piece[..n]);
    at + n
}

// Puts a number in decimal.
pub fn put_number(text: &mut [u8], at: usize, x: usize) -> usize
    ensures { Puts text.old at (decimal x) text.new result }
{
    let mut digits = [0u8; 20];
    let n = io::decimal(x as u64, &mut digits);
    put(text, at, &digits[..n])
}

// Puts a space, and a number after it.
pub fn put_next(text: &mut [u8], at: usize, x: usize) -> usize
    ensures { Puts text.old at (spaced x) text.new result }
{
    let to = put(text, at, b" ");
    put_number(text, to, x)
}
