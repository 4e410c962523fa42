// Numbers in decimal out of a text: the digits from a place on, a number with the byte that ends it, and a value with its sign.
ghost use Rattle.std.specs.Prelude.{◌≡◌, ◌<◌, ◌≤◌, min, length};
ghost use Rattle.typed.specs.Numeral.{is_digit, longer, top, digits_at, stands, is_plain, number_at, value_at};

// What digits spell, 4294967296 for all that is above, and the place after them.
#[derive(Clone, Copy)]
pub struct Digits {
    pub value: usize,
    pub next: usize,
}

// Above every number that a column holds.
pub const TOP: usize = 4294967296;

pub const SPACE: u8 = 32;

pub const LINE_FEED: u8 = 10;

const MINUS: u8 = 45;

const ZERO: u8 = 48;

// The codes of 0 to 9.
fn is_digit(x: u8) -> bool
    ensures { result ≡ is_digit x }
{
    (48 <= x) & (x <= 57)
}

// The number that one digit more makes of v.
fn longer(v: usize, x: u8) -> usize
    requires { (v ≤ top) × (48 ≤ x) × (x ≤ 57) }
    ensures { result ≡ min (longer v x) top }
{
    let w = 10 * v + usize::from(x - 48);
    w.min(TOP)
}

// Whether the text has this byte at this place.
pub fn stands(text: &[u8], at: usize, x: u8) -> bool
    ensures { result ≡ stands text.now at x }
{
    if at < text.len() {
        return text[at] == x;
    }
    false
}

// The digits from a place on. One look at each.
fn digits_at(text: &[u8], at: usize) -> Digits
    ensures { result ≡ digits_at text.now at }
{
    let mut value = 0;
    for next in at..text.len() {
        let x = text[next];
        if !is_digit(x) {
            return Digits { value, next };
        }
        value = longer(value, x);
    }
    let next = at.max(text.len());
    Digits { value, next }
}

// Whether digits from `at` to `next` are a number as it is typed: one digit or more, and no leading zero.
fn is_plain(text: &[u8], at: usize, next: usize) -> bool
    requires { at < length text.now }
    ensures { result ≡ is_plain text.now at next }
{
    (at < next) & ((next == at + 1) | !stands(text, at, ZERO))
}

// A number of at most `most`, ended by `stop`, and the place after that; or that none of the form stands there.
pub fn number_at(text: &[u8], at: usize, most: usize, stop: u8) -> Option<(usize, usize)>
    ensures { result ≡ number_at text.now at most stop }
{
    let digits = digits_at(text, at);
    let value = digits.value;
    let next = digits.next;
    if !stands(text, next, stop) {
        return None;
    }
    if is_plain(text, at, next) & (value <= most) {
        return Some((value, next + 1));
    }
    None
}

// The same of a number that may have a minus: what an i32 holds, and no minus before 0.
pub fn value_at(text: &[u8], at: usize, stop: u8) -> Option<(i32, usize)>
    ensures { result ≡ value_at text.now at stop }
{
    if !stands(text, at, MINUS) {
        let (up, next) = number_at(text, at, 2147483647, stop)?;
        return Some((numbers::signed_of(up as u32), next));
    }
    let (down, next) = number_at(text, at + 1, 2147483648, stop)?;
    if down == 0 {
        return None;
    }
    Some((numbers::signed_of((TOP - down) as u32), next))
}
