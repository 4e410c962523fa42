// Texts of the profile: the place at which a text is outside it.
ghost use Rattle.std.specs.Prelude.{◌≡◌, ◌≤◌};
ghost use Rattle.selectors.specs.Profile.{is_letter, is_first, is_inner};
ghost use Rattle.selectors.specs.Scan.{after, left_after, scan};

const STAR: u8 = 42;

const SLASH: u8 = 47;

// The most steps of a path.
const MOST: usize = 8;

// Where a text is within a step: ahead of one, in a name, behind a star; or the last byte may not follow.
const AHEAD: u8 = 0;

const NAME: u8 = 1;

const BEHIND: u8 = 2;

const STUCK: u8 = 3;

// A to Z, a to z.
fn is_letter(x: u8) -> bool
    ensures { result ≡ is_letter x }
{
    ((65 <= x) & (x <= 90)) | ((97 <= x) & (x <= 122))
}

// What a name begins with.
pub fn is_first(x: u8) -> bool
    ensures { result ≡ is_first x }
{
    is_letter(x) | (x == 95)
}

// What a name is made of.
pub fn is_inner(x: u8) -> bool
    ensures { result ≡ is_inner x }
{
    is_letter(x) | ((48 <= x) & (x <= 57)) | (x == 95) | (x == 45)
}

// The phase after a byte, in a text that may have `left` steps from this one on.
fn after(phase: u8, left: usize, x: u8) -> u8
    ensures { result ≡ after phase left x }
{
    if phase == AHEAD {
        if is_first(x) {
            return NAME;
        }
        if x == STAR {
            return BEHIND;
        }
        return STUCK;
    }
    if x == SLASH {
        if 1 < left {
            return AHEAD;
        }
        return STUCK;
    }
    if phase == NAME {
        if is_inner(x) {
            return NAME;
        }
        return STUCK;
    }
    STUCK
}

// How many steps may come from the next phase on.
fn left_after(phase: u8, left: usize) -> usize
    requires { 1 ≤ left }
    ensures { result ≡ left_after phase left }
{
    if phase == AHEAD { left - 1 } else { left }
}

// The place of refusal 27: the first byte after which no text of the profile can come, or the length of a text that ends too soon. One look
// at each byte.
pub fn bad_place(text: &[u8]) -> Option<usize>
    ensures { result ≡ scan 0 8 0 text.now }
{
    let mut phase = AHEAD;
    let mut left = MOST;
    for (i, x) in text.iter().enumerate() {
        let next = after(phase, left, *x);
        if next == STUCK {
            return Some(i);
        }
        left = left_after(next, left);
        phase = next;
    }
    if phase == AHEAD {
        return Some(text.len());
    }
    None
}
