// Numbers in bytes, little-endian, and signed numbers: read, written, compared and subtracted; numbers of a column as indices. Every proof on signed values stands in this crate.
#![tactic(auto)]

ghost use Rattle.std.specs.Prelude.{◌≡◌, ◌&&◌, ◌+◌, ◌≤◌, pos, ◌-ℤ◌, length};
ghost use Rattle.std.specs.Int.Signed.{le_z, mag};
ghost use Rattle.meaning.specs.Bytes.{two, four, signed, eq_z, bits};

pub mod field; // field.rt: a number read from bytes and put into them, for each type of entry

// A record's number or a day out of a column, as an index.
pub fn index(x: u16) -> usize
    ensures { result ≡ x }
{
    usize::from(x)
}

// The number in two bytes.
pub fn two_at(s: &[u8], at: usize) -> u16
    requires { at + 2 ≤ length s.now }
    ensures { result ≡ two s.now at }
{
    u16::from_le_bytes([s[at], s[at + 1]])
}

// The number in four bytes.
pub fn four_at(s: &[u8], at: usize) -> u32
    requires { at + 4 ≤ length s.now }
    ensures { result ≡ four s.now at }
{
    u32::from_le_bytes([s[at], s[at + 1], s[at + 2], s[at + 3]])
}

// The signed number of which x has the bits.
#[tactic(auto, using(crate::proofs::Signs::casts))]
pub fn signed_of(x: u32) -> i32
    ensures { result ≡ signed x }
{
    x.cast_signed()
}

// The signed number in four bytes.
pub fn signed_at(s: &[u8], at: usize) -> i32
    requires { at + 4 ≤ length s.now }
    ensures { result ≡ signed (four s.now at) }
{
    signed_of(four_at(s, at))
}

// The bits of a signed number, as an unsigned one.
#[tactic(auto, using(crate::proofs::Signs::casts))]
pub fn bits_of(z: i32) -> u32
    ensures { result ≡ bits z }
{
    z.cast_unsigned()
}

pub fn same(a: i32, b: i32) -> bool
    ensures { result ≡ eq_z a b }
{
    a == b
}

pub fn is_zero(z: i32) -> bool
    ensures { result ≡ eq_z z (pos 0) }
{
    z == 0
}

pub fn at_most(a: i32, b: i32) -> bool
    ensures { result ≡ le_z a b }
{
    a <= b
}

pub fn at_least_zero(z: i32) -> bool
    ensures { result ≡ le_z (pos 0) z }
{
    0 <= z
}

// The magnitude of z: z itself from 0 up, and n for -1 - n, so that every i32 has one.
pub fn magnitude(z: i32) -> u32
    ensures { result ≡ mag z }
{
    if 0 <= z {
        return z as u32;
    }
    (-1 - z) as u32
}

// What holds every difference of two i32.
pub type Wide = i64;

// q minus p, exactly: each is widened first.
pub fn difference(q: i32, p: i32) -> Wide
    ensures { result ≡ q -ℤ p }
{
    Wide::from(q) - Wide::from(p)
}

// Whether z lies from low to high.
pub fn in_range(z: i32, low: i32, high: i32) -> bool
    ensures { result ≡ (le_z low z && le_z z high) }
{
    (low <= z) & (z <= high)
}

// Whether the step from p to q lies from low to high.
pub fn step_in_range(q: i32, p: i32, low: i32, high: i32) -> bool
    ensures { result ≡ (le_z low (q -ℤ p) && le_z (q -ℤ p) high) }
{
    let step = difference(q, p);
    (Wide::from(low) <= step) & (step <= Wide::from(high))
}
