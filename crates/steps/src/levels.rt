// The levels of field versions in the four stacks in which one is sought, and the bounds below which it is sought there.
ghost use Rattle.std.specs.Prelude.{◌≡◌, ◌-◌, ◌<◌, ◌≤◌, pos, length, get_or};
ghost use Rattle.std.specs.Int.Signed.{mag};
ghost use Rattle.steps.specs.Levels.{raised, level_of, bound_of, Placed, Levelled};

use columns::{LIMIT, Records};
use numbers::index;

// The stack of ends, that of begins counted down, that of values, and that of values counted down.
pub const ENDS: u8 = 0;

pub const BEGINS: u8 = 1;

pub const VALUES: u8 = 2;

pub const TURNED: u8 = 3;

// The level of a text among values, above every bound.
const TEXT: u64 = 17179869184;

// A signed number moved up, so that the least is 0. Cost: one test.
pub fn raised(z: i32) -> u64
    ensures { (result ≡ raised z) × (result < 4294967296) }
{
    let size = numbers::magnitude(z) as u64;
    if numbers::at_least_zero(z) {
        return 2147483648 + size;
    }
    2147483647 - size
}

// The level of a field version in a stack. Cost: at most four tests.
fn level_of(which: u8, vkind: u8, value: i32, begin: u16, end: u16) -> u64
    ensures { result ≡ level_of which vkind value begin end }
{
    if which == ENDS {
        return end as u64;
    }
    if which == BEGINS {
        return 65535 - (begin as u64);
    }
    if vkind != 1 {
        return TEXT;
    }
    if which == VALUES {
        return raised(value);
    }
    4294967295 - raised(value)
}

// The level of record p, whose value is a number of 32 bits. Cost: that of the level, and four looks.
fn level_at(which: u8, records: Records, p: usize) -> u64
    requires { (p < length records.vkind.now) × (length records.vkind.now ≤ length records.value.now) × (length records.vkind.now ≤ length records.begin.now) × (length records.vkind.now ≤ length records.end.now) }
    ensures { (result ≡ level_of which (get_or records.entry.vkind.now p 0) (get_or records.entry.value.now p (pos 0)) (get_or records.entry.begin.now p 0) (get_or records.entry.end.now p 0)) × (mag (get_or records.entry.value.now p (pos 0)) < 2147483648) }
{
    level_of(
        which,
        records.vkind[p],
        records.value[p],
        records.begin[p],
        records.end[p],
    )
}

// The bound for a search in a stack. Cost: at most three tests.
pub fn bound_of(which: u8, z: i32, low: i32, high: i32, day: u16) -> u64
    ensures { result ≡ bound_of which z low high day }
{
    if which == ENDS {
        return (day as u64) + 1;
    }
    if which == BEGINS {
        return 65536 - (day as u64);
    }
    if which == VALUES {
        return (raised(z) + 2147483648).saturating_sub(raised(high));
    }
    (raised(low) + 2147483647).saturating_sub(raised(z))
}

// The levels of the records in an order. Cost: one pass over it.
pub fn levels(which: u8, records: Records, order: &[u16]) -> [u64; LIMIT]
    requires { (length records.vkind.now ≤ length records.value.now) × (length records.vkind.now ≤ length records.begin.now) × (length records.vkind.now ≤ length records.end.now) × Placed (length records.vkind.now) order.now }
    ensures { Levelled which records.entry.vkind.now records.entry.value.now records.entry.begin.now records.entry.end.now order.now result }
{
    let mut out = [0u64; LIMIT];
    for (j, p) in order.iter().enumerate() {
        out[j] = level_at(which, records, index(*p));
    }
    out
}
