// Columns for the passes, put into lent ones, made of what a rule picks out: a record without a key has LIMIT.
ghost use Rattle.std.specs.Prelude.{◌≤◌, length};
ghost use Rattle.meaning.specs.Block.{limit};
ghost use Rattle.parts.specs.Keyed.{Numbered, DemandKeys, ValueKeys};

use columns::LIMIT;
use numbers::index;

// Each of n records by its own number. Cost: one pass.
pub fn numbered(n: usize, out: &mut [u16])
    requires { (n ≤ limit) × (n ≤ length out.old) }
    ensures { Numbered n out.new }
{
    for i in 0..n {
        out[i] = i as u16;
    }
}

// Each marked one of n records by its class. Cost: one pass.
pub fn demand_keys(marks: &[u8], class: &[u16], n: usize, out: &mut [u16])
    requires { (n ≤ length marks.now) × (n ≤ length class.now) × (n ≤ length out.old) }
    ensures { DemandKeys n marks.now class.now out.new }
{
    for i in 0..n {
        out[i] = if marks[i] == 1 {
            class[i]
        } else {
            LIMIT as u16
        };
    }
}

// Each of n records that is in a row by the representative of its value. Cost: one pass.
pub fn value_keys(row: &[u16], rep: &[u16], n: usize, out: &mut [u16])
    requires { (n ≤ length row.now) × (n ≤ length rep.now) × (n ≤ length out.old) }
    ensures { ValueKeys n row.now rep.now out.new }
{
    for i in 0..n {
        out[i] = if index(row[i]) < n {
            rep[i]
        } else {
            LIMIT as u16
        };
    }
}
