// The records of one kind, chained by a key, so that those with one key are found without a look at the others: versions by
// their item, items by their number.
ghost use Rattle.std.specs.Prelude.{◌≡◌, ◌<◌, ◌≤◌, ◌%◌, length, get_or};
ghost use Rattle.meaning.specs.Block.{limit};
ghost use Rattle.columns.specs.Chains.{Chained, Grouped, Twins, Namesake, numbered};

use crate::LIMIT;
use numbers::index;

// For each key the last record that has it, and for each record the one before it that has its key; counted from one, 0 for none.
#[derive(Drop)]
pub struct Links {
    pub last: [u16; LIMIT],
    pub lower: [u16; LIMIT],
}

// The records of the kind `want`, chained by their keys; a key from LIMIT on has no chain. Cost: one pass over the columns.
pub fn chain(kind: &[u8], key: &[u16], want: u8) -> Links
    requires { (length kind.now ≤ limit) × (length kind.now ≤ length key.now) }
    ensures { Chained limit kind.now key.now want (length kind.now) result.last result.lower }
{
    let mut last = [0u16; LIMIT];
    let mut lower = [0u16; LIMIT];
    for i in 0..kind.len() {
        let k = index(key[i]);
        if kind[i] == want && k < LIMIT {
            lower[i] = last[k];
            last[k] = (i + 1) as u16;
        }
    }
    Links { last, lower }
}

// The keys of a column of item numbers, each one of LIMIT: numbers that differ seldom share one. Cost: one pass over it.
pub fn buckets(item: &[u32]) -> [u16; LIMIT]
    requires { length item.now ≤ limit }
    ensures { Grouped limit item.now result }
{
    let mut key = [0u16; LIMIT];
    for (i, number) in item.iter().enumerate() {
        key[i] = (*number % (LIMIT as u32)) as u16;
    }
    key
}

// The next lower item of the number of item i, down the chain of its key, or i itself where there is none.
// Cost: a look for each lower item of its key, down to the first of its number.
pub fn namesake(kind: &[u8], item: &[u32], twin: &[u16], i: usize) -> usize
    requires { (length item.now ≡ length kind.now) × (i < length kind.now) × (get_or kind.now i 0 ≡ 1) × Twins (numbered kind.now item.now) twin.now }
    ensures { Namesake (numbered kind.now item.now) i result }
{
    let number = item[i];
    let mut past_j = index(twin[i]);
    // a while: it follows the links of the chain
    while 0 < past_j {
        if item[past_j - 1] == number {
            return past_j - 1;
        }
        past_j = index(twin[past_j - 1]);
    }
    i
}
