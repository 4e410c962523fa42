// A class for each record by its key and its value, found key by key, so that it takes one look at what a value was last seen at.
ghost use Rattle.std.specs.Prelude.{◌+◌, ◌≤◌, ◌<◌, ◌≡◌, length};
ghost use Rattle.columns.specs.Chains.{past_last};
ghost use Rattle.crowds.specs.Crowds.{at};
ghost use Rattle.distinct.specs.Classes.{Valued, Pairs, has_key, Linked, Classed, Stand};

use columns::LIMIT;
use columns::chains::{Links, chain};
use numbers::index;

// The keys and the values of n records.
#[derive(Clone, Copy)]
pub struct Values<'a> {
    pub key: &'a [u16],
    pub rep: &'a [u16],
    pub n: usize,
}

// The class of record x: the record that its value was last seen at, if that has the key and the value of x, else x itself, which is then
// where the value was last seen at. Cost: at most six looks and a store.
fn pair_of(v: Values, x: usize, whose: &mut [u16]) -> u16
    requires { Valued v.key.now v.rep.now v.n × (v.n ≤ length whose.old) × (x < v.n) }
    ensures { Classed v.entry.key.now v.entry.rep.now v.entry.n x whose.old whose.new result }
{
    let r = index(v.rep[x]);
    let seen = whose[r];
    let y = index(seen);
    if y < v.n {
        if (v.key[y] == v.key[x]) & (v.rep[y] == v.rep[x]) {
            return seen;
        }
    }
    whose[r] = x as u16;
    x as u16
}

// Gives the records of key k their classes, down along their chain. Cost: a look at its end, and seven looks and two stores for each.
fn pair_chain(v: Values, links: &Links, k: usize, whose: &mut [u16], pair: &mut [u16])
    requires { Valued v.key.now v.rep.now v.n × Linked v.key.now v.n links.now.last links.now.lower × (v.n ≤ length whose.old) × (v.n ≤ length pair.old) × (k < v.n) × Stand v.key.now v.rep.now v.n k v.n whose.old pair.old }
    ensures { Stand v.entry.key.now v.entry.rep.now v.entry.n (k + 1) v.entry.n whose.new pair.new }
{
    let mut past = index(links.last[k]);
    // a while: it follows links
    while 0 < past {
        let x = past - 1;
        pair[x] = pair_of(v, x, whose);
        past = index(links.lower[x]);
    }
}

// Gives the records their classes, key by key. Cost: a look for each key, and seven looks and two stores for each record.
fn pair_keys(v: Values, links: &Links, whose: &mut [u16], pair: &mut [u16])
    requires { Valued v.key.now v.rep.now v.n × Linked v.key.now v.n links.now.last links.now.lower × (v.n ≤ length whose.old) × (v.n ≤ length pair.old) × Stand v.key.now v.rep.now v.n 0 v.n whose.old pair.old }
    ensures { Pairs v.entry.key.now v.entry.rep.now v.entry.n pair.new }
{
    for k in 0..v.n {
        pair_chain(v, links, k, whose, pair);
    }
}

// For each of n records with a key below n a class below n: two have one class exactly where they have one key and one value. LIMIT for a record
// without key. Cost: a pass that chains the records by their keys, and a look for each key, seven and two stores for each record.
pub fn pairs_of(v: Values) -> [u16; LIMIT]
    requires { Valued v.key.now v.rep.now v.n }
    ensures { Pairs v.entry.key.now v.entry.rep.now v.entry.n result }
{
    let kinds = [0u8; LIMIT];
    let links = chain(&kinds[..v.n], v.key, 0);
    let mut whose = [0u16; LIMIT];
    let mut pair = [LIMIT as u16; LIMIT];
    pair_keys(v, &links, &mut whose, &mut pair);
    pair
}
