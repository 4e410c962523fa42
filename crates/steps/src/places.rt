// Chains along an order of the field versions, and what is read off at its places.
ghost use Rattle.std.specs.Prelude.{◌≡◌, ℕ, ◌<◌, ◌≤◌, length, get_or};
ghost use Rattle.meaning.specs.Block.{limit};
ghost use Rattle.groups.specs.Classes.{class_at};
ghost use Rattle.steps.specs.Greatest.{greater};
ghost use Rattle.steps.specs.Levels.{Placed};
ghost use Rattle.steps.specs.Places.{Threaded, end_at, settled_as};

use columns::LIMIT;
use columns::chains::{Links, chain};
use groups::class_at;
use numbers::index;

// What stands for the reach of a value that is no number: it is wrong in every window.
pub const EVER: u16 = 65535;

// The class of the key of record f, of n. Cost: two looks.
fn class_of_key(key: &[u16], group: &[u16], n: usize, f: usize) -> u16
    requires { (f < n) × (n ≤ length key.now) × (n ≤ length group.now) }
    ensures { result ≡ class_at group.now n (get_or key.now f 0) }
{
    class_at(group, n, key[f])
}

// The classes along an order of n records. Cost: one pass over it.
fn class_places(key: &[u16], group: &[u16], order: &[u16], n: usize) -> [u16; LIMIT]
    requires { (n ≤ length key.now) × (n ≤ length group.now) × Placed n order.now }
    ensures { (length result ≡ limit) × ((j : ℕ) → j < length order.now → get_or result j 0 ≡ class_at group.now n (get_or key.now (get_or order.now j 0) 0)) }
{
    let mut out = [0u16; LIMIT];
    for (j, p) in order.iter().enumerate() {
        out[j] = class_of_key(key, group, n, index(*p));
    }
    out
}

// The field versions under each item number, chained along an order of n records. Cost: two passes over it.
pub fn thread(key: &[u16], group: &[u16], order: &[u16], n: usize) -> Links
    requires { (n ≤ limit) × (n ≤ length key.now) × (n ≤ length group.now) × Placed n order.now }
    ensures { Threaded n key.now group.now order.now result.last result.lower }
{
    let class = class_places(key, group, order, n);
    let kinds = [2u8; LIMIT];
    chain(&kinds[0..order.len()], &class, 2)
}

// The last place of a class; 0, none, where there is no such class. Cost: one look.
fn last_of(last: &[u16], class: u16) -> u16
    ensures { result ≡ get_or last.now class 0 }
{
    let k = index(class);
    if k < last.len() {
        return last[k];
    }
    0
}

// For each of n records the last place of those under its item number. Cost: one pass over the records.
pub fn lasts(key: &[u16], group: &[u16], last: &[u16], n: usize) -> [u16; LIMIT]
    requires { (n ≤ limit) × (n ≤ length key.now) × (n ≤ length group.now) }
    ensures { (length result ≡ limit) × ((f : ℕ) → f < n → get_or result f 0 ≡ get_or last.now (class_at group.now n (get_or key.now f 0)) 0) }
{
    let mut out = [0u16; LIMIT];
    for f in 0..n {
        out[f] = last_of(last, class_of_key(key, group, n, f));
    }
    out
}

// The end of the record at a place counted from one; 0 at 0. Cost: two looks.
fn end_at(end: &[u16], order: &[u16], place: u16) -> u16
    requires { (place ≤ length order.now) × Placed (length end.now) order.now }
    ensures { result ≡ end_at end.now order.now place }
{
    if place == 0 {
        return 0;
    }
    let p = index(order[index(place) - 1]);
    end[p]
}

// For each of n records the end at the later of two places. Cost: one pass over the records.
pub fn later_ends(
    end: &[u16],
    order: &[u16],
    above: &[u16],
    beneath: &[u16],
    n: usize,
) -> [u16; LIMIT]
    requires { (n ≤ limit) × (n ≤ length above.now) × (n ≤ length beneath.now) × Placed (length end.now) order.now × ((f : ℕ) → f < n → get_or above.now f 0 ≤ length order.now) × ((f : ℕ) → f < n → get_or beneath.now f 0 ≤ length order.now) }
    ensures { (length result ≡ limit) × ((f : ℕ) → f < n → get_or result f 0 ≡ end_at end.now order.now (greater (get_or above.now f 0) (get_or beneath.now f 0))) }
{
    let mut out = [0u16; LIMIT];
    for f in 0..n {
        let later = above[f].max(beneath[f]);
        out[f] = end_at(end, order, later);
    }
    out
}

// The reach of a record with the key v, of n, given the latest end of a wrong step to it, and a place of one that parts the two. Cost: three tests.
fn settled(v: u16, n: usize, vkind: u8, until: u16, parting: u16) -> u16
    ensures { result ≡ settled_as v n vkind until parting }
{
    if n <= index(v) {
        return 0;
    }
    if vkind != 1 {
        return EVER;
    }
    if parting == 0 {
        return until;
    }
    0
}

// The reach of each record. Cost: one pass over the records.
pub fn answers(key: &[u16], vkind: &[u8], until: &[u16], parting: &[u16]) -> [u16; LIMIT]
    requires { (length vkind.now ≤ limit) × (length vkind.now ≤ length key.now) × (length vkind.now ≤ length until.now) × (length vkind.now ≤ length parting.now) }
    ensures { (length result ≡ limit) × ((f : ℕ) → f < length vkind.now → get_or result f 0 ≡ settled_as (get_or key.now f 0) (length vkind.now) (get_or vkind.now f 0) (get_or until.now f 0) (get_or parting.now f 0)) }
{
    let mut out = [0u16; LIMIT];
    for f in 0..vkind.len() {
        out[f] = settled(key[f], vkind.len(), vkind[f], until[f], parting[f]);
    }
    out
}

// The reach of each record where no step is wrong: 0, but for what is no number. Cost: one pass over the records.
pub fn unmoved(key: &[u16], vkind: &[u8]) -> [u16; LIMIT]
    requires { (length vkind.now ≤ limit) × (length vkind.now ≤ length key.now) }
    ensures { (length result ≡ limit) × ((f : ℕ) → f < length vkind.now → get_or result f 0 ≡ settled_as (get_or key.now f 0) (length vkind.now) (get_or vkind.now f 0) 0 0) }
{
    let mut out = [0u16; LIMIT];
    for f in 0..vkind.len() {
        out[f] = settled(key[f], vkind.len(), vkind[f], 0, 0);
    }
    out
}
