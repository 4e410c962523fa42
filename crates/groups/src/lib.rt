// Item numbers: a class for each version by its item number, and the field versions under one item number as a chain.
#![tactic(auto)]

ghost use Rattle.std.specs.Prelude.{◌≡◌, ℕ, ◌<◌, ◌≤◌, length, get_or};
ghost use Rattle.meaning.specs.declared.Rule.{Rule};
ghost use Rattle.meaning.specs.Document.{Doc};
ghost use Rattle.meaning.specs.Block.{limit};
ghost use Rattle.columns.specs.Lent.{Lends, NumbersOf};
ghost use Rattle.columns.specs.Judgeable.{Judgeable};
ghost use Rattle.prepare.specs.Keys.{Keys};
ghost use Rattle.groups.specs.Groups.{Groups, Gathered};
ghost use Rattle.groups.specs.Classes.{document, Chained, Class, ClassedBelow, class_at};

use columns::chains::{Links, buckets, chain, namesake};
use columns::{LIMIT, Records};
use numbers::index;

// The columns of a document, and its items chained by a key: `twin` leads from each item down to the next lower one of its key.
#[derive(Clone, Copy)]
struct Nest<'a> {
    records: Records<'a>,
    twin: &'a [u16],
}

// The class of item i, given those of the records below it: that of a lower item of its number, or i itself where there is none.
// Cost: that of `namesake`.
fn class_of_item(nest: Nest, class: &[u16], i: usize) -> u16
    requires { Chained nest × (length nest.records.kind.now ≤ length class.now) × (i < length nest.records.kind.now) × ClassedBelow (document nest) i class.now × (get_or nest.records.kind.now i 0 ≡ 1) }
    ensures { Class (document nest.entry) i result }
{
    let j = namesake(nest.records.kind, nest.records.item, nest.twin, i);
    if j < i {
        return class[j];
    }
    i as u16
}

// The class of record i, given those of the records below it: for a version that of its item; 0 for one that is neither item nor version.
// The looks of an item, or one.
fn class_of(nest: Nest, class: &[u16], i: usize) -> u16
    requires { Chained nest × (length nest.records.kind.now ≤ length class.now) × (i < length nest.records.kind.now) × ClassedBelow (document nest) i class.now }
    ensures { Class (document nest.entry) i result }
{
    if nest.records.kind[i] == 1 {
        return class_of_item(nest, class, i);
    }
    if nest.records.kind[i] == 2 {
        let above = index(nest.records.parent[i]);
        return class[above];
    }
    0
}

// The classes of all records, by the chains of items that share a key. Cost: the looks of each.
fn classes(nest: Nest) -> [u16; LIMIT]
    requires { Chained nest }
    ensures { (length result ≡ limit) × ClassedBelow (document nest.entry) (length nest.entry.records.kind.now) result }
{
    let mut class = [0u16; LIMIT];
    for i in 0..nest.records.kind.len() {
        class[i] = class_of(nest, &class, i);
    }
    class
}

// A class for each version of a document, by its item number.
// Cost: three passes over the columns where the keys of the items differ, and a look for each pair of items with one key at worst.
pub fn group(records: Records<'_>) -> [u16; LIMIT]
    requires { (doc : Doc) × NumbersOf doc records × Judgeable doc }
    ensures { (doc : Doc) → NumbersOf doc records.entry → Groups doc result }
{
    let key = buckets(records.item);
    let items = chain(records.kind, &key, 1);
    let twin = items.lower;
    classes(Nest {
        records,
        twin: &twin,
    })
}

// The class of the version v, of n; LIMIT, which has no chain, where v is none. Cost: one look.
pub fn class_at(groups: &[u16], n: usize, v: u16) -> u16
    requires { n ≤ length groups.now }
    ensures { result ≡ class_at groups.now n v }
{
    let at = index(v);
    if at < n {
        return groups[at];
    }
    LIMIT as u16
}

// Puts the class of its key for each of n records into a lent column. Cost: one pass over them.
pub fn class_keys(key: &[u16], groups: &[u16], n: usize, out: &mut [u16])
    requires { (n ≤ length key.now) × (n ≤ length groups.now) × (n ≤ length out.old) }
    ensures { (f : ℕ) → f < n → get_or out.new f 0 ≡ class_at groups.now n (get_or key.now f 0) }
{
    for f in 0..n {
        out[f] = class_at(groups, n, key[f]);
    }
}

// The field versions under each item number, chained by the class of the version in whose row they are. Cost: two passes over the records.
pub fn gather(kind: &[u8], key: &[u16], groups: &[u16]) -> Links
    requires { (length kind.now ≤ limit) × (length kind.now ≤ length key.now) × (length kind.now ≤ length groups.now) }
    ensures { (doc : Doc) (rule : Rule) → Lends doc.size doc.kind 0 kind.now → Keys doc rule key.now → Groups doc groups.now → Gathered doc rule groups.now result.last result.lower }
{
    let mut class = [0u16; LIMIT];
    class_keys(key, groups, kind.len(), &mut class);
    chain(kind, &class, 2)
}
