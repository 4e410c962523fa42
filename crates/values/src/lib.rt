// A representative for each version, equal exactly for equal values, so that two values are compared by comparing two numbers.
#![tactic(auto)]

ghost use Rattle.std.specs.Prelude.{◌≡◌, [], map, ◌<◌, ◌≤◌, length, get_or};
ghost use Rattle.std.specs.Int.Signed.{mag};
ghost use Rattle.meaning.specs.Document.{Doc};
ghost use Rattle.meaning.specs.Select.{same_value};
ghost use Rattle.meaning.specs.Block.{limit};
ghost use Rattle.columns.specs.Chains.{Grouped};
ghost use Rattle.columns.specs.Lent.{ValuesOf};
ghost use Rattle.values.specs.Represents.{Represents};
ghost use Rattle.values.specs.Chosen.{EvenOf, held, held_by, Chosen, ChosenBelow, ByValue};

use columns::chains::chain;
use columns::{LIMIT, Records};
use numbers::{index, magnitude};

// Whether records f, which is no nil, and g have equal values.
fn same_value(vkind: &[u8], value: &[i32], f: usize, g: usize) -> bool
    requires { (length value.now ≡ length vkind.now) × (f < length vkind.now) × (g < length vkind.now) × (get_or vkind.now f 0 ≡ 3 → ⊥) }
    ensures { result ≡ same_value (held [] vkind.now value.now) f g }
{
    (vkind[f] == vkind[g]) & numbers::same(value[f], value[g])
}

// The keys of a column of values, each one of LIMIT: values that differ seldom share one. Cost: one pass over it.
fn keys(value: &[i32]) -> [u16; LIMIT]
    requires { length value.now ≤ limit }
    ensures { Grouped limit (map mag value.now) result }
{
    let mut key = [0u16; LIMIT];
    for i in 0..value.len() {
        key[i] = (magnitude(value[i]) % (LIMIT as u32)) as u16;
    }
    key
}

// The representative of record f, given those of the records below it: for a version that of a lower one with its value, or f itself where
// there is none, as for a nil; 0 for any other record. A look for each lower version of its key, down to the first with its value.
fn representative(records: Records<'_>, lower: &[u16], rep: &[u16], f: usize) -> u16
    requires { EvenOf records × ByValue (held_by records) lower.now × (length records.kind.now ≤ length rep.now) × (f < length records.kind.now) × ChosenBelow (held_by records) f rep.now }
    ensures { Chosen (held_by records.entry) f result }
{
    if records.kind[f] != 2 {
        return 0;
    }
    if records.vkind[f] == 3 {
        return f as u16;
    }
    let mut past_g = index(lower[f]);
    // a while: it follows the links of the chain
    while 0 < past_g {
        if same_value(records.vkind, records.value, f, past_g - 1) {
            return rep[past_g - 1];
        }
        past_g = index(lower[past_g - 1]);
    }
    f as u16
}

// The representatives of all records, by the chains of versions that share a key.
fn represent_chained(records: Records<'_>, lower: &[u16]) -> [u16; LIMIT]
    requires { EvenOf records × ByValue (held_by records) lower.now }
    ensures { (length result ≡ limit) × ChosenBelow (held_by records.entry) (length records.entry.kind.now) result }
{
    let mut rep = [0u16; LIMIT];
    for f in 0..records.kind.len() {
        rep[f] = representative(records, lower, &rep, f);
    }
    rep
}

// A representative for each record of a document; 0 for one that is no version.
// Cost: three passes over the columns where the keys of the versions differ, and a look for each pair of versions with one key at worst.
pub fn represent(records: Records<'_>) -> [u16; LIMIT]
    requires { (doc : Doc) × ValuesOf doc records × (doc.size ≤ limit) }
    ensures { (doc : Doc) → ValuesOf doc records.entry → Represents doc result }
{
    let key = keys(records.value);
    let versions = chain(records.kind, &key, 2);
    let lower = versions.lower;
    represent_chained(records, &lower)
}
