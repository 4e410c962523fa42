// The only value of each version that a rule selects, and whether one of them is equal to a given one.
ghost use Rattle.std.specs.Prelude.{◌≡◌, Bool, ℕ, ◌≤◌, ◌<◌, length};
ghost use Rattle.meaning.specs.declared.Rule.{Rule};
ghost use Rattle.meaning.specs.Document.{Doc};
ghost use Rattle.meaning.specs.Walk.{any};
ghost use Rattle.meaning.specs.Select.{selected, same_value};
ghost use Rattle.marks.specs.Marks.{Marks};
ghost use Rattle.literal.specs.Laid.{RoomsIn, LaidIn, Valued};
ghost use Rattle.literal.specs.Only.{OnlyOf, Only, Inside, shares_at};

use crate::fields::values;
use columns::{LIMIT, Records};
use numbers::index;

// One past the record that gives version u its value, where u is chosen and present and has one value only; else 0. Cost: a look at each record.
fn only_value(records: Records<'_>, chosen: &[u8], present: &[u8], field: u16, u: usize) -> u16
    requires { (u < length records.kind.now) × (length records.kind.now ≤ length chosen.now) × RoomsIn records present.now }
    ensures { (result ≤ length records.entry.kind.now) × ((doc : Doc) (p : ℕ → Bool) (q : Rule) → LaidIn doc p records.entry present.now → q.field ≡ field → Marks (selected doc q) doc.size chosen.now → OnlyOf doc p q u result) }
{
    if !((chosen[u] == 1) & (present[u] == 1)) {
        return 0;
    }
    let t = values(records, present, field, u);
    if t.many != 1 {
        return 0;
    }
    (t.only + 1) as u16
}

// The same for each record. Cost: a look at each record for each version that is chosen and present.
pub fn only_values(records: Records<'_>, chosen: &[u8], present: &[u8], field: u16) -> [u16; LIMIT]
    requires { (length records.kind.now ≤ length chosen.now) × RoomsIn records present.now }
    ensures { Inside (length records.entry.kind.now) result × ((doc : Doc) (p : ℕ → Bool) (q : Rule) → LaidIn doc p records.entry present.now → q.field ≡ field → Marks (selected doc q) doc.size chosen.now → Only doc p q result) }
{
    let mut only = [0u16; LIMIT];
    for u in 0..records.kind.len() {
        only[u] = only_value(records, chosen, present, field, u);
    }
    only
}

// Whether records f and g have equal values: kind and number are, and f is no nil, which equals nothing. Cost: four looks.
fn same_value(vkind: &[u8], value: &[i32], f: usize, g: usize) -> bool
    requires { (f < length vkind.now) × (g < length vkind.now) × (length vkind.now ≤ length value.now) }
    ensures { (doc : Doc) → Valued doc vkind.now value.now → result ≡ same_value doc f g }
{
    let k = vkind[f];
    (k == vkind[g]) & numbers::same(value[f], value[g]) & (k != 3)
}

// Whether version u has an only value, equal to that of record f. Cost: five looks.
fn shares(vkind: &[u8], value: &[i32], only: &[u16], f: usize, u: usize) -> bool
    requires { (f < length vkind.now) × (u < length vkind.now) × (length vkind.now ≤ length value.now) × Inside (length vkind.now) only.now }
    ensures { (doc : Doc) → Valued doc vkind.now value.now → result ≡ shares_at doc only.now f u }
{
    let past = index(only[u]);
    if past == 0 {
        return false;
    }
    same_value(vkind, value, f, past - 1)
}

// Whether some version below `upto` has an only value equal to that of record f. Cost: five looks for each.
pub fn shared(vkind: &[u8], value: &[i32], only: &[u16], upto: usize, f: usize) -> bool
    requires { (f < length vkind.now) × (upto ≤ length vkind.now) × (length vkind.now ≤ length value.now) × Inside (length vkind.now) only.now }
    ensures { (doc : Doc) → Valued doc vkind.now value.now → result ≡ any (shares_at doc only.now f) 0 upto }
{
    for u in 0..upto {
        if shares(vkind, value, only, f, u) {
            return true;
        }
    }
    false
}
