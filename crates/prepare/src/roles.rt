// What a rule makes of one record, in one look at the record, its item and the version above.
ghost use Rattle.std.specs.Prelude.{◌≡◌, ℕ, ◌<◌, length, get_or};
ghost use Rattle.meaning.specs.Block.{limit};
ghost use Rattle.meaning.specs.Document.{Doc};
ghost use Rattle.columns.specs.Lent.{TreeOf, ValuesOf};
ghost use Rattle.prepare.specs.Descent.{Left, DescendsIn};
ghost use Rattle.prepare.specs.Acting.{owner_of, Acts};

use crate::rows::wanted;
use crate::select::{left_after, left_before};
use columns::{LIMIT, Records};
use meaning::Rule;
use numbers::index;

// What is left of the path below a record, the version in whose row it is, LIMIT for none, and its mark as one that is read.
#[derive(Clone, Copy)]
pub struct Role {
    pub left: u8,
    pub row: u16,
    pub read: u8,
}

// The selected version of which version i is a field version; a number that is no record's for none, as what stands above the root is.
// Cost: at most three tests.
fn owner_of(field: u16, name: u16, above: u16, before: u8, left: u8, i: usize) -> u16
    requires { i < limit }
    ensures { result ≡ owner_of field name above before left i }
{
    if field == 0 {
        if left == 1 {
            return i as u16;
        }
        return LIMIT as u16;
    }
    if (name == field) & (before == 1) {
        return above;
    }
    LIMIT as u16
}

// The role of record i, given what is left below those before it. Cost: at most nine looks.
pub fn role_of(records: Records<'_>, left: &[u8], path: &[u16; 8], rule: Rule, i: usize) -> Role
    requires { DescendsIn records left.now rule.steps i × (i < length records.vkind.now) × (i < length records.value.now) }
    ensures { (doc : Doc) → TreeOf doc records.entry → ValuesOf doc records.entry → rule.path ≡ path.now → ((w : ℕ) → w < i → Left doc rule w (get_or left.now w 0)) → Acts doc rule i result.left result.row result.read }
{
    if records.kind[i] != 2 {
        return Role {
            left: 0,
            row: LIMIT as u16,
            read: 0,
        };
    }
    let item = index(records.parent[i]);
    let before = left_before(records.parent, left, rule.steps, item);
    let here = left_after(path, rule.steps, before, records.name[item]);
    let owner = owner_of(
        rule.field,
        records.name[item],
        records.parent[item],
        before,
        here,
        i,
    );
    if records.kind.len() <= index(owner) {
        return Role {
            left: here,
            row: owner,
            read: here,
        };
    }
    if wanted(records.vkind[i], records.value[i], rule) {
        return Role {
            left: here,
            row: owner,
            read: 1,
        };
    }
    Role {
        left: here,
        row: LIMIT as u16,
        read: 1,
    }
}
