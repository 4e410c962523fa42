// The tests 4, 5, 6 and 8, record by record: a record is gathered from the columns, decoded, and its depth kept in a column.
ghost use Rattle.std.specs.Prelude.{◌≡◌, [], ◌<◌, ◌≤◌, length, get_or};
ghost use Rattle.meaning.specs.Document.{columns, node};
ghost use Rattle.meaning.specs.Nodes.{item_fields, version_fields, parent_fits, deepest, read_record};
ghost use Rattle.meaning.specs.Order.{earliest};
ghost use Rattle.document.specs.Columns.{EvenBy, doc_in};
ghost use Rattle.document.specs.Decoding.{decoded, depth_by};

use columns::{LIMIT, Records};
use meaning::{Node, Refusal};
use numbers::index;

// The most items on the way from the root to an item.
const DEEPEST: u8 = 8;

// 5: the table's column for an item.
fn item_fields(n: Node) -> bool
    ensures { result ≡ item_fields n }
{
    let zero = numbers::is_zero(n.value);
    (n.kind == 1)
        & (n.vkind == 0)
        & (1 <= n.name)
        & (n.name <= 65534)
        & (n.begin == 0)
        & (n.end == 0)
        & zero
        & (1 <= n.item)
}

// 5: the table's column for a version.
fn version_fields(n: Node) -> bool
    ensures { result ≡ version_fields n }
{
    let zero = numbers::is_zero(n.value);
    let not_below = numbers::at_least_zero(n.value);
    (n.kind == 2)
        & (n.vkind <= 3)
        & (n.name == 0)
        & ((n.begin < n.end) & (n.end <= 36525))
        & ((n.vkind == 1) | (n.vkind == 2) | zero)
        & ((n.vkind != 2) | not_below)
        & (n.item == 0)
}

// 4, then 5: a record by itself, or the number of the test that it fails.
fn decode(n: Node) -> Result<Node, usize>
    ensures { result ≡ decoded n }
{
    if n.spare != 0 {
        return Err(4);
    }
    if item_fields(n) | version_fields(n) {
        return Ok(n);
    }
    Err(5)
}

// Record i, its fields together.
fn gather(records: Records<'_>, spare: &[u16], i: usize) -> Node
    requires even { EvenBy records spare.now }
    requires i_in_bounds { i < length records.kind.now }
    ensures { result ≡ node (doc_in records.entry spare.now) i }
{
    Node {
        kind: records.kind[i],
        vkind: records.vkind[i],
        name: records.name[i],
        parent: records.parent[i],
        begin: records.begin[i],
        end: records.end[i],
        value: records.value[i],
        item: records.item[i],
        spare: spare[i],
    }
}

// 6: whether the parent of record i fits: record 0 is an item and has none, any other has a lower one of the other kind.
fn parent_fits(kind: &[u8], parent: &[u16], i: usize) -> bool
    requires { (i < length kind.now) × (length parent.now ≡ length kind.now) }
    ensures { result ≡ parent_fits (columns kind.now [] [] parent.now [] [] [] [] []) i }
{
    let k = kind[i];
    let p = index(parent[i]);
    if i == 0 {
        return (k == 1) & (p == 65535);
    }
    if i <= p {
        return false;
    }
    let a = kind[p];
    ((k == 1) & (a == 2)) | ((k == 2) & (a == 1))
}

// 8: the items from record i up to the root, where `deep` holds how many there are from its parent.
fn depth_at(kind: u8, parent: u16, deep: &[u8], i: usize) -> u8
    requires { (i ≡ 0 → ⊥) → (parent < length deep.now) × (get_or deep.now parent 0 ≤ deepest) }
    ensures { result ≡ depth_by kind parent deep.now i }
{
    let own = (kind == 1) as u8;
    if i == 0 {
        return own;
    }
    let p = index(parent);
    own + deep[p]
}

// The first refusal by 4, 5, 6 or 8, record by record. Each record is looked at once, with its parent's kind and depth:
// the cost is linear in the number of records.
pub fn read_records(records: Records<'_>, spare: &[u16]) -> Result<(), Refusal>
    requires { EvenBy records spare.now }
    ensures { result ≡ earliest (read_record (doc_in records.entry spare.now)) 0 (length records.entry.kind.now) }
{
    let mut deep = [0u8; LIMIT];
    for i in 0..records.kind.len() {
        let node = gather(records, spare, i);
        let n = match decode(node) {
            Ok(n) => n,
            Err(number) => return Err(Refusal { number, place: i }),
        };
        if !parent_fits(records.kind, records.parent, i) {
            return Err(Refusal {
                number: 6,
                place: i,
            });
        }
        let x = depth_at(n.kind, n.parent, &deep, i);
        if DEEPEST < x {
            return Err(Refusal {
                number: 8,
                place: i,
            });
        }
        deep[i] = x;
    }
    Ok(())
}
