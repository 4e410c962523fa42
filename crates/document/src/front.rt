// Records in the first entries of longer columns: whether each column has so many, and the tests over them; for columns that are lent, 1 and 12 ahead of the tests.
ghost use Rattle.std.specs.Prelude.{◌≡◌, ◌&&◌, leb};
ghost use Rattle.meaning.specs.Block.{limit};
ghost use Rattle.meaning.specs.Nodes.{accept};
ghost use Rattle.meaning.specs.Lent.{long_enough, read_lent};
ghost use Rattle.document.specs.Front.{FrontBy, front_in, held};

use crate::accept_columns;
use columns::{LIMIT, Records};
use meaning::Refusal;

// Whether each of the eight columns has n entries.
pub fn has_room(n: usize, records: Records<'_>) -> bool
    ensures { result ≡ long_enough n (held records.entry) }
{
    (n <= records.kind.len())
        & (n <= records.vkind.len())
        & (n <= records.name.len())
        & (n <= records.parent.len())
        & (n <= records.begin.len())
        & (n <= records.end.len())
        & (n <= records.value.len())
        & (n <= records.item.len())
}

// The document in the first n entries of nine columns, tested.
pub fn accept_front(n: usize, records: Records<'_>, spare: &[u16]) -> Result<(), Refusal>
    requires { FrontBy n records spare.now }
    ensures { result ≡ accept (front_in n records.entry spare.now) }
{
    let front = Records {
        kind: &records.kind[0..n],
        vkind: &records.vkind[0..n],
        name: &records.name[0..n],
        parent: &records.parent[0..n],
        begin: &records.begin[0..n],
        end: &records.end[0..n],
        value: &records.value[0..n],
        item: &records.item[0..n],
    };
    accept_columns(front, &spare[0..n])
}

// Whether a document can have n records.
fn is_count(n: usize) -> bool
    ensures { result ≡ (leb 1 n && leb n limit) }
{
    (1 <= n) & (n <= LIMIT)
}

// Whatever columns are lent: 1 for a count of none or too many, 12 for a short column, then the tests on the first n records, whose spare bytes are 0. Cost: the tests, and a column of zeros.
pub fn accept_lent(n: usize, records: Records<'_>) -> Result<(), Refusal>
    ensures { result ≡ read_lent n (held records.entry) }
{
    if !is_count(n) {
        return Err(Refusal {
            number: 1,
            place: 0,
        });
    }
    if !has_room(n, records) {
        return Err(Refusal {
            number: 12,
            place: 0,
        });
    }
    let spare = [0u16; LIMIT];
    accept_front(n, records, &spare)
}
