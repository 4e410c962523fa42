// A node image unpacked into columns: refusals 1 to 10, and the decoded document where it is accepted.
#![tactic(auto)]

ghost use Rattle.std.specs.Prelude.{◌≡◌, length};
ghost use Rattle.meaning.specs.declared.Node.{Node};
ghost use Rattle.meaning.specs.Nodes.{read_nodes};
ghost use Rattle.meaning.specs.Bytes.{byte, two, four, signed};
ghost use Rattle.meaning.specs.Block.{node_form, record_of};
ghost use Rattle.meaning.specs.Answer.{tell_reading};
ghost use Rattle.nodes.specs.Filled.{filled, Roomy};
ghost use Rattle.nodes.specs.Loading.{loaded, tell_loaded, loading, unpacked};
ghost use Rattle.nodes.specs.Unpacking.{Unpacks, Blank, together};

use columns::{Columns, LIMIT, Records};
use meaning::Refusal;

pub mod fill; // fill.rt: one column, from the records of an image

// The fields of n records, each in its column. One look at each record for each column.
fn unpack(
    image: &[u8],
    n: usize,
    kind: &mut [u8],
    vkind: &mut [u8],
    name: &mut [u16],
    parent: &mut [u16],
    begin: &mut [u16],
    end: &mut [u16],
    value: &mut [i32],
    item: &mut [u32],
)
    requires { Roomy image.now n (length kind.old) (length vkind.old) (length name.old) (length parent.old) (length begin.old) (length end.old) (length value.old) (length item.old) }
    ensures kind { kind.new ≡ filled (λ i. byte (record_of node_form image.now i) 0) n kind.old }
    ensures vkind { vkind.new ≡ filled (λ i. byte (record_of node_form image.now i) 1) n vkind.old }
    ensures name { name.new ≡ filled (λ i. two (record_of node_form image.now i) 2) n name.old }
    ensures parent { parent.new ≡ filled (λ i. two (record_of node_form image.now i) 4) n parent.old }
    ensures begin { begin.new ≡ filled (λ i. two (record_of node_form image.now i) 6) n begin.old }
    ensures end { end.new ≡ filled (λ i. two (record_of node_form image.now i) 8) n end.old }
    ensures value { value.new ≡ filled (λ i. signed (four (record_of node_form image.now i) 10)) n value.old }
    ensures item { item.new ≡ filled (λ i. four (record_of node_form image.now i) 14) n item.old }
{
    fill::fill(image, n, 0, kind);
    fill::fill(image, n, 1, vkind);
    fill::fill(image, n, 2, name);
    fill::fill(image, n, 4, parent);
    fill::fill(image, n, 6, begin);
    fill::fill(image, n, 8, end);
    fill::fill(image, n, 10, value);
    fill::fill(image, n, 14, item);
}

// The answer on n records that were read.
pub fn told(read: Result<(), Refusal>, n: usize) -> Result<usize, Refusal>
    ensures { result ≡ loaded read n }
{
    read?;
    Ok(n)
}

// A whole image read into columns of zeros with room for the largest document. One pass over the blocks, one look at each record for each
// column, then the document's tests.
fn read_into(
    image: &[u8],
    kind: &mut [u8],
    vkind: &mut [u8],
    name: &mut [u16],
    parent: &mut [u16],
    begin: &mut [u16],
    end: &mut [u16],
    value: &mut [i32],
    item: &mut [u32],
    spare: &mut [u16],
) -> Result<usize, Refusal>
    requires { Blank kind.old vkind.old name.old parent.old begin.old end.old value.old item.old spare.old }
    ensures { Unpacks image.now (together result kind.new vkind.new name.new parent.new begin.new end.new value.new item.new) }
{
    block::node_blocks(image)?;
    let n = block::count_records(image, block::NODES);
    unpack(image, n, kind, vkind, name, parent, begin, end, value, item);
    fill::fill(image, n, 18, spare);
    let records = Records {
        kind: &*kind,
        vkind: &*vkind,
        name: &*name,
        parent: &*parent,
        begin: &*begin,
        end: &*end,
        value: &*value,
        item: &*item,
    };
    let read = document::front::accept_front(n, records, spare);
    told(read, n)
}

// An image read into columns of its own, for every byte string: unpacked once, and its document tested where it then stands. Every entry is
// determined: its field of each record, also where their document is refused, and 0 past them; all are 0 where a block is refused. Cost: one
// pass over the blocks, one look at each record for each column, then the document's tests.
pub fn read_columns(image: &[u8]) -> Columns
    ensures { Unpacks image.now result }
{
    let mut kind = [0u8; LIMIT];
    let mut vkind = [0u8; LIMIT];
    let mut name = [0u16; LIMIT];
    let mut parent = [0u16; LIMIT];
    let mut begin = [0u16; LIMIT];
    let mut end = [0u16; LIMIT];
    let mut value = [0i32; LIMIT];
    let mut item = [0u32; LIMIT];
    let mut spare = [0u16; LIMIT];
    let loaded = read_into(
        image,
        &mut kind,
        &mut vkind,
        &mut name,
        &mut parent,
        &mut begin,
        &mut end,
        &mut value,
        &mut item,
        &mut spare,
    );
    Columns {
        loaded,
        kind,
        vkind,
        name,
        parent,
        begin,
        end,
        value,
        item,
    }
}

// What comes of a whole image, 1 to 10, for every byte string. Cost: as `read_columns`, of which it is the answer.
pub fn read_nodes(image: &[u8]) -> Result<(), Refusal>
    ensures { tell_reading result ≡ tell_reading (read_nodes image.now) }
{
    let columns = read_columns(image);
    columns.loaded?;
    Ok(())
}

// An image unpacked into eight lent columns, for every byte string: where it is accepted and there is room, each column holds
// its field of every record and past them what it held; where it is refused, or a column is too short (12), all stay as they were.
// So it is read in columns of the reader's own first: unpacked twice.
pub fn load(
    image: &[u8],
    kind: &mut [u8],
    vkind: &mut [u8],
    name: &mut [u16],
    parent: &mut [u16],
    begin: &mut [u16],
    end: &mut [u16],
    value: &mut [i32],
    item: &mut [u32],
) -> Result<usize, Refusal>
    ensures answer { tell_loaded result ≡ tell_loaded (loading image.now (length kind.old) (length vkind.old) (length name.old) (length parent.old) (length begin.old) (length end.old) (length value.old) (length item.old)) }
    ensures kind { kind.new ≡ unpacked result (λ (n : Node). n.kind) image.now kind.old }
    ensures vkind { vkind.new ≡ unpacked result (λ (n : Node). n.vkind) image.now vkind.old }
    ensures name { name.new ≡ unpacked result (λ (n : Node). n.name) image.now name.old }
    ensures parent { parent.new ≡ unpacked result (λ (n : Node). n.parent) image.now parent.old }
    ensures begin { begin.new ≡ unpacked result (λ (n : Node). n.begin) image.now begin.old }
    ensures end { end.new ≡ unpacked result (λ (n : Node). n.end) image.now end.old }
    ensures value { value.new ≡ unpacked result (λ (n : Node). n.value) image.now value.old }
    ensures item { item.new ≡ unpacked result (λ (n : Node). n.item) image.now item.old }
{
    read_nodes(image)?;
    let n = block::count_records(image, block::NODES);
    let records = Records {
        kind: &*kind,
        vkind: &*vkind,
        name: &*name,
        parent: &*parent,
        begin: &*begin,
        end: &*end,
        value: &*value,
        item: &*item,
    };
    if !document::front::has_room(n, records) {
        return Err(Refusal {
            number: 12,
            place: 0,
        });
    }
    unpack(image, n, kind, vkind, name, parent, begin, end, value, item);
    Ok(n)
}
