// Blocks filled in a lent stretch of bytes: header, records, zeros, check, one after the other.
ghost use Rattle.std.specs.Prelude.{◌≡◌, [], ◌∷◌, ◌++◌, map, ◌+◌, ◌-◌, ◌*◌, ◌≤◌, ◌<◌, min, length, replicate};
ghost use Rattle.meaning.specs.Walk.{listed};
ghost use Rattle.meaning.specs.Bytes.{pair, quad};
ghost use Rattle.meaning.specs.Block.{node_form, limit, joined, block_of, blocks_for, share};
ghost use Rattle.meaning.specs.Nodes.{node_bytes, image_of};
ghost use Rattle.meaning.specs.Lent.{node_at, nodes_lent};
ghost use Rattle.document.specs.Front.{held};
ghost use Rattle.numbers.specs.Put.{Put};
ghost use Rattle.writer.specs.Filling.{Reaches, first_ten, last_ten, bytes_from, Behind, Block};

use columns::Records;
use meaning::Node;
use numbers::field::Field;

// How many records a full block has.
const FULL: usize = 25;

// How many blocks n records take.
pub fn blocks_for(n: usize) -> usize
    requires { n ≤ limit }
    ensures { (result ≡ blocks_for node_form n) × (result ≤ n) }
{
    n.div_ceil(FULL)
}

// How many of n records are in block b: a full block, or what is left.
fn count_in(n: usize, b: usize) -> usize
    requires { 25 * b < n }
    ensures { result ≡ min 25 (n - 25 * b) }
{
    FULL.min(n - FULL * b)
}

// The header of block b with m records.
fn put_header(part: &mut [u8], b: usize, m: usize)
    requires { (8 ≤ length part.old) × (b < 4294967296) × (m < 65536) }
    ensures { Put part.old 0 (quad b ++ (pair m ++ (1 ∷ 0 ∷ []))) part.new }
{
    (b as u32).put(part, 0);
    (m as u16).put(part, 4);
    block::NODES.kind.put(part, 6);
    0u8.put(part, 7);
}

// The first ten bytes of a record, from a place on: kinds, name, parent, period.
fn put_first(part: &mut [u8], at: usize, n: Node)
    requires { at + 10 ≤ length part.old }
    ensures { Put part.old at (first_ten n) part.new }
{
    n.kind.put(part, at);
    n.vkind.put(part, at + 1);
    n.name.put(part, at + 2);
    n.parent.put(part, at + 4);
    n.begin.put(part, at + 6);
    n.end.put(part, at + 8);
}

// The last ten: value, item number, the spare two.
fn put_last(part: &mut [u8], at: usize, n: Node)
    requires { at + 10 ≤ length part.old }
    ensures { Put part.old at (last_ten n) part.new }
{
    n.value.put(part, at);
    n.item.put(part, at + 4);
    n.spare.put(part, at + 8);
}

// The 20 bytes of a record, from a place on.
fn put_record(part: &mut [u8], at: usize, n: Node)
    requires { at + 20 ≤ length part.old }
    ensures { Put part.old at (node_bytes n) part.new }
{
    put_first(part, at, n);
    put_last(part, at + 10, n);
}

// Record i of the columns.
fn node_at(records: Records<'_>, i: usize) -> Node
    requires { Reaches (i + 1) (held records) }
    ensures { result ≡ node_at (held records.entry) i }
{
    Node {
        kind: records.kind[i],
        vkind: records.vkind[i],
        name: records.name[i],
        parent: records.parent[i],
        begin: records.begin[i],
        end: records.end[i],
        value: records.value[i],
        item: records.item[i],
        spare: 0,
    }
}

// m records, from the first on, one after the other behind a block's header.
fn put_records(first: usize, m: usize, records: Records<'_>, part: &mut [u8])
    requires { Behind first m (held records) (length part.old) }
    ensures { Put part.old 8 (joined (listed (bytes_from (held records.entry) first) 0 m)) part.new }
{
    for k in 0..m {
        put_record(part, 8 + 20 * k, node_at(records, first + k));
    }
}

// Zeros from a place to the check.
#[tactic(auto, using(numbers::proofs::Stores::copied))]
fn put_zeros(part: &mut [u8], from: usize)
    requires { (from ≤ 508) × (508 ≤ length part.old) }
    ensures { Put part.old from (replicate (508 - from) 0) part.new }
{
    part[from..508].fill(0);
}

// Block b of n records, in the first 512 bytes of the part.
fn fill_block(n: usize, b: usize, records: Records<'_>, part: &mut [u8])
    requires { Block n b (held records) (length part.old) }
    ensures { Put part.old 0 (block_of node_form b (share node_form b (map node_bytes (nodes_lent n (held records.entry))))) part.new }
{
    let m = count_in(n, b);
    put_header(part, b, m);
    put_records(FULL * b, m, records, part);
    put_zeros(part, 8 + 20 * m);
    let check = block::check_of(&part[0..508]);
    check.put(part, 508);
}

// All blocks of n records, each from its own place in the image onward.
pub fn fill_blocks(n: usize, records: Records<'_>, image: &mut [u8])
    requires { (n ≤ limit) × Reaches n (held records) × (512 * blocks_for node_form n ≤ length image.old) }
    ensures { Put image.old 0 (image_of (nodes_lent n (held records.entry))) image.new }
{
    for b in 0..blocks_for(n) {
        let at = 512 * b;
        fill_block(n, b, records, &mut image[at..]);
    }
}
