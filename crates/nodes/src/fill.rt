// One column filled from an image's records, block by block: a function for a block and one for the image, for entries of any type that a
// field of a record has, the field's offset being a parameter. A full block has a known number of records, so that its part takes a load and
// a store for each of them.
ghost use Rattle.std.specs.Prelude.{◌≡◌, ◌+◌, ◌*◌, ◌≤◌, length};
ghost use Rattle.meaning.specs.Block.{node_form, record_of};
ghost use Rattle.nodes.specs.Filled.{filled, Fillable, Grows};

use numbers::field::Field;

// How many records a full block has.
const FULL: usize = 25;

// A field of the first m records of block b. One look at each.
fn fill_block<T: Field>(image: &[u8], b: usize, m: usize, offset: usize, out: &mut [T])
    requires { (m ≤ 25) × Fillable image.now (25 * b + m) offset T.width (length out.old) }
    ensures { Grows (λ i. T.spelled (record_of node_form image.now i) offset) (25 * b) m out.old out.new }
{
    let first = FULL * b;
    let at = 512 * b;
    for k in 0..m {
        let part = block::record_from(image, block::NODES, at, k);
        out[first + k] = T::read(part, offset);
    }
}

// A column, of kinds, names, values or item numbers: the full blocks, then what is left. One look at each record.
pub fn fill<T: Field>(image: &[u8], n: usize, offset: usize, out: &mut [T])
    requires { Fillable image.now n offset T.width (length out.old) }
    ensures { out.new ≡ filled (λ i. T.spelled (record_of node_form image.now i) offset) n out.old }
{
    let full = n / FULL;
    for b in 0..full {
        fill_block(image, b, FULL, offset, out);
    }
    fill_block(image, full, n % FULL, offset, out);
}
