// Images of blocks of 512 bytes: one reader for both kinds, with the check, the header and the zeros of each block; then how many records there are, and the bytes of one.
#![tactic(auto)]

ghost use Rattle.std.specs.Prelude.{◌≡◌, ℕ, ◌+◌, ◌*◌, ◌/◌, ◌%◌, ◌^◌, ◌<◌, ◌≤◌, length, if◌then◌else◌};
ghost use Rattle.meaning.specs.Order.{in_order};
ghost use Rattle.meaning.specs.Block.{node_form, rule_form, check_step, check, all_zero, check_fits, header_fits, rest_zero, read_block, size_fits, image_tests};
ghost use Rattle.block.specs.Fair.{Fair, OneBlock, Roomy, Start, Read, Counted, Within, Inside, Part};

use meaning::{Form, Refusal};

// The forms of the two kinds of image.
pub const NODES: Form = Form {
    kind: 1,
    size: 20,
    each: 25,
    most: 40,
    base: 0,
};

pub const RULES: Form = Form {
    kind: 2,
    size: 50,
    each: 10,
    most: 10,
    base: 20,
};

// The check c after one byte more.
fn checked(c: u32, x: u8) -> u32
    ensures { result ≡ check_step c x }
{
    c.wrapping_mul(33).wrapping_add(u32::from(x))
}

// The check of the bytes of s.
#[tactic(auto, using(crate::proofs::Bytewise::check_is_fold), unfolding(meaning::specs::Block::check))]
pub fn check_of(s: &[u8]) -> u32
    ensures { result ≡ check s.now }
{
    s.iter().fold(5381, |c, x| checked(c, *x))
}

// Whether every byte of s is 0.
pub fn all_zero(s: &[u8]) -> bool
    ensures { result ≡ all_zero s.now }
{
    s.iter().all(|x| *x == 0)
}

// The least count of a block: the last one need not be full.
fn least(last: bool, each: usize) -> usize
    ensures { result ≡ (if last then 1 else each) }
{
    if last { 1 } else { each }
}

// The header of block b: its number, its kind, its form byte and its count.
fn header_fits(part: &[u8], form: Form, last: bool, b: usize) -> bool
    requires { OneBlock form b part.now }
    ensures { result ≡ header_fits form last b part.now }
{
    let number = numbers::four_at(part, 0) as usize;
    let count = numbers::two_at(part, 4) as usize;
    let low = least(last, form.each);
    (number == b) & (part[6] == form.kind) & (part[7] == 0) & (low <= count) & (count <= form.each)
}

// How many records the b full blocks before a block have.
fn records_before(form: Form, b: usize) -> usize
    requires { (form.each ≤ 25) × (b < 65536) }
    ensures { (result ≡ form.each * b) × (result ≤ 25 * 65536) }
{
    form.each * b
}

// Where record k of a block starts; at the count of a full block, where its last record ends.
fn record_at(form: Form, k: usize) -> usize
    requires { (8 + form.size * form.each ≤ 508) × (k ≤ form.each) }
    ensures { Start form k result }
{
    8 + form.size * k
}

// The stored check is that of the bytes before it.
fn check_fits(part: &[u8]) -> bool
    requires { length part.now ≡ 512 }
    ensures { result ≡ check_fits part.now }
{
    let stored = numbers::four_at(part, 508);
    stored == check_of(&part[0..508])
}

// Zeros from the last record to the check.
fn rest_zero(part: &[u8], form: Form) -> bool
    requires { Roomy form part.now }
    ensures { result ≡ rest_zero form part.now }
{
    let rest = record_at(form, numbers::two_at(part, 4) as usize);
    all_zero(&part[rest..508])
}

// One block by itself: block b of its image, the last one or not.
pub fn read_block(part: &[u8], form: Form, last: bool, b: usize) -> Result<(), Refusal>
    requires { OneBlock form b part.now }
    ensures { result ≡ read_block form last b part.now }
{
    if !check_fits(part) {
        return Err(Refusal {
            number: form.base + 2,
            place: b,
        });
    }
    if !header_fits(part, form, last, b) {
        return Err(Refusal {
            number: form.base + 3,
            place: b,
        });
    }
    if !rest_zero(part, form) {
        let count = numbers::two_at(part, 4) as usize;
        return Err(Refusal {
            number: form.base + 4,
            place: records_before(form, b) + count,
        });
    }
    Ok(())
}

// The size of an image: one block or more, all whole, not too many.
fn size_fits(image: &[u8], form: Form) -> bool
    ensures { result ≡ size_fits form image.now }
{
    let size = image.len();
    (1 <= size) & (size % 512 == 0) & (size / 512 <= form.most)
}

// All blocks of an image, in their order.
pub fn read_blocks(image: &[u8], form: Form) -> Result<(), Refusal>
    requires { Fair form }
    ensures { result ≡ in_order (image_tests form image.now) }
{
    if !size_fits(image, form) {
        return Err(Refusal {
            number: form.base + 1,
            place: 0,
        });
    }
    let count = image.len() / 512;
    for b in 0..count {
        let at = 512 * b;
        let end = at + 512;
        read_block(&image[at..end], form, b + 1 == count, b)?;
    }
    Ok(())
}

// How many records an image of good blocks has.
pub fn count_records(image: &[u8], form: Form) -> usize
    requires { Read form image.now }
    ensures { Counted form image.now result }
{
    let last = image.len() / 512 - 1;
    let at = 512 * last;
    let end = at + 512;
    let count = numbers::two_at(&image[at..end], 4) as usize;
    records_before(form, last) + count
}

// The bytes of record k of the block that starts at a place of the image.
pub fn record_from(image: &[u8], form: Form, at: usize, k: usize) -> &[u8]
    requires { Within form image.now at k }
    ensures { (i : ℕ) → at ≡ 512 * (i / form.each) → k ≡ i % form.each → Part form image.now i result.now }
{
    let end = at + 512;
    let from = record_at(form, k);
    let to = record_at(form, k + 1);
    let part = &image[at..end];
    &part[from..to]
}

// The bytes of record i, a part of its block.
pub fn record_part(image: &[u8], form: Form, i: usize) -> &[u8]
    requires { Inside form image.now i }
    ensures { Part form image.now i result.now }
{
    let each = form.each;
    let at = 512 * (i / each);
    record_from(image, form, at, i % each)
}

// The blocks of a node image, whatever its bytes.
pub fn node_blocks(image: &[u8]) -> Result<(), Refusal>
    ensures { result ≡ in_order (image_tests node_form image.now) }
{
    read_blocks(image, NODES)
}

// The blocks of a rule image, whatever its bytes.
pub fn rule_blocks(image: &[u8]) -> Result<(), Refusal>
    ensures { result ≡ in_order (image_tests rule_form image.now) }
{
    read_blocks(image, RULES)
}
