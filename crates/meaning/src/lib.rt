// The records and the answers of docs/MEANING.md, as the code passes them and the definitions in specs/ use them.
#![tactic(auto)]

// Why a call refused: the number of the refusal in section 13 of docs/MEANING.md, and its place.
#[derive(Clone, Copy, Debug, PartialEq, Eq)]
pub struct Refusal {
    pub number: usize,
    pub place: usize,
}

// The verdict on one rule: holds, with how many slices or windows were looked at; or fails, with the day, the record and how many.
#[derive(Clone, Copy, Debug, PartialEq, Eq)]
pub enum Verdict {
    Holds(usize),
    Fails(usize, usize, usize),
}

// One kind of image: the block's kind byte, the bytes of a record, the records of a full block, the most blocks, and what is
// added to the number of a refusal.
#[derive(Clone, Copy)]
pub struct Form {
    pub kind: u8,
    pub size: usize,
    pub each: usize,
    pub most: usize,
    pub base: usize,
}

// A node record, field by field; spare is bytes 18 and 19.
#[derive(Clone, Copy)]
pub struct Node {
    pub kind: u8,
    pub vkind: u8,
    pub name: u16,
    pub parent: u16,
    pub begin: u16,
    pub end: u16,
    pub value: i32,
    pub item: u32,
    pub spare: u16,
}

// A rule record, field by field, without its must-be-zero bytes.
#[derive(Clone, Copy)]
pub struct Rule {
    pub kind: u8,
    pub windowed: u8,
    pub path: [u16; 8],
    pub steps: u8,
    pub distinct: u8,
    pub field: u16,
    pub referred: u16,
    pub low: i32,
    pub high: i32,
    pub begin: u16,
    pub end: u16,
    pub span: u16,
    pub unit: u8,
    pub slide: u16,
}
