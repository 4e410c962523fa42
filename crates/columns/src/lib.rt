// A document in columns, a slice or an array for each field of its records: how many there can be, what came of reading them, and chains
// through the records of one kind.
#![tactic(auto)]

ghost use Rattle.std.specs.Prelude.{◌≤◌};
ghost use Rattle.meaning.specs.Block.{limit};
ghost use Rattle.columns.specs.Lent.{FrontOf, AllOf};

use meaning::Refusal;

pub mod chains; // chains.rt: the records of one kind, chained by a key

// The most records of a document: full blocks, as many as an image can have.
pub const LIMIT: usize = block::NODES.each * block::NODES.most;

// What came of reading an image, and columns with room for the largest document: where its blocks are good, their first entries hold its
// records, and all others are 0.
#[derive(Drop)]
pub struct Columns {
    pub loaded: Result<usize, Refusal>,
    pub kind: [u8; LIMIT],
    pub vkind: [u8; LIMIT],
    pub name: [u16; LIMIT],
    pub parent: [u16; LIMIT],
    pub begin: [u16; LIMIT],
    pub end: [u16; LIMIT],
    pub value: [i32; LIMIT],
    pub item: [u32; LIMIT],
}

// The columns of a document, lent together: a slice for each field of its records.
#[derive(Clone, Copy)]
pub struct Records<'a> {
    pub kind: &'a [u8],
    pub vkind: &'a [u8],
    pub name: &'a [u16],
    pub parent: &'a [u16],
    pub begin: &'a [u16],
    pub end: &'a [u16],
    pub value: &'a [i32],
    pub item: &'a [u32],
}

impl Columns {
    // The first n entries of each column.
    pub fn front(&self, n: usize) -> Records<'_>
        requires { n ≤ limit }
        ensures { FrontOf n self.now result }
    {
        Records {
            kind: &self.kind[..n],
            vkind: &self.vkind[..n],
            name: &self.name[..n],
            parent: &self.parent[..n],
            begin: &self.begin[..n],
            end: &self.end[..n],
            value: &self.value[..n],
            item: &self.item[..n],
        }
    }

    // Each column whole.
    pub fn all(&self) -> Records<'_>
        ensures { AllOf self.now result }
    {
        Records {
            kind: &self.kind,
            vkind: &self.vkind,
            name: &self.name,
            parent: &self.parent,
            begin: &self.begin,
            end: &self.end,
            value: &self.value,
            item: &self.item,
        }
    }
}
