// Records typed as a text, read into columns: how many there are on the first line, then a line of eight numbers for each.
#![tactic(auto)]

ghost use Rattle.std.specs.Prelude.{◌≡◌, ◌+◌, ◌≤◌};
ghost use Rattle.meaning.specs.Block.{limit};
ghost use Rattle.meaning.specs.Lent.{lent};
ghost use Rattle.typed.specs.Listing.{line_at, lines_at, told};
ghost use Rattle.typed.specs.Entered.{Room, LinesRead, TextRead, blank, columns_of, Reads};

use columns::LIMIT;
use meaning::Node;
use scan::{LINE_FEED, SPACE, TOP, number_at, value_at};

pub mod scan; // scan.rt: numbers in decimal

// That a text of lines is not in the form: the number of the first line that is not.
#[derive(Clone, Copy)]
pub struct BadLine {
    pub line: usize,
}

// What came of a text: how many records it says it has, or its first bad line, counted from 1; and columns with room for the largest document:
// their first entries hold the records, and all others are 0.
#[derive(Drop)]
pub struct TypedRecords {
    pub answer: Result<usize, BadLine>,
    pub kind: [u8; LIMIT],
    pub vkind: [u8; LIMIT],
    pub name: [u16; LIMIT],
    pub parent: [u16; LIMIT],
    pub begin: [u16; LIMIT],
    pub end: [u16; LIMIT],
    pub value: [i32; LIMIT],
    pub item: [u32; LIMIT],
}

// The record of a line from a place on, and the place after the line; or that it is not in the form. At most four looks at each byte.
fn line_at(text: &[u8], at: usize) -> Option<(Node, usize)>
    ensures { result ≡ line_at text.now at }
{
    let (kind, after_kind) = number_at(text, at, 255, SPACE)?;
    let (vkind, after_vkind) = number_at(text, after_kind, 255, SPACE)?;
    let (name, after_name) = number_at(text, after_vkind, 65535, SPACE)?;
    let (parent, after_parent) = number_at(text, after_name, 65535, SPACE)?;
    let (begin, after_begin) = number_at(text, after_parent, 65535, SPACE)?;
    let (end, after_end) = number_at(text, after_begin, 65535, SPACE)?;
    let (value, after_value) = value_at(text, after_end, SPACE)?;
    let (item, next) = number_at(text, after_value, 4294967295, LINE_FEED)?;
    Some((
        Node {
            kind: kind as u8,
            vkind: vkind as u8,
            name: name as u16,
            parent: parent as u16,
            begin: begin as u16,
            end: end as u16,
            value,
            item: item as u32,
            spare: 0,
        },
        next,
    ))
}

// The answer after the last of `count` records: nothing else stands there.
fn after_last(text: &[u8], at: usize, count: usize) -> Result<usize, BadLine>
    requires { count ≤ limit }
    ensures { result ≡ (told count (lines_at text.now at (count + 2) 0)).answer }
{
    if at == text.len() {
        return Ok(count);
    }
    Err(BadLine { line: count + 2 })
}

// The lines of `count` records from a place on, the first of them line 2, each record's fields in the columns.
fn read_lines(
    text: &[u8],
    from: usize,
    count: usize,
    kind: &mut [u8],
    vkind: &mut [u8],
    name: &mut [u16],
    parent: &mut [u16],
    begin: &mut [u16],
    end: &mut [u16],
    value: &mut [i32],
    item: &mut [u32],
) -> Result<usize, BadLine>
    requires { (count ≤ limit) × Room count (lent kind.old vkind.old name.old parent.old begin.old end.old value.old item.old) }
    ensures { LinesRead text.now from count (lent kind.old vkind.old name.old parent.old begin.old end.old value.old item.old) result (lent kind.new vkind.new name.new parent.new begin.new end.new value.new item.new) }
{
    let mut at = from;
    for i in 0..count {
        let Some((node, next)) = line_at(text, at) else {
            return Err(BadLine { line: i + 2 });
        };
        kind[i] = node.kind;
        vkind[i] = node.vkind;
        name[i] = node.name;
        parent[i] = node.parent;
        begin[i] = node.begin;
        end[i] = node.end;
        let v = node.value;
        value[i] = v;
        item[i] = node.item;
        at = next;
    }
    after_last(text, at, count)
}

// A text read into columns with room for the largest document.
fn read_into(
    text: &[u8],
    kind: &mut [u8],
    vkind: &mut [u8],
    name: &mut [u16],
    parent: &mut [u16],
    begin: &mut [u16],
    end: &mut [u16],
    value: &mut [i32],
    item: &mut [u32],
) -> Result<usize, BadLine>
    requires { Room limit (lent kind.old vkind.old name.old parent.old begin.old end.old value.old item.old) }
    ensures { TextRead text.now (lent kind.old vkind.old name.old parent.old begin.old end.old value.old item.old) result (lent kind.new vkind.new name.new parent.new begin.new end.new value.new item.new) }
{
    let Some((count, from)) = number_at(text, 0, TOP, LINE_FEED) else {
        return Err(BadLine { line: 1 });
    };
    if !((1 <= count) & (count <= LIMIT)) {
        return Ok(count);
    }
    read_lines(
        text, from, count, kind, vkind, name, parent, begin, end, value, item,
    )
}

// No record, beside an answer.
fn nothing(answer: Result<usize, BadLine>) -> TypedRecords
    ensures { (result.answer ≡ answer) × (columns_of result ≡ blank) }
{
    TypedRecords {
        answer,
        kind: [0u8; LIMIT],
        vkind: [0u8; LIMIT],
        name: [0u16; LIMIT],
        parent: [0u16; LIMIT],
        begin: [0u16; LIMIT],
        end: [0u16; LIMIT],
        value: [0i32; LIMIT],
        item: [0u32; LIMIT],
    }
}

// A text read into columns of its own, for every byte string. Every entry is determined: its field of each record, and 0 past them; all are 0
// where the text is not in the form, and where the count is 0 or too high, when the lines after the first are not looked at. Cost: at most
// four looks at each byte.
pub fn read_text(text: &[u8]) -> TypedRecords
    ensures { Reads text.now result }
{
    let mut kind = [0u8; LIMIT];
    let mut vkind = [0u8; LIMIT];
    let mut name = [0u16; LIMIT];
    let mut parent = [0u16; LIMIT];
    let mut begin = [0u16; LIMIT];
    let mut end = [0u16; LIMIT];
    let mut value = [0i32; LIMIT];
    let mut item = [0u32; LIMIT];
    let answer = read_into(
        text,
        &mut kind,
        &mut vkind,
        &mut name,
        &mut parent,
        &mut begin,
        &mut end,
        &mut value,
        &mut item,
    );
    let Ok(_) = answer else {
        return nothing(answer);
    };
    TypedRecords {
        answer,
        kind,
        vkind,
        name,
        parent,
        begin,
        end,
        value,
        item,
    }
}
