// Reads cases of records from `writes.blk` of its folder, has each written to a lent image, and prints the answer and the image after it. The
// test program of the writer, over many cases in one process. A case is a header of 40 bytes and eight columns (`tests/README.md`).
#![tactic(auto)]

ghost use Rattle.std.specs.Prelude.{◌≡◌, ◌*◌, ◌≤◌, length};

use columns::Records;
use meaning::Refusal;
use numbers::field::Field;
use std::io::Read;
use std::{fs, io};

// A column has at most as many entries as one block more than the largest good image has records.
const MOST: usize = block::NODES.each * (block::NODES.most + 1);

// A lent image is at most three blocks longer than the largest good one.
const ROOM: usize = 512 * (block::NODES.most + 3);

// Two digits for each byte of an image; the third place is for line feeds and the lines ahead of them.
const TEXT: usize = 3 * ROOM;

// Bytes of an image in one line.
const ROW: usize = 32;

// More cases than any file has.
const MANY: usize = 4294967296;

// The number in four bytes of a header.
fn long(head: &[u8; 40], at: usize) -> usize
    requires { at ≤ 36 }
{
    numbers::four_at(head, at) as usize
}

// The first n entries of a column, or all.
fn front<T>(s: &[T], n: usize) -> &[T] {
    &s[..n.min(s.len())]
}

// A column out of its bytes, where an entry takes so many of them.
fn decode<T: Field>(bytes: &[u8], width: usize, column: &mut [T])
    requires { (width ≡ T.width) × (width ≤ 4) × (4 * length column.old ≤ length bytes.now) }
{
    for i in 0..column.len() {
        column[i] = T::read(bytes, width * i);
    }
}

// Whether the next n entries of the file came into the column's front; not if there is no room for them.
fn take<T: Field>(cases: &mut impl Read, n: usize, width: usize, column: &mut [T]) -> bool
    requires { (width ≡ T.width) × (width ≤ 4) }
{
    let mut bytes = [0u8; 4 * MOST];
    if (MOST < n) | (column.len() < n) {
        return false;
    }
    let came = files::filled_front(cases, width * n, &mut bytes);
    decode(&bytes, width, &mut column[0..n]);
    came
}

// The columns of a case.
#[derive(Drop)]
struct Case {
    kind: [u8; MOST],
    vkind: [u8; MOST],
    name: [u16; MOST],
    parent: [u16; MOST],
    begin: [u16; MOST],
    end: [u16; MOST],
    value: [i32; MOST],
    item: [u32; MOST],
}

// Whether the two columns of bytes came, each with as many entries as the header says.
fn take_kinds(cases: &mut impl Read, head: &[u8; 40], case: &mut Case) -> bool {
    let kinds = files::filled_front(cases, long(head, 8), &mut case.kind);
    let vkinds = files::filled_front(cases, long(head, 12), &mut case.vkind);
    kinds & vkinds
}

// The same of the four columns of numbers.
fn take_numbers(cases: &mut impl Read, head: &[u8; 40], case: &mut Case) -> bool {
    let names = take(cases, long(head, 16), 2, &mut case.name);
    let parents = take(cases, long(head, 20), 2, &mut case.parent);
    let begins = take(cases, long(head, 24), 2, &mut case.begin);
    let ends = take(cases, long(head, 28), 2, &mut case.end);
    names & parents & begins & ends
}

// The same of all columns.
fn take_columns(cases: &mut impl Read, head: &[u8; 40], case: &mut Case) -> bool {
    let kinds = take_kinds(cases, head, case);
    let numbers = take_numbers(cases, head, case);
    let values = take(cases, long(head, 32), 4, &mut case.value);
    let items = take(cases, long(head, 36), 4, &mut case.item);
    kinds & numbers & values & items
}

// Exactly the header's part of each column.
fn lent<'a>(case: &'a Case, head: &[u8; 40]) -> Records<'a> {
    Records {
        kind: front(&case.kind, long(head, 8)),
        vkind: front(&case.vkind, long(head, 12)),
        name: front(&case.name, long(head, 16)),
        parent: front(&case.parent, long(head, 20)),
        begin: front(&case.begin, long(head, 24)),
        end: front(&case.end, long(head, 28)),
        value: front(&case.value, long(head, 32)),
        item: front(&case.item, long(head, 36)),
    }
}

// The digit of a number below 16.
fn digit(x: u8) -> u8
    requires { x ≤ 15 }
{
    if x < 10 { 48 + x } else { 87 + x }
}

// At most ROW bytes in two digits each, and a line feed: one piece, since a copy costs the more the shorter its pieces are.
fn put_row(text: &mut [u8], at: usize, row: &[u8]) -> usize {
    let mut line = [b'\n'; 2 * ROW + 1];
    let n = row.len().min(ROW);
    for i in 0..n {
        line[2 * i] = digit(row[i] / 16);
        line[2 * i + 1] = digit(row[i] % 16);
    }
    spelling::put(text, at, &line[..2 * n + 1])
}

// An image in lines of digits.
fn put_image(text: &mut [u8], at: usize, image: &[u8]) -> usize {
    let mut to = at;
    for row in image.chunks(ROW) {
        to = put_row(text, to, row);
    }
    to
}

// What was answered, in a line.
fn put_output(text: &mut [u8], at: usize, output: Result<usize, Refusal>) -> usize {
    match output {
        Ok(size) => {
            let word = spelling::put(text, at, b"written");
            let end = spelling::put_next(text, word, size);
            spelling::put(text, end, b"\n")
        }
        Err(Refusal { number, place }) => {
            let word = spelling::put(text, at, b"refused");
            let first = spelling::put_next(text, word, number);
            let end = spelling::put_next(text, first, place);
            spelling::put(text, end, b"\n")
        }
    }
}

// All lines of one case.
fn write_answer(
    rt: &impl Print,
    number: usize,
    output: Result<usize, Refusal>,
    image: &[u8],
) -> io::Result<()> {
    let mut text = [0u8; TEXT];
    let word = spelling::put(&mut text, 0, b"case");
    let named = spelling::put_next(&mut text, word, number);
    let at = spelling::put(&mut text, named, b"\n");
    let told = put_output(&mut text, at, output);
    let end = put_image(&mut text, told, image);
    rt.write_all(spelling::front(&text, end))
}

// Has the records of a case written to an image of exactly the header's room that no writer has touched, and writes its lines; not if that is more
// room than there may be.
fn answer(
    rt: &impl Print,
    number: usize,
    head: &[u8; 40],
    records: Records<'_>,
) -> io::Result<bool> {
    let mut image = [165u8; ROOM];
    let room = long(head, 4);
    if ROOM < room {
        return Ok(false);
    }
    let lent = &mut image[0..room];
    let output = bank::write_nodes(long(head, 0), records, lent);
    write_answer(rt, number, output, lent)?;
    Ok(true)
}

// Whether the case after this header is whole, of columns and an image no longer than they may be; its lines are written.
fn whole_case(
    rt: &impl Print,
    cases: &mut impl Read,
    number: usize,
    head: &[u8; 40],
) -> io::Result<bool> {
    let mut case = Case {
        kind: [0u8; MOST],
        vkind: [0u8; MOST],
        name: [0u16; MOST],
        parent: [0u16; MOST],
        begin: [0u16; MOST],
        end: [0u16; MOST],
        value: [0i32; MOST],
        item: [0u32; MOST],
    };
    if !take_columns(cases, head, &mut case) {
        return Ok(false);
    }
    answer(rt, number, head, lent(&case, head))
}

// Whether there was one more case in the file; its lines are written.
fn one_case(rt: &impl Print, cases: &mut impl Read, number: usize) -> io::Result<bool> {
    let mut head = [0u8; 40];
    if !files::filled(cases, &mut head) {
        return Ok(false);
    }
    whole_case(rt, cases, number, &head)
}

fn main(rt: HostRuntime) -> io::Result<()> {
    let Ok(mut cases) = fs::open(&rt, "writes.blk") else {
        return rt.write_all(b"unreadable writes.blk\n");
    };
    for number in 0..MANY {
        if !one_case(&rt, &mut cases, number)? {
            return Ok(());
        }
    }
    Ok(())
}
