// The writer's program: reads `records.txt` of its folder and makes `nodes.blk` of the records that it lists, or prints why it does not.
#![tactic(auto)]

ghost use Rattle.std.specs.Prelude.{◌≡◌, Ok};
ghost use Rattle.writer.specs.Filling.{held};
ghost use Rattle.meaning.specs.Nodes.{image_of};
ghost use Rattle.typed.specs.Listing.{text_of};
ghost use Rattle.typed.specs.Entered.{Reads};
ghost use Rattle.bankwrite.specs.Written.{Writes};

use columns::Records;
use meaning::Refusal;
use std::io;
use std::rt::Files;
use typed::TypedRecords;

// The longest good text: a count of four digits and a line feed; then for each record three digits each of its kind and its value kind, five
// each of its name, parent, begin and end, eleven characters of its value, ten digits of its item number, and the eight bytes that end them.
// One byte more, so that a longer text is told by its length. (A count of more digits than fit is malformed.)
const TEXT_ROOM: usize = 5 + 55 * columns::LIMIT + 1;

// The largest image.
const IMAGE_ROOM: usize = 512 * block::NODES.most;

// Room for any line: some words, and at most two numbers, of at most twenty digits.
const LINE: usize = 80;

// Prints a line that was put into a buffer up to `end`.
fn print(rt: &impl Print, line: &[u8], end: usize) -> io::Result<()> {
    rt.write_all(spelling::front(line, end))
}

// Prints a word, a number and the end of the line.
fn print_number(rt: &impl Print, words: &[u8], x: usize) -> io::Result<()> {
    let mut line = [0u8; LINE];
    let word = spelling::put(&mut line, 0, words);
    let number = spelling::put_next(&mut line, word, x);
    let end = spelling::put(&mut line, number, b"\n");
    print(rt, &line, end)
}

// Prints the number and the place of a refusal.
fn print_refusal(rt: &impl Print, number: usize, place: usize) -> io::Result<()> {
    let mut line = [0u8; LINE];
    let end = spelling::lines::put_refusal(&mut line, number, place);
    print(rt, &line, end)
}

// Prints the line of a file that cannot be read.
fn print_unreadable(rt: &impl Print, name: &[u8]) -> io::Result<()> {
    let mut line = [0u8; LINE];
    let end = spelling::lines::unreadable(&mut line, name);
    print(rt, &line, end)
}

// The image of the records that a text lists goes to its file, all at once: nothing else may be given to it.
fn keep(rt: &(impl Files + Print), text: &[u8], image: &[u8]) -> io::Result<()>
    requires { image.now ≡ image_of (text_of text.now).listed }
{
    if files::replace(rt, b"nodes.blk", b"nodes.blk.part", image) {
        print_number(rt, b"written", image.len())
    } else {
        rt.write_all(b"unwritable nodes.blk\n")
    }
}

// The records in the first `count` entries of columns, as an image.
fn write_nodes(count: usize, records: Records<'_>, image: &mut [u8]) -> Result<usize, Refusal>
    ensures { Writes count (held records.entry) image.old result image.new }
{
    writer::write_nodes(count, records, image)
}

// The records that a text lists are written, or refused.
fn write_records(
    rt: &(impl Files + Print),
    text: &[u8],
    records: TypedRecords,
    count: usize,
) -> io::Result<()>
    requires { Reads text.now records × (records.answer ≡ Ok count) }
{
    let mut image = [0u8; IMAGE_ROOM];
    let columns = Records {
        kind: &records.kind,
        vkind: &records.vkind,
        name: &records.name,
        parent: &records.parent,
        begin: &records.begin,
        end: &records.end,
        value: &records.value,
        item: &records.item,
    };
    let output = write_nodes(count, columns, &mut image);
    match output {
        Ok(size) => keep(rt, text, spelling::front(&image, size)),
        Err(Refusal { number, place }) => print_refusal(rt, number, place),
    }
}

// A text of records, whatever its bytes.
fn write_text(rt: &(impl Files + Print), text: &[u8]) -> io::Result<()> {
    let records = typed::read_text(text);
    let answer = records.answer;
    match answer {
        Ok(count) => write_records(rt, text, records, count),
        Err(bad) => print_number(rt, b"malformed records.txt line", bad.line),
    }
}

fn main(rt: HostRuntime) -> io::Result<()> {
    let mut text = [0u8; TEXT_ROOM];
    let Ok(n) = files::load(&rt, b"records.txt", &mut text) else {
        return print_unreadable(&rt, b"records.txt");
    };
    write_text(&rt, spelling::front(&text, n))
}
