// Reads pairs of images from `pairs.blk` of its folder and prints for each its report, two slices, the change days of two rules, the verdicts
// on them, whether the node image comes back when its records are written again, and each rule on which a false alarm was followed; then, if
// there is a `plain.blk`, two slices and two verdicts of the plain engine for each pair of it. The test program of every public call, over many
// pairs in one process. A pair is a header of 20 bytes and the two images (`tests/README.md`).
#![tactic(auto)]

ghost use Rattle.std.specs.Prelude.{◌≤◌};

use columns::Columns;
use judging::Judged;
use meaning::{Refusal, Verdict};
use std::io::Read;
use std::{fs, io};

// The largest good images, and one byte more, so that a longer one is refused by its length.
const NODES_ROOM: usize = 512 * block::NODES.most + 1;

const RULES_ROOM: usize = 512 * block::RULES.most + 1;

// No list needs more (an entry for each record, or two change days for each and one): a pair that asks for more room has the same answers
// in this much.
const LIST_ROOM: usize = 2 * columns::LIMIT + 1;

// Room for a line of so many numbers, each with a space, after a few words.
const LINE: usize = 8 * LIST_ROOM;

// More pairs than any file has.
const MANY: usize = 4294967296;

// Ends the line before `at` and writes it.
fn write_line(rt: &impl Print, line: &mut [u8], at: usize) -> io::Result<()> {
    let end = spelling::put(line, at, b"\n");
    rt.write_all(spelling::front(line, end))
}

// The report on a pair.
fn write_report(rt: &impl Print, nodes: &[u8], rules: &[u8]) -> io::Result<()> {
    let mut text = [0u8; report::ROOM];
    let end = report::report(&mut text, nodes, rules);
    rt.write_all(spelling::front(&text, end))
}

// The number in two bytes of a header.
fn short(head: &[u8; 20], at: usize) -> usize
    requires { at ≤ 18 }
{
    usize::from(numbers::two_at(head, at))
}

// The number in four bytes of a header.
fn long(head: &[u8; 20], at: usize) -> usize
    requires { at ≤ 16 }
{
    numbers::four_at(head, at) as usize
}

// The first n numbers of a list, or all, each after a space.
fn put_entries(line: &mut [u8], at: usize, list: &[u16], n: usize) -> usize {
    let mut to = at;
    for entry in list.iter().take(n) {
        to = spelling::put_next(line, to, usize::from(*entry));
    }
    to
}

// The words of a refusal, its number and its place.
fn put_refused(line: &mut [u8], at: usize, number: usize, place: usize) -> usize {
    let told = spelling::put(line, at, b" refused");
    let first = spelling::put_next(line, told, number);
    spelling::put_next(line, first, place)
}

// The line of a list: the word, what was asked, and what a list call answered and stored.
fn write_list(
    rt: &impl Print,
    word: &[u8],
    asked: usize,
    listed: Result<usize, Refusal>,
    list: &[u16],
) -> io::Result<()> {
    let mut line = [0u8; LINE];
    let named = spelling::put(&mut line, 0, word);
    let at = spelling::put_next(&mut line, named, asked);
    match listed {
        Ok(n) => {
            let counted = spelling::put_next(&mut line, at, n);
            let end = put_entries(&mut line, counted, list, n);
            write_line(rt, &mut line, end)
        }
        Err(Refusal { number, place }) => {
            let end = put_refused(&mut line, at, number, place);
            write_line(rt, &mut line, end)
        }
    }
}

// The slice of a day by one of the engines.
fn slice_by(nodes: &[u8], day: usize, list: &mut [u16], plainly: bool) -> Result<usize, Refusal> {
    if plainly {
        return plain::slice(nodes, day, list);
    }
    bank::slice(nodes, day, list)
}

// The slice of a day, in a lent list.
fn write_slice(
    rt: &impl Print,
    nodes: &[u8],
    day: usize,
    list: &mut [u16],
    plainly: bool,
) -> io::Result<()> {
    let listed = slice_by(nodes, day, list, plainly);
    write_list(rt, b"slice", day, listed, list)
}

// The same in a list of so many entries, or of as many as any list needs.
fn write_slice_in(
    rt: &impl Print,
    nodes: &[u8],
    day: usize,
    room: usize,
    plainly: bool,
) -> io::Result<()> {
    let mut list = [0u16; LIST_ROOM];
    if room < LIST_ROOM {
        write_slice(rt, nodes, day, &mut list[0..room], plainly)
    } else {
        write_slice(rt, nodes, day, &mut list, plainly)
    }
}

// The change days of a rule, in a lent list.
fn write_changes(
    rt: &impl Print,
    nodes: &[u8],
    rules: &[u8],
    rule: usize,
    list: &mut [u16],
) -> io::Result<()> {
    let listed = bank::change_days(nodes, rules, rule, list);
    write_list(rt, b"changes", rule, listed, list)
}

// The same in a list of so many entries, or of as many as any list needs.
fn write_changes_in(
    rt: &impl Print,
    nodes: &[u8],
    rules: &[u8],
    rule: usize,
    room: usize,
) -> io::Result<()> {
    let mut list = [0u16; LIST_ROOM];
    if room < LIST_ROOM {
        write_changes(rt, nodes, rules, rule, &mut list[0..room])
    } else {
        write_changes(rt, nodes, rules, rule, &mut list)
    }
}

// The verdict on a rule by one of the engines.
fn verdict_by(nodes: &[u8], rules: &[u8], rule: usize, plainly: bool) -> Result<Verdict, Refusal> {
    if plainly {
        return plain::verdict(nodes, rules, rule);
    }
    bank::verdict(nodes, rules, rule)
}

// The verdict on a rule by its number.
fn write_verdict(
    rt: &impl Print,
    nodes: &[u8],
    rules: &[u8],
    rule: usize,
    plainly: bool,
) -> io::Result<()> {
    let mut line = [0u8; LINE];
    let named = spelling::put(&mut line, 0, b"verdict");
    let at = spelling::put_next(&mut line, named, rule);
    let verdict = verdict_by(nodes, rules, rule, plainly);
    let end = spelling::lines::put_verdict(&mut line, at, verdict);
    write_line(rt, &mut line, end)
}

// Whether a verdict took more looks than it needs: one place where the rule fails, none where it holds.
fn alarmed(found: Judged) -> bool {
    match found.verdict {
        Verdict::Fails(_, _, _) => found.looked != 1,
        Verdict::Holds(_) => found.looked != 0,
    }
}

// How many rules the table has room for.
const RULES: usize = 10 * block::RULES.most;

// The line of a false alarm: the rule's number, and how many places were looked into.
fn write_alarm(rt: &impl Print, rule: usize, looked: usize) -> io::Result<()> {
    let mut line = [0u8; LINE];
    let named = spelling::put(&mut line, 0, b"alarm");
    let at = spelling::put_next(&mut line, named, rule);
    let end = spelling::put_next(&mut line, at, looked);
    write_line(rt, &mut line, end)
}

// The lines of all rules on which a false alarm was followed.
fn write_alarms(rt: &impl Print, nodes: &[u8], rules: &[u8]) -> io::Result<()> {
    for k in 0..RULES {
        let Ok(found) = bank::looking::judge(nodes, rules, k) else {
            return Ok(());
        };
        if alarmed(found) {
            write_alarm(rt, k, found.looked)?;
        }
    }
    Ok(())
}

// The records of an opened image written to a lent one; or what it was refused with.
fn written_again(columns: Columns, image: &mut [u8]) -> Result<usize, Refusal> {
    let n = columns.loaded?;
    bank::write_nodes(n, columns.all(), image)
}

// Whether a node image came back, in a lent image of its length.
fn write_again(rt: &impl Print, nodes: &[u8], image: &mut [u8]) -> io::Result<()> {
    let mut line = [0u8; LINE];
    let at = spelling::put(&mut line, 0, b"again");
    let output = written_again(opening::open_nodes(nodes), image);
    match output {
        Err(Refusal { number, place }) => {
            let end = put_refused(&mut line, at, number, place);
            write_line(rt, &mut line, end)
        }
        Ok(size) => {
            if (size == nodes.len()) & (nodes == &*image) {
                let end = spelling::put(&mut line, at, b" same");
                write_line(rt, &mut line, end)
            } else {
                let end = spelling::put(&mut line, at, b" differs");
                write_line(rt, &mut line, end)
            }
        }
    }
}

// The same in an image that no writer has touched.
fn write_again_in(rt: &impl Print, nodes: &[u8]) -> io::Result<()> {
    let mut image = [165u8; NODES_ROOM];
    let room = nodes.len();
    if room < NODES_ROOM {
        write_again(rt, nodes, &mut image[0..room])
    } else {
        write_again(rt, nodes, &mut image)
    }
}

// The line that begins a pair: a word and the pair's number.
fn write_number(rt: &impl Print, word: &[u8], number: usize) -> io::Result<()> {
    let mut line = [0u8; LINE];
    let named = spelling::put(&mut line, 0, word);
    let end = spelling::put_next(&mut line, named, number);
    write_line(rt, &mut line, end)
}

// The slices of the two days of a header.
fn write_slices(rt: &impl Print, head: &[u8; 20], nodes: &[u8], plainly: bool) -> io::Result<()> {
    let room = short(head, 16);
    write_slice_in(rt, nodes, short(head, 8), room, plainly)?;
    write_slice_in(rt, nodes, short(head, 10), room, plainly)
}

// The verdicts on the two rules of a header.
fn write_verdicts(
    rt: &impl Print,
    head: &[u8; 20],
    nodes: &[u8],
    rules: &[u8],
    plainly: bool,
) -> io::Result<()> {
    write_verdict(rt, nodes, rules, short(head, 12), plainly)?;
    write_verdict(rt, nodes, rules, short(head, 14), plainly)
}

// All lines of one pair, by the quick engine.
fn write_pair(
    rt: &impl Print,
    number: usize,
    head: &[u8; 20],
    nodes: &[u8],
    rules: &[u8],
) -> io::Result<()> {
    write_number(rt, b"pair", number)?;
    write_report(rt, nodes, rules)?;
    write_slices(rt, head, nodes, false)?;
    let room = short(head, 16);
    write_changes_in(rt, nodes, rules, short(head, 12), room)?;
    write_changes_in(rt, nodes, rules, short(head, 14), room)?;
    write_verdicts(rt, head, nodes, rules, false)?;
    write_again_in(rt, nodes)?;
    write_alarms(rt, nodes, rules)
}

// The lines of one pair by the plain engine.
fn write_plain(
    rt: &impl Print,
    number: usize,
    head: &[u8; 20],
    nodes: &[u8],
    rules: &[u8],
) -> io::Result<()> {
    write_number(rt, b"plain", number)?;
    write_slices(rt, head, nodes, true)?;
    write_verdicts(rt, head, nodes, rules, true)
}

// The lines of one pair by one of the engines.
fn write_by(
    rt: &impl Print,
    number: usize,
    head: &[u8; 20],
    nodes: &[u8],
    rules: &[u8],
    plainly: bool,
) -> io::Result<()> {
    if plainly {
        write_plain(rt, number, head, nodes, rules)
    } else {
        write_pair(rt, number, head, nodes, rules)
    }
}

// Whether there was one more pair in the file, of images no longer than they may be; its lines are written.
fn one_pair(
    rt: &impl Print,
    pairs: &mut impl Read,
    number: usize,
    plainly: bool,
) -> io::Result<bool> {
    let mut head = [0u8; 20];
    if !files::filled(pairs, &mut head) {
        return Ok(false);
    }
    let n = long(&head, 0);
    let m = long(&head, 4);
    let mut nodes = [0u8; NODES_ROOM];
    if !files::filled_front(pairs, n, &mut nodes) {
        return Ok(false);
    }
    let mut rules = [0u8; RULES_ROOM];
    if !files::filled_front(pairs, m, &mut rules) {
        return Ok(false);
    }
    write_by(
        rt,
        number,
        &head,
        spelling::front(&nodes, n),
        spelling::front(&rules, m),
        plainly,
    )?;
    Ok(true)
}

// The lines of all pairs of a file.
fn all_pairs(rt: &impl Print, pairs: &mut impl Read, plainly: bool) -> io::Result<()> {
    for number in 0..MANY {
        if !one_pair(rt, pairs, number, plainly)? {
            return Ok(());
        }
    }
    Ok(())
}

fn main(rt: HostRuntime) -> io::Result<()> {
    let Ok(mut pairs) = fs::open(&rt, "pairs.blk") else {
        return rt.write_all(b"unreadable pairs.blk\n");
    };
    all_pairs(&rt, &mut pairs, false)?;
    let Ok(mut plain) = fs::open(&rt, "plain.blk") else {
        return Ok(());
    };
    all_pairs(&rt, &mut plain, true)
}
