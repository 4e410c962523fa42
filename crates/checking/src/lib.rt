// What the checkers do: read `nodes.blk` and `rules.blk` of the folder and print the report on them, by either engine, or the name of the one
// that cannot be read, nodes first.
#![tactic(auto)]

ghost use Rattle.std.specs.Prelude.{◌≡◌};
ghost use Rattle.report.specs.Text.{report_of};

use report::Engine;
use std::io;
use std::rt::Files;

// The largest good files, and one byte more, so that a longer file is refused by its length.
const NODES_ROOM: usize = 512 * block::NODES.most + 1;

const RULES_ROOM: usize = 512 * block::RULES.most + 1;

// Writes the report on two images: nothing else may be given to it.
fn write_report(rt: &impl Print, nodes: &[u8], rules: &[u8], text: &[u8]) -> io::Result<()>
    requires { text.now ≡ report_of nodes.now rules.now }
{
    rt.write_all(text)
}

// Prints the report on two images, their sequenced rules judged by the engine asked for.
fn print_report(rt: &impl Print, nodes: &[u8], rules: &[u8], engine: Engine) -> io::Result<()> {
    let mut text = [0u8; report::ROOM];
    let end = report::report_by(&mut text, nodes, rules, engine);
    write_report(rt, nodes, rules, spelling::front(&text, end))
}

// Prints the line of a file that cannot be read.
fn print_unreadable(rt: &impl Print, name: &[u8]) -> io::Result<()> {
    let mut text = [0u8; report::ROOM];
    let end = spelling::lines::unreadable(&mut text, name);
    rt.write_all(spelling::front(&text, end))
}

// The whole run of a checker; an error is that of the standard output. Cost: that of the report.
pub fn check(rt: &(impl Files + Print), engine: Engine) -> io::Result<()> {
    let mut nodes = [0u8; NODES_ROOM];
    let Ok(n) = files::load(rt, b"nodes.blk", &mut nodes) else {
        return print_unreadable(rt, b"nodes.blk");
    };
    let mut rules = [0u8; RULES_ROOM];
    let Ok(m) = files::load(rt, b"rules.blk", &mut rules) else {
        return print_unreadable(rt, b"rules.blk");
    };
    print_report(
        rt,
        spelling::front(&nodes, n),
        spelling::front(&rules, m),
        engine,
    )
}
