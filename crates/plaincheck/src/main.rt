// The release bench's program: prints the report on `nodes.blk` and `rules.blk` of its folder, each sequenced rule judged by the plain engine.
#![tactic(auto)]

use report::Engine;
use std::io;

fn main(rt: HostRuntime) -> io::Result<()> {
    checking::check(&rt, Engine::Plain)
}
