// The checker's program: prints the report on `nodes.blk` and `rules.blk` of its folder, every rule judged by the quick engine.
#![tactic(auto)]

use report::Engine;
use std::io;

fn main(rt: HostRuntime) -> io::Result<()> {
    checking::check(&rt, Engine::Quick)
}
