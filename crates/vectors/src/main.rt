// Over lists written by hand. `replay` is this program over a script of calls of every kind: a program has one stored input, so there are two.
#![tactic(auto)]

use std::io;

fn main(rt: HostRuntime) -> io::Result<()> {
    replay_io::play(&rt)
}
