// Over a script of calls of every kind. `vectors` is this program over lists written by hand: a program has one stored input, so there are two.
#![tactic(auto)]

use std::io;

fn main(rt: HostRuntime) -> io::Result<()> {
    replay_io::play(&rt)
}
