// Reads a block from standard input, and prints its seven counts or its refusal.
#![tactic(auto)]

use std::io;
use vrf_input::read_full;

fn run(rt: &(impl Input + Print), input: &mut [u8], out: &mut [u8; 512]) -> io::Result<()> {
    let n = read_full(rt, input)?;
    let m = vrf_tally::tally(&input[0..n], out);
    let lines = &out[..];
    rt.write_all(&lines[0..m])
}

// The arrays are lent with their lengths in the type, so `main` needs no proof about lengths. The input has one byte more than a block may
// have: that is enough to see that an input is too long.
fn lend(
    rt: &(impl Input + Print),
    input: &mut [u8; 65_537],
    out: &mut [u8; 512],
) -> io::Result<()> {
    run(rt, input, out)
}

fn main(rt: HostRuntime) -> io::Result<()> {
    let mut input = [0u8; 65_537];
    let mut out = [0u8; 512];
    lend(&rt, &mut input, &mut out)
}
