// Plays a script from standard input, and writes the answers to standard output.

#![tactic(auto)]

use std::io;
use vrf_input::read_full;

fn run(
    rt: &(impl Input + Print),
    script: &mut [u8],
    memory: &mut [u8],
    scratch: &mut [u8],
    out: &mut [u8],
) -> io::Result<()> {
    let n = read_full(rt, script)?;
    let m = vrf_replay::play(&script[0..n], memory, scratch, out);
    rt.write_all(&out[0..m])
}

// The arrays are lent with their lengths in the type, so `play` needs no proof about lengths.
fn lend(
    rt: &(impl Input + Print),
    script: &mut [u8; 1_048_576],
    memory: &mut [u8; 1_048_576],
    scratch: &mut [u8; 1_310_720],
    out: &mut [u8; 1_048_576],
) -> io::Result<()> {
    run(rt, script, memory, scratch, out)
}

// Together the arrays have less than 5 MiB, well within a stack of 8 MiB. The memory has space for four books of some hundred records each.
// The scratch buffer has space for the longest text that a window may hold, and some bytes around it.
pub fn play(rt: &(impl Input + Print)) -> io::Result<()> {
    let mut script = [0u8; 1_048_576];
    let mut memory = [0u8; 1_048_576];
    let mut scratch = [0u8; 1_310_720];
    let mut out = [0u8; 1_048_576];
    lend(rt, &mut script, &mut memory, &mut scratch, &mut out)
}
