// `vrf_replay` for callers from C.
#![tactic(auto)]

ghost use Rattle.std.specs.Prelude.{◌≤◌, length};

#[unsafe(no_mangle)]
pub extern "C" fn vrf_replay(
    script: &[u8],
    memory: &mut [u8],
    scratch: &mut [u8],
    out: &mut [u8],
) -> u64
    ensures { result ≤ length out.old }
{
    vrf_replay::vrf_replay(script, memory, scratch, out)
}
