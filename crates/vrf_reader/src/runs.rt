// The two export runs: a packed count, then that many entries of one kind.
ghost use Rattle.std.specs.Prelude.{◌≡◌, ◌≤◌, length, IfErr};
ghost use Rattle.vrf_model.specs.Parser.{Parser};
ghost use Rattle.vrf_model.specs.Runs.{run_of};
ghost use Rattle.vrf_store.specs.Inner.WellFormed.{WellFormed};
ghost use Rattle.vrf_reader.specs.Inner.Simulates.{Refines};
ghost use Rattle.vrf_reader.specs.Inner.Runs.{ReadsEntries};

use vrf_bitio::{BitReader, Refusal};

// Answers the count of entries. A refused run leaves all it took before the refused step.
pub fn read_run<F: FnMut(&mut BitReader<'_>, &mut [u8], &mut [u8]) -> Result<(), Refusal>>(
    reader: &mut BitReader<'_>,
    m: &mut [u8],
    scratch: &mut [u8],
    mut read_entry: F,
) -> Result<u32, Refusal>
    ghost entry: { Parser (Unit {0}) }
    requires { WellFormed m.old × ((4096 ≤ length scratch.old) × ReadsEntries F.FnMut entry reader.old) }
    ensures reads { Refines (run_of entry) reader.old reader.new m.old m.new result }
    ensures stays { IfErr result (λ _. reader.new ≡ reader.old) }
{
    let mut at = *reader;
    let n = at.read_int_packed()?;
    for _ in 0..n {
        read_entry(&mut at, m, scratch)?;
    }
    *reader = at;
    Ok(n)
}
