// `load_object`: an object and its outer objects, which are recorded first.
ghost use Rattle.std.specs.Prelude.{◌≡◌, ◌≤◌, length, IfErr};
ghost use Rattle.vrf_model.specs.Runs.{flags_of, skip_checksum, object};
ghost use Rattle.vrf_store.specs.Inner.WellFormed.{WellFormed};
ghost use Rattle.vrf_reader.specs.Inner.Simulates.{Refines, RefinesReading};
ghost use Rattle.vrf_reader.specs.Inner.Objects.{recorded};

use crate::names::read_text;
use vrf_bitio::{BitReader, Reason, Refusal};
use vrf_cache::guids::set_net_guid_path;

// At this depth or more an object is refused.
pub const MAX_NET_GUID_RECURSION: u32 = 16;

// Flags are read when exporting or when the GUID is 1. (`exporting` is the Rust's parameter: not a step to run, but a part of document 01's rule.)
fn read_flags(reader: &mut BitReader<'_>, exporting: bool, guid: u32) -> Result<u8, Refusal>
    ensures { RefinesReading (flags_of exporting guid) reader.old reader.new result }
{
    if exporting || guid == 1 {
        return reader.read_u8();
    }
    Ok(0)
}

// Bit 2 of the flags has a checksum, read only after a path. It is not kept.
fn skip_checksum(reader: &mut BitReader<'_>, flags: u8) -> Result<(), Refusal>
    ensures { RefinesReading (skip_checksum flags) reader.old reader.new result }
{
    if flags / 4 % 2 == 1 {
        reader.read_u32()?;
    }
    Ok(())
}

// What follows the outer object: path and checksum. Then the object is recorded.
fn record_object(
    reader: &mut BitReader<'_>,
    m: &mut [u8],
    scratch: &mut [u8],
    guid: u32,
    flags: u8,
    outer: u32,
) -> Result<u32, Refusal>
    requires { WellFormed m.old × (4096 ≤ length scratch.old) }
    ensures { Refines (recorded guid flags outer) reader.old reader.new m.old m.new result }
{
    let n = read_text(reader, scratch)?;
    skip_checksum(reader, flags)?;
    set_net_guid_path(m, guid, &scratch[..n as usize], outer)?;
    Ok(guid)
}

// `left` is 16 minus the depth. At 0 the object is refused before reading. GUID 0 ends a chain with nothing more read. Bit 0 of the flags
// has a path.
fn load_chain(
    reader: &mut BitReader<'_>,
    m: &mut [u8],
    scratch: &mut [u8],
    exporting: bool,
    left: u32,
) -> Result<u32, Refusal>
    requires { WellFormed m.old × (4096 ≤ length scratch.old) }
    ensures { Refines (object left exporting) reader.old reader.new m.old m.new result }
{
    if left == 0 {
        return Err(Refusal {
            reason: Reason::TooDeep,
            a: MAX_NET_GUID_RECURSION as u64,
            b: 0,
        });
    }
    let guid = reader.read_int_packed()?;
    if guid == 0 {
        return Ok(0);
    }
    let flags = read_flags(reader, exporting, guid)?;
    if flags % 2 != 1 {
        return Ok(guid);
    }
    let outer = load_chain(reader, m, scratch, exporting, left - 1)?;
    record_object(reader, m, scratch, guid, flags, outer)
}

// Apart from `load_chain`, so that the whole chain is read with one copy of the reader.
pub fn load_object(
    reader: &mut BitReader<'_>,
    m: &mut [u8],
    scratch: &mut [u8],
    exporting: bool,
    left: u32,
) -> Result<u32, Refusal>
    requires { WellFormed m.old × (4096 ≤ length scratch.old) }
    ensures reads { Refines (object left exporting) reader.old reader.new m.old m.new result }
    ensures stays { IfErr result (λ _. reader.new ≡ reader.old) }
{
    let mut at = *reader;
    let guid = load_chain(&mut at, m, scratch, exporting, left)?;
    *reader = at;
    Ok(guid)
}
