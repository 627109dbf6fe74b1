// `read_export_guids`: each entry is an object in a payload of its own. `ReaderWithin` is a clause: `BitReader` has public fields and reads any
// window, also one that leaves its slice, so a ghost field there would ask more of all its callers.
ghost use Rattle.std.specs.Prelude.{◌≡◌, true, ◌≤◌, length, IfErr};
ghost use Rattle.vrf_model.specs.Runs.{object_at, payload_of, guid_entry, guid_run};
ghost use Rattle.vrf_store.specs.Inner.WellFormed.{WellFormed};
ghost use Rattle.vrf_reader.specs.Inner.Simulates.{Refines};
ghost use Rattle.vrf_reader.specs.Inner.Within.{ReaderWithin};

use crate::objects::{MAX_NET_GUID_RECURSION, load_object};
use crate::runs::read_run;
use vrf_bitio::{BitReader, Reason, Refusal};

// A payload of `size` bytes is a window of its own; 25 if its object leaves whole bytes. Answers the GUID.
fn read_payload(
    reader: &mut BitReader<'_>,
    m: &mut [u8],
    scratch: &mut [u8],
    size: u32,
) -> Result<u32, Refusal>
    requires { WellFormed m.old × ((4096 ≤ length scratch.old) × ReaderWithin reader.old) }
    ensures { Refines (payload_of size (object_at 0 true)) reader.old reader.new m.old m.new result }
{
    let mut payload = reader.sub_reader(8 * (size as u64))?;
    let guid = load_object(&mut payload, m, scratch, true, MAX_NET_GUID_RECURSION)?;
    let left = payload.bits_remaining() / 8;
    if left != 0 {
        return Err(Refusal {
            reason: Reason::TrailingPayload,
            a: left as u64,
            b: 0,
        });
    }
    Ok(guid)
}

// One entry: the payload's size, 24 if it is negative, and the payload.
pub fn guid_entry(
    reader: &mut BitReader<'_>,
    m: &mut [u8],
    scratch: &mut [u8],
) -> Result<(), Refusal>
    requires { WellFormed m.old × ((4096 ≤ length scratch.old) × ReaderWithin reader.old) }
    ensures reads { Refines guid_entry reader.old reader.new m.old m.new result }
    ensures stays { IfErr result (λ _. reader.new ≡ reader.old) }
{
    let mut at = *reader;
    let size = at.read_u32()?;
    if 0x8000_0000 <= size {
        return Err(Refusal {
            reason: Reason::NegativePayloadSize,
            a: size as u64,
            b: 0,
        });
    }
    read_payload(&mut at, m, scratch, size)?;
    *reader = at;
    Ok(())
}

pub fn read_export_guids(
    reader: &mut BitReader<'_>,
    m: &mut [u8],
    scratch: &mut [u8],
) -> Result<u32, Refusal>
    requires { WellFormed m.old × ((4096 ≤ length scratch.old) × ReaderWithin reader.old) }
    ensures reads { Refines guid_run reader.old reader.new m.old m.new result }
    ensures stays { IfErr result (λ _. reader.new ≡ reader.old) }
{
    read_run(reader, m, scratch, guid_entry)
}
