// `read_net_field_exports`: each export declares a group or refers to one, and may set a field on it.
ghost use Rattle.std.specs.Prelude.{◌≡◌, ◌≤◌, length, IfErr};
ghost use Rattle.vrf_model.specs.Runs.{declared_group, group_of, exported_field, export_entry, fields_run};
ghost use Rattle.vrf_store.specs.Inner.WellFormed.{WellFormed};
ghost use Rattle.vrf_reader.specs.Inner.Simulates.{Refines};
ghost use Rattle.vrf_reader.specs.Inner.Fields.{field_read, field_of};

use crate::names::{read_fname, read_text};
use crate::runs::read_run;
use vrf_bitio::{BitReader, Reason, Refusal};
use vrf_cache::fields::set_field_on_group;
use vrf_cache::groups::add_export_group;
use vrf_store::look::find_index;

const MAX_SLOTS: u32 = 65536;

// A field after its handle, in an export and in a block: checksum and name. A field that is not placed does not stop the reader.
pub fn named_field(
    reader: &mut BitReader<'_>,
    m: &mut [u8],
    scratch: &mut [u8],
    index: u32,
    handle: u32,
) -> Result<(), Refusal>
    requires { WellFormed m.old × (4096 ≤ length scratch.old) }
    ensures reads { Refines (field_read index handle) reader.old reader.new m.old m.new result }
    ensures stays { IfErr result (λ _. reader.new ≡ reader.old) }
{
    let mut at = *reader;
    let checksum = at.read_u32()?;
    let n = read_fname(&mut at, scratch)?;
    set_field_on_group(m, index, handle, checksum, &scratch[..n as usize])?;
    *reader = at;
    Ok(())
}

// An exported field: handle, checksum, name.
fn exported_field(
    reader: &mut BitReader<'_>,
    m: &mut [u8],
    scratch: &mut [u8],
    index: u32,
) -> Result<(), Refusal>
    requires { WellFormed m.old × (4096 ≤ length scratch.old) }
    ensures { Refines (exported_field index) reader.old reader.new m.old m.new result }
{
    let handle = reader.read_int_packed()?;
    named_field(reader, m, scratch, index, handle)
}

// What follows an export's group: a field if the byte is not 0.
fn field_of(
    reader: &mut BitReader<'_>,
    m: &mut [u8],
    scratch: &mut [u8],
    index: u32,
) -> Result<(), Refusal>
    requires { WellFormed m.old × (4096 ≤ length scratch.old) }
    ensures { Refines (field_of index) reader.old reader.new m.old m.new result }
{
    if reader.read_u8()? == 0 {
        return Ok(());
    }
    exported_field(reader, m, scratch, index)
}

// A group that the run declares: path and slots; 22 above 65,536.
fn declared_group(
    reader: &mut BitReader<'_>,
    m: &mut [u8],
    scratch: &mut [u8],
    index: u32,
) -> Result<(), Refusal>
    requires { WellFormed m.old × (4096 ≤ length scratch.old) }
    ensures { Refines (declared_group index) reader.old reader.new m.old m.new result }
{
    let n = read_text(reader, scratch)?;
    let slots = reader.read_int_packed()?;
    if slots > MAX_SLOTS {
        return Err(Refusal {
            reason: Reason::TooManySlots,
            a: slots as u64,
            b: 0,
        });
    }
    add_export_group(m, &scratch[..n as usize], index, slots)?;
    Ok(())
}

// Flag 1 declares a group. Flag 0 refers to a group that the book has; 20 if it has none. Any other flag is 21. (The flag is a number of the
// wire: an enum would be made of it here and matched at once.)
fn group_of(
    reader: &mut BitReader<'_>,
    m: &mut [u8],
    scratch: &mut [u8],
    index: u32,
    flag: u32,
) -> Result<(), Refusal>
    requires { WellFormed m.old × (4096 ≤ length scratch.old) }
    ensures { Refines (group_of index flag) reader.old reader.new m.old m.new result }
{
    if flag == 1 {
        return declared_group(reader, m, scratch, index);
    }
    if flag != 0 {
        return Err(Refusal {
            reason: Reason::BadExportedFlag,
            a: index as u64,
            b: flag as u64,
        });
    }
    match find_index(m, index) {
        Some(_) => Ok(()),
        None => Err(Refusal {
            reason: Reason::UnknownPathIndex,
            a: index as u64,
            b: 0,
        }),
    }
}

// One export: index, flag, group, field.
pub fn export_entry(
    reader: &mut BitReader<'_>,
    m: &mut [u8],
    scratch: &mut [u8],
) -> Result<(), Refusal>
    requires { WellFormed m.old × (4096 ≤ length scratch.old) }
    ensures reads { Refines export_entry reader.old reader.new m.old m.new result }
    ensures stays { IfErr result (λ _. reader.new ≡ reader.old) }
{
    let mut at = *reader;
    let index = at.read_int_packed()?;
    let flag = at.read_int_packed()?;
    group_of(&mut at, m, scratch, index, flag)?;
    field_of(&mut at, m, scratch, index)?;
    *reader = at;
    Ok(())
}

pub fn read_net_field_exports(
    reader: &mut BitReader<'_>,
    m: &mut [u8],
    scratch: &mut [u8],
) -> Result<u32, Refusal>
    requires { WellFormed m.old × (4096 ≤ length scratch.old) }
    ensures reads { Refines fields_run reader.old reader.new m.old m.new result }
    ensures stays { IfErr result (λ _. reader.new ≡ reader.old) }
{
    read_run(reader, m, scratch, export_entry)
}
