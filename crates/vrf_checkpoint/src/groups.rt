// The groups of a block and their slots.
ghost use Rattle.std.specs.Prelude.{◌≡◌, ◌||◌, ◌*◌, ◌≤◌, length, IfOk, IfErr};
ghost use Rattle.vrf_text.specs.Text.{IsText};
ghost use Rattle.vrf_model.specs.Lookup.{index_place, path_place};
ghost use Rattle.vrf_model.specs.Parser.{sum_from};
ghost use Rattle.vrf_model.specs.Block.{is_found, add_first, block_slot, block_group};
ghost use Rattle.vrf_store.specs.Inner.WellFormed.{WellFormed};
ghost use Rattle.vrf_store.specs.Inner.Stepped.{held};
ghost use Rattle.vrf_cache.specs.Inner.Taken.{StepBy};
ghost use Rattle.vrf_reader.specs.Inner.Simulates.{Refines};

use vrf_bitio::{BitReader, Reason, Refusal};
use vrf_cache::groups::append_group;
use vrf_reader::fields::named_field;
use vrf_reader::names::read_text;
use vrf_store::look::{find_index, find_path_place};

// A slot byte is 0 for empty; a field follows any other. Its handle must equal the slot. Answers the count of fields read.
fn read_slot(
    reader: &mut BitReader<'_>,
    m: &mut [u8],
    scratch: &mut [u8],
    index: u32,
    slot: u32,
) -> Result<u64, Refusal>
    requires { WellFormed m.old × (4096 ≤ length scratch.old) }
    ensures reads { Refines (block_slot index slot) reader.old reader.new m.old m.new result }
    ensures few { IfOk result (λ n. n ≤ 1) }
{
    let exported = reader.read_u8()?;
    if exported == 0 {
        return Ok(0);
    }
    let handle = reader.read_int_packed()?;
    if handle != slot {
        return Err(Refusal {
            reason: Reason::HandleNotSlot,
            a: slot as u64,
            b: handle as u64,
        });
    }
    named_field(reader, m, scratch, index, handle)?;
    Ok(1)
}

// The slots of a group.
fn read_slots(
    reader: &mut BitReader<'_>,
    m: &mut [u8],
    scratch: &mut [u8],
    index: u32,
    slots: u32,
) -> Result<u64, Refusal>
    requires { WellFormed m.old × (4096 ≤ length scratch.old) × (slots ≤ 65536) }
    ensures reads { Refines (sum_from slots 0 (block_slot index)) reader.old reader.new m.old m.new result }
    ensures few { IfOk result (λ n. n ≤ 65536) }
{
    let mut filled: u64 = 0;
    for slot in 0..slots {
        filled += read_slot(reader, m, scratch, index, slot)?;
    }
    Ok(filled)
}

// Whether a group has this index, or has this path as a key.
fn is_found(m: &[u8], path: &[u8], index: u32) -> bool
    requires { WellFormed m.now × IsText path.now }
    ensures { result ≡ (is_found (index_place index (held m.now).groups) || is_found (path_place path.now (held m.now).groups)) }
{
    find_index(m, index).is_some() || find_path_place(m, path).is_some()
}

// 34 if index or path is already found; otherwise the group is appended, without looking for them again.
fn add_first(m: &mut [u8], path: &[u8], index: u32, slots: u32) -> Result<u32, Refusal>
    requires { WellFormed m.old × IsText path.now × (slots ≤ 65536) }
    ensures { StepBy (add_first path.now index slots (held m.old)) m.old m.new result }
{
    if is_found(m, path, index) {
        return Err(Refusal {
            reason: Reason::GroupCollision,
            a: index as u64,
            b: 0,
        });
    }
    append_group(m, path, index, slots)
}

// One group: path, index and slot count. Then the group is added and its slots are read. (3, the slots, is the detail of refusal 31.)
fn read_group(reader: &mut BitReader<'_>, m: &mut [u8], scratch: &mut [u8]) -> Result<u64, Refusal>
    requires { WellFormed m.old × (4096 ≤ length scratch.old) }
    ensures reads { Refines block_group reader.old reader.new m.old m.new result }
    ensures few { IfOk result (λ n. n ≤ 65536) }
{
    let n = read_text(reader, scratch)?;
    let index = reader.read_int_packed()?;
    let slots = reader.read_int_packed()?;
    if 65536 < slots {
        return Err(Refusal {
            reason: Reason::CountOverflow,
            a: 3,
            b: slots as u64,
        });
    }
    add_first(m, &scratch[..n as usize], index, slots)?;
    read_slots(reader, m, scratch, index, slots)
}

// Answers the count of all fields read.
pub fn read_groups(
    reader: &mut BitReader<'_>,
    m: &mut [u8],
    scratch: &mut [u8],
    n: u32,
) -> Result<u64, Refusal>
    requires { WellFormed m.old × (4096 ≤ length scratch.old) × (n ≤ 100000) }
    ensures reads { Refines (sum_from n 0 (λ _. block_group)) reader.old reader.new m.old m.new result }
    ensures few { IfOk result (λ k. k ≤ 65536 * n) }
    ensures stays { IfErr result (λ _. reader.new ≡ reader.old) }
{
    let mut at = *reader;
    let mut fields: u64 = 0;
    for _ in 0..n {
        fields += read_group(&mut at, m, scratch)?;
    }
    *reader = at;
    Ok(fields)
}
