// `read_checkpoint_tables`: the head of a block, its GUIDs, its groups, its end.
ghost use Rattle.std.specs.Prelude.{◌≡◌, ◌≤◌, length, IfOk, IfErr};
ghost use Rattle.vrf_model.specs.Block.{by_table, zero_word, count_up_to, block_end, block};
ghost use Rattle.vrf_store.specs.Inner.WellFormed.{WellFormed};
ghost use Rattle.vrf_reader.specs.Inner.Simulates.{RefinesReading};
ghost use Rattle.vrf_checkpoint.specs.Inner.Block.{BlockReads};

use crate::groups::read_groups;
use crate::guids::read_guids;
use vrf_bitio::{BitReader, Reason, Refusal};
use vrf_model::CheckpointTables;

// A word that must be 0; 30 gives its byte, `at`, and its value.
fn read_zero(reader: &mut BitReader<'_>, at: u32) -> Result<(), Refusal>
    ensures { RefinesReading (zero_word at) reader.old reader.new result }
{
    let w = reader.read_u32()?;
    if w != 0 {
        return Err(Refusal {
            reason: Reason::ReservedWordSet,
            a: at as u64,
            b: w as u64,
        });
    }
    Ok(())
}

// A count; 31 gives which count it is, if it is above `top`: a detail of document 01's table, so a number.
fn read_count(reader: &mut BitReader<'_>, which: u32, top: u32) -> Result<u32, Refusal>
    ensures reads { RefinesReading (count_up_to which top) reader.old reader.new result }
    ensures few { IfOk result (λ n. n ≤ top) }
{
    let n = reader.read_u32()?;
    if top < n {
        return Err(Refusal {
            reason: Reason::CountOverflow,
            a: which as u64,
            b: n as u64,
        });
    }
    Ok(n)
}

// The end byte is W + 8.
fn read_end(reader: &BitReader<'_>, w: u32) -> Result<u32, Refusal>
    ensures { RefinesReading (block_end w) reader.now reader.now result }
{
    let end = reader.position() / 8;
    let expected = w as u64 + 8;
    if end as u64 != expected {
        return Err(Refusal {
            reason: Reason::FrameOffsetMismatch,
            a: end as u64,
            b: expected,
        });
    }
    Ok(end)
}

// Answers the seven counts. A refused block leaves all that was taken before the refused step.
pub fn read_checkpoint_tables(
    reader: &mut BitReader<'_>,
    m: &mut [u8],
    scratch: &mut [u8],
) -> Result<CheckpointTables, Refusal>
    requires { WellFormed m.old × (4096 ≤ length scratch.old) }
    ensures reads { BlockReads (block by_table) reader.old reader.new m.old m.new result }
    ensures stays { IfErr result (λ _. reader.new ≡ reader.old) }
{
    let mut at = *reader;
    let w = at.read_u32()?;
    // Three calls and no loop, whose invariant would have these three cases.
    read_zero(&mut at, 4)?;
    read_zero(&mut at, 8)?;
    read_zero(&mut at, 12)?;
    let guids = read_count(&mut at, 1, 1_000_000)?;
    let t = read_guids(&mut at, m, scratch, guids)?;
    let groups = read_count(&mut at, 2, 100_000)?;
    let fields = read_groups(&mut at, m, scratch, groups)?;
    let frame = read_end(&at, w)?;
    *reader = at;
    Ok(CheckpointTables {
        guid_count: guids,
        group_count: groups,
        exported_fields: fields,
        frame_offset: frame,
        indexed_paths: t.indexed,
        literal_paths: t.literals,
        resolved_path_indices: t.resolved,
    })
}
