// The GUIDs of a block. The memory stores the position of each literal, and its text is found again in the block.
ghost use Rattle.std.specs.Prelude.{◌≡◌, ◌≤◌, length, IfErr};
ghost use Rattle.vrf_model.specs.Block.{no_paths, literal, resolved, by_table, path_of_kind, block_guid, block_guids};
ghost use Rattle.vrf_store.specs.Inner.WellFormed.{WellFormed};
ghost use Rattle.vrf_checkpoint.specs.Inner.Guids.{BeforeEntry, PathBy, GuidReads, GuidBy};

use vrf_bitio::{BitReader, Reason, Refusal};
use vrf_cache::guids::set_net_guid_path;
use vrf_reader::names::read_text;
use vrf_store::literals::{literal_at, put_literal};
use vrf_store::parts::literals_allowed;

// Counts of the GUID entries so far: literals (kind 1), kind 0 entries, places resolved.
#[derive(Clone, Copy, Debug, Default, PartialEq, Eq)]
pub struct Paths {
    pub literals: u32,
    pub indexed: u32,
    pub resolved: u32,
}

// Text (kind 1). The literal is taken against allowance 5, and its position is stored. Answers the length of the path, which is at the
// front of the scratch buffer, and the counts with this entry.
fn read_literal(
    reader: &mut BitReader<'_>,
    m: &mut [u8],
    scratch: &mut [u8],
    entry: u32,
    t: Paths,
) -> Result<(u32, Paths), Refusal>
    requires { BeforeEntry reader.old m.old scratch.old entry t }
    ensures { PathBy literal reader.old reader.new m.old m.new scratch.new entry t result }
{
    let at = reader.position();
    let n = read_text(reader, scratch)?;
    // 5, the literals, is the detail of refusal 42 in document 01's table.
    if literals_allowed(m) <= t.literals as usize {
        return Err(Refusal {
            reason: Reason::AllowancePassed,
            a: 5,
            b: 0,
        });
    }
    put_literal(m, t.literals, at);
    Ok((
        n,
        Paths {
            literals: t.literals + 1,
            ..t
        },
    ))
}

// Packed place among this block's earlier literals (kind 0). The text of the literal is read again, at its stored position.
fn read_place(
    reader: &mut BitReader<'_>,
    m: &[u8],
    scratch: &mut [u8],
    entry: u32,
    t: Paths,
) -> Result<(u32, Paths), Refusal>
    requires { BeforeEntry reader.old m.now scratch.old entry t }
    ensures { PathBy (resolved entry) reader.old reader.new m.now m.now scratch.new entry t result }
{
    let place = reader.read_int_packed()?;
    if t.literals <= place {
        return Err(Refusal {
            reason: Reason::PathIndexOutOfBounds,
            a: entry as u64,
            b: place as u64,
        });
    }
    let mut literal = BitReader {
        pos: literal_at(m, place),
        ..*reader
    };
    let n = read_text(&mut literal, scratch)?;
    Ok((
        n,
        Paths {
            indexed: t.indexed + 1,
            resolved: t.resolved + 1,
            ..t
        },
    ))
}

// Decision over the kind byte: 0 place, 1 text, any other refused. (A byte of the wire: an enum would be made of it here and matched at once.)
fn read_path(
    reader: &mut BitReader<'_>,
    m: &mut [u8],
    scratch: &mut [u8],
    entry: u32,
    kind: u8,
    t: Paths,
) -> Result<(u32, Paths), Refusal>
    requires { BeforeEntry reader.old m.old scratch.old entry t }
    ensures { PathBy (λ table. path_of_kind by_table entry table kind) reader.old reader.new m.old m.new scratch.new entry t result }
{
    match kind {
        0 => read_place(reader, m, scratch, entry, t),
        1 => read_literal(reader, m, scratch, entry, t),
        _ => Err(Refusal {
            reason: Reason::BadPathKind,
            a: entry as u64,
            b: kind as u64,
        }),
    }
}

// One entry: GUID and outer, kind byte and path, flags byte. Then the GUID is set.
fn read_guid(
    reader: &mut BitReader<'_>,
    m: &mut [u8],
    scratch: &mut [u8],
    entry: u32,
    t: Paths,
) -> Result<Paths, Refusal>
    requires { BeforeEntry reader.old m.old scratch.old entry t }
    ensures { GuidBy (block_guid by_table entry) reader.old reader.new m.old m.new entry t result }
{
    let guid = reader.read_int_packed()?;
    let outer = reader.read_int_packed()?;
    let kind = reader.read_u8()?;
    let (n, t) = read_path(reader, m, scratch, entry, kind, t)?;
    reader.read_u8()?;
    set_net_guid_path(m, guid, &scratch[..n as usize], outer)?;
    Ok(t)
}

pub fn read_guids(
    reader: &mut BitReader<'_>,
    m: &mut [u8],
    scratch: &mut [u8],
    n: u32,
) -> Result<Paths, Refusal>
    requires { WellFormed m.old × (4096 ≤ length scratch.old) × (n ≤ 1000000) }
    ensures reads { GuidReads (block_guids by_table n 0 no_paths) reader.old reader.new m.old m.new n result }
    ensures stays { IfErr result (λ _. reader.new ≡ reader.old) }
{
    let mut at = *reader;
    let mut t = Paths::default();
    for entry in 0..n {
        t = read_guid(&mut at, m, scratch, entry, t)?;
    }
    *reader = at;
    Ok(t)
}
