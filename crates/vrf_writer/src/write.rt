// Writes a book as a checkpoint block.
ghost use Rattle.std.specs.Prelude.{◌≡◌, [], Err};
ghost use Rattle.std.proofs.Math.Option.{none};
ghost use Rattle.vrf_bitio.specs.declared.Reason.TheVariants.{BlockTooLong};
ghost use Rattle.vrf_model.specs.Writer.{first_clash};
ghost use Rattle.vrf_store.specs.Inner.WellFormed.{WellFormed};
ghost use Rattle.vrf_store.specs.Inner.Stepped.{held};
ghost use Rattle.vrf_writer.specs.Writes.{WritesBook};

use crate::block::put_block;
use crate::clash::first_clash;
use crate::size::{block_len, most_len};
use vrf_bitio::{Reason, Refusal};

// The maximum length of a block.
const BLOCK_BYTES: u64 = 268_435_456;

fn too_long(n: u64) -> Result<u64, Refusal>
    ensures { result ≡ Err (record { reason = BlockTooLong; a = n; b = 0 }) }
{
    Err(Refusal {
        reason: Reason::BlockTooLong,
        a: n,
        b: 0,
    })
}

// Writes a block of a book in which no path is a key of an earlier group. The block's length is computed first only if the upper bound of
// it does not fit.
fn write_clear(m: &[u8], out: &mut [u8]) -> Result<u64, Refusal>
    requires { WellFormed m.now × (first_clash [] (held m.now).groups ≡ none) }
    ensures { WritesBook (held m.now) out.old out.new result }
{
    let space = BLOCK_BYTES.min(out.len() as u64);
    if space < most_len(m) {
        let n = block_len(m);
        if space < n {
            return too_long(n);
        }
    }
    Ok(put_block(out, m) as u64)
}

// Writes the book as a block to the front of `out`. The bytes after the block stay as they were. If the writer is refused, `out` does not
// change.
pub fn write_checkpoint_tables(m: &[u8], out: &mut [u8]) -> Result<u64, Refusal>
    requires { WellFormed m.now }
    ensures { WritesBook (held m.now) out.old out.new result }
{
    match first_clash(m) {
        Some(place) => Err(Refusal {
            reason: Reason::PathIsEarlierKey,
            a: place as u64,
            b: 0,
        }),
        None => write_clear(m, out),
    }
}
