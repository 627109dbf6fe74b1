// The call `write`. The last written block is at the front of the scratch buffer. The writer is lent bytes after it, so a refused writing
// leaves that block. A new block is then moved to the front and replaces it. (A struct of the buffer and the length of its block would hold the
// `&mut`, and each contract would say that it keeps the borrow.)
ghost use Rattle.std.specs.Prelude.{length, IfOk};
ghost use Rattle.vrf_script_calls.specs.Inner.Blocks.{KeptIn};

use crate::books::move_part;
use vrf_bitio::Refusal;
use vrf_schema::writing::write_checkpoint_tables;
use vrf_script::answers::Answers;
use vrf_script::script::Stop;

// FNV-1a of 64 bits.
fn fnv(s: &[u8]) -> u64 {
    let mut hash: u64 = 0xCBF2_9CE4_8422_2325;
    for b in s {
        hash = (hash ^ u64::from(*b)).wrapping_mul(0x100_0000_01B3);
    }
    hash
}

// Every byte of the buffer is 0xA5 before the writing.
fn write_into(book: &[u8], buffer: &mut [u8]) -> Result<u64, Refusal>
    ensures { IfOk result (KeptIn (length buffer.old)) }
{
    buffer.fill(0xA5);
    write_checkpoint_tables(book, buffer)
}

// Writes the book into a buffer of n bytes after the last written block. The line has the answer, and the hash of the whole buffer after the writing.
// `kept` is the length of the last written block.
pub fn write(
    book: &[u8],
    n: u64,
    scratch: &mut [u8],
    kept: &mut usize,
    answers: &mut Answers<'_>,
) -> Result<(), Stop>
    requires { KeptIn (length scratch.old) kept.old }
    ensures { KeptIn (length scratch.old) kept.new }
{
    let from = *kept;
    let space = scratch.len() - from;
    if (space as u64) < n {
        return Err(Stop::TooLarge);
    }
    let to = from + n as usize;
    let buffer = &mut scratch[from..to];
    let written = write_into(book, buffer);
    let sum = fnv(buffer);
    answers.begin();
    answers.value("length ", written);
    answers.put(" fnv ");
    answers.hexadecimal(sum);
    answers.end();
    if let Ok(length) = written {
        let size = length as usize;
        move_part(scratch, from, 0, size);
        *kept = size;
    }
    Ok(())
}
