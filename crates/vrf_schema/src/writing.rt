// The writer of checkpoint blocks.
ghost use Rattle.vrf_schema.specs.WriteContract.{WriteContract};

use crate::checked::check_book;
use vrf_bitio::Refusal;
use vrf_writer::write;

// Writes the book as a block to the front of `out`, and answers the block's length.
pub fn write_checkpoint_tables(book: &[u8], out: &mut [u8]) -> Result<u64, Refusal>
    ensures { WriteContract book.now out.old out.new result }
{
    check_book(book)?;
    write::write_checkpoint_tables(book, out)
}
