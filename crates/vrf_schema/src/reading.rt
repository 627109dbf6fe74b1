// The calls that read a window into a book: both export readers, `load_object` and the block reader. A window is three parameters, as
// `BitReader::window` takes it: a struct would be made by each caller and taken apart by the first line of each call.
ghost use Rattle.std.specs.Prelude.{◌≡◌, ◌-◌};
ghost use Rattle.vrf_model.specs.Calls.{read_net_field_exports, read_export_guids, load_object, read_checkpoint_tables};
ghost use Rattle.vrf_model.specs.Answers.{ran_of, tables_of};
ghost use Rattle.vrf_schema.specs.CallContract.{CallContract};
ghost use Rattle.vrf_schema.specs.Inner.Reading.{CheckedWindow};

use crate::checked::check_book;
use vrf_bitio::{BitReader, Refusal};
use vrf_checkpoint::block;
use vrf_model::{CheckpointTables, Ran};
use vrf_reader::{fields, guids, objects};

// The checks before a call with a window: first the check of the book, then those of the window.
fn check_book_window<'a>(
    book: &[u8],
    window: &'a [u8],
    first: u64,
    count: u64,
) -> Result<BitReader<'a>, Refusal>
    ensures { CheckedWindow book.now window.entry first count result }
{
    check_book(book)?;
    BitReader::window(window, first, count)
}

// The depth left: an object at depth 16 or more is refused. It is one call of the library, and stays: it gives document 01's limit a name and
// a contract, which the proof of `load_object` uses.
fn depth_left(depth: u32) -> u32
    ensures { result ≡ 16 - depth }
{
    16u32.saturating_sub(depth)
}

// These three keep a body each. One function over the reader was tried: with a ghost parser and call, and a relation between the reader and
// both, the code and the definitions became longer, and each caller still had to prove the relation.

// Reads a fields run.
pub fn read_net_field_exports(
    book: &mut [u8],
    window: &[u8],
    first: u64,
    count: u64,
) -> Result<Ran, Refusal>
    ensures { CallContract (read_net_field_exports (record { bytes = window.now; first = first; count = count })) book.old book.new (ran_of result) }
{
    let mut reader = check_book_window(book, window, first, count)?;
    let mut scratch = [0u8; 4096];
    let count = fields::read_net_field_exports(&mut reader, book, &mut scratch)?;
    Ok(Ran {
        count,
        pos: reader.pos,
    })
}

// Reads a GUID run.
pub fn read_export_guids(
    book: &mut [u8],
    window: &[u8],
    first: u64,
    count: u64,
) -> Result<Ran, Refusal>
    ensures { CallContract (read_export_guids (record { bytes = window.now; first = first; count = count })) book.old book.new (ran_of result) }
{
    let mut reader = check_book_window(book, window, first, count)?;
    let mut scratch = [0u8; 4096];
    let count = guids::read_export_guids(&mut reader, book, &mut scratch)?;
    Ok(Ran {
        count,
        pos: reader.pos,
    })
}

// Reads an object at the given starting depth.
pub fn load_object(
    book: &mut [u8],
    window: &[u8],
    first: u64,
    count: u64,
    exporting: bool,
    depth: u32,
) -> Result<Ran, Refusal>
    ensures { CallContract (load_object (record { bytes = window.now; first = first; count = count }) exporting depth) book.old book.new (ran_of result) }
{
    let mut reader = check_book_window(book, window, first, count)?;
    let mut scratch = [0u8; 4096];
    let left = depth_left(depth);
    let guid = objects::load_object(&mut reader, book, &mut scratch, exporting, left)?;
    Ok(Ran {
        count: guid,
        pos: reader.pos,
    })
}

pub fn read_checkpoint_tables(
    book: &mut [u8],
    window: &[u8],
    first: u64,
    count: u64,
) -> Result<CheckpointTables, Refusal>
    ensures { CallContract (read_checkpoint_tables (record { bytes = window.now; first = first; count = count })) book.old book.new (tables_of result) }
{
    let mut reader = check_book_window(book, window, first, count)?;
    let mut scratch = [0u8; 4096];
    block::read_checkpoint_tables(&mut reader, book, &mut scratch)
}
