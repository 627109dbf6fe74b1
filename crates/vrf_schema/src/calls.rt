// The calls that change a book: opening one, and document 01's book calls.
ghost use Rattle.std.specs.Prelude.{◌≡◌};
ghost use Rattle.vrf_model.specs.Calls.{clear_book, add_export_group, set_net_guid_path, set_field_on_group};
ghost use Rattle.vrf_model.specs.Answers.{allowed_by, acted_of, added_of, placed_of};
ghost use Rattle.vrf_store.specs.Opening.{memory_needed};
ghost use Rattle.vrf_schema.specs.CallContract.{CallContract};
ghost use Rattle.vrf_schema.specs.OpenContract.{OpenContract};

use crate::checked::{check_book, check_book_text};
use vrf_bitio::{Reason, Refusal};
use vrf_cache::{clear, fields, groups, guids};
use vrf_model::Allowances;
use vrf_store::open;

// The number of bytes that `open` needs, or 0 if it refuses the allowances. No Option: document 01's `memory_needed` is 0 there, and a function
// that cannot fail must stay one.
pub fn memory_needed(allowed: Allowances) -> u64
    ensures { result ≡ memory_needed (allowed_by allowed) }
{
    open::memory_needed(allowed)
}

// Opens a book with five allowances. The memory may hold anything before.
pub fn open(book: &mut [u8], allowed: Allowances) -> Result<(), Refusal>
    ensures { OpenContract (allowed_by allowed) book.old book.new result }
{
    open::open(book, allowed)
}

pub fn clear(book: &mut [u8]) -> Result<(), Refusal>
    ensures { CallContract clear_book book.old book.new (acted_of result) }
{
    check_book(book)?;
    clear::clear(book)
}

// Sets the path and the outer of a GUID. Outer 0 means none, as in document 01 and on the wire.
pub fn set_net_guid_path(book: &mut [u8], guid: u32, path: &[u8], outer: u32) -> Result<(), Refusal>
    ensures { CallContract (set_net_guid_path guid path.now outer) book.old book.new (acted_of result) }
{
    check_book_text(book, path)?;
    guids::set_net_guid_path(book, guid, path, outer)
}

// Adds a group, merges it into the group that its path finds, or replaces the group that has its index.
pub fn add_export_group(
    book: &mut [u8],
    path: &[u8],
    index: u32,
    slots: u32,
) -> Result<u32, Refusal>
    ensures { CallContract (add_export_group path.now index slots) book.old book.new (added_of result) }
{
    check_book_text(book, path)?;
    if 65536 < slots {
        return Err(Refusal {
            reason: Reason::TooManySlots,
            a: slots as u64,
            b: 0,
        });
    }
    groups::add_export_group(book, path, index, slots)
}

// Puts a field into the slot of its handle, in the group with the given path-name index.
pub fn set_field_on_group(
    book: &mut [u8],
    index: u32,
    handle: u32,
    checksum: u32,
    name: &[u8],
) -> Result<bool, Refusal>
    ensures { CallContract (set_field_on_group index handle checksum name.now) book.old book.new (placed_of result) }
{
    check_book_text(book, name)?;
    fields::set_field_on_group(book, index, handle, checksum, name)
}
