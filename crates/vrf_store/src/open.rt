// Opening a book in lent memory, and removing all its records.
ghost use Rattle.std.specs.Prelude.{◌≡◌, ◌≤◌, length};
ghost use Rattle.vrf_model.specs.Answers.{allowed_by};
ghost use Rattle.vrf_model.specs.Book.{zero_counters, fresh};
ghost use Rattle.vrf_model.specs.Lawful.{Allowed};
ghost use Rattle.vrf_table.specs.Inner.Answers.{entry};
ghost use Rattle.vrf_store.specs.Layout;
ghost use Rattle.vrf_store.specs.Store.{header_of, counters_of};
ghost use Rattle.vrf_store.specs.Opening.{above_top, memory_needed};
ghost use Rattle.vrf_store.specs.Inner.WellFormed.{Enough, WellFormed};
ghost use Rattle.vrf_store.specs.Inner.Stepped.{Stepped, held};
ghost use Rattle.vrf_store.specs.Inner.Opening.{empty_header, OpenedMemory, BetweenWritten};

use crate::parts::{fields_allowed, groups_allowed, guids_allowed};
use vrf_bitio::{Reason, Refusal};
use vrf_model::Allowances;
use vrf_words::{put32, zero_words};

// The number of the lowest allowance above its top, 1 to 5, if one is: the detail of refusal 1 in document 01's table, so a number and no enum.
fn above_top(allowed: Allowances) -> Option<u64>
    ensures { entry result ≡ above_top (allowed_by allowed) }
{
    if 1_000_000 < allowed.guids {
        return Some(1);
    }
    if 100_000 < allowed.groups {
        return Some(2);
    }
    if 1_000_000 < allowed.fields {
        return Some(3);
    }
    if 67_108_864 < allowed.text {
        return Some(4);
    }
    if 1_000_000 < allowed.literals {
        return Some(5);
    }
    None
}

// The number of bytes that the allowances need. They must not be above their tops.
fn needed(allowed: Allowances) -> u64
    requires { Allowed (allowed_by allowed) }
    ensures { result ≡ Layout.need (allowed_by allowed) }
{
    4 * (37 + 10 * allowed.guids + 16 * allowed.groups + 10 * allowed.fields + allowed.literals)
        + 2 * allowed.text
}

// The number of bytes to lend to `open`, or 0 if it refuses the allowances. No Option: document 01's `memory_needed` is 0 there, and a function
// that cannot fail must stay one.
pub fn memory_needed(allowed: Allowances) -> u64
    ensures { result ≡ memory_needed (allowed_by allowed) }
{
    match above_top(allowed) {
        Some(_) => 0,
        None => needed(allowed),
    }
}

// Writes the header of a book that holds nothing, with all counters at 0.
fn write_header(m: &mut [u8], allowed: Allowances)
    requires { (128 ≤ length m.old) × Allowed (allowed_by allowed) }
    ensures { (header_of m.new ≡ empty_header (allowed_by allowed) 0)
        × (counters_of m.new ≡ zero_counters)
        × (length m.new ≡ length m.old) }
{
    put32(m, 0, allowed.guids as u32);
    put32(m, 1, allowed.groups as u32);
    put32(m, 2, allowed.fields as u32);
    put32(m, 3, allowed.text as u32);
    put32(m, 4, allowed.literals as u32);
    zero_words(m, 5, 27);
}

// Clears every head, so that no chain starts at a row of an earlier book in this memory.
pub fn zero_heads(m: &mut [u8])
    requires { Enough m.old }
    ensures { BetweenWritten m.old m.new }
{
    let g = guids_allowed(m);
    let r = groups_allowed(m);
    let f = fields_allowed(m);
    zero_words(m, 32 + 6 * g, 4 * g + 1);
    zero_words(m, 33 + 10 * g + 6 * r, r + 1);
    zero_words(m, 34 + 10 * g + 10 * r, 3 * r + 1);
    zero_words(m, 35 + 10 * g + 14 * r, 2 * r + 1);
    zero_words(m, 36 + 10 * g + 16 * r + 6 * f, 4 * f + 1);
}

pub fn open(m: &mut [u8], allowed: Allowances) -> Result<(), Refusal>
    ensures { OpenedMemory (allowed_by allowed) m.old m.new result }
{
    if let Some(which) = above_top(allowed) {
        return Err(Refusal {
            reason: Reason::AllowanceAboveTop,
            a: which,
            b: 0,
        });
    }
    let bytes = needed(allowed);
    if (m.len() as u64) < bytes {
        return Err(Refusal {
            reason: Reason::MemoryTooShort,
            a: bytes,
            b: 0,
        });
    }
    write_header(m, allowed);
    zero_heads(m);
    Ok(())
}

// Removes all records of a book. The counters, and the half of the texts that is in use, stay.
pub fn clear_book(m: &mut [u8])
    requires { WellFormed m.old }
    ensures { Stepped m.old m.new (fresh (held m.old).allowed) }
{
    zero_words(m, 5, 5);
    zero_heads(m);
}
