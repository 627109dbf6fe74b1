// Writes groups and their slots.
ghost use Rattle.std.specs.Prelude.{◌≡◌, ◌+◌, ◌<◌, ◌≤◌, length};
ghost use Rattle.vrf_model.specs.Writer.{encode_slot, encode_slots, encode_group, encode_all};
ghost use Rattle.vrf_table.specs.Inner.Answers.{entry};
ghost use Rattle.vrf_store.specs.Store.{header_of, store_of, field_at, or_empty, slot_key};
ghost use Rattle.vrf_store.specs.Inner.WellFormed.{WellFormed};
ghost use Rattle.vrf_store.specs.Inner.Stepped.{held};
ghost use Rattle.vrf_store.specs.Inner.Fields.{field_found};
ghost use Rattle.vrf_writer.specs.Inner.Prefix.{WritesPrefix};
ghost use Rattle.vrf_writer.specs.Inner.Groups.{group_at, name_code, RowBelow};

use crate::numbers::{put_packed, put_text, put_word};
use vrf_store::look::{find_field, group_index, group_path, group_slots, row_info, row_key};
use vrf_store::parts::{field_rows, fields, groups, texts};
use vrf_table::row_text;

// A name: kind 0, its text, and 0 for its number.
fn put_name(out: &mut [u8], t: &[u8]) -> usize
    requires { (length (name_code t.now) ≤ length out.old) × (length t.now ≤ 4096) }
    ensures { WritesPrefix (name_code t.now) out.old out.new result }
{
    out[0] = 0;
    let at = 1 + put_text(&mut out[1..], t);
    at + put_word(&mut out[at..], 0)
}

// A slot that the field in row e fills.
fn put_field(out: &mut [u8], m: &[u8], slot: u32, e: u32) -> usize
    requires { WellFormed m.now × (e < (header_of m.now).fields) × (length (encode_slot slot (field_at (store_of m.now) e)) ≤ length out.old) }
    ensures { WritesPrefix (encode_slot slot (field_at (store_of m.now) e)) out.old out.new result }
{
    let rows = field_rows(m);
    out[0] = 1;
    let mut at = 1 + put_packed(&mut out[1..], slot);
    at += put_word(&mut out[at..], row_info(rows, e));
    at + put_name(&mut out[at..], row_text(rows, texts(m), e))
}

// A slot, filled if the row of its field was found, otherwise empty.
fn put_slot(out: &mut [u8], m: &[u8], slot: u32, found: Option<u32>) -> usize
    requires { WellFormed m.now × RowBelow (header_of m.now).fields (entry found) × (length (encode_slot slot (or_empty (field_at (store_of m.now)) (entry found))) ≤ length out.old) }
    ensures { WritesPrefix (encode_slot slot (or_empty (field_at (store_of m.now)) (entry found))) out.old out.new result }
{
    match found {
        Some(e) => put_field(out, m, slot, e),
        None => {
            out[0] = 0;
            1
        }
    }
}

// The row of the field in a slot of the group at a place. Most fields are in the order of their slots, so row `next` is tried before a
// search.
fn find_slot(m: &[u8], place: u32, slot: u32, next: u32) -> Option<u32>
    requires { WellFormed m.now }
    ensures { entry result ≡ field_found (store_of m.now) (slot_key place slot) }
{
    let key = 0x1_0000 * (place as u64) + slot as u64;
    if next < fields(m) && row_key(field_rows(m), next) == key {
        return Some(next);
    }
    find_field(m, place, slot)
}

// All slots of the group at a place, in their order. The row to try for a slot is the one after the row that was found last.
fn put_slots(out: &mut [u8], m: &[u8], place: u32) -> usize
    requires { WellFormed m.now × (place < (header_of m.now).groups) × (length (encode_slots 0 (group_at (store_of m.now) place).slots) ≤ length out.old) }
    ensures { WritesPrefix (encode_slots 0 (group_at (store_of m.now) place).slots) out.old out.new result }
{
    let mut at = 0;
    let mut next = 0;
    for slot in 0..group_slots(m, place) {
        let found = find_slot(m, place, slot, next);
        at += put_slot(&mut out[at..], m, slot, found);
        next = found.map_or(next, |e| e.wrapping_add(1));
    }
    at
}

// The group at a place.
fn put_group(out: &mut [u8], m: &[u8], g: u32) -> usize
    requires { WellFormed m.now × (g < (header_of m.now).groups) × (length (encode_group (group_at (store_of m.now) g)) ≤ length out.old) }
    ensures { WritesPrefix (encode_group (group_at (store_of m.now) g)) out.old out.new result }
{
    let mut at = put_text(out, group_path(m, g));
    at += put_packed(&mut out[at..], group_index(m, g));
    at += put_packed(&mut out[at..], group_slots(m, g));
    at + put_slots(&mut out[at..], m, g)
}

// All groups, in their order.
pub fn put_groups(out: &mut [u8], m: &[u8]) -> usize
    requires { WellFormed m.now × (length (encode_all encode_group (held m.now).groups) ≤ length out.old) }
    ensures { WritesPrefix (encode_all encode_group (held m.now).groups) out.old out.new result }
{
    let mut at = 0;
    for g in 0..groups(m) {
        at += put_group(&mut out[at..], m, g);
    }
    at
}
