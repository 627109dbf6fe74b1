// The length of a block. No empty slot is visited: the first byte of each slot is counted with its group, and the other bytes of a filled
// slot with its field.
ghost use Rattle.std.specs.Prelude.{◌≡◌, ◌<◌, ◌≤◌, length};
ghost use Rattle.vrf_bitio.specs.Number.{encode_packed};
ghost use Rattle.vrf_text.specs.Text.{encode_text};
ghost use Rattle.vrf_model.specs.Writer.{encode_guid, encode_all, encode_book};
ghost use Rattle.vrf_store.specs.UpTo.{sum_below};
ghost use Rattle.vrf_store.specs.Store.{header_of, store_of};
ghost use Rattle.vrf_store.specs.Inner.WellFormed.{WellFormed};
ghost use Rattle.vrf_store.specs.Inner.Stepped.{held};
ghost use Rattle.vrf_writer.specs.Inner.Groups.{group_at};
ghost use Rattle.vrf_writer.specs.Inner.Numbers.{one_from};
ghost use Rattle.vrf_writer.specs.Inner.Size.{group_bytes, field_bytes};

use crate::guids::guid_of;
use vrf_store::look::{group_index, group_path, group_slots, row_info, row_key};
use vrf_store::parts::{field_rows, fields, groups, guid_rows, guids, held, texts};
use vrf_table::row_text;

// 1 if n is at least `least`, otherwise 0.
fn one_from(least: u32, n: u32) -> u64
    ensures { (result ≡ one_from least n) × (result ≤ 1) }
{
    if n < least { 0 } else { 1 }
}

// The length of a packed number: one more byte from each power of 128 on. A sum needs no branch. A branch would often be predicted wrongly,
// because the numbers of the records vary.
fn packed_len(n: u32) -> u64
    ensures { result ≡ length (encode_packed n) }
{
    let first = 1 + one_from(0x80, n) + one_from(0x4000, n);
    first + one_from(0x20_0000, n) + one_from(0x1000_0000, n)
}

// The length of a text as it is written.
fn text_len(t: &[u8]) -> u64
    requires { length t.now ≤ 4096 }
    ensures { result ≡ length (encode_text t.now) }
{
    if t.is_empty() {
        return 4;
    }
    t.len() as u64 + 5
}

// The length of all GUID records. GUIDs, outers and paths have separate sums, because additions to a single sum would wait for each other.
fn guids_len(m: &[u8]) -> u64
    requires { WellFormed m.now }
    ensures { result ≡ length (encode_all encode_guid (held m.now).guids) }
{
    let rows = guid_rows(m);
    let x = texts(m);
    let n = guids(m);
    let mut keys = 0;
    let mut outers = 0;
    let mut paths = 0;
    for i in 0..n {
        keys += packed_len(guid_of(rows, i));
        outers += packed_len(row_info(rows, i));
        paths += text_len(row_text(rows, x, i));
    }
    keys + outers + paths + 2 * (n as u64)
}

// The length of the group at a place, with one byte for each slot.
fn group_len(m: &[u8], g: u32) -> u64
    requires { WellFormed m.now × (g < (header_of m.now).groups) }
    ensures { result ≡ group_bytes (group_at (store_of m.now) g) }
{
    let slots = group_slots(m, g);
    let path = text_len(group_path(m, g));
    path + packed_len(group_index(m, g)) + packed_len(slots) + slots as u64
}

// The length of all groups, with one byte for each slot.
// (This and `fields_len` are not one function over a closure: it would also have to be given a bound of each length, or a sum could pass
// 64 bits. Here the loop's proof takes it from the rules of the book.)
fn groups_len(m: &[u8]) -> u64
    requires { WellFormed m.now }
    ensures { result ≡ sum_below (λ g. group_bytes (group_at (store_of m.now) g)) (header_of m.now).groups }
{
    let mut sum = 0;
    for g in 0..groups(m) {
        sum += group_len(m, g);
    }
    sum
}

// The length of the field in row e, without the first byte of its slot.
fn field_len(m: &[u8], e: u32) -> u64
    requires { WellFormed m.now × (e < (header_of m.now).fields) }
    ensures { result ≡ field_bytes (store_of m.now) e }
{
    let rows = field_rows(m);
    let slot = (row_key(rows, e) % 0x1_0000) as u32;
    packed_len(slot) + 9 + text_len(row_text(rows, texts(m), e))
}

// The length of all fields, without the first bytes of their slots.
fn fields_len(m: &[u8]) -> u64
    requires { WellFormed m.now }
    ensures { result ≡ sum_below (field_bytes (store_of m.now)) (header_of m.now).fields }
{
    let mut sum = 0;
    for e in 0..fields(m) {
        sum += field_len(m, e);
    }
    sum
}

pub fn block_len(m: &[u8]) -> u64
    requires { WellFormed m.now }
    ensures { result ≡ length (encode_book (held m.now)) }
{
    24 + guids_len(m) + groups_len(m) + fields_len(m)
}

// An upper bound of the block's length, without reading any GUID record or field. Beside its text a GUID record has at most 17 bytes and a
// field at most 19. Their texts together have at most the bytes of all texts held.
pub fn most_len(m: &[u8]) -> u64
    requires { WellFormed m.now }
    ensures { length (encode_book (held m.now)) ≤ result }
{
    let numbers = 17 * (guids(m) as u64) + 19 * (fields(m) as u64);
    24 + numbers + held(m) as u64 + groups_len(m)
}
