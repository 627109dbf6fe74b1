// Lookups in well-formed memory. Each gives the answer that document 01 defines for the book in that memory.
ghost use Rattle.std.specs.Prelude.{◌≡◌, ◌+◌, ◌*◌, ◌^◌, ◌<◌, ◌≤◌, [], ◌++◌, length, take, if◌then◌else◌, nat_eq};
ghost use Rattle.std.proofs.Math.Option.{none, some};
ghost use Rattle.vrf_model.specs.Book.{Guid, Group};
ghost use Rattle.vrf_model.specs.Lookup.{place_or, path_place, index_place, guid_place, slot_checksum, slot_name, slot_at, leaf_claim, outer_guid, outer_path, if_filled, gameplay_tag};
ghost use Rattle.vrf_table.specs.Table.{key, info};
ghost use Rattle.vrf_table.specs.TextIndex.{text_start};
ghost use Rattle.vrf_table.specs.Inner.Index.{claim_or_later};
ghost use Rattle.vrf_table.specs.Inner.Answers.{entry, claim};
ghost use Rattle.vrf_store.specs.Layout;
ghost use Rattle.vrf_store.specs.Store.{allowances_of, header_of, store_of, slot_key, content_of};
ghost use Rattle.vrf_store.specs.Inner.Valid.{ValidHeader};
ghost use Rattle.vrf_store.specs.Inner.WellFormed.{Enough, WellFormed};
ghost use Rattle.vrf_store.specs.Inner.Indexes.{Readable, KeyParts, GroupParts, PathParts, ChainParts, LeafParts};
ghost use Rattle.vrf_store.specs.Inner.Lookups.{NameLeaves};
ghost use Rattle.vrf_store.specs.Inner.Fields.{field_found, slot_row};

use crate::parts::{
    field_heads, field_rows, fields, fields_allowed, group_heads, group_rows, groups,
    groups_allowed, guid_heads, guid_rows, guids, guids_allowed, leaf_heads, leaf_links,
    path_heads, path_links, texts,
};
use vrf_table::{
    Claim, GroupRows, KeyIndex, LeafChains, LeafIndex, PathIndex, row_text, text_bucket,
};
use vrf_words::{get32, get64};

// The number of buckets of each index. One function each: each contract names its own number of the layout, and asks for its own allowance.
pub fn guid_buckets(m: &[u8]) -> u32
    requires { (128 ≤ length m.now) × ((allowances_of m.now).guids ≤ 1000000) }
    ensures { result ≡ Layout.guid_buckets (allowances_of m.now) }
{
    (4 * guids_allowed(m) + 1) as u32
}

pub fn group_buckets(m: &[u8]) -> u32
    requires { (128 ≤ length m.now) × ((allowances_of m.now).groups ≤ 100000) }
    ensures { result ≡ Layout.group_buckets (allowances_of m.now) }
{
    (groups_allowed(m) + 1) as u32
}

pub fn path_buckets(m: &[u8]) -> u32
    requires { (128 ≤ length m.now) × ((allowances_of m.now).groups ≤ 100000) }
    ensures { result ≡ Layout.path_buckets (allowances_of m.now) }
{
    (3 * groups_allowed(m) + 1) as u32
}

pub fn leaf_buckets(m: &[u8]) -> u32
    requires { (128 ≤ length m.now) × ((allowances_of m.now).groups ≤ 100000) }
    ensures { result ≡ Layout.leaf_buckets (allowances_of m.now) }
{
    (2 * groups_allowed(m) + 1) as u32
}

pub fn field_buckets(m: &[u8]) -> u32
    requires { (128 ≤ length m.now) × ((allowances_of m.now).fields ≤ 1000000) }
    ensures { result ≡ Layout.field_buckets (allowances_of m.now) }
{
    (4 * fields_allowed(m) + 1) as u32
}

pub fn row_key(rows: &[u8], e: u32) -> u64
    requires { 24 * e + 24 ≤ length rows.now }
    ensures { result ≡ key rows.now e }
{
    get64(rows, 6 * (e as usize))
}

// The number in row e: an outer, a slot count or a checksum.
pub fn row_info(rows: &[u8], e: u32) -> u32
    requires { 24 * e + 24 ≤ length rows.now }
    ensures { result ≡ info rows.now e }
{
    get32(rows, 6 * (e as usize) + 5)
}

// The indexes (docs/LAYOUT.md, Indexes). The first three have all rows of their tables, the last two the first n groups.
// One function each: one that is told the table would have an arm for each of its four parts, in code and in contract.
pub fn guids_by_key(m: &[u8]) -> KeyIndex<'_>
    requires { Enough m.now × ValidHeader (header_of m.now) }
    ensures { KeyParts result (store_of m.now).guid_rows (store_of m.now).guid_heads (Layout.guid_buckets (allowances_of m.now)) (header_of m.now).guids }
{
    KeyIndex {
        rows: guid_rows(m),
        heads: guid_heads(m),
        buckets: guid_buckets(m),
        count: guids(m),
    }
}

pub fn groups_by_index(m: &[u8]) -> KeyIndex<'_>
    requires { Enough m.now × ValidHeader (header_of m.now) }
    ensures { KeyParts result (store_of m.now).group_rows (store_of m.now).group_heads (Layout.group_buckets (allowances_of m.now)) (header_of m.now).groups }
{
    KeyIndex {
        rows: group_rows(m),
        heads: group_heads(m),
        buckets: group_buckets(m),
        count: groups(m),
    }
}

pub fn fields_by_key(m: &[u8]) -> KeyIndex<'_>
    requires { Enough m.now × ValidHeader (header_of m.now) }
    ensures { KeyParts result (store_of m.now).field_rows (store_of m.now).field_heads (Layout.field_buckets (allowances_of m.now)) (header_of m.now).fields }
{
    KeyIndex {
        rows: field_rows(m),
        heads: field_heads(m),
        buckets: field_buckets(m),
        count: fields(m),
    }
}

fn first_groups(m: &[u8], n: u32) -> GroupRows<'_>
    requires { Readable m.now n }
    ensures { GroupParts result (store_of m.now) n }
{
    GroupRows {
        rows: group_rows(m),
        texts: texts(m),
        count: n,
    }
}

pub fn groups_by_path(m: &[u8], n: u32) -> PathIndex<'_>
    requires { Readable m.now n }
    ensures { PathParts result (store_of m.now) n }
{
    PathIndex {
        groups: first_groups(m, n),
        links: path_links(m),
        heads: path_heads(m),
        buckets: path_buckets(m),
    }
}

fn leaf_chains(m: &[u8], n: u32) -> LeafChains<'_>
    requires { Readable m.now n }
    ensures { ChainParts result (store_of m.now) n }
{
    LeafChains {
        groups: first_groups(m, n),
        links: leaf_links(m),
    }
}

pub fn groups_by_leaf(m: &[u8], n: u32) -> LeafIndex<'_>
    requires { Readable m.now n }
    ensures { LeafParts result (store_of m.now) n }
{
    LeafIndex {
        chains: leaf_chains(m, n),
        heads: leaf_heads(m),
        buckets: leaf_buckets(m),
    }
}

// The place of the record with this GUID.
pub fn find_guid(m: &[u8], guid: u32) -> Option<u32>
    requires { WellFormed m.now }
    ensures { entry result ≡ guid_place guid (content_of (store_of m.now)).guids }
{
    guids_by_key(m).find(guid as u64)
}

// The place of the group with this path-name index.
pub fn find_index(m: &[u8], index: u32) -> Option<u32>
    requires { WellFormed m.now }
    ensures { entry result ≡ index_place index (content_of (store_of m.now)).groups }
{
    groups_by_index(m).find(index as u64)
}

// The place of the last group with the key k.
pub fn find_path_place(m: &[u8], k: &[u8]) -> Option<u32>
    requires { WellFormed m.now × (length k.now < 2 ^ 31) }
    ensures { entry result ≡ path_place k.now (content_of (store_of m.now)).groups }
{
    let e = groups_by_path(m, groups(m)).find(&k[..])?;
    Some(e / 3)
}

// The pointer at which the chain of the leaves with this base starts.
fn leaf_start(m: &[u8], base: &[u8]) -> u32
    requires { WellFormed m.now × (length base.now < 2 ^ 31) }
    ensures { result ≡ text_start (store_of m.now).leaf_heads (Layout.leaf_buckets (allowances_of m.now)) base.now }
{
    let b = leaf_buckets(m);
    get32(leaf_heads(m), text_bucket(&base[..], b) as usize)
}

// The pointer at which the chain for the first n bytes of a name starts. q is the pointer for the whole name. Mostly n is the whole length.
fn front_start(m: &[u8], name: &[u8], n: usize, q: u32) -> u32
    requires { WellFormed m.now × (length name.now < 2 ^ 31) × (n ≤ length name.now) × (q ≡ text_start (store_of m.now).leaf_heads (Layout.leaf_buckets (allowances_of m.now)) name.now) }
    ensures { result ≡ text_start (store_of m.now).leaf_heads (Layout.leaf_buckets (allowances_of m.now)) (take n name.now) }
{
    if n == name.len() {
        return q;
    }
    leaf_start(m, &name[..n])
}

// The first claim that is not absent, among the name with the suffixes s, t and u. The name is the base of the last two leaves, and its
// first n bytes are the base of the first leaf.
pub fn claim_of(m: &[u8], name: &[u8], n: usize, s: &[u8], t: &[u8], u: &[u8]) -> Claim
    requires { WellFormed m.now × NameLeaves name.now n s.now t.now u.now }
    ensures { claim result ≡ claim_or_later (leaf_claim (name.now ++ s.now) (content_of (store_of m.now)).groups) (claim_or_later (leaf_claim (name.now ++ t.now) (content_of (store_of m.now)).groups) (leaf_claim (name.now ++ u.now) (content_of (store_of m.now)).groups)) }
{
    let q = leaf_start(m, name);
    let p = front_start(m, name, n, q);
    leaf_chains(m, groups(m)).first_claim(p, q, name, s, t, u)
}

// The row of the field with the key of this place and slot. Both can be any numbers.
pub fn find_field(m: &[u8], place: u32, slot: u32) -> Option<u32>
    requires { WellFormed m.now }
    ensures { entry result ≡ field_found (store_of m.now) (slot_key place slot) }
{
    let k = 65536 * (place as u64) + (slot as u64);
    fields_by_key(m).find(k)
}

// These five read a field of a record or of a group. Past the end they answer 0 or the empty text and no Option, because document 01's lookups do,
// and a function that cannot fail must stay one. They stay apart: what they share is one `if`, and a function that is given the table,
// the field and the answer past the end would be no plainer.

// The path of the GUID record at place i; empty past the records.
pub fn guid_path(m: &[u8], i: u32) -> &[u8]
    requires { WellFormed m.now }
    ensures { result.now ≡ place_or (λ (g : Guid). g.path) [] (content_of (store_of m.now)).guids i }
{
    if i < guids(m) {
        return row_text(guid_rows(m), texts(m), i);
    }
    b""
}

// The outer of the GUID record at place i; 0 past the records.
pub fn guid_outer(m: &[u8], i: u32) -> u32
    requires { WellFormed m.now }
    ensures { result ≡ place_or (λ (g : Guid). g.outer) 0 (content_of (store_of m.now)).guids i }
{
    if i < guids(m) {
        return row_info(guid_rows(m), i);
    }
    0
}

// The path of the group at place i; empty past the groups.
pub fn group_path(m: &[u8], i: u32) -> &[u8]
    requires { WellFormed m.now }
    ensures { result.now ≡ place_or (λ (g : Group). g.path) [] (content_of (store_of m.now)).groups i }
{
    if i < groups(m) {
        return row_text(group_rows(m), texts(m), i);
    }
    b""
}

// The path-name index of the group at place i; 0 past the groups.
pub fn group_index(m: &[u8], i: u32) -> u32
    requires { WellFormed m.now }
    ensures { result ≡ place_or (λ (g : Group). g.index) 0 (content_of (store_of m.now)).groups i }
{
    if i < groups(m) {
        return row_key(group_rows(m), i) as u32;
    }
    0
}

// The slot count of the group at place i; 0 past the groups.
pub fn group_slots(m: &[u8], i: u32) -> u32
    requires { WellFormed m.now }
    ensures { result ≡ place_or (λ (g : Group). length g.slots) 0 (content_of (store_of m.now)).groups i }
{
    if i < groups(m) {
        return row_info(group_rows(m), i);
    }
    0
}

// The row of the field in a group's slot. No group has a slot 65536 or above: its key would be the key of another group's slot.
pub fn slot_row(m: &[u8], place: u32, slot: u32) -> Option<u32>
    requires { WellFormed m.now }
    ensures { entry result ≡ slot_row (store_of m.now) place slot }
{
    if slot < 65536 {
        return find_field(m, place, slot);
    }
    None
}

// The checksum of the field in a group's slot, if the slot is filled.
pub fn field_checksum(m: &[u8], place: u32, slot: u32) -> Option<u32>
    requires { WellFormed m.now }
    ensures { entry result ≡ slot_checksum (slot_at (content_of (store_of m.now)).groups place slot) }
{
    let e = slot_row(m, place, slot)?;
    Some(row_info(field_rows(m), e))
}

// The name of the field in a group's slot; empty if the slot is empty.
pub fn field_name(m: &[u8], place: u32, slot: u32) -> &[u8]
    requires { WellFormed m.now }
    ensures { result.now ≡ slot_name (slot_at (content_of (store_of m.now)).groups place slot) }
{
    match slot_row(m, place, slot) {
        Some(e) => row_text(field_rows(m), texts(m), e),
        None => b"",
    }
}

// An outer GUID, where 0 means none.
fn unless_zero(guid: u32) -> Option<u32>
    ensures { entry result ≡ (if nat_eq guid 0 then none else some guid) }
{
    if guid == 0 {
        return None;
    }
    Some(guid)
}

pub fn get_outer_guid(m: &[u8], guid: u32) -> Option<u32>
    requires { WellFormed m.now }
    ensures { entry result ≡ outer_guid guid (content_of (store_of m.now)).guids }
{
    let i = find_guid(m, guid)?;
    unless_zero(guid_outer(m, i))
}

// The place of the record of a GUID's outer. The path of that record is the outer path.
pub fn get_outer_path(m: &[u8], guid: u32) -> Option<u32>
    requires { WellFormed m.now }
    ensures { entry result ≡ outer_path guid (content_of (store_of m.now)).guids }
{
    let outer = get_outer_guid(m, guid)?;
    find_guid(m, outer)
}

// The place of a group, if this slot of it is filled.
fn if_filled(m: &[u8], place: u32, slot: u32) -> Option<u32>
    requires { WellFormed m.now }
    ensures { entry result ≡ if_filled place (slot_at (content_of (store_of m.now)).groups place slot) }
{
    slot_row(m, place, slot)?;
    Some(place)
}

// The place of the group of gameplay tags, if its slot `tag` is filled. The tag's name is the name of that field.
pub fn get_gameplay_tag_name(m: &[u8], tag: u32) -> Option<u32>
    requires { WellFormed m.now }
    ensures { entry result ≡ gameplay_tag tag (content_of (store_of m.now)).groups }
{
    let place = find_path_place(m, b"NetworkGameplayTagNodeIndex")?;
    if_filled(m, place, tag)
}
