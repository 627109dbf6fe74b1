// Changes of the groups, and the three indexes that find a group: by path-name index, by a key of its path and by its leaf.
ghost use Rattle.std.specs.Prelude.{◌≡◌, ◌+◌, ◌-◌, ◌*◌, ◌^◌, ◌<◌, ◌≤◌, [], ◌∷◌, ◌++◌, length, slice_set};
ghost use Rattle.vrf_bitio.specs.Pasted.{pasted};
ghost use Rattle.vrf_path.specs.Leaf.{leaf};
ghost use Rattle.vrf_path.specs.Answers.{spelled, key_bytes};
ghost use Rattle.vrf_path.specs.Inner.Leaf.{Dotless};
ghost use Rattle.vrf_words.specs.Words.{part};
ghost use Rattle.vrf_model.specs.Setting.{with_groups, new_group, merged_group};
ghost use Rattle.vrf_table.specs.TextIndex.{text_bucket};
ghost use Rattle.vrf_table.specs.Inner.TextIndex.{leaf_bucket};
ghost use Rattle.vrf_table.specs.Inner.Answers.{entry};
ghost use Rattle.vrf_table.specs.Inner.Found.{claim_in};
ghost use Rattle.vrf_store.specs.Store.{allowances_of, header_of, store_of, words};
ghost use Rattle.vrf_store.specs.Inner.WellFormed.{Enough, WellFormed};
ghost use Rattle.vrf_store.specs.Inner.Memory.{WrittenStore, push_row};
ghost use Rattle.vrf_store.specs.Inner.Stepped.{Stepped, held};
ghost use Rattle.vrf_store.specs.Inner.Fields.{with_group};
ghost use Rattle.vrf_store.specs.Inner.Groups.{bucket_of, unless_shared, joined_by, linked, headed, BucketBelow, push_key, push_path, push_leaf, leaf_of, Unindexed, Indexable, Pushable, MoreIndexed};
ghost use Rattle.vrf_store.specs.Inner.Groups.{BucketsOf, put_group, NewGroup, grown_group, OldGroup, Handles, group_of, Emptied};

use crate::look::{groups_by_leaf, row_info};
use crate::parts::{group_rows, groups, groups_allowed, guids_allowed, held, texts};
use crate::rows::text_len;
use vrf_path::{Key, core_alias, default_object_alias, leaf_at};
use vrf_table::spell::spell;
use vrf_table::{Claim, LeafIndex, TextSpan, key_bucket, put_key, put_text, row_text, text_bucket};
use vrf_words::{get32, get64, put32, zero_words};

// The buckets that a group's entries join, for its index, for the three keys of its path, and for its leaf. An entry can have none.
#[derive(Clone, Copy)]
struct Buckets {
    key: Option<u32>,
    own: Option<u32>,
    default: Option<u32>,
    core: Option<u32>,
    leaf: Option<u32>,
}

// The bucket of a path's key, out of b buckets. The key is first written out on the stack. A path has at most 4096 bytes, a key 23 more.
fn spelled_bucket(path: &[u8], key: Key, b: u32) -> u32
    requires { length path.now ≤ 4096 }
    ensures { result ≡ text_bucket b (key_bytes path.now key) }
{
    let mut t = [0u8; 4120];
    let n = spell(&mut t, path, key);
    text_bucket(&t[..n], b)
}

// The bucket of an alias, out of b buckets, if the path has that alias.
fn alias_bucket(path: &[u8], key: Option<Key>, b: u32) -> Option<u32>
    requires { length path.now ≤ 4096 }
    ensures { entry result ≡ bucket_of (text_bucket b) (spelled path.now key) }
{
    Some(spelled_bucket(path, key?, b))
}

// The bucket that leaf l joins. If two of the groups in the index have the leaf already, it joins none: it is ambiguous and stays so. So a
// chain holds each leaf at most twice, and a walk does not pass many groups that have another leaf with the same base.
fn joined_bucket(index: LeafIndex<'_>, l: &[u8]) -> Option<u32>
    requires { Dotless l.now × (length l.now < 2 ^ 31) }
    ensures { entry result ≡ unless_shared (claim_in index.entry l.now) (leaf_bucket index.entry.buckets l.now) }
{
    let found = index.claim(l);
    match found.claim {
        Claim::Ambiguous => None,
        _ => Some(found.bucket),
    }
}

// The bucket that the leaf of a path joins, if the path has a leaf.
fn leaf_bucket_of(index: LeafIndex<'_>, path: &[u8]) -> Option<u32>
    requires { length path.now < 2 ^ 31 }
    ensures { entry result ≡ joined_by (claim_in index.entry) (leaf_bucket index.entry.buckets) (leaf path.now) }
{
    let i = leaf_at(path)?;
    joined_bucket(index, &path[i..])
}

// The bucket that group g's leaf joins, read from the memory.
fn leaf_bucket_in(m: &[u8], g: u32) -> Option<u32>
    requires { Indexable m.now g }
    ensures { entry result ≡ leaf_of (store_of m.now) g }
{
    let path = row_text(group_rows(m), texts(m), g);
    leaf_bucket_of(groups_by_leaf(m, g), path)
}

// Puts an entry at the front of the chain of its bucket, if it has one. From word `at` on there are n words of links, then k heads. Word i
// of the links is the link of the entry. p is the pointer to the entry.
fn push_entry(m: &mut [u8], at: usize, n: usize, k: usize, i: usize, b: Option<u32>, p: u32)
    requires { (4 * at + 4 * n + 4 * k ≤ length m.old) × (i < n) × BucketBelow k (entry b) }
    ensures { m.new ≡ pasted m.old (4 * at) (linked (words m.old at n) (words m.old (at + n) k) i (entry b) ++ headed (words m.old (at + n) k) p (entry b)) }
{
    if let Some(h) = b {
        let head = at + n + (h as usize);
        let link = get32(m, head);
        put32(m, at + i, link);
        put32(m, head, p);
    }
}

// These three put one entry of a group at the front of a chain: in the index by path-name index, by path key and by leaf. They stay apart:
// what they share is `push_entry`, and each contract names its own part of the store.
fn push_key(m: &mut [u8], e: u32, b: Option<u32>)
    requires { Pushable m.old 1 ((allowances_of m.old).groups + 1) e (entry b) }
    ensures { WrittenStore m.old m.new (push_key (store_of m.old) e (entry b)) }
{
    let g = guids_allowed(m);
    let r = groups_allowed(m);
    let link = 6 * (e as usize) + 2;
    push_entry(m, 33 + 10 * g, 6 * r, r + 1, link, b, e + 1);
}

fn push_path(m: &mut [u8], e: u32, b: Option<u32>)
    requires { Pushable m.old 3 (3 * (allowances_of m.old).groups + 1) e (entry b) }
    ensures { WrittenStore m.old m.new (push_path (store_of m.old) e (entry b)) }
{
    let g = guids_allowed(m);
    let r = groups_allowed(m);
    push_entry(
        m,
        34 + 10 * g + 7 * r,
        3 * r,
        3 * r + 1,
        e as usize,
        b,
        e + 1,
    );
}

fn push_leaf(m: &mut [u8], e: u32, b: Option<u32>)
    requires { Pushable m.old 1 (2 * (allowances_of m.old).groups + 1) e (entry b) }
    ensures { WrittenStore m.old m.new (push_leaf (store_of m.old) e (entry b)) }
{
    let g = guids_allowed(m);
    let r = groups_allowed(m);
    push_entry(m, 35 + 10 * g + 13 * r, r, 2 * r + 1, e as usize, b, e + 1);
}

// The buckets of group g in the three indexes.
fn buckets_of(m: &[u8], g: u32) -> Buckets
    requires { Indexable m.now g }
    ensures { BucketsOf (store_of m.now) g result }
{
    let r = groups_allowed(m) as u32;
    let b = 3 * r + 1;
    let rows = group_rows(m);
    let path = row_text(rows, texts(m), g);
    let row = 6 * (g as usize);
    Buckets {
        key: Some(key_bucket(get64(rows, row), r + 1)),
        own: Some(text_bucket(path, b)),
        default: alias_bucket(path, default_object_alias(path), b),
        core: alias_bucket(path, core_alias(path), b),
        leaf: leaf_bucket_in(m, g),
    }
}

// Adds group g to the three indexes. The groups before it must be in them.
fn index_group(m: &mut [u8], g: u32)
    requires { Indexable m.old g }
    ensures { MoreIndexed m.old m.new g (g + 1) }
{
    let b = buckets_of(m, g);
    push_key(m, g, b.key);
    push_path(m, 3 * g, b.own);
    push_path(m, 3 * g + 1, b.default);
    push_path(m, 3 * g + 2, b.core);
    push_leaf(m, g, b.leaf);
}

// Writes row e of a table. The link is set later, when the row joins the index.
fn put_row(t: &mut [u8], e: u32, k: u64, span: TextSpan, info: u32)
    requires { 24 * e + 24 ≤ length t.old }
    ensures { t.new ≡ push_row t.old e k 0 span.at span.len info }
{
    put_text(t, e, span, info);
    put_key(t, e, k, 0);
}

fn put_group(m: &mut [u8], e: u32, index: u32, span: TextSpan, slots: u32)
    requires { Enough m.old × (e < (allowances_of m.old).groups) }
    ensures { WrittenStore m.old m.new (put_group (store_of m.old) e index span.at span.len slots) }
{
    let cap = groups_allowed(m);
    let from = 4 * (33 + 10 * guids_allowed(m));
    let to = from + 24 * cap + 4 * (cap + 1);
    put_row(&mut m[from..to], e, index as u64, span, slots);
}

// Adds a group. Its path is a text in the half in use.
pub fn push_group(m: &mut [u8], index: u32, span: TextSpan, slots: u32)
    requires { NewGroup m.old index span.at span.len slots }
    ensures { Stepped m.old m.new (with_groups (held m.old) ((held m.old).groups ++ (new_group (part (store_of m.old).texts span.at span.len) index slots ∷ []))) }
{
    let n = groups(m);
    let total = held(m) + span.len;
    put_group(m, n, index, span, slots);
    put32(m, 6, n + 1);
    put32(m, 8, total);
    index_group(m, n);
}

// Gives group e at least `slots` slots; it never loses one. No index depends on the slot count, so none is rebuilt.
pub fn grow_group(m: &mut [u8], e: u32, slots: u32)
    requires { WellFormed m.old × (e < (header_of m.old).groups) × (slots ≤ 65536) }
    ensures { Stepped m.old m.new (with_group (held m.old) e (grown_group slots)) }
{
    let word = 33 + 10 * guids_allowed(m) + (6 * (e as usize) + 5);
    if get32(m, word) < slots {
        put32(m, word, slots);
    }
}

// Clears the heads of the three indexes. Old heads would not make a search wrong, but the new chains would continue into the old ones.
// (`zero_heads` of `open` clears these and two more. It does not call this function: it says only that header, counters and literals stay,
// and this contract is about the indexes. So a third one, about these three writes alone, would have to stand between them.)
fn clear_heads(m: &mut [u8])
    requires { Enough m.old }
    ensures { MoreIndexed m.old m.new 0 0 }
{
    let g = guids_allowed(m);
    let r = groups_allowed(m);
    zero_words(m, 33 + 10 * g + 6 * r, r + 1);
    zero_words(m, 34 + 10 * g + 10 * r, 3 * r + 1);
    zero_words(m, 35 + 10 * g + 14 * r, 2 * r + 1);
}

// Builds the three indexes again from the group rows.
pub fn rebuild_group_indexes(m: &mut [u8])
    requires { Enough m.old × Unindexed (store_of m.old) }
    ensures { Stepped m.old m.new (held m.old) }
{
    let n = groups(m);
    clear_heads(m);
    for g in 0..n {
        index_group(m, g);
    }
}

// Gives row e a new index, path and slot count, and rebuilds the indexes.
fn set_row(m: &mut [u8], e: u32, index: u32, span: TextSpan, slots: u32)
    requires { OldGroup m.old e index span.at span.len slots × Handles (store_of m.old) e slots }
    ensures { Stepped m.old m.new (with_group (held m.old) e (λ _. group_of (store_of m.old) e index span.at span.len slots)) }
{
    let total = held(m) - text_len(group_rows(m), e) + span.len;
    put_group(m, e, index, span, slots);
    put32(m, 8, total);
    rebuild_group_indexes(m);
}

// Gives group e a new index and path, and at least `slots` slots.
pub fn set_group(m: &mut [u8], e: u32, index: u32, span: TextSpan, slots: u32)
    requires { OldGroup m.old e index span.at span.len slots }
    ensures { Stepped m.old m.new (with_group (held m.old) e (merged_group (part (store_of m.old).texts span.at span.len) index slots)) }
{
    let most = row_info(group_rows(m), e).max(slots);
    set_row(m, e, index, span, most);
}

// Replaces group e, which must have no fields. It can then have fewer slots than before.
pub fn replace_group(m: &mut [u8], e: u32, index: u32, span: TextSpan, slots: u32)
    requires { OldGroup m.old e index span.at span.len slots × Emptied (held m.old) e }
    ensures { Stepped m.old m.new (with_groups (held m.old) (slice_set (held m.old).groups e (new_group (part (store_of m.old).texts span.at span.len) index slots))) }
{
    set_row(m, e, index, span, slots);
}
