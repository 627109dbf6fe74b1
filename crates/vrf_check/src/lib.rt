// The check of a lent book (document 01, refusal 2; docs/LAYOUT.md, The check). `vrf_store`'s `Check` defines it; the code takes it in
// steps.
#![tactic(auto)]

ghost use Rattle.std.specs.Prelude.{◌≡◌, ℕ, Bool, true, ◌+◌, ◌*◌, ◌<◌, ◌≤◌, ◌^◌, length};
ghost use Rattle.vrf_path.specs.Answers.{spelled, key_bytes};
ghost use Rattle.vrf_table.specs.Table.{len};
ghost use Rattle.vrf_table.specs.Inner.Answers.{claim};
ghost use Rattle.vrf_table.specs.Inner.Found.{path_found};
ghost use Rattle.vrf_store.specs.UpTo.{all_below, sum_below};
ghost use Rattle.vrf_store.specs.Layout;
ghost use Rattle.vrf_store.specs.Store.{allowances_of, header_of, store_of};
ghost use Rattle.vrf_store.specs.Check.{tops_ok, header_ok, bounds_ok, text_ok, not_before, reach_ok, is_settled, store_ok, check};
ghost use Rattle.vrf_check.specs.Inner.Steps.{finds_row, row_passes, slot_in, field_passes, keys_pass, leaf_passes, sum_ok, texts_ok, fields_ok, rows_ok, paths_ok, ShortTexts, InBounds};

use vrf_path::{Key, core_alias, default_object_alias, leaf_at};
use vrf_store::look::{
    fields_by_key, groups_by_index, groups_by_leaf, groups_by_path, guids_by_key, row_info, row_key,
};
use vrf_store::parts;
use vrf_store::rows::{text_len, text_span};
use vrf_table::spell::spell;
use vrf_table::{Claim, KeyIndex, LeafIndex, PathIndex, row_text};
use vrf_text::is_utf8;

// The most bytes that a text has.
const TEXT_BYTES: usize = 4_096;

// The most bytes that a key has: at most 23 more than its path.
const KEY_BYTES: usize = TEXT_BYTES + 23;

// ---- the header

// (`tops_ok` and `need` are not `above_top` and `needed` of `vrf_store`: those take the `Allowances` of a call. The five of the header would
// first be copied into one, and the answer, which of them is too high, would then be thrown away.)
fn tops_ok(m: &[u8]) -> bool
    requires { 128 ≤ length m.now }
    ensures { result ≡ tops_ok (allowances_of m.now) }
{
    parts::guids_allowed(m) <= 1_000_000
        && parts::groups_allowed(m) <= 100_000
        && parts::fields_allowed(m) <= 1_000_000
        && parts::text_allowed(m) <= 67_108_864
        && parts::literals_allowed(m) <= 1_000_000
}

// The number of bytes that the allowances need.
fn need(m: &[u8]) -> usize
    requires { 128 ≤ length m.now }
    ensures { result ≡ Layout.need (allowances_of m.now) }
{
    let g = parts::guids_allowed(m);
    let r = parts::groups_allowed(m);
    let f = parts::fields_allowed(m);
    let l = parts::literals_allowed(m);
    let t = parts::text_allowed(m);
    4 * (37 + 10 * g + 16 * r + 10 * f + l) + 2 * t
}

// Whether each count and total is within its allowance, and the half in use is 0 or 1.
fn header_ok(m: &[u8]) -> bool
    requires { 128 ≤ length m.now }
    ensures { result ≡ header_ok (header_of m.now) }
{
    parts::guids(m) as usize <= parts::guids_allowed(m)
        && parts::groups(m) as usize <= parts::groups_allowed(m)
        && parts::fields(m) as usize <= parts::fields_allowed(m)
        && parts::held(m) as usize <= parts::text_allowed(m)
        && parts::used(m) as usize <= parts::text_allowed(m)
        && parts::half(m) <= 1
}

// Whether the allowances and the header are in bounds, and the memory has the bytes that the allowances need.
fn bounds_ok(m: &[u8]) -> bool
    ensures { result ≡ bounds_ok (header_of m.now) (length m.now) }
{
    128 <= m.len() && tops_ok(m) && need(m) <= m.len() && header_ok(m)
}

// ---- rows

// The sum of the lengths of the texts of all rows.
fn length_sum(index: KeyIndex<'_>) -> u64
    ensures { (result ≡ sum_below (len index.entry.rows.now) index.entry.count) × (result ≤ 4294967295 * index.entry.count) }
{
    let mut sum = 0;
    for e in 0..index.count {
        sum += text_len(index.rows, e) as u64;
    }
    sum
}

// Whether the text of row e is inside the bytes used, has at most 4096 bytes and is UTF-8.
fn text_ok(used: u32, x: &[u8], rows: &[u8], e: u32) -> bool
    requires { (24 * e + 24 ≤ length rows.now) × (used ≤ length x.now) }
    ensures { result ≡ text_ok used x.now rows.now e }
{
    let span = text_span(rows, e);
    let n = span.len as usize;
    span.at as usize + n <= used as usize && n <= TEXT_BYTES && is_utf8(row_text(rows, x, e))
}

// Whether each number below n passes the test.
fn each_below<Test: Fn(u32) -> bool>(n: u32, test: Test) -> bool
    requires test_in { (e : ℕ) → e < n → Test.pre test e }
    ensures { (ok : ℕ → Bool) → ((e : ℕ) (r : Bool) → Test.post test e r → r ≡ ok e) → result ≡ all_below ok n }
{
    (0..n).all(
        |e: u32|
            requires { Test.pre test e }
        { test(e) },
    )
}

fn each_text_ok(used: u32, x: &[u8], index: KeyIndex<'_>) -> bool
    requires { used ≤ length x.now }
    ensures { result ≡ all_below (text_ok used x.now index.entry.rows.now) index.entry.count }
{
    each_below(index.count, |e| text_ok(used, x, index.rows, e))
}

// Whether the key of row e finds row e.
fn found_ok(index: KeyIndex<'_>, e: u32) -> bool
    requires { e < index.count }
    ensures { result ≡ finds_row index.entry e }
{
    index.find(row_key(index.rows, e)) == Some(e)
}

// ---- the rows of each table, without their texts

// Whether row e of the GUID records or of the groups passes: its key has 32 bits and finds it, and its number is at most `most`.
fn row_ok(index: KeyIndex<'_>, most: u32, e: u32) -> bool
    requires { e < index.count }
    ensures { result ≡ row_passes index.entry most e }
{
    row_key(index.rows, e) <= 0xFFFF_FFFF && row_info(index.rows, e) <= most && found_ok(index, e)
}

fn each_row_ok(index: KeyIndex<'_>, most: u32) -> bool
    ensures { result ≡ all_below (row_passes index.entry most) index.entry.count }
{
    each_below(index.count, |e| row_ok(index, most, e))
}

// Whether k is the key of a slot of a group.
fn slot_ok(groups: KeyIndex<'_>, k: u64) -> bool
    ensures { result ≡ slot_in groups.entry.rows.now groups.entry.count k }
{
    let g = k / 0x1_0000;
    g < groups.count as u64 && k % 0x1_0000 < row_info(groups.rows, g as u32) as u64
}

fn field_ok(groups: KeyIndex<'_>, index: KeyIndex<'_>, e: u32) -> bool
    requires { e < index.count }
    ensures { result ≡ field_passes groups.entry index.entry e }
{
    slot_ok(groups, row_key(index.rows, e)) && found_ok(index, e)
}

// ---- the path keys of groups

// Whether the key k finds entry e or a later one.
fn reaches(index: PathIndex<'_>, e: u32, k: &[u8]) -> bool
    requires { length k.now < 2 ^ 31 }
    ensures { result ≡ not_before e (path_found index.entry k.now) }
{
    index.find(k).is_some_and(|i| e <= i)
}

// Whether an alias finds entry e or a later one. The path must have this alias. It is written out first, since the book does not hold it.
fn alias_reaches(index: PathIndex<'_>, e: u32, path: &[u8], key: Key) -> bool
    requires { length path.now ≤ 4096 }
    ensures { result ≡ not_before e (path_found index.entry (key_bytes path.now key)) }
{
    let mut scratch = [0u8; KEY_BYTES];
    let k = spell(&mut scratch, path, key);
    reaches(index, e, &scratch[..k])
}

// Whether an alias finds entry e or a later one, if the path has this alias. (`is_none_or` was tried, with the closure's contract inferred and
// with its clauses written; the proof did not close. So it was in `leaf_ok`.)
fn alias_ok(index: PathIndex<'_>, e: u32, path: &[u8], key: Option<Key>) -> bool
    requires { length path.now ≤ 4096 }
    ensures { result ≡ reach_ok (path_found index.entry) e (spelled path.now key) }
{
    match key {
        Some(k) => alias_reaches(index, e, path, k),
        None => true,
    }
}

// Whether each key of group g finds its own entry or a later one.
fn keys_ok(index: PathIndex<'_>, g: u32) -> bool
    requires { ShortTexts index.groups × (g < index.groups.count) }
    ensures { result ≡ keys_pass index.entry g }
{
    let path = index.groups.path(g);
    let e = 3 * g;
    let default = default_object_alias(path);
    reaches(index, e, path)
        && alias_ok(index, e + 1, path, default)
        && alias_ok(index, e + 2, path, core_alias(path))
}

// ---- the leaves of groups

// Whether the claim is group g, or ambiguous.
fn is_settled(g: u32, found: Claim) -> bool
    ensures { result ≡ is_settled g (claim found) }
{
    match found {
        Claim::Absent => false,
        Claim::Ambiguous => true,
        Claim::Only(i) => i == g,
    }
}

// Whether the leaf of group g is claimed by g or ambiguous, if the group has a leaf.
fn leaf_ok(index: LeafIndex<'_>, g: u32) -> bool
    requires { ShortTexts index.chains.groups × (g < index.chains.groups.count) }
    ensures { result ≡ leaf_passes index.entry g }
{
    let path = index.chains.groups.path(g);
    match leaf_at(path) {
        Some(i) => is_settled(g, index.claim(&path[i..]).claim),
        None => true,
    }
}

// ---- the whole memory

// Whether the lengths of all texts add up to the bytes held in the header.
fn sum_ok(m: &[u8]) -> bool
    requires { InBounds m.now }
    ensures { result ≡ sum_ok (store_of m.now) }
{
    let g = length_sum(guids_by_key(m));
    let r = length_sum(groups_by_index(m));
    let f = length_sum(fields_by_key(m));
    g + r + f == parts::held(m) as u64
}

// Whether the texts of all three tables pass.
fn texts_ok(m: &[u8]) -> bool
    requires { InBounds m.now }
    ensures { result ≡ texts_ok (store_of m.now) }
{
    let used = parts::used(m);
    let x = parts::texts(m);
    each_text_ok(used, x, guids_by_key(m))
        && each_text_ok(used, x, groups_by_index(m))
        && each_text_ok(used, x, fields_by_key(m))
}

fn fields_ok(m: &[u8]) -> bool
    requires { InBounds m.now }
    ensures { result ≡ fields_ok (store_of m.now) }
{
    let groups = groups_by_index(m);
    let index = fields_by_key(m);
    each_below(index.count, |e| field_ok(groups, index, e))
}

// Whether the rows of all three tables pass.
fn rows_ok(m: &[u8]) -> bool
    requires { InBounds m.now }
    ensures { result ≡ rows_ok (store_of m.now) }
{
    each_row_ok(guids_by_key(m), 0xFFFF_FFFF)
        && each_row_ok(groups_by_index(m), 0x1_0000)
        && fields_ok(m)
}

// Whether all groups are found by their keys and leaves. A walk reads the text of any group, so all texts must have passed before.
fn paths_ok(m: &[u8]) -> bool
    requires { InBounds m.now × (texts_ok (store_of m.now) ≡ true) }
    ensures { result ≡ paths_ok (store_of m.now) }
{
    let n = parts::groups(m);
    let paths = groups_by_path(m, n);
    let leaves = groups_by_leaf(m, n);
    each_below(n, |g| keys_ok(paths, g) && leaf_ok(leaves, g))
}

// Whether the tables and indexes pass. The sum of the lengths is first: if it passes, the texts checked next have no more bytes in total
// than the memory has for texts, whatever lengths the rows give.
fn store_ok(m: &[u8]) -> bool
    requires { InBounds m.now }
    ensures { result ≡ store_ok (store_of m.now) }
{
    sum_ok(m) && texts_ok(m) && rows_ok(m) && paths_ok(m)
}

// Whether the memory is accepted; if not, a call is refused with refusal 2.
pub fn check(m: &[u8]) -> bool
    ensures { result ≡ check m.now }
{
    bounds_ok(m) && store_ok(m)
}
