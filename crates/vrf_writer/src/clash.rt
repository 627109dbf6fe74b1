// Searches for the first clash: the first group whose path is a key of an earlier group. The path index finds the last group that has a
// key. So the search takes each group h and its keys, and compares the groups after h only if one of them has the key too.
ghost use Rattle.std.specs.Prelude.{◌≡◌, ◌^◌, ◌<◌, ◌≤◌, [], length};
ghost use Rattle.std.proofs.Math.Option.{some};
ghost use Rattle.vrf_path.specs.Keys.{has_key};
ghost use Rattle.vrf_path.specs.Answers.{spelled};
ghost use Rattle.vrf_model.specs.Writer.{first_clash};
ghost use Rattle.vrf_table.specs.Inner.Answers.{entry};
ghost use Rattle.vrf_store.specs.Store.{header_of, store_of};
ghost use Rattle.vrf_store.specs.Inner.WellFormed.{WellFormed};
ghost use Rattle.vrf_store.specs.Inner.Stepped.{held};
ghost use Rattle.vrf_writer.specs.Inner.Clash.{is_at, is_key_at, FirstAfter, Keyed, Narrowed};

use vrf_path::{Key, core_alias, default_object_alias, has_key, same};
use vrf_store::look::{group_path, path_buckets};
use vrf_store::parts::{group_rows, groups, path_heads, path_links, texts};
use vrf_table::spell::spell;
use vrf_table::{row_text, text_bucket};
use vrf_words::get32;

// Enough bytes for any alias of a path: the 4,096 bytes of the path, and 23 more. (The functions below ask for them in a clause and take a
// slice, as `spell` does, which asks for the bytes of one alias.)
const ALIAS_BYTES: usize = 4_119;

// Whether k is a key of a path. An alias is 6 or 9 bytes longer or shorter than its path. If the lengths differ by any other number, no
// byte is read.
fn is_key_of(path: &[u8], k: &[u8]) -> bool
    ensures { result ≡ has_key path.now k.now }
{
    let d = path.len().abs_diff(k.len());
    (d == 0 || d == 6 || d == 9) && has_key(path, k)
}

// A place after h and after all groups with the path k. The walk along k's chain ends at the first entry of a group up to h. In most books
// the chain of a key of h starts with such an entry, and then no text is compared. The place is a bound, and there always is one: no Option.
fn keyed_end(m: &[u8], k: &[u8], h: u32) -> u32
    requires { WellFormed m.now × (length k.now < 2 ^ 31) × (h < (header_of m.now).groups) }
    ensures { Keyed (store_of m.now) k.now result }
{
    let rows = group_rows(m);
    let x = texts(m);
    let links = path_links(m);
    let bucket = text_bucket(&k[..], path_buckets(m));
    let mut p = get32(path_heads(m), bucket as usize);
    let mut limit = 3 * groups(m);
    // A `for` would be no plainer: the walk follows links, and the next one is read at its end. It is not the `walk` of vrf_table, which is
    // private there: its test would have to be true at a key and also at an entry of a group up to h, and then be asked again which it was.
    while 3 * h + 3 < p {
        let e = p - 1;
        if limit <= e {
            return h + 1;
        }
        if is_key_of(row_text(rows, x, e / 3), k) {
            return e / 3 + 1;
        }
        limit = e;
        p = get32(links, e as usize);
    }
    h + 1
}

// The first group after h and before `to` whose path is k.
fn first_path(m: &[u8], k: &[u8], h: u32, to: u32) -> Option<u32>
    requires { WellFormed m.now × (h < (header_of m.now).groups) × (to ≤ (header_of m.now).groups) }
    ensures { FirstAfter (is_at (store_of m.now) (some k.now)) h to result }
{
    (h + 1..to).find(|j| same(k, group_path(m, *j)))
}

// The first group after h and before `least` whose path is the key k; `least` if there is none. No Option, here and in the two functions
// below: the answer is the end of the next search, so it would be unwrapped at once.
fn first_with_key(m: &[u8], h: u32, k: &[u8], least: u32) -> u32
    requires { WellFormed m.now × (h < (header_of m.now).groups) × (least ≤ (header_of m.now).groups) × (length k.now < 2 ^ 31) }
    ensures { Narrowed (is_at (store_of m.now) (some k.now)) h least result }
{
    let to = keyed_end(m, k, h).min(least);
    first_path(m, k, h, to).unwrap_or(least)
}

// The first group after h and before `least` whose path is the alias `key` of the path; `least` if there is no such group or no alias. The
// alias is written into `scratch`.
fn clash_alias(
    scratch: &mut [u8],
    m: &[u8],
    h: u32,
    path: &[u8],
    key: Option<Key>,
    least: u32,
) -> u32
    requires { WellFormed m.now × (h < (header_of m.now).groups) × (least ≤ (header_of m.now).groups) × (length path.now ≤ 4096) × (4119 ≤ length scratch.old) }
    ensures { Narrowed (is_at (store_of m.now) (spelled path.now key)) h least result }
{
    let Some(key) = key else {
        return least;
    };
    let n = spell(scratch, path, key);
    first_with_key(m, h, &scratch[..n], least)
}

// The first group after h and before `least` whose path is a key of h; `least` if there is none.
fn clash_after(scratch: &mut [u8], m: &[u8], h: u32, least: u32) -> u32
    requires { WellFormed m.now × (h < (header_of m.now).groups) × (least ≤ (header_of m.now).groups) × (4119 ≤ length scratch.old) }
    ensures { Narrowed (is_key_at (store_of m.now) h) h least result }
{
    let path = group_path(m, h);
    let first = first_with_key(m, h, path, least);
    let second = clash_alias(scratch, m, h, path, default_object_alias(path), first);
    clash_alias(scratch, m, h, path, core_alias(path), second)
}

// The first clash. Aliases are written into `scratch`. The loop ends at the least clash found so far, because a key of a group from there
// on can only clash with a later group.
fn first_clash_in(scratch: &mut [u8], m: &[u8]) -> Option<u32>
    requires { WellFormed m.now × (4119 ≤ length scratch.old) }
    ensures { entry result ≡ first_clash [] (held m.now).groups }
{
    let n = groups(m);
    let mut least = n;
    let mut h = 0;
    // No `for`: the end of the loop falls while it runs.
    while h < least {
        least = clash_after(scratch, m, h, least);
        h += 1;
    }
    if least < n { Some(least) } else { None }
}

pub fn first_clash(m: &[u8]) -> Option<u32>
    requires { WellFormed m.now }
    ensures { entry result ≡ first_clash [] (held m.now).groups }
{
    let mut scratch = [0u8; ALIAS_BYTES];
    first_clash_in(&mut scratch, m)
}
