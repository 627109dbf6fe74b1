// Resolution of bare names and of ClassNetCache keys, on a well-formed memory. Names follow resolve.rs and path.rs.
ghost use Rattle.std.specs.Prelude.{◌≡◌, ◌+◌, ◌≤◌, length};
ghost use mathlib.Core.List.{◌++◌, Option-to_list};
ghost use Rattle.std.proofs.Math.Option.{none, some};
ghost use Rattle.vrf_path.specs.Keys.{core_alias};
ghost use Rattle.vrf_path.specs.Toggle.{toggle};
ghost use Rattle.vrf_path.specs.Stems.{stem_leaves};
ghost use Rattle.vrf_path.specs.Answers.{spelled, key_bytes};
ghost use Rattle.vrf_model.specs.Lookup.{claim_or_next, path_place, first_path, unique_leaf_match, resolve_cnc, find_class_net_cache_key};
ghost use Rattle.vrf_table.specs.Inner.Answers.{entry, claim};
ghost use Rattle.vrf_store.specs.Inner.WellFormed.{WellFormed};
ghost use Rattle.vrf_store.specs.Inner.Stepped.{held};
ghost use Rattle.vrf_cache.specs.Inner.Resolve.{Bare, AtMost, decides, first_of, with_toggle, by_alias};

use vrf_path::{
    Key, Stems, Toggle, class_base, core_alias, default_object_alias, has_path_separator, key_len,
    leaf_base, toggle_class_net_cache,
};
use vrf_store::look::{claim_of, find_path_place};
use vrf_table::Claim;
use vrf_table::spell::{join, spell};

// The group of a claim; none if it is absent or ambiguous.
fn claimed(c: Claim) -> Option<u32>
    ensures { entry result ≡ claim_or_next (claim c) none }
{
    match c {
        Claim::Only(e) => Some(e),
        Claim::Absent | Claim::Ambiguous => None,
    }
}

// An ambiguous claim ends the search too: the next candidate would name another class.
fn decides(c: Claim) -> bool
    ensures { result ≡ decides (claim c) }
{
    match c {
        Claim::Absent => false,
        Claim::Ambiguous => true,
        Claim::Only(_) => true,
    }
}

// Tries name, name+`Component`, name+`_C` as leaves.
pub fn unique_leaf_match(m: &[u8], name: &[u8]) -> Option<u32>
    requires { WellFormed m.now × (length name.now ≤ 4096) }
    ensures { entry result ≡ unique_leaf_match name.now (held m.now).groups }
{
    if has_path_separator(name) {
        return None;
    }
    claimed(claim_of(m, name, leaf_base(name), b"", b"Component", b"_C"))
}

// The first claim among the stem's three leaves that is not absent.
fn try_cnc_leaf_candidates(m: &[u8], stem: &[u8]) -> Claim
    requires { WellFormed m.now × Bare stem.now × (length stem.now ≤ 4096) }
    ensures { claim result ≡ first_of (held m.now).groups (stem_leaves stem.now) }
{
    claim_of(
        m,
        stem,
        class_base(stem),
        b"_ClassNetCache",
        b"Component_ClassNetCache",
        b"_C_ClassNetCache",
    )
}

// The ClassNetCache group of a bare instance name. The first stem with a claim decides.
pub fn resolve_cnc_for_instance_name(m: &[u8], name: &[u8]) -> Option<u32>
    requires { WellFormed m.now × (length name.now ≤ 4096) }
    ensures { entry result ≡ resolve_cnc name.now (held m.now).groups }
{
    if has_path_separator(name) {
        return None;
    }
    for stem in Stems::new(name) {
        let c = try_cnc_leaf_candidates(m, stem);
        if decides(c) {
            return claimed(c);
        }
    }
    None
}

// The group of the key that is a followed by b, joined in a scratch buffer of N bytes.
fn find_within<const N: usize>(m: &[u8], a: &[u8], b: &[u8]) -> Option<u32>
    requires { WellFormed m.now × (length a.now + length b.now ≤ N) × (N ≤ 4119) }
    ensures { entry result ≡ path_place (a.now ++ b.now) (held m.now).groups }
{
    let mut scratch = [0u8; N];
    let n = join(&mut scratch, a, b);
    find_path_place(m, &scratch[..n])
}

// The group of the key that is a followed by b. Most keys have at most 128 bytes. A toggled key has at most a path's 4096 bytes, the 9 of
// `Default__` and the 14 of `_ClassNetCache`.
fn find_joined(m: &[u8], a: &[u8], b: &[u8]) -> Option<u32>
    requires { WellFormed m.now × (length a.now + length b.now ≤ 4119) }
    ensures { entry result ≡ path_place (a.now ++ b.now) (held m.now).groups }
{
    if a.len() + b.len() <= 128 {
        return find_within::<128>(m, a, b);
    }
    find_within::<4119>(m, a, b)
}

fn find_toggled(m: &[u8], key: &[u8]) -> Option<u32>
    requires { WellFormed m.now × (length key.now ≤ 4105) }
    ensures { entry result ≡ first_path (held m.now).groups (Option-to_list (toggle key.now)) }
{
    match toggle_class_net_cache(key)? {
        Toggle::Stripped(n) => find_path_place(m, &key[..n]),
        Toggle::Appended => find_joined(m, key, b"_ClassNetCache"),
    }
}

// The group of a key, or of its toggle if the key finds none.
fn find_or_toggled(m: &[u8], key: &[u8]) -> Option<u32>
    requires { WellFormed m.now × (length key.now ≤ 4105) }
    ensures { entry result ≡ with_toggle (held m.now).groups (some key.now) }
{
    find_path_place(m, key).or_else(|| find_toggled(m, key))
}

// The group of a path's key, written to a scratch buffer of N bytes, or of its toggle. (It differs from `find_within` in what it writes and in
// how it searches: with a closure for each, only the buffer would be left.)
fn find_spelled<const N: usize>(m: &[u8], path: &[u8], key: Key) -> Option<u32>
    requires { WellFormed m.now × (length (key_bytes path.now key) ≤ N) × (N ≤ 4105) }
    ensures { entry result ≡ with_toggle (held m.now).groups (some (key_bytes path.now key)) }
{
    let mut scratch = [0u8; N];
    let n = spell(&mut scratch, path, key);
    find_or_toggled(m, &scratch[..n])
}

// The group of a path's alias, or of its toggle; none if the path has no such alias. Most aliases have at most 128 bytes, and all at most a
// path's 4096 bytes and the 9 of `Default__`.
fn find_alias(m: &[u8], path: &[u8], key: Option<Key>) -> Option<u32>
    requires { WellFormed m.now × AtMost 4105 (spelled path.now key) }
    ensures { entry result ≡ with_toggle (held m.now).groups (spelled path.now key) }
{
    let key = key?;
    if key_len(path, Some(key)) <= 128 {
        return find_spelled::<128>(m, path, key);
    }
    find_spelled::<4105>(m, path, key)
}

// The group of a path's core alias, or of its toggle.
fn find_core_alias(m: &[u8], path: &[u8]) -> Option<u32>
    requires { WellFormed m.now × (length path.now ≤ 4096) }
    ensures { entry result ≡ with_toggle (held m.now).groups (core_alias path.now) }
{
    find_alias(m, path, core_alias(path))
}

// Tries the default alias and its toggle, then the core alias and its toggle.
fn find_aliases(m: &[u8], path: &[u8]) -> Option<u32>
    requires { WellFormed m.now × (length path.now ≤ 4096) }
    ensures { entry result ≡ by_alias (held m.now).groups path.now }
{
    find_alias(m, path, default_object_alias(path)).or_else(|| find_core_alias(m, path))
}

// Tries each of a path's keys, followed by its toggle.
pub fn find_class_net_cache_key(m: &[u8], path: &[u8]) -> Option<u32>
    requires { WellFormed m.now × (length path.now ≤ 4096) }
    ensures { entry result ≡ find_class_net_cache_key path.now (held m.now).groups }
{
    find_or_toggled(m, path).or_else(|| find_aliases(m, path))
}
