// `add_export_group`: a group is appended, merged or replaced. Path, index and slots are three parameters, as in the Rust: a struct of them would
// be made by each caller for one call, and its path looked up, its index compared and its slots stored one by one. For the same reason it is a
// clause, and no type, that a path is a text and that the slots are at most 65,536.
ghost use Rattle.std.specs.Prelude.{◌≡◌, ◌&&◌, [], ◌+◌, ◌<◌, ◌≤◌, eqb, length};
ghost use Rattle.std.proofs.Math.Option.{none, some};
ghost use Rattle.vrf_text.specs.Text.{IsText};
ghost use Rattle.vrf_path.specs.Text.{same};
ghost use Rattle.vrf_model.specs.Book.{Group, group_text};
ghost use Rattle.vrf_model.specs.Lookup.{place_or, index_place};
ghost use Rattle.vrf_model.specs.Setting.{new_group, add_group_at, add_group};
ghost use Rattle.vrf_store.specs.Store.{header_of};
ghost use Rattle.vrf_store.specs.Inner.WellFormed.{WellFormed};
ghost use Rattle.vrf_store.specs.Inner.Stepped.{held};
ghost use Rattle.vrf_cache.specs.Inner.Taken.{StepBy};
ghost use Rattle.vrf_cache.specs.Inner.Groups.{MergeRequest, group_at, replacing, appending, GroupToAdd, GroupRequest, PathFits, PathReleased, PathWritten, merging};

use crate::full::fits;
use crate::texts::keep_text;
use vrf_bitio::{Reason, Refusal};
use vrf_path::same;
use vrf_store::counters::{Counter, step};
use vrf_store::fields::drop_fields;
use vrf_store::groups::{grow_group, push_group, replace_group, set_group};
use vrf_store::look::{
    field_name, find_index, find_path_place, group_index, group_path, group_slots,
};
use vrf_store::parts::{groups, held, text_allowed};
use vrf_table::TextSpan;

// Appends a group with an index that no group has.
pub fn append_group(m: &mut [u8], path: &[u8], index: u32, slots: u32) -> Result<u32, Refusal>
    requires { GroupToAdd m.old path.now index slots }
    ensures { StepBy (appending (held m.old) (new_group path.now index slots)) m.old m.new result }
{
    fits(m, 0, 1, 0, 0, path.len() as u64)?;
    let n = groups(m);
    let span = keep_text(m, path);
    push_group(m, index, span, slots);
    step(m, Counter::Schema);
    Ok(n)
}

// Releases the path of group e if n more bytes would pass allowance 4. Otherwise the path stays, because `set_group` rebuilds the indexes,
// which is slow.
fn release_path(m: &mut [u8], e: u32, n: u64)
    requires { PathFits m.old e n }
    ensures { PathReleased m.old m.new e n }
{
    if held(m) as u64 + n <= text_allowed(m) as u64 {
        return;
    }
    let index = group_index(m, e);
    set_group(m, e, index, TextSpan { at: 0, len: 0 }, 0);
}

// Writes the new path of group e to the texts and answers where it is. The row of group e is set later.
fn put_path(m: &mut [u8], e: u32, path: &[u8]) -> TextSpan
    requires { PathFits m.old e (length path.now) }
    ensures { PathWritten m.old path.now m.new e result }
{
    release_path(m, e, path.len() as u64);
    keep_text(m, path)
}

// Group e takes this path and index, and grows to the slot count.
fn rename_group(m: &mut [u8], e: u32, path: &[u8], index: u32, slots: u32) -> Result<u32, Refusal>
    requires { GroupRequest m.old path.now e index slots }
    ensures { StepBy (merging (held m.old) e path.now index slots) m.old m.new result }
{
    let gone = group_path(m, e).len() as u64;
    fits(m, 0, 0, 0, gone, path.len() as u64)?;
    let span = put_path(m, e, path);
    set_group(m, e, index, span, slots);
    step(m, Counter::Schema);
    Ok(e)
}

fn is_named(m: &[u8], e: u32, path: &[u8], index: u32) -> bool
    requires { WellFormed m.now }
    ensures { result ≡ (same path.now (place_or (λ (g : Group). g.path) [] (held m.now).groups e) && eqb index (place_or (λ (g : Group). g.index) 0 (held m.now).groups e)) }
{
    same(path, group_path(m, e)) && index == group_index(m, e)
}

// A group that already has this path and index only grows, and the indexes stay as they are.
fn merge_group(m: &mut [u8], e: u32, path: &[u8], index: u32, slots: u32) -> Result<u32, Refusal>
    requires { GroupRequest m.old path.now e index slots }
    ensures { StepBy (merging (held m.old) e path.now index slots) m.old m.new result }
{
    if is_named(m, e, path, index) {
        grow_group(m, e, slots);
        step(m, Counter::Schema);
        return Ok(e);
    }
    rename_group(m, e, path, index, slots)
}

// The length of the texts of group e: its path and the names of its fields.
fn group_text(m: &[u8], e: u32) -> u64
    requires { WellFormed m.now × (e < (header_of m.now).groups) }
    ensures { result ≡ group_text (group_at (held m.now) e) }
{
    let mut total = group_path(m, e).len() as u64;
    for q in 0..group_slots(m, e) {
        total += field_name(m, e, q).len() as u64;
    }
    total
}

// Replaces group e and drops its fields. The allowance is checked first, because a refusal must leave everything as it was.
fn replace_at(m: &mut [u8], e: u32, path: &[u8], index: u32, slots: u32) -> Result<u32, Refusal>
    requires { GroupRequest m.old path.now e index slots }
    ensures { StepBy (replacing (held m.old) e (new_group path.now index slots)) m.old m.new result }
{
    let gone = group_text(m, e);
    fits(m, 0, 0, 0, gone, path.len() as u64)?;
    drop_fields(m, e);
    let span = put_path(m, e, path);
    replace_group(m, e, index, span, slots);
    step(m, Counter::Schema);
    step(m, Counter::Replaced);
    Ok(e)
}

// Path found at group e: merges, or refuses with 23 if another group has the index.
fn merge_at(m: &mut [u8], e: u32, path: &[u8], index: u32, slots: u32) -> Result<u32, Refusal>
    requires { MergeRequest m.old path.now e slots }
    ensures { StepBy (add_group_at path.now index slots (held m.old) (some e) (index_place index (held m.old).groups)) m.old m.new result }
{
    match find_index(m, index) {
        Some(j) if j != e => Err(Refusal {
            reason: Reason::CrossedIdentity,
            a: index as u64,
            b: 0,
        }),
        _ => merge_group(m, e, path, index, slots),
    }
}

// Path not found: replaces the group that has the index, or appends if there is none.
fn add_unknown(m: &mut [u8], path: &[u8], index: u32, slots: u32) -> Result<u32, Refusal>
    requires { WellFormed m.old × IsText path.now × (slots ≤ 65536) }
    ensures { StepBy (add_group_at path.now index slots (held m.old) none (index_place index (held m.old).groups)) m.old m.new result }
{
    match find_index(m, index) {
        Some(j) => replace_at(m, j, path, index, slots),
        None => append_group(m, path, index, slots),
    }
}

// Answers the group's place. Every accepted call steps the schema generation.
pub fn add_export_group(m: &mut [u8], path: &[u8], index: u32, slots: u32) -> Result<u32, Refusal>
    requires { WellFormed m.old × IsText path.now × (slots ≤ 65536) }
    ensures { StepBy (add_group path.now index slots (held m.old)) m.old m.new result }
{
    match find_path_place(m, path) {
        Some(e) => merge_at(m, e, path, index, slots),
        None => add_unknown(m, path, index, slots),
    }
}
