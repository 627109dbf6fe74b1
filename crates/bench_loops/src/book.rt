// What tests/compare times of a book. A sheet lists calls or lookups, one row of six words each. Their texts are in a second slice.
ghost use Rattle.std.specs.Prelude.{◌≡◌, ◌+◌, ◌*◌, ◌≤◌, length};
ghost use Rattle.vrf_text.specs.Text.{IsText};
ghost use Rattle.vrf_store.specs.Check.{check};
ghost use Rattle.vrf_store.specs.Inner.WellFormed.{WellFormed};

use vrf_cache::fields::set_field_on_group;
use vrf_cache::groups::add_export_group;
use vrf_cache::guids::set_net_guid_path;
use vrf_cache::resolve::{resolve_cnc_for_instance_name, unique_leaf_match};
use vrf_check::check;
use vrf_model::Allowances;
use vrf_schema::calls::open;
use vrf_store::look::{find_guid, find_index, find_path_place, guid_path};
use vrf_text::check_text;
use vrf_words::get32;

// A row of a sheet. A call has a kind, numbers and a text. The numbers are a GUID and its outer (kind 0), a group's index and slot count
// (kind 1), or a field's group index, handle and checksum (kind 2). A lookup uses the first number or the text. The kind stays a number: the
// driver passes a sheet over the C interface, as words.
#[derive(Clone, Copy)]
struct Row {
    kind: u32,
    a: u32,
    b: u32,
    c: u32,
    at: u32,
    len: u32,
}

fn row_at(sheet: &[u8], i: usize) -> Row
    requires { 24 * i + 24 ≤ length sheet.now }
{
    let word = 6 * i;
    Row {
        kind: get32(sheet, word),
        a: get32(sheet, word + 1),
        b: get32(sheet, word + 2),
        c: get32(sheet, word + 3),
        at: get32(sheet, word + 4),
        len: get32(sheet, word + 5),
    }
}

// The text of a row; empty if it is not inside the texts or is too long.
fn text_of(texts: &[u8], r: Row) -> &[u8]
    ensures { length result.now ≤ 4096 }
{
    let from = r.at as usize;
    let to = from + (r.len as usize);
    if to <= texts.len() {
        if r.len <= 4096 {
            return &texts[from..to];
        }
    }
    &texts[0..0]
}

// Each call answers whether it was accepted.

fn set_guid(m: &mut [u8], r: Row, path: &[u8]) -> bool
    requires { WellFormed m.old × IsText path.now }
    ensures { WellFormed m.new }
{
    set_net_guid_path(m, r.a, path, r.b).is_ok()
}

fn add_group(m: &mut [u8], r: Row, path: &[u8]) -> bool
    requires { WellFormed m.old × IsText path.now }
    ensures { WellFormed m.new }
{
    add_export_group(m, path, r.a, r.b % 65_537).is_ok()
}

fn set_field(m: &mut [u8], r: Row, name: &[u8]) -> bool
    requires { WellFormed m.old × IsText name.now }
    ensures { WellFormed m.new }
{
    set_field_on_group(m, r.a, r.b, r.c, name).unwrap_or(false)
}

fn set(m: &mut [u8], r: Row, text: &[u8]) -> bool
    requires { WellFormed m.old × IsText text.now }
    ensures { WellFormed m.new }
{
    let kind = r.kind;
    match kind {
        0 => set_guid(m, r, text),
        1 => add_group(m, r, text),
        _ => set_field(m, r, text),
    }
}

// The text is checked as a caller's text, because the Rust converts it to a `str`.
fn set_tested(m: &mut [u8], r: Row, text: &[u8]) -> bool
    requires { WellFormed m.old }
    ensures { WellFormed m.new }
{
    match check_text(text) {
        Ok(()) => set(m, r, text),
        Err(_) => false,
    }
}

// The number of calls of a sheet that were accepted.
fn set_all(m: &mut [u8], sheet: &[u8], texts: &[u8]) -> u64
    requires { WellFormed m.old }
{
    let mut taken: u64 = 0;
    for i in 0..sheet.len() / 24 {
        let r = row_at(sheet, i);
        if set_tested(m, r, text_of(texts, r)) {
            taken = taken.wrapping_add(1);
        }
    }
    taken
}

// Opens a book and makes the calls of a sheet on it. Answers how many were accepted.
#[unsafe(no_mangle)]
pub extern "C" fn bench_fill(
    m: &mut [u8],
    guids: u64,
    groups: u64,
    fields: u64,
    text: u64,
    sheet: &[u8],
    texts: &[u8],
) -> u64 {
    let allowed = Allowances {
        guids,
        groups,
        fields,
        text,
        literals: 0,
    };
    match open(m, allowed) {
        Ok(()) => set_all(m, sheet, texts),
        Err(_) => 0,
    }
}

// Only the check of the book.
#[unsafe(no_mangle)]
pub extern "C" fn bench_check(m: &[u8]) -> bool
    ensures { result ≡ check m.now }
{
    check(m)
}

// 1 if a place was found, otherwise 0.
fn hit(place: Option<u32>) -> u64 {
    u64::from(place.is_some())
}

// The length of a GUID's path. The Rust's lookup answers the path itself, so the path is read here too.
fn path_length(m: &[u8], guid: u32) -> u64
    requires { WellFormed m.now }
{
    match find_guid(m, guid) {
        Some(i) => guid_path(m, i).len() as u64,
        None => 0,
    }
}

// The sum of what `look` answers for the rows of a sheet.
fn sum_of<F: Fn(Row) -> u64>(sheet: &[u8], look: F) -> u64
    requires { F.IsAlwaysCallable look }
{
    let mut sum: u64 = 0;
    for i in 0..sheet.len() / 24 {
        sum = sum.wrapping_add(look(row_at(sheet, i)));
    }
    sum
}

// A sheet's lookups, all of one kind, which is a number because the C interface passes it. The unchecked functions are timed, so the caller
// checks the book first, with `bench_check`.
#[unsafe(no_mangle)]
pub extern "C" fn bench_look(m: &[u8], what: u32, sheet: &[u8], texts: &[u8]) -> u64
    requires { WellFormed m.now }
{
    match what {
        0 => sum_of(sheet, |r| path_length(m, r.a)),
        1 => sum_of(sheet, |r| hit(find_index(m, r.a))),
        2 => sum_of(sheet, |r| hit(find_path_place(m, text_of(texts, r)))),
        3 => sum_of(sheet, |r| hit(unique_leaf_match(m, text_of(texts, r)))),
        _ => sum_of(
            sheet,
            |r| hit(resolve_cnc_for_instance_name(m, text_of(texts, r))),
        ),
    }
}
