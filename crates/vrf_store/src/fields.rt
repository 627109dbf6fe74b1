// Changes of the fields: adding one, changing one, and dropping all fields of a group.
ghost use Rattle.std.specs.Prelude.{◌≡◌, ◌+◌, ◌*◌, ◌^◌, ◌<◌, ◌≤◌, length};
ghost use Rattle.vrf_words.specs.Words.{part};
ghost use Rattle.vrf_model.specs.Book.{filled};
ghost use Rattle.vrf_store.specs.Layout;
ghost use Rattle.vrf_store.specs.Store.{allowances_of, header_of, store_of};
ghost use Rattle.vrf_store.specs.Inner.WellFormed.{Enough, WellFormed};
ghost use Rattle.vrf_store.specs.Inner.Stepped.{Stepped, held};
ghost use Rattle.vrf_store.specs.Inner.Fields.{headless, pass_of, pass_row, pass_rows, emptied, NewField, NewName, with_field, with_group, Renamed};

use crate::parts::{field_rows, fields, fields_allowed, groups_allowed, guids_allowed, held};
use crate::rows::{push_row, text_len, text_span};
use vrf_table::{TextSpan, put_text};
use vrf_words::{get32, get64, put32, zero_words};

// The first byte of the field rows. Their heads follow.
fn fields_at(m: &[u8]) -> usize
    requires { Enough m.now }
    ensures { result ≡ 4 * Layout.field_rows_at (allowances_of m.now) }
{
    4 * (36 + 10 * guids_allowed(m) + 16 * groups_allowed(m))
}

// Adds a field. Its slot must be empty. (`guids` says why this is not one function with `push_guid`, and why each makes its own range.)
pub fn push_field(m: &mut [u8], place: u32, slot: u32, span: TextSpan, checksum: u32)
    requires { WellFormed m.old × NewField (store_of m.old) place slot span.at span.len }
    ensures { Stepped m.old m.new (with_field (held m.old) place slot (filled checksum (part (store_of m.old).texts span.at span.len))) }
{
    let cap = fields_allowed(m);
    let n = fields(m);
    let total = held(m) + span.len;
    let from = fields_at(m);
    let to = from + 24 * cap + 4 * (4 * cap + 1);
    let k = 65536 * (place as u64) + (slot as u64);
    let b = (4 * cap + 1) as u32;
    push_row(&mut m[from..to], cap, b, n, k, span, checksum);
    put32(m, 7, n + 1);
    put32(m, 8, total);
}

// Gives row e a new name and checksum.
pub fn set_field_row(m: &mut [u8], e: u32, span: TextSpan, checksum: u32)
    requires { WellFormed m.old × NewName (store_of m.old) e span.at span.len }
    ensures { Renamed m.old m.new e (filled checksum (part (store_of m.old).texts span.at span.len)) }
{
    let cap = fields_allowed(m);
    let from = fields_at(m);
    let to = from + 24 * cap + 4 * (4 * cap + 1);
    let total = held(m) - text_len(field_rows(m), e) + span.len;
    put_text(&mut m[from..to], e, span, checksum);
    put32(m, 8, total);
}

// The number of rows kept, and the total length of the names dropped.
#[derive(Clone, Copy)]
struct KeptRows {
    rows: u32,
    gone: u64,
}

// Drops row e if it is a field of the group at `place`. Otherwise moves it to the end of the rows kept so far.
fn pass_row(t: &mut [u8], cap: usize, place: u32, e: u32, kept: KeptRows) -> KeptRows
    requires { (length t.old ≡ 24 * cap + 4 * (4 * cap + 1)) × (e < cap) × (cap ≤ 1000000) × (kept.rows ≤ e) × (kept.gone ≤ 2 ^ 32 * e) }
    ensures { (pass_of t.new result.rows result.gone ≡ pass_row cap place e (pass_of t.old kept.rows kept.gone)) × (result.rows ≤ e + 1) × (result.gone ≤ 2 ^ 32 * (e + 1)) }
{
    let row = 6 * (e as usize);
    let k = get64(t, row);
    let span = text_span(t, e);
    let rows = kept.rows;
    let gone = kept.gone;
    if k / 65536 == place as u64 {
        return KeptRows {
            rows: rows,
            gone: gone + (span.len as u64),
        };
    }
    let info = get32(t, row + 5);
    push_row(t, cap, (4 * cap + 1) as u32, rows, k, span, info);
    KeptRows {
        rows: rows + 1,
        gone: gone,
    }
}

// Drops the fields of the group at `place` from the first n rows of the table t.
fn pass_rows(t: &mut [u8], cap: usize, place: u32, n: u32) -> KeptRows
    requires { (length t.old ≡ 24 * cap + 4 * (4 * cap + 1)) × (n ≤ cap) × (cap ≤ 1000000) }
    ensures { pass_of t.new result.rows result.gone ≡ pass_rows cap place (headless cap t.old) n }
{
    // heads start empty, so that none points past the rows kept so far
    zero_words(t, 6 * cap, 4 * cap + 1);
    let mut kept = KeptRows { rows: 0, gone: 0 };
    for e in 0..n {
        kept = pass_row(t, cap, place, e, kept);
    }
    kept
}

// Drops all fields of the group at `place`. Their names no longer count as bytes held.
pub fn drop_fields(m: &mut [u8], place: u32)
    requires { WellFormed m.old × (place < (header_of m.old).groups) }
    ensures { Stepped m.old m.new (with_group (held m.old) place emptied) }
{
    let cap = fields_allowed(m);
    let n = fields(m);
    let total = held(m) as u64;
    let from = fields_at(m);
    let to = from + 24 * cap + 4 * (4 * cap + 1);
    let kept = pass_rows(&mut m[from..to], cap, place, n);
    let rows = kept.rows;
    put32(m, 7, rows);
    put32(m, 8, (total - kept.gone) as u32);
}
