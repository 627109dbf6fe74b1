// Rows of the tables: where a text is, and adding a row. That row e is inside is a clause of each function: a struct of all rows, such as
// `KeyIndex`, would ask for all of them where one is enough. A table that is written to comes as its memory and its numbers: a struct around
// its `&mut [u8]` would have to say in each contract that it keeps its borrow.
ghost use Rattle.std.specs.Prelude.{◌≡◌, ◌+◌, ◌*◌, ◌<◌, ◌≤◌, length};
ghost use Rattle.vrf_table.specs.Table.{at, len};
ghost use Rattle.vrf_store.specs.Inner.Memory.{pushed};

use vrf_table::{TextSpan, key_bucket, put_key, put_text};
use vrf_words::{get32, put32};

// Where the text of row e is, in the half in use.
pub fn text_span(rows: &[u8], e: u32) -> TextSpan
    requires { 24 * e + 24 ≤ length rows.now }
    ensures { (result.at ≡ at rows.now e) × (result.len ≡ len rows.now e) }
{
    let row = 6 * (e as usize);
    TextSpan {
        at: get32(rows, row + 3),
        len: get32(rows, row + 4),
    }
}

pub fn text_len(rows: &[u8], e: u32) -> u32
    requires { 24 * e + 24 ≤ length rows.now }
    ensures { result ≡ len rows.now e }
{
    get32(rows, 6 * (e as usize) + 4)
}

// Adds row n to a table, at the front of its bucket's chain. t is the memory of the table: cap rows, then b heads.
pub fn push_row(t: &mut [u8], cap: usize, b: u32, n: u32, k: u64, span: TextSpan, info: u32)
    requires { (length t.old ≡ 24 * cap + 4 * b) × (n < cap) × (cap ≤ 1000000) × (0 < b) }
    ensures { t.new ≡ pushed t.old cap b n k span.at span.len info }
{
    let head = 6 * cap + (key_bucket(k, b) as usize);
    let link = get32(t, head);
    put_text(t, n, span, info);
    put_key(t, n, k, link);
    put32(t, head, n + 1);
}
