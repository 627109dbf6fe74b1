// Writes GUID records.
ghost use Rattle.std.specs.Prelude.{◌≡◌, ◌+◌, ◌*◌, ◌^◌, ◌<◌, ◌≤◌, length};
ghost use Rattle.vrf_model.specs.Writer.{encode_guid, encode_all};
ghost use Rattle.vrf_table.specs.Table.{key};
ghost use Rattle.vrf_store.specs.Inner.WellFormed.{WellFormed};
ghost use Rattle.vrf_store.specs.Inner.Stepped.{held};
ghost use Rattle.vrf_writer.specs.Inner.Prefix.{WritesPrefix};
ghost use Rattle.vrf_writer.specs.Inner.Rows.{GuidRow, guid_in};

use crate::numbers::{put_packed, put_text};
use vrf_store::look::{row_info, row_key};
use vrf_store::parts::{guid_rows, guids, texts};
use vrf_table::row_text;

// The GUID of the record in row i.
pub fn guid_of(rows: &[u8], i: u32) -> u32
    requires { (24 * i + 24 ≤ length rows.now) × (key rows.now i < 2 ^ 32) }
    ensures { result ≡ key rows.now i }
{
    row_key(rows, i) as u32
}

// The record in row i, whose path is in the texts x.
fn put_guid(out: &mut [u8], rows: &[u8], x: &[u8], i: u32) -> usize
    requires { GuidRow rows.now x.now i × (length (encode_guid (guid_in rows.now x.now i)) ≤ length out.old) }
    ensures { WritesPrefix (encode_guid (guid_in rows.now x.now i)) out.old out.new result }
{
    let mut at = put_packed(out, guid_of(rows, i));
    at += put_packed(&mut out[at..], row_info(rows, i));
    out[at] = 1;
    at += 1;
    at += put_text(&mut out[at..], row_text(rows, x, i));
    out[at] = 0;
    at + 1
}

// All records, in their order. The rows and the texts are located once, before the loop.
pub fn put_guids(out: &mut [u8], m: &[u8]) -> usize
    requires { WellFormed m.now × (length (encode_all encode_guid (held m.now).guids) ≤ length out.old) }
    ensures { WritesPrefix (encode_all encode_guid (held m.now).guids) out.old out.new result }
{
    let rows = guid_rows(m);
    let x = texts(m);
    let mut at = 0;
    for i in 0..guids(m) {
        at += put_guid(&mut out[at..], rows, x, i);
    }
    at
}
