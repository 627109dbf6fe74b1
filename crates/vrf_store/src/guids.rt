// Changes of the GUID records: adding one and changing one.
ghost use Rattle.std.specs.Prelude.{[], ◌∷◌, ◌++◌, slice_set};
ghost use Rattle.vrf_model.specs.Setting.{with_guids};
ghost use Rattle.vrf_table.specs.Table.{key};
ghost use Rattle.vrf_store.specs.Store.{store_of};
ghost use Rattle.vrf_store.specs.Inner.Stepped.{Stepped, held};
ghost use Rattle.vrf_store.specs.Inner.Guids.{NewGuid, OldGuid, guid_of};

use crate::parts::{guid_rows, guids, guids_allowed, held};
use crate::rows::{push_row, text_len};
use vrf_table::{TextSpan, put_text};
use vrf_words::put32;

// Adds a GUID record. Its path is a text in the half in use. (This and `set_guid` are not one function each with `push_field` and
// `set_field_row`: what they share is `push_row` and `put_text`, and each contract is about its own part of the book. Each makes its own range,
// because a function that lends a part of m would have to say what m is when the part is given back.)
pub fn push_guid(m: &mut [u8], guid: u32, span: TextSpan, outer: u32)
    requires { NewGuid m.old guid span.at span.len }
    ensures { Stepped m.old m.new (with_guids (held m.old) ((held m.old).guids ++ (guid_of (store_of m.old) guid span.at span.len outer ∷ []))) }
{
    let cap = guids_allowed(m);
    let n = guids(m);
    let total = held(m) + span.len;
    let from: usize = 128;
    let to = from + 24 * cap + 4 * (4 * cap + 1);
    let b = (4 * cap + 1) as u32;
    push_row(&mut m[from..to], cap, b, n, guid as u64, span, outer);
    put32(m, 5, n + 1);
    put32(m, 8, total);
}

// Gives record e a new path and outer.
pub fn set_guid(m: &mut [u8], e: u32, span: TextSpan, outer: u32)
    requires { OldGuid m.old e span.at span.len }
    ensures { Stepped m.old m.new (with_guids (held m.old) (slice_set (held m.old).guids e (guid_of (store_of m.old) (key (store_of m.old).guid_rows e) span.at span.len outer))) }
{
    let cap = guids_allowed(m);
    let total = held(m) - text_len(guid_rows(m), e) + span.len;
    let from: usize = 128;
    let to = from + 24 * cap + 4 * (4 * cap + 1);
    put_text(&mut m[from..to], e, span, outer);
    put32(m, 8, total);
}
