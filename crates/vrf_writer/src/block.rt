// Writes a whole block.
ghost use Rattle.std.specs.Prelude.{◌+◌, ◌≤◌, length};
ghost use Rattle.vrf_model.specs.Writer.{encode_tables, encode_book};
ghost use Rattle.vrf_store.specs.Inner.WellFormed.{WellFormed};
ghost use Rattle.vrf_store.specs.Inner.Stepped.{held};
ghost use Rattle.vrf_writer.specs.Inner.Prefix.{WritesPrefix};

use crate::groups::put_groups;
use crate::guids::put_guids;
use crate::numbers::put_word;
use vrf_store::parts::{groups, guids};
use vrf_words::zero_words;

// What follows the first word: three zero words, the GUID count and records, the group count and groups.
fn put_tables(out: &mut [u8], m: &[u8]) -> usize
    requires { WellFormed m.now × (length (encode_tables (held m.now)) ≤ length out.old) }
    ensures { WritesPrefix (encode_tables (held m.now)) out.old out.new result }
{
    zero_words(out, 0, 3);
    let mut at = 12 + put_word(&mut out[12..], guids(m));
    at += put_guids(&mut out[at..], m);
    at += put_word(&mut out[at..], groups(m));
    at + put_groups(&mut out[at..], m)
}

// The first word depends on the block's length, so it is written last.
pub fn put_block(out: &mut [u8], m: &[u8]) -> usize
    requires { WellFormed m.now × (length (encode_book (held m.now)) ≤ length out.old) × (length (encode_book (held m.now)) ≤ 268435456) }
    ensures { WritesPrefix (encode_book (held m.now)) out.old out.new result }
{
    let n = put_tables(&mut out[4..], m);
    put_word(out, (n - 4) as u32);
    n + 4
}
