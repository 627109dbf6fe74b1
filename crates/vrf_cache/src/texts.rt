// Writes a text that the book will hold.
ghost use Rattle.std.specs.Prelude.{◌+◌, ◌≤◌, length};
ghost use Rattle.vrf_store.specs.Store.{allowances_of, header_of};
ghost use Rattle.vrf_store.specs.Inner.WellFormed.{WellFormed};
ghost use Rattle.vrf_cache.specs.Inner.Texts.{TextWritten};

use vrf_store::texts::{append_text, make_space};
use vrf_table::TextSpan;

// Writes t after the texts in use and answers where it is. If space is short, texts that no row refers to are removed first, so that only
// held texts count against allowance 4.
pub fn keep_text(m: &mut [u8], t: &[u8]) -> TextSpan
    requires { WellFormed m.old × ((header_of m.old).held + length t.now ≤ (allowances_of m.old).text) }
    ensures { TextWritten m.old t.now m.new result }
{
    make_space(m, t.len() as u32);
    append_text(m, t)
}
