// The literal words of a lent memory. While a block is read, word i holds the position of its literal i.
ghost use Rattle.std.specs.Prelude.{◌≡◌, ◌<◌};
ghost use Rattle.vrf_words.specs.Words.{word};
ghost use Rattle.vrf_store.specs.Store.{allowances_of, store_of};
ghost use Rattle.vrf_store.specs.Inner.WellFormed.{WellFormed};
ghost use Rattle.vrf_store.specs.Inner.Literals.{LiteralPut};

use crate::parts::{literals, literals_at};
use vrf_words::{get32, put32};

// The position of literal i.
pub fn literal_at(m: &[u8], i: u32) -> u32
    requires { WellFormed m.now × (i < (allowances_of m.now).literals) }
    ensures { result ≡ word (store_of m.now).literals i }
{
    get32(literals(m), i as usize)
}

// Records the position of literal i.
pub fn put_literal(m: &mut [u8], i: u32, position: u32)
    requires { WellFormed m.old × (i < (allowances_of m.old).literals) }
    ensures { LiteralPut m.old m.new i position }
{
    let at = literals_at(m);
    put32(m, at + (i as usize), position);
}
