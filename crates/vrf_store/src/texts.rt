// Texts in lent memory: appending a text, and moving the texts in use to the other half when one half is full.
ghost use Rattle.std.specs.Prelude.{◌≡◌, ◌+◌, ◌-◌, ◌≤◌, length};
ghost use Rattle.vrf_words.specs.Words.{word};
ghost use Rattle.vrf_store.specs.Store.{allowances_of, header_of, half_at};
ghost use Rattle.vrf_store.specs.Inner.WellFormed.{Enough, WellFormed};
ghost use Rattle.vrf_store.specs.Inner.Texts.{Appended, Compacted, TextMovable, move_text, Movable, TextsMoved, SpaceMade};

use crate::parts::{
    fields, groups, groups_allowed, guids, guids_allowed, half, half_at, text_allowed, used,
};
use vrf_table::TextSpan;
use vrf_words::{get32, move_part, put_part, put32};

// Writes t after the bytes used so far, where no row has its text.
pub fn append_text(m: &mut [u8], t: &[u8]) -> TextSpan
    requires { WellFormed m.old × ((header_of m.old).used + length t.now ≤ (allowances_of m.old).text) }
    ensures { Appended m.old t.now m.new result }
{
    let span = TextSpan {
        at: used(m),
        len: t.len() as u32,
    };
    let from = half_at(m) + span.at as usize;
    put_part(m, from, t);
    put32(m, 9, span.at + span.len);
    span
}

// Moves the text of one row from the old half to the new one, after the first `used` bytes. The answer is the number of bytes used then.
fn move_text(m: &mut [u8], row: usize, from: usize, to: usize, used: u32) -> u32
    requires { TextMovable m.old row from to used }
    ensures { (m.new ≡ move_text m.old row from to used) × (result ≡ used + word m.old (row + 4)) }
{
    let at = get32(m, row + 3) as usize;
    let len = get32(m, row + 4);
    move_part(m, from + at, to + used as usize, len as usize);
    put32(m, row + 3, used);
    used + len
}

// Moves the texts of n rows, which begin at word `rows`.
fn move_texts(m: &mut [u8], rows: usize, n: usize, from: usize, to: usize, used: u32) -> u32
    requires { Movable m.old rows n from to used (allowances_of m.old).text }
    ensures { TextsMoved m.old m.new rows n from to used result }
{
    let mut end = used;
    for e in 0..n {
        end = move_text(m, rows + 6 * e, from, to, end);
    }
    end
}

// The first byte of the half that is not in use.
fn other_half_at(m: &[u8]) -> usize
    requires { Enough m.now × ((header_of m.now).half ≤ 1) }
    ensures { result ≡ half_at (allowances_of m.now) (1 - (header_of m.now).half) }
{
    let at = half_at(m);
    if half(m) == 0 {
        return at + text_allowed(m);
    }
    at - text_allowed(m)
}

// Moves the texts that rows point to into the other half, in the order of the records. Texts that no row points to are left out, and their
// space is free again.
fn compact(m: &mut [u8])
    requires { WellFormed m.old }
    ensures { Compacted m.old m.new }
{
    let from = half_at(m);
    let to = other_half_at(m);
    let other = 1 - half(m);
    let guid_count = guids(m) as usize;
    let group_count = groups(m) as usize;
    let field_count = fields(m) as usize;
    let groups_at = 33 + 10 * guids_allowed(m);
    let fields_at = groups_at + 3 + 16 * groups_allowed(m);
    let first = move_texts(m, 32, guid_count, from, to, 0);
    let second = move_texts(m, groups_at, group_count, from, to, first);
    let end = move_texts(m, fields_at, field_count, from, to, second);
    put32(m, 10, other);
    put32(m, 9, end);
}

// Makes space for n more bytes after the bytes used.
pub fn make_space(m: &mut [u8], n: u32)
    requires { WellFormed m.old × ((header_of m.old).held + n ≤ (allowances_of m.old).text) }
    ensures { SpaceMade m.old m.new n }
{
    let space = text_allowed(m) as u32 - used(m);
    if n <= space {
        return;
    }
    compact(m);
}
