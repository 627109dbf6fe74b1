// Writes out texts that the book does not hold: a path's aliases, and leaves with a suffix. Each answers a length and no slice: the contract of a
// slice of the buffer would also say what the buffer holds when the slice is given back.
ghost use Rattle.std.specs.Prelude.{◌≡◌, ◌+◌, ◌≤◌, ◌++◌, length, drop};
ghost use Rattle.vrf_path.specs.Answers.{key_bytes};
ghost use Rattle.vrf_table.specs.Inner.Spelled.{SpelledInto};

use vrf_path::Key;
use vrf_words::put_part;

// Writes a and then b at the start of the scratch buffer. The answer is the number of bytes written.
pub fn join(scratch: &mut [u8], a: &[u8], b: &[u8]) -> usize
    requires { length a.now + length b.now ≤ length scratch.old }
    ensures { SpelledInto (a.now ++ b.now) scratch.old scratch.new result }
{
    put_part(scratch, 0, &a[..]);
    put_part(scratch, a.len(), &b[..]);
    a.len() + b.len()
}

// The text without its first k bytes.
fn following(t: &[u8], k: usize) -> &[u8]
    ensures { result.now ≡ drop k t.now }
{
    let from = k.min(t.len());
    &t[from..]
}

// Writes the path with the `/_Core/` at place `at` replaced by `/`.
fn spell_cut(scratch: &mut [u8], path: &[u8], at: usize) -> usize
    requires { length (key_bytes path.now (Key.Cut at)) ≤ length scratch.old }
    ensures { SpelledInto (key_bytes path.now (Key.Cut at)) scratch.old scratch.new result }
{
    let n = at.min(path.len());
    put_part(scratch, 0, &path[..n]);
    scratch[n] = b'/';
    let rest = following(&path[n..], 7);
    put_part(scratch, n + 1, rest);
    n + 1 + rest.len()
}

// Writes a path's key at the start of the scratch buffer. The answer is its number of bytes.
pub fn spell(scratch: &mut [u8], path: &[u8], key: Key) -> usize
    requires { length (key_bytes path.now key) ≤ length scratch.old }
    ensures { SpelledInto (key_bytes path.now key) scratch.old scratch.new result }
{
    match key {
        Key::Itself => join(scratch, path, b""),
        Key::Stripped => join(scratch, following(path, 9), b""),
        Key::Prefixed => join(scratch, b"Default__", path),
        Key::Cut(at) => spell_cut(scratch, path, at),
        Key::Inserted => join(scratch, b"/Game/Characters/_Core/", following(path, 17)),
    }
}
