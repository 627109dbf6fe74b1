// Reads and writes a lent memory as 32-bit words, low byte first, and copies parts of it.
#![tactic(auto)]

ghost use Rattle.std.specs.Prelude.{◌≡◌, ◌+◌, ◌*◌, ◌/◌, ◌%◌, ◌^◌, ◌<◌, ◌≤◌, min, length, replicate};
ghost use Rattle.vrf_bitio.specs.Pasted.{pasted};
ghost use Rattle.vrf_words.specs.Words.{part, word};
ghost use Rattle.vrf_words.specs.Inner.Words.{set_word, Apart};

// Word i. The compiler makes this one load.
pub fn get32(s: &[u8], i: usize) -> u32
    requires { 4 * i + 4 ≤ length s.now }
    ensures { result ≡ word s.now i }
{
    let at = 4 * i;
    u32::from_le_bytes(s[at..at + 4].try_into().unwrap())
}

// Writes v as word i. The compiler makes this one store.
pub fn put32(s: &mut [u8], i: usize, v: u32)
    requires { 4 * i + 4 ≤ length s.old }
    ensures { s.new ≡ set_word s.old i v }
{
    let at = 4 * i;
    s[at..at + 4].copy_from_slice(&v.to_le_bytes());
}

// Words i and i + 1 as one 64-bit number, low word first. The compiler makes this one load.
pub fn get64(s: &[u8], i: usize) -> u64
    requires { 4 * i + 8 ≤ length s.now }
    ensures { result ≡ word s.now i + 2 ^ 32 * word s.now (i + 1) }
{
    let at = 4 * i;
    u64::from_le_bytes(s[at..at + 8].try_into().unwrap())
}

// Writes v as words i and i + 1, low word first. The compiler makes this one store. (One function for both widths would be given, or answer, the bytes,
// and each call would then make them from its number.)
pub fn put64(s: &mut [u8], i: usize, v: u64)
    requires { 4 * i + 8 ≤ length s.old }
    ensures { s.new ≡ set_word (set_word s.old i (v % 2 ^ 32)) (i + 1) (v / 2 ^ 32) }
{
    let at = 4 * i;
    s[at..at + 8].copy_from_slice(&v.to_le_bytes());
}

// The lower of two places. It is one call of the library, and stays because it is public: such a function may go only into a generic one.
pub fn lower(a: usize, b: usize) -> usize
    ensures { result ≡ min a b }
{
    a.min(b)
}

// Writes the N bytes of t from byte k on. All are read before any is written, so the compiler needs no loop.
fn put_piece<const N: usize>(m: &mut [u8], at: usize, t: &[u8], k: usize)
    requires { (k + N ≤ length t.now) × (at + length t.now ≤ length m.old) }
    ensures { m.new ≡ pasted m.old (at + k) (part t.now k N) }
{
    let piece: [u8; N] = t[k..k + N].try_into().unwrap();
    m[at + k..at + k + N].copy_from_slice(&piece);
}

// Writes a text of fewer than eight bytes. (No loop over its bytes: the compiler can make a `memcpy` of one.)
fn put_few(m: &mut [u8], at: usize, t: &[u8])
    requires { (length t.now < 8) × (at + length t.now ≤ length m.old) }
    ensures { m.new ≡ pasted m.old at t.now }
{
    let n = t.len();
    if 3 < n {
        put_piece::<4>(m, at, t, 0);
        put_piece::<4>(m, at, t, n - 4);
    } else if 1 < n {
        put_piece::<2>(m, at, t, 0);
        put_piece::<2>(m, at, t, n - 2);
    } else if 0 < n {
        put_piece::<1>(m, at, t, 0);
    }
}

// Writes a text of 32 bytes or more, 32 bytes in each turn. The last turn writes the last 32 bytes of the text.
fn put_longest(m: &mut [u8], at: usize, t: &[u8])
    requires { (32 ≤ length t.now) × (at + length t.now ≤ length m.old) }
    ensures { m.new ≡ pasted m.old at t.now }
{
    let last = t.len() - 32;
    for i in 0..t.len().div_ceil(32) {
        put_piece::<32>(m, at, t, (32 * i).min(last));
    }
}

// Writes t into m, from byte `at` on. A text of eight bytes or more is written in pieces of a fixed size. The last piece ends where the text
// ends, so pieces can overlap and write some bytes twice. Their number is the same for all lengths in a range up to 96, and needs no branch on
// the length. One `copy_from_slice` for every length does branch on it: a block was then written up to 1.8 times as slowly. It also calls the C
// library's `memmove`, which the static libraries for C would then need.
pub fn put_part(m: &mut [u8], at: usize, t: &[u8])
    requires { at + length t.now ≤ length m.old }
    ensures { m.new ≡ pasted m.old at t.now }
{
    let n = t.len();
    if n < 8 {
        put_few(m, at, t);
    } else if n < 32 {
        put_piece::<8>(m, at, t, 0);
        put_piece::<8>(m, at, t, (n - 8).min(8));
        put_piece::<8>(m, at, t, (n - 8).min(16));
        put_piece::<8>(m, at, t, n - 8);
    } else if n <= 96 {
        put_piece::<32>(m, at, t, 0);
        put_piece::<32>(m, at, t, (n - 32).min(32));
        put_piece::<32>(m, at, t, n - 32);
    } else {
        put_longest(m, at, t);
    }
}

// Copies n bytes of m to a place in m that does not overlap them. (`copy_within` calls the C library's `memmove`.)
pub fn move_part(m: &mut [u8], from: usize, to: usize, n: usize)
    requires { (from + n ≤ length m.old) × (to + n ≤ length m.old) × Apart from n to n }
    ensures { m.new ≡ pasted m.old to (part m.old from n) }
{
    if from < to {
        let (front, back) = m.split_at_mut(to);
        put_part(back, 0, &front[from..from + n]);
    } else {
        let (front, back) = m.split_at_mut(from);
        put_part(front, to, &back[..n]);
    }
}

// Writes 0 into the n words from word i on.
pub fn zero_words(m: &mut [u8], i: usize, n: usize)
    requires { 4 * (i + n) ≤ length m.old }
    ensures { m.new ≡ pasted m.old (4 * i) (replicate (4 * n) 0) }
{
    m[4 * i..4 * (i + n)].fill(0);
}
