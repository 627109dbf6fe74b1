// Path keys, leaves and stems of document 01. The function names are those of path.rs and resolve.rs.
#![tactic(auto)]

ghost use Rattle.std.specs.Prelude.{◌≡◌, true, ◌||◌, ◌+◌, ◌-◌, ◌<◌, ◌≤◌, length, get_or, drop, Some, None};
ghost use Rattle.std.specs.Iterator.{YieldsFirstRef, item_count};
ghost use Rattle.vrf_path.specs.Text.{same, eight, starts_with, ends_with, first_from, last_below};
ghost use Rattle.vrf_path.specs.Keys.{is_separator, has_separator, default_alias, core_alias, has_key, key_is};
ghost use Rattle.vrf_path.specs.Stems.{digits_from, digit_stems, capital_stems, stems};
ghost use Rattle.vrf_path.specs.Base.{cut_at, class_base, leaf_base};
ghost use Rattle.vrf_path.specs.Answers.{Front, spelled, default_key, core_key, KeyAnswer, key_bytes, bytes_if_any, LeafAnswer, ToggleAnswer, stem_length, stems_after, stems_since, StemAnswer};
ghost use Rattle.vrf_path.specs.Inner.Text.{place, Differ};

// One of a path's keys, as the recipe that makes it from the bytes of the path. So a key is compared and hashed without being built.
#[derive(Clone, Copy, Debug, PartialEq, Eq)]
pub enum Key {
    // The path itself.
    Itself,
    // Without the leading `Default__`.
    Stripped,
    // With `Default__` before it.
    Prefixed,
    // With `/` for the `/_Core/` at this place.
    Cut(usize),
    // With `/Game/Characters/_Core/` for the leading `/Game/Characters/`.
    Inserted,
}

// A key's `_ClassNetCache` toggle: its first n bytes, or the key with the suffix appended.
#[derive(Clone, Copy, Debug, PartialEq, Eq)]
pub enum Toggle {
    Stripped(usize),
    Appended,
}

// The rule that made a stem: cut at `_`, without the trailing digits, or also without a capital.
#[derive(Clone, Copy, Debug, PartialEq, Eq)]
pub enum Phase {
    Underscore,
    Digits,
    Capital,
}

// A stem of a name: its first `len` bytes.
#[derive(Clone, Copy, Debug, PartialEq, Eq)]
pub struct Stem {
    pub len: usize,
    pub phase: Phase,
}

// The stems of a name, in order: `first_stem`, and then `next_stem` of the stem before. A stem is looked for only when it is asked for.
#[derive(Drop)]
pub struct Stems<'a> {
    name: &'a [u8],
    // The stem that was given last. None before the first.
    last: Option<Stem>,
    ghost within: { stem_length last ≤ length name.now },
}

// The eight bytes from i on as one number, low byte first. This compiles to one load. (`vrf_bitio` has the same one, for itself: a public
// function of an exported crate may not ask for these eight bytes.)
fn eight(t: &[u8], i: usize) -> u64
    requires { i + 8 ≤ length t.now }
    ensures { result ≡ eight t.now i }
{
    u64::from_le_bytes(t[i..i + 8].try_into().unwrap())
}

// Compares two texts of one length byte by byte.
fn same_bytes(a: &[u8], b: &[u8]) -> bool
    requires { length a.now ≡ length b.now }
    ensures { result ≡ same a.now b.now }
{
    a.iter().zip(b).all(|(x, y)| *x == *y)
}

// Whether the eight bytes from i on differ in two texts.
fn eight_differ(a: &[u8], b: &[u8], i: usize) -> bool
    requires { (i + 8 ≤ length a.now) × (i + 8 ≤ length b.now) }
    ensures { Differ a.now b.now (eight a.now i ≡ eight b.now i) result }
{
    eight(a, i) != eight(b, i)
}

// Whether the 32 bytes from i on differ in two texts. All words are compared, with no branch between them.
fn four_differ(a: &[u8], b: &[u8], i: usize) -> bool
    requires { (i + 32 ≤ length a.now) × (i + 32 ≤ length b.now) }
    ensures { Differ a.now b.now (same (drop i a.now) (drop i b.now) ≡ same (drop (i + 32) a.now) (drop (i + 32) b.now)) result }
{
    eight_differ(a, b, i)
        | eight_differ(a, b, i + 8)
        | eight_differ(a, b, i + 16)
        | eight_differ(a, b, i + 24)
}

// Whether two texts of one length differ in their last 32 bytes, or in any byte if they have fewer. The four words then overlap.
fn last_differ(a: &[u8], b: &[u8]) -> bool
    requires { (length a.now ≡ length b.now) × (8 ≤ length a.now) }
    ensures { Differ a.now b.now (same (drop (length a.now - 32) a.now) (drop (length a.now - 32) b.now) ≡ true) result }
{
    let n = a.len();
    eight_differ(a, b, n - 8)
        | eight_differ(a, b, n.saturating_sub(16))
        | eight_differ(a, b, n.saturating_sub(24))
        | eight_differ(a, b, n.saturating_sub(32))
}

// Compares two texts of one length, at least eight bytes: 32 bytes in each turn, and then the last 32.
// The library's `==` takes two to five times as long where texts are equal, and `chunks_exact(32)` in this loop twice as long up to 32 bytes.
fn same_words(a: &[u8], b: &[u8]) -> bool
    requires { (length a.now ≡ length b.now) × (8 ≤ length a.now) }
    ensures { result ≡ same a.now b.now }
{
    let n = a.len();
    let mut i = 0;
    while 32 < n - i {
        if four_differ(a, b, i) {
            return false;
        }
        i += 32;
    }
    if last_differ(a, b) {
        return false;
    }
    true
}

pub fn same(a: &[u8], b: &[u8]) -> bool
    ensures { result ≡ same a.now b.now }
{
    if a.len() != b.len() {
        return false;
    }
    if a.len() < 8 {
        return same_bytes(a, b);
    }
    same_words(a, b)
}

// The library's `starts_with` and `ends_with` take more than five times as long at the prefixes and endings of this crate.
fn starts_with(text: &[u8], p: &[u8]) -> bool
    ensures { result ≡ starts_with p.now text.now }
{
    let n = p.len();
    if text.len() < n {
        return false;
    }
    same(&text[..n], p)
}

fn ends_with(text: &[u8], p: &[u8]) -> bool
    ensures { result ≡ ends_with p.now text.now }
{
    if text.len() < p.len() {
        return false;
    }
    let from = text.len() - p.len();
    same(&text[from..], p)
}

// The first place at which a text has p, which is not empty. The whole of p is compared only where its first byte is found. (`position`
// over `windows` is no plainer: its closure would hold the same test, and a text shorter than p, which has no window, would be a case apart.)
fn find(text: &[u8], p: &[u8]) -> Option<usize>
    requires { 0 < length p.now }
    ensures { place result ≡ first_from p.now 0 text.now }
{
    let first = p[0];
    for (i, b) in text.iter().enumerate() {
        if *b == first && starts_with(&text[i..], p) {
            return Some(i);
        }
    }
    None
}

// The last place below n at which a text has the byte b. `rposition` takes a third longer.
fn rfind(text: &[u8], b: u8, n: usize) -> Option<usize>
    requires { n ≤ length text.now }
    ensures { place result ≡ last_below b text.now n }
{
    for i in (0..n).rev() {
        if text[i] == b {
            return Some(i);
        }
    }
    None
}

// One of `/ . :`.
fn is_separator(b: u8) -> bool
    ensures { result ≡ is_separator b }
{
    (b == b'/') | ((b == b'.') | (b == b':'))
}

// Whether one of the four bytes from i on is a separator.
fn four_separators(t: &[u8], i: usize) -> bool
    requires { i + 4 ≤ length t.now }
    ensures { has_separator (drop i t.now) ≡ (result || has_separator (drop (i + 4) t.now)) }
{
    is_separator(t[i]) | is_separator(t[i + 1]) | is_separator(t[i + 2]) | is_separator(t[i + 3])
}

// Whether one of the eight bytes from i on is a separator. All are tested, with no branch between them: one load and a few comparisons.
fn eight_separators(t: &[u8], i: usize) -> bool
    requires { i + 8 ≤ length t.now }
    ensures { has_separator (drop i t.now) ≡ (result || has_separator (drop (i + 8) t.now)) }
{
    four_separators(t, i) | four_separators(t, i + 4)
}

// Whether a text has a separator, tested byte by byte.
fn few_separators(text: &[u8]) -> bool
    ensures { result ≡ has_separator text.now }
{
    text.iter().any(|b| is_separator(*b))
}

// Whether the last 16 bytes of a text have a separator, or any byte if there are fewer. The two words then overlap.
fn last_separators(t: &[u8]) -> bool
    requires { 8 ≤ length t.now }
    ensures { has_separator (drop (length t.now - 16) t.now) ≡ result }
{
    let n = t.len();
    eight_separators(t, n.saturating_sub(16)) | eight_separators(t, n - 8)
}

// Whether a text of at least eight bytes has a separator: 16 bytes in each turn, and then the last 16. `any`, which tests one byte in each
// turn, takes six times as long at 64 bytes, and `chunks_exact(16)` in this loop twice to three times as long.
fn many_separators(text: &[u8]) -> bool
    requires { 8 ≤ length text.now }
    ensures { result ≡ has_separator text.now }
{
    let n = text.len();
    let mut i = 0;
    while 16 < n - i {
        if eight_separators(text, i) | eight_separators(text, i + 8) {
            return true;
        }
        i += 16;
    }
    last_separators(text)
}

// Whether a text is a qualified path, not a bare name.
pub fn has_path_separator(text: &[u8]) -> bool
    ensures { result ≡ has_separator text.now }
{
    if text.len() < 8 {
        return few_separators(text);
    }
    many_separators(text)
}

// The default alias: a leading `Default__` removed, or added to a bare name.
pub fn default_object_alias(path: &[u8]) -> Option<Key>
    ensures { KeyAnswer path.now default_alias default_key result }
{
    if starts_with(path, b"Default__") {
        return Some(Key::Stripped);
    }
    if has_path_separator(path) {
        return None;
    }
    Some(Key::Prefixed)
}

// The core alias: the first `/_Core/` becomes `/`, or `_Core/` is inserted after a leading `/Game/Characters/`.
pub fn core_alias(path: &[u8]) -> Option<Key>
    ensures { KeyAnswer path.now core_alias core_key result }
{
    if let Some(i) = find(path, b"/_Core/") {
        return Some(Key::Cut(i));
    }
    if starts_with(path, b"/Game/Characters/") {
        return Some(Key::Inserted);
    }
    None
}

// n - k, or 0 if k is larger. It is one call of the library, and stays because it is public: such a function may go only into a generic one.
pub fn left(n: usize, k: usize) -> usize
    ensures { result ≡ n - k }
{
    n.saturating_sub(k)
}

// The byte at i, 0 past the end. (`vrf_bitio` and `vrf_table` have their own, which answers a wider number. A public
// one would be one more promise of an exported crate, for one line.)
fn byte_at(text: &[u8], i: usize) -> u8
    ensures { result ≡ get_or text.now i 0 }
{
    text.get(i).copied().unwrap_or(0)
}

// The byte `skip` places after i, 0 past the end.
fn byte_after(text: &[u8], i: usize, skip: usize) -> u8
    requires { skip < 32 }
    ensures { result ≡ get_or text.now (i + skip) 0 }
{
    if i < text.len() {
        return byte_at(text, i + skip);
    }
    0
}

// The number of bytes of a path's key.
fn bytes_len(path: &[u8], key: Key) -> usize
    ensures { result ≡ length (key_bytes path.now key) }
{
    let n = path.len();
    match key {
        Key::Itself => n,
        Key::Stripped => n.saturating_sub(9),
        Key::Prefixed => 9 + n,
        Key::Cut(i) => {
            if n <= i {
                return n + 1;
            }
            i + 1 + n.saturating_sub(i + 7)
        }
        Key::Inserted => 23 + n.saturating_sub(17),
    }
}

// The number of bytes of a path's key, 0 if the path has no such key.
pub fn key_len(path: &[u8], key: Option<Key>) -> usize
    ensures { result ≡ length (bytes_if_any path.now key) }
{
    match key {
        Some(key) => bytes_len(path, key),
        None => 0,
    }
}

// Byte i of a path with `/` in place of the `/_Core/` at place `at`.
fn cut_byte(path: &[u8], at: usize, i: usize) -> u8
    ensures { result ≡ get_or (key_bytes path.now (Key.Cut at)) i 0 }
{
    let n = path.len();
    if n < at {
        return if i == n { b'/' } else { byte_at(path, i) };
    }
    if i < at {
        return byte_at(path, i);
    }
    if i == at {
        return b'/';
    }
    byte_after(path, i, 6)
}

// Byte i of a path's key, 0 past its end.
fn byte_of(path: &[u8], key: Key, i: usize) -> u8
    ensures { result ≡ get_or (key_bytes path.now key) i 0 }
{
    match key {
        Key::Itself => byte_at(path, i),
        Key::Stripped => byte_after(path, i, 9),
        Key::Prefixed => {
            if i < 9 {
                return byte_at(b"Default__", i);
            }
            byte_at(path, i - 9)
        }
        Key::Cut(at) => cut_byte(path, at, i),
        Key::Inserted => {
            if i < 23 {
                return byte_at(b"/Game/Characters/_Core/", i);
            }
            byte_after(path, i - 23, 17)
        }
    }
}

// Byte i of a path's key, 0 past its end or if the path has no such key.
pub fn key_byte(path: &[u8], key: Option<Key>, i: usize) -> u8
    ensures { result ≡ get_or (bytes_if_any path.now key) i 0 }
{
    match key {
        Some(key) => byte_of(path, key, i),
        None => 0,
    }
}

// Whether the bytes of a path's key are this text. (A loop, because `has_key` takes a tenth longer with `all`.)
fn same_key(path: &[u8], key: Key, text: &[u8]) -> bool
    ensures { result ≡ same (key_bytes path.now key) text.now }
{
    if bytes_len(path, key) != text.len() {
        return false;
    }
    for (i, b) in text.iter().enumerate() {
        if byte_of(path, key, i) != *b {
            return false;
        }
    }
    true
}

// Whether the path has this key and it is this text.
pub fn is_key(path: &[u8], key: Option<Key>, text: &[u8]) -> bool
    ensures { result ≡ key_is (spelled path.now key) text.now }
{
    match key {
        Some(key) => same_key(path, key, text),
        None => false,
    }
}

// Whether a text is one of a path's keys. The core alias is 6 bytes longer or shorter than the path, so most texts need no search for it.
pub fn has_key(path: &[u8], text: &[u8]) -> bool
    ensures { result ≡ has_key path.now text.now }
{
    if same(path, text) {
        return true;
    }
    if is_key(path, default_object_alias(path), text) {
        return true;
    }
    if text.len() + 6 == path.len() {
        return is_key(path, core_alias(path), text);
    }
    if path.len() + 6 == text.len() {
        return is_key(path, core_alias(path), text);
    }
    false
}

// The place where a path's leaf starts: the non-empty text after its last dot. (A place and no slice: the function is public, and its contract
// promises the place.)
pub fn leaf_at(path: &[u8]) -> Option<usize>
    ensures { LeafAnswer path.now result }
{
    let i = rfind(path, b'.', path.len())?;
    if i + 1 < path.len() {
        return Some(i + 1);
    }
    None
}

// A key's `_ClassNetCache` toggle: the suffix removed if present, otherwise appended. A key that is only the suffix has no toggle.
pub fn toggle_class_net_cache(key: &[u8]) -> Option<Toggle>
    ensures { ToggleAnswer key.now result }
{
    if ends_with(key, b"_ClassNetCache") {
        if 14 < key.len() {
            return Some(Toggle::Stripped(key.len() - 14));
        }
        return None;
    }
    Some(Toggle::Appended)
}

// The last byte of a text, 0 if it is empty.
fn last_byte(t: &[u8]) -> u8
    ensures { result ≡ get_or t.now (length t.now - 1) 0 }
{
    t.last().copied().unwrap_or(0)
}

// The length of t without its ending p; all of t if it does not end with p.
fn cut_at(t: &[u8], p: &[u8]) -> usize
    ensures { Front (cut_at p.now t.now) t.now result }
{
    if ends_with(t, p) {
        return t.len() - p.len();
    }
    t.len()
}

// The length of a class's name without a final `Component` or `_C`: its base. The last byte decides which of them is possible.
pub fn class_base(t: &[u8]) -> usize
    ensures { Front (class_base t.now) t.now result }
{
    match last_byte(t) {
        b't' => cut_at(t, b"Component"),
        b'C' => cut_at(t, b"_C"),
        _ => t.len(),
    }
}

// The length of a leaf's base. All the leaves that a name is tried as have the name as their base. The only exception is the first leaf of
// a name that itself ends with one of these suffixes.
pub fn leaf_base(l: &[u8]) -> usize
    ensures { Front (leaf_base l.now) l.now result }
{
    if last_byte(l) == b'e' {
        let n = cut_at(l, b"_ClassNetCache");
        return class_base(&l[..n]);
    }
    class_base(l)
}

// The length of a name without its trailing digits. (A loop as in `rfind`, where `rposition` takes a third longer for the same search.)
fn digits_from(name: &[u8]) -> usize
    ensures { (result ≡ digits_from name.now (length name.now)) × (result ≤ length name.now) }
{
    for i in (0..name.len()).rev() {
        if !name[i].is_ascii_digit() {
            return i + 1;
        }
    }
    0
}

// The stem without the trailing digits, if there are some and something is left.
fn digit_stem(name: &[u8]) -> Option<Stem>
    ensures { StemAnswer name.now (digit_stems name.now (digits_from name.now (length name.now))) result }
{
    let n = digits_from(name);
    if n == 0 {
        return None;
    }
    if n < name.len() {
        return Some(Stem {
            len: n,
            phase: Phase::Digits,
        });
    }
    None
}

// The stem of n bytes without one trailing capital, if something is left.
fn capital_stem(name: &[u8], n: usize) -> Option<Stem>
    ensures { StemAnswer name.now (capital_stems name.now n) result }
{
    if n < 2 {
        return None;
    }
    if name.len() < n {
        return None;
    }
    if name[n - 1].is_ascii_uppercase() {
        return Some(Stem {
            len: n - 1,
            phase: Phase::Capital,
        });
    }
    None
}

// The stem cut at the last `_` below place n and above place 0. If there is none, the first of the stems that come after the cuts.
fn cut_stem(name: &[u8], n: usize) -> Option<Stem>
    requires { n ≤ length name.now }
    ensures { StemAnswer name.now (stems_after name.now n Phase.Underscore) result }
{
    match rfind(name, b'_', n) {
        None => digit_stem(name),
        Some(0) => digit_stem(name),
        Some(len) => Some(Stem {
            len,
            phase: Phase::Underscore,
        }),
    }
}

// The first stem of a name is the whole name.
pub fn first_stem(name: &[u8]) -> Stem
    ensures { StemAnswer name.now (stems name.now) (Some result) }
{
    Stem {
        len: name.len(),
        phase: Phase::Underscore,
    }
}

// The stem after the one of len bytes that this rule made.
pub fn next_stem(name: &[u8], len: usize, phase: Phase) -> Option<Stem>
    ensures { StemAnswer name.now (stems_after name.now len phase) result }
{
    match phase {
        Phase::Underscore => cut_stem(name, len.min(name.len())),
        Phase::Digits => capital_stem(name, len),
        Phase::Capital => None,
    }
}

impl<'a> Stems<'a> {
    pub fn new(name: &'a [u8]) -> Stems<'a>
        ensures begun { (result.name ≡ name.entry) × (result.last ≡ None) }
        ensures all { stems_since result.name.now result.last ≡ stems name.now }
    {
        Stems { name, last: None }
    }
}

impl<'a> Iterator for Stems<'a> {
    type Item = &'a [u8];

    ghost next_gives = { YieldsFirstRef (λ s. stems_since s.name.now s.last) };

    ghost remaining = { item_count (λ s. stems_since s.name.now s.last) };

    fn next(&mut self) -> Option<&'a [u8]> {
        let stem = match self.last {
            None => first_stem(self.name),
            Some(last) => next_stem(self.name, last.len, last.phase)?,
        };
        self.last = Some(stem);
        Some(&self.name[..stem.len])
    }
}
