// Finds a row of a table by its key, and a group by a key of its path or by its leaf. That a text has fewer than 2^31 or 2^32 bytes is a clause: as
// a type it would be made of a part of a path, or of a buffer, for one call.
#![tactic(auto)]

pub mod spell;

ghost use Rattle.std.specs.Prelude.{◌≡◌, ℕ, ◌+◌, ◌*◌, ◌/◌, ◌^◌, ◌<◌, ◌≤◌, Bool, ◌++◌, length, drop, slice_index};
ghost use Rattle.vrf_path.specs.Text.{four, eight, same};
ghost use Rattle.vrf_path.specs.Keys.{key_is};
ghost use Rattle.vrf_path.specs.Leaf.{leaf};
ghost use Rattle.vrf_path.specs.Inner.Leaf.{Dotless};
ghost use Rattle.vrf_table.specs.Chain.{walk};
ghost use Rattle.vrf_table.specs.Table.{at, len, text, bucket, key_hash, key_bucket};
ghost use Rattle.vrf_table.specs.TextIndex.{turn, four_turns, last_turns, text_hash, mixed, text_bucket, key_numbered, path_hit, leaf_hit};
ghost use Rattle.vrf_table.specs.Inner.Table.{set_key, set_text};
ghost use Rattle.vrf_table.specs.Inner.TextIndex.{leaf_bucket};
ghost use Rattle.vrf_table.specs.Inner.Answers.{entry, claim, Gives, Suffixed, RowTexts};

use vrf_path::{core_alias, default_object_alias, is_key, leaf_base, same};
use vrf_words::{get32, get64, put32, put64};

// Which entry has a key: none, several, or only this one.
#[derive(Clone, Copy, Debug, PartialEq, Eq)]
pub enum Claim {
    Absent,
    Ambiguous,
    Only(u32),
}

// The rows of a table, and the heads of its index by key (docs/LAYOUT.md, Indexes).
#[derive(Clone, Copy)]
pub struct KeyIndex<'a> {
    pub rows: &'a [u8],
    pub heads: &'a [u8],
    pub buckets: u32,
    pub count: u32,
    ghost rows_in: { 24 * count ≤ length rows.now },
    ghost heads_in: { 4 * buckets ≤ length heads.now },
    ghost some: { 0 < buckets },
}

// The rows of the first `count` groups, and the memory of the texts that they point to.
#[derive(Clone, Copy)]
pub struct GroupRows<'a> {
    pub rows: &'a [u8],
    pub texts: &'a [u8],
    pub count: u32,
    ghost rows_in: { 24 * count ≤ length rows.now },
    ghost texts_in: { RowTexts rows.now texts.now count },
    ghost few: { count ≤ 100000 },
}

// Groups, and the index that finds them by the keys of their paths. It has three entries for each group.
#[derive(Clone, Copy)]
pub struct PathIndex<'a> {
    pub groups: GroupRows<'a>,
    pub links: &'a [u8],
    pub heads: &'a [u8],
    pub buckets: u32,
    ghost links_in: { 12 * groups.count ≤ length links.now },
    ghost heads_in: { 4 * buckets ≤ length heads.now },
    ghost some: { 0 < buckets },
}

// Groups, and the links of the index that finds them by their leaves. It has one entry for each group.
#[derive(Clone, Copy)]
pub struct LeafChains<'a> {
    pub groups: GroupRows<'a>,
    pub links: &'a [u8],
    ghost links_in: { 4 * groups.count ≤ length links.now },
}

// The index by leaf with its heads.
#[derive(Clone, Copy)]
pub struct LeafIndex<'a> {
    pub chains: LeafChains<'a>,
    pub heads: &'a [u8],
    pub buckets: u32,
    ghost heads_in: { 4 * buckets ≤ length heads.now },
    ghost some: { 0 < buckets },
}

// The bucket of a hash, out of b buckets.
fn bucket_of(hash: u64, b: u32) -> u32
    requires { hash < 2 ^ 32 }
    ensures { result ≡ bucket b hash }
{
    (hash * (b as u64) / 0x1_0000_0000) as u32
}

fn key_hash(k: u64) -> u64
    ensures { (result ≡ key_hash k) × (result < 2 ^ 32) }
{
    let low = k % 0x1_0000_0000;
    let high = k / 0x1_0000_0000;
    (low * 2654435761 + high * 40503) % 0x1_0000_0000
}

// The bucket of a key, out of b buckets.
pub fn key_bucket(k: u64, b: u32) -> u32
    ensures { result ≡ key_bucket b k }
{
    if b < 4096 {
        return bucket_of(key_hash(k), b);
    }
    bucket_of(key_hash(k / 64), b - 63) + (k % 64) as u32
}

// The newest entry below n that passes the test, in the chain that starts at pointer p. No `for`: only the links give the next entry.
// (`successors` is no plainer: its state would be this pair, since the limit falls with each entry and the chain ends at the first link that
// is not below it; and the test of an entry would stand apart from it in a `find`.)
fn walk<Hit: Fn(u32) -> bool, Link: Fn(u32) -> u32>(
    p: u32,
    n: u32,
    hit: Hit,
    link: Link,
) -> Option<u32>
    requires hit_in { (e : ℕ) → e < n → Hit.pre hit e }
    requires link_in { (e : ℕ) → e < n → Link.pre link e }
    ensures { (test : ℕ → Bool) (next : ℕ → ℕ) → Gives (Hit.post hit) test n → Gives (Link.post link) next n → entry result ≡ walk test next n p }
{
    let mut p = p;
    let mut limit = n;
    while 0 < p && p <= limit {
        let e = p - 1;
        if hit(e) {
            return Some(e);
        }
        limit = e;
        p = link(e);
    }
    None
}

impl KeyIndex<'_> {
    ghost use Rattle.vrf_table.specs.Inner.Found.{row_found};

    // The newest row with the key k.
    pub fn find(self, k: u64) -> Option<u32>
        ensures { entry result ≡ row_found self.entry k }
    {
        let rows = self.rows;
        let p = get32(self.heads, key_bucket(k, self.buckets) as usize);
        walk(
            p,
            self.count,
            |e| get64(rows, 6 * (e as usize)) == k,
            |e| get32(rows, 6 * (e as usize) + 2),
        )
    }
}

// Writes the key and the link of row e. (That row e is inside is a clause here and below, as `rows` of `vrf_store` says.)
pub fn put_key(rows: &mut [u8], e: u32, k: u64, link: u32)
    requires { 24 * e + 24 ≤ length rows.old }
    ensures { rows.new ≡ set_key rows.old e k link }
{
    let row = 6 * (e as usize);
    put64(rows, row, k);
    put32(rows, row + 2, link);
}

// Where a text is in the half in use, and its length.
#[derive(Clone, Copy, Debug, PartialEq, Eq)]
pub struct TextSpan {
    pub at: u32,
    pub len: u32,
}

// Writes where the text of row e is, and the row's number.
pub fn put_text(rows: &mut [u8], e: u32, span: TextSpan, info: u32)
    requires { 24 * e + 24 ≤ length rows.old }
    ensures { rows.new ≡ set_text rows.old e span.at span.len info }
{
    let row = 6 * (e as usize);
    put32(rows, row + 3, span.at);
    put32(rows, row + 4, span.len);
    put32(rows, row + 5, info);
}

// The text of row e, where x is the memory of the texts.
pub fn row_text<'a>(rows: &[u8], x: &'a [u8], e: u32) -> &'a [u8]
    requires { (24 * e + 24 ≤ length rows.now) × (at rows.now e + len rows.now e ≤ length x.now) }
    ensures { result.now ≡ text rows.now x.now e }
{
    let row = 6 * (e as usize);
    let from = get32(rows, row + 3) as usize;
    let to = from + (get32(rows, row + 4) as usize);
    &x[from..to]
}

// Byte i as a number, 0 past the end. (`vrf_bitio` has its own: a public one would be one more promise of an exported crate.)
fn byte_at(t: &[u8], i: usize) -> u64
    ensures { (result ≡ slice_index t.now i) × (result < 256) }
{
    t.get(i).map_or(0, |b| u64::from(*b))
}

// The four bytes from i on as one number. A byte past the end counts as 0. (`vrf_bitio::bits_at(t, 0, 64)` is the whole word of a short
// text, but it loops over the bytes, where this has a test for each and no loop. `from_le_bytes` takes exactly four bytes, so the missing ones
// would have to be filled in first.)
fn four_or_zeros(t: &[u8], i: usize) -> u64
    requires { i ≤ 4 }
    ensures { (result ≡ four t.now i) × (result < 2 ^ 32) }
{
    byte_at(t, i)
        + 0x100 * byte_at(t, i + 1)
        + 0x1_0000 * byte_at(t, i + 2)
        + 0x100_0000 * byte_at(t, i + 3)
}

// The eight bytes from i on as one number. The compiler makes this one load. (docs/DECISIONS.md, decision 52: it has its own.)
fn eight(t: &[u8], i: usize) -> u64
    requires { i + 8 ≤ length t.now }
    ensures { result ≡ eight t.now i }
{
    get64(&t[i..], 0)
}

// Adds eight bytes of a text, as the number w, to its hash h.
fn turn(h: u64, w: u64) -> u64
    ensures { result ≡ turn h w }
{
    let low = (w % 0x1_0000_0000 + 2654435761) % 0x1_0000_0000;
    let high = (w / 0x1_0000_0000 + 2246822519) % 0x1_0000_0000;
    h.wrapping_add(low * high)
}

// The hash of a text shorter than eight bytes.
fn short_hash(t: &[u8]) -> u64
    requires { length t.now < 8 }
    ensures { result ≡ text_hash t.now }
{
    let w = four_or_zeros(t, 0) + 0x1_0000_0000 * four_or_zeros(t, 4);
    turn(turn(turn(turn(t.len() as u64, w), w), w), w)
}

// Adds the 32 bytes from i on to the hash h.
fn four_turns(h: u64, t: &[u8], i: usize) -> u64
    requires { i + 32 ≤ length t.now }
    ensures { result ≡ four_turns h t.now i (i + 8) (i + 16) (i + 24) }
{
    let first = turn(h, eight(t, i));
    let second = turn(first, eight(t, i + 8));
    let third = turn(second, eight(t, i + 16));
    turn(third, eight(t, i + 24))
}

// Adds the last 32 bytes of a text to the hash h. In a text of fewer than 32 bytes the four words overlap.
fn last_turns(h: u64, t: &[u8]) -> u64
    requires { 8 ≤ length t.now }
    ensures { result ≡ last_turns h t.now }
{
    let n = t.len();
    let first = turn(h, eight(t, n.saturating_sub(32)));
    let second = turn(first, eight(t, n.saturating_sub(24)));
    let third = turn(second, eight(t, n.saturating_sub(16)));
    turn(third, eight(t, n - 8))
}

// The hash of a text of eight bytes or more: 32 bytes in each turn, and then the last 32 bytes.
fn long_hash(t: &[u8]) -> u64
    requires { (8 ≤ length t.now) × (length t.now < 2 ^ 32) }
    ensures { result ≡ text_hash t.now }
{
    let mut h = t.len() as u64;
    for i in 0..(t.len() - 1) / 32 {
        h = four_turns(h, t, 32 * i);
    }
    last_turns(h, t)
}

fn text_hash(t: &[u8]) -> u64
    requires { length t.now < 2 ^ 32 }
    ensures { result ≡ text_hash t.now }
{
    if t.len() < 8 {
        return short_hash(t);
    }
    long_hash(t)
}

// 32 bits of a hash that depend on both its halves.
fn mix(hash: u64) -> u64
    ensures { (result ≡ mixed hash) × (result < 2 ^ 32) }
{
    let low = hash % 0x1_0000_0000;
    let high = hash / 0x1_0000_0000;
    (low + high) % 0x1_0000_0000
}

// The bucket of a text, out of b buckets.
pub fn text_bucket(t: &[u8], b: u32) -> u32
    requires { length t.now < 2 ^ 32 }
    ensures { result ≡ text_bucket b t.now }
{
    bucket_of(mix(text_hash(t)), b)
}

// Whether the path's key with this number is k: 0 is the path, 1 the default alias, 2 the core alias. The number is e % 3 of an entry e, and an
// enum of the three would be made of it here and matched at once. A core alias is 6 bytes longer or shorter than the path. Most texts have
// another length, and then the path is not searched.
fn key_is(path: &[u8], number: u32, k: &[u8]) -> bool
    ensures { result ≡ key_is (key_numbered path.now number) k.now }
{
    match number {
        0 => same(path, k),
        1 => is_key(path, default_object_alias(path), k),
        _ => {
            (k.len() + 6 == path.len() || path.len() + 6 == k.len())
                && is_key(path, core_alias(path), k)
        }
    }
}

impl<'a> GroupRows<'a> {
    // The path of group g.
    pub fn path(&self, g: u32) -> &'a [u8]
        requires { g < self.now.count }
        ensures { result.now ≡ text self.now.rows.now self.now.texts.now g }
    {
        row_text(self.rows, self.texts, g)
    }

    // Whether entry e is the key k. Entry e is key e % 3 of group e / 3.
    fn path_hit(&self, e: u32, k: &[u8]) -> bool
        requires { e < 3 * self.now.count }
        ensures { result ≡ path_hit self.now.rows.now self.now.texts.now k.now e }
    {
        key_is(self.path(e / 3), e % 3, k)
    }

    // Whether the leaf of group e is the name followed by the suffix.
    fn leaf_hit(&self, e: u32, name: &[u8], suffix: &[u8]) -> bool
        requires { Suffixed name.now suffix.now × (e < self.now.count) }
        ensures { result ≡ leaf_hit self.now.rows.now self.now.texts.now (name.now ++ suffix.now) e }
    {
        leaf_is(self.path(e), name, suffix)
    }
}

impl PathIndex<'_> {
    ghost use Rattle.vrf_table.specs.Inner.Found.{path_found};

    // The newest entry that is the key k.
    pub fn find(&self, k: &[u8]) -> Option<u32>
        requires { length k.now < 2 ^ 31 }
        ensures { entry result ≡ path_found self.now k.now }
    {
        let p = get32(self.heads, text_bucket(&k[..], self.buckets) as usize);
        walk(
            p,
            3 * self.groups.count,
            |e| self.groups.path_hit(e, k),
            |e| get32(self.links, e as usize),
        )
    }
}

// The bucket of a leaf, out of b buckets. It is the bucket of the leaf's base, so that all the leaves tried for a name are in one chain.
pub fn leaf_bucket(l: &[u8], b: u32) -> u32
    requires { length l.now < 2 ^ 32 }
    ensures { result ≡ leaf_bucket b l.now }
{
    let n = leaf_base(l);
    text_bucket(&l[..n], b)
}

// Whether a path ends with the name and the suffix, which would start at place `from`.
fn ends_with_name(path: &[u8], from: usize, name: &[u8], suffix: &[u8]) -> bool
    requires { from + length name.now + length suffix.now ≡ length path.now }
    ensures { result ≡ same (drop from path.now) (name.now ++ suffix.now) }
{
    let following = from + name.len();
    same(&path[following..], suffix) && same(&path[from..following], name)
}

// Whether a path's leaf is the name followed by the suffix. Neither has a dot, so this holds if the path ends with a dot, the name and the
// suffix.
fn leaf_is(path: &[u8], name: &[u8], suffix: &[u8]) -> bool
    requires { Suffixed name.now suffix.now }
    ensures { result ≡ key_is (leaf path.now) (name.now ++ suffix.now) }
{
    let n = name.len() + suffix.len();
    if n == 0 {
        return false;
    }
    if path.len() <= n {
        return false;
    }
    let from = path.len() - n;
    if path[from - 1] != b'.' {
        return false;
    }
    ends_with_name(path, from, name, suffix)
}

// A leaf's bucket and its claim.
#[derive(Clone, Copy)]
pub struct Claimed {
    pub bucket: u32,
    pub claim: Claim,
}

impl LeafChains<'_> {
    ghost use Rattle.vrf_table.specs.Inner.Found.{leaf_found, claim_found, first_found};

    // The newest group below n with that leaf, in the chain that starts at pointer p.
    fn find(&self, n: u32, p: u32, name: &[u8], suffix: &[u8]) -> Option<u32>
        requires { Suffixed name.now suffix.now × (n ≤ self.now.groups.count) }
        ensures { entry result ≡ leaf_found self.now n p (name.now ++ suffix.now) }
    {
        let groups = self.groups;
        let links = self.links;
        walk(
            p,
            n,
            |e| groups.leaf_hit(e, name, suffix),
            |e| get32(links, e as usize),
        )
    }

    // The claim of that leaf, found in the chain that starts at pointer p.
    fn claim(&self, p: u32, name: &[u8], suffix: &[u8]) -> Claim
        requires { Suffixed name.now suffix.now }
        ensures { claim result ≡ claim_found self.now p (name.now ++ suffix.now) }
    {
        match self.find(self.groups.count, p, name, suffix) {
            None => Claim::Absent,
            Some(e) => match self.find(e, get32(self.links, e as usize), name, suffix) {
                None => Claim::Only(e),
                Some(_) => Claim::Ambiguous,
            },
        }
    }

    // The first claim that is not absent, for the name with three suffixes. The chain of the first leaf starts at p, that of the others at q.
    // (Three parameters: `vrf_cache` gives three constants at each of two calls, so a struct of them would be made only to be taken apart here.)
    pub fn first_claim(&self, p: u32, q: u32, name: &[u8], s: &[u8], t: &[u8], u: &[u8]) -> Claim
        requires { Suffixed name.now s.now × Suffixed name.now t.now × Suffixed name.now u.now }
        ensures { claim result ≡ first_found self.now p q (name.now ++ s.now) (name.now ++ t.now) (name.now ++ u.now) }
    {
        match self.claim(p, name, s) {
            Claim::Absent => match self.claim(q, name, t) {
                Claim::Absent => self.claim(q, name, u),
                second => second,
            },
            first => first,
        }
    }
}

impl LeafIndex<'_> {
    ghost use Rattle.vrf_table.specs.Inner.Found.{claim_in};

    // The claim of leaf l, and the bucket in which it was looked up. The caller that adds a group needs both.
    pub fn claim(&self, l: &[u8]) -> Claimed
        requires { Dotless l.now × (length l.now < 2 ^ 31) }
        ensures { (result.bucket ≡ leaf_bucket self.now.buckets l.now) × (claim result.claim ≡ claim_in self.now l.now) }
    {
        let bucket = leaf_bucket(l, self.buckets);
        let p = get32(self.heads, bucket as usize);
        Claimed {
            bucket: bucket,
            claim: self.chains.claim(p, l, b""),
        }
    }
}
