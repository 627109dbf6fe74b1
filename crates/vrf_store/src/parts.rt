// The numbers of the header, and the parts of a lent memory.
ghost use Rattle.std.specs.Prelude.{◌≡◌, ◌+◌, ◌*◌, ◌^◌, ◌<◌, ◌≤◌, length};
ghost use Rattle.vrf_store.specs.Layout;
ghost use Rattle.vrf_store.specs.Store.{allowances_of, header_of, store_of, words, half_at};
ghost use Rattle.vrf_store.specs.Inner.WellFormed.{Enough};

use vrf_words::get32;

// The five allowances: words 0 to 4 of the header. One function each: one over an enum would need its arms in code and definition both.
// (`Counter` is an enum, because one function steps any counter; an allowance is read by callers that need its own field in the contract.)
pub fn guids_allowed(m: &[u8]) -> usize
    requires { 128 ≤ length m.now }
    ensures { (result ≡ (allowances_of m.now).guids) × (result < 2 ^ 32) }
{
    get32(m, 0) as usize
}

pub fn groups_allowed(m: &[u8]) -> usize
    requires { 128 ≤ length m.now }
    ensures { (result ≡ (allowances_of m.now).groups) × (result < 2 ^ 32) }
{
    get32(m, 1) as usize
}

pub fn fields_allowed(m: &[u8]) -> usize
    requires { 128 ≤ length m.now }
    ensures { (result ≡ (allowances_of m.now).fields) × (result < 2 ^ 32) }
{
    get32(m, 2) as usize
}

pub fn text_allowed(m: &[u8]) -> usize
    requires { 128 ≤ length m.now }
    ensures { (result ≡ (allowances_of m.now).text) × (result < 2 ^ 32) }
{
    get32(m, 3) as usize
}

pub fn literals_allowed(m: &[u8]) -> usize
    requires { 128 ≤ length m.now }
    ensures { (result ≡ (allowances_of m.now).literals) × (result < 2 ^ 32) }
{
    get32(m, 4) as usize
}

// Counts and totals: words 5 to 10 of the header. One function each, so that each contract names its field of the header.
pub fn guids(m: &[u8]) -> u32
    requires { 128 ≤ length m.now }
    ensures { result ≡ (header_of m.now).guids }
{
    get32(m, 5)
}

pub fn groups(m: &[u8]) -> u32
    requires { 128 ≤ length m.now }
    ensures { result ≡ (header_of m.now).groups }
{
    get32(m, 6)
}

pub fn fields(m: &[u8]) -> u32
    requires { 128 ≤ length m.now }
    ensures { result ≡ (header_of m.now).fields }
{
    get32(m, 7)
}

pub fn held(m: &[u8]) -> u32
    requires { 128 ≤ length m.now }
    ensures { result ≡ (header_of m.now).held }
{
    get32(m, 8)
}

pub fn used(m: &[u8]) -> u32
    requires { 128 ≤ length m.now }
    ensures { result ≡ (header_of m.now).used }
{
    get32(m, 9)
}

// Which half of the texts is in use stays the header's word, 0 or 1: an enum would be made of it and matched at once.
pub fn half(m: &[u8]) -> u32
    requires { 128 ≤ length m.now }
    ensures { result ≡ (header_of m.now).half }
{
    get32(m, 10)
}

// The n words from word i on.
fn words(m: &[u8], i: usize, n: usize) -> &[u8]
    requires { 4 * i + 4 * n ≤ length m.now }
    ensures { result.now ≡ words m.now i n }
{
    let from = 4 * i;
    let to = from + 4 * n;
    &m[from..to]
}

// The tables and the indexes. One function each: one over an enum of parts would put a list of all parts between a contract and its field.
pub fn guid_rows(m: &[u8]) -> &[u8]
    requires { Enough m.now }
    ensures { result.now ≡ (store_of m.now).guid_rows }
{
    let g = guids_allowed(m);
    words(m, 32, 6 * g)
}

pub fn guid_heads(m: &[u8]) -> &[u8]
    requires { Enough m.now }
    ensures { result.now ≡ (store_of m.now).guid_heads }
{
    let g = guids_allowed(m);
    words(m, 32 + 6 * g, 4 * g + 1)
}

pub fn group_rows(m: &[u8]) -> &[u8]
    requires { Enough m.now }
    ensures { result.now ≡ (store_of m.now).group_rows }
{
    let g = guids_allowed(m);
    let r = groups_allowed(m);
    words(m, 33 + 10 * g, 6 * r)
}

pub fn group_heads(m: &[u8]) -> &[u8]
    requires { Enough m.now }
    ensures { result.now ≡ (store_of m.now).group_heads }
{
    let g = guids_allowed(m);
    let r = groups_allowed(m);
    words(m, 33 + 10 * g + 6 * r, r + 1)
}

pub fn path_links(m: &[u8]) -> &[u8]
    requires { Enough m.now }
    ensures { result.now ≡ (store_of m.now).path_links }
{
    let g = guids_allowed(m);
    let r = groups_allowed(m);
    words(m, 34 + 10 * g + 7 * r, 3 * r)
}

pub fn path_heads(m: &[u8]) -> &[u8]
    requires { Enough m.now }
    ensures { result.now ≡ (store_of m.now).path_heads }
{
    let g = guids_allowed(m);
    let r = groups_allowed(m);
    words(m, 34 + 10 * g + 10 * r, 3 * r + 1)
}

pub fn leaf_links(m: &[u8]) -> &[u8]
    requires { Enough m.now }
    ensures { result.now ≡ (store_of m.now).leaf_links }
{
    let g = guids_allowed(m);
    let r = groups_allowed(m);
    words(m, 35 + 10 * g + 13 * r, r)
}

pub fn leaf_heads(m: &[u8]) -> &[u8]
    requires { Enough m.now }
    ensures { result.now ≡ (store_of m.now).leaf_heads }
{
    let g = guids_allowed(m);
    let r = groups_allowed(m);
    words(m, 35 + 10 * g + 14 * r, 2 * r + 1)
}

pub fn field_rows(m: &[u8]) -> &[u8]
    requires { Enough m.now }
    ensures { result.now ≡ (store_of m.now).field_rows }
{
    let g = guids_allowed(m);
    let r = groups_allowed(m);
    let f = fields_allowed(m);
    words(m, 36 + 10 * g + 16 * r, 6 * f)
}

pub fn field_heads(m: &[u8]) -> &[u8]
    requires { Enough m.now }
    ensures { result.now ≡ (store_of m.now).field_heads }
{
    let g = guids_allowed(m);
    let r = groups_allowed(m);
    let f = fields_allowed(m);
    words(m, 36 + 10 * g + 16 * r + 6 * f, 4 * f + 1)
}

// The first word of the literals.
pub fn literals_at(m: &[u8]) -> usize
    requires { Enough m.now }
    ensures { result ≡ Layout.literals_at (allowances_of m.now) }
{
    let g = guids_allowed(m);
    let r = groups_allowed(m);
    let f = fields_allowed(m);
    37 + 10 * g + 16 * r + 10 * f
}

pub fn literals(m: &[u8]) -> &[u8]
    requires { Enough m.now }
    ensures { result.now ≡ (store_of m.now).literals }
{
    let at = literals_at(m);
    words(m, at, literals_allowed(m))
}

// The first byte of the texts, which have two halves.
fn texts_at(m: &[u8]) -> usize
    requires { Enough m.now }
    ensures { result ≡ Layout.texts_at (allowances_of m.now) }
{
    let at = literals_at(m);
    4 * (at + literals_allowed(m))
}

// The first byte of the half in use.
pub fn half_at(m: &[u8]) -> usize
    requires { Enough m.now }
    ensures { result ≡ half_at (allowances_of m.now) (header_of m.now).half }
{
    let at = texts_at(m);
    if half(m) == 0 {
        return at;
    }
    at + text_allowed(m)
}

// The half of the texts that is in use.
pub fn texts(m: &[u8]) -> &[u8]
    requires { Enough m.now }
    ensures { result.now ≡ (store_of m.now).texts }
{
    let from = half_at(m);
    let to = from + text_allowed(m);
    &m[from..to]
}
