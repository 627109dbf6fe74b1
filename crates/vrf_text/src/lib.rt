// Text: UTF-8, UTF-16 and document 01's text on the wire.
#![tactic(auto)]

ghost use Rattle.std.specs.Prelude.{◌≡◌, true, cond, ◌||◌, ◌+◌, ◌-◌, ◌*◌, ◌<◌, ◌≤◌, ◌^◌, ◌/◌, eqb, length, drop};
ghost use Rattle.vrf_bitio.specs.Bits.{bytes_of};
ghost use Rattle.vrf_bitio.specs.Reasons.{number};
ghost use Rattle.vrf_bitio.specs.Pasted.{pasted};
ghost use Rattle.vrf_bitio.specs.Answers.{read_here};
ghost use Rattle.vrf_text.specs.Utf8.{utf8, within};
ghost use Rattle.vrf_text.specs.Utf16.{utf8_of, units_to_utf8};
ghost use Rattle.vrf_text.specs.Text.{text8, text16, fstring_into, caller_text};
ghost use Rattle.vrf_text.specs.Answers.{TextAnswer, CallerAnswer};
ghost use Rattle.vrf_text.specs.Inner.Steps.{Utf8Step, Few, Clear, WordHolds, Passed, WordHolds16, MeasuredAnswer, FitsTarget, WroteText, LengthOf, TakesText, into, PutAnswer, RoomAnswer};

use vrf_bitio::{BitReader, Reason, Refusal};

// The most bytes of a text on the wire, and the most bytes of any text as UTF-8.
const WIRE_BYTES: u64 = 1_048_576;

const TEXT_BYTES: u32 = 4_096;

// The top bit of each of eight bytes, the top bit of each of the first four, and the lowest bit of each of eight.
const HIGH: u64 = 0x8080_8080_8080_8080;

const HIGH_4: u64 = 0x8080_8080;

const LOW: u64 = 0x0101_0101_0101_0101;

// A character of UTF-16 and the number of its units.
#[derive(Clone, Copy)]
struct Char {
    code: u32,
    units: usize,
    ghost scalar: { code < 0x110000 },
    ghost some: { 0 < units },
    ghost few: { units ≤ 2 },
}

// The len bytes, or units of UTF-16, from bit `at` of data on: a text on the wire that is not more than it may be.
#[derive(Clone, Copy)]
struct Span<'a> {
    data: &'a [u8],
    at: u64,
    len: usize,
    ghost near: { at < 2 ^ 33 },
    ghost short: { len ≤ 2 ^ 20 },
}

// A text's length word, decoded: no text, n bytes of UTF-8, or n units of UTF-16.
#[derive(Clone, Copy)]
enum Length {
    Empty,
    Bytes(u32),
    Units(u32),
}

// ---- UTF-8. The loops read words of eight bytes; past the end of the text a word has 0. This is safe: 0 is not a tail byte, so a cut
// character is bad, and 0 is ASCII, so a step may pass beyond the end. They are `while` loops because a step passes 1 to 32 bytes.
// `str::from_utf8` would replace only `is_utf8`: the steps stay for a text that begins inside a byte, and its contract has a definition of
// UTF-8 of its own.

fn within(b: u64, lo: u64, hi: u64) -> bool
    ensures { result ≡ within lo hi b }
{
    (lo..=hi).contains(&b)
}

fn pick(a: u64, k: u64, x: u64, y: u64) -> u64
    ensures { result ≡ cond (eqb a k) x y }
{
    if a == k { x } else { y }
}

// The number of bytes of the character at the start of the word w, if there is one.
fn char_len(w: u64) -> Option<usize>
    ensures { Utf8Step w 4 result }
{
    let a = w % 256;
    if a < 0x80 {
        return Some(1);
    }
    if a < 0xC2 {
        return None;
    }
    let second = w / 256;
    let b = second % 256;
    if a < 0xE0 {
        return if within(b, 0x80, 0xBF) { Some(2) } else { None };
    }
    let third = second / 256;
    if !within(third % 256, 0x80, 0xBF) {
        return None;
    }
    if a < 0xF0 {
        return if within(b, pick(a, 0xE0, 0xA0, 0x80), pick(a, 0xED, 0x9F, 0xBF)) {
            Some(3)
        } else {
            None
        };
    }
    if 0xF4 < a {
        return None;
    }
    if !within(third / 256 % 256, 0x80, 0xBF) {
        return None;
    }
    if within(b, pick(a, 0xF0, 0x90, 0x80), pick(a, 0xF4, 0x8F, 0xBF)) {
        Some(4)
    } else {
        None
    }
}

// The number of bytes to pass where the word w holds the next eight: eight or four if they are ASCII, otherwise one character. None is bad
// text.
fn step(w: u64) -> Option<usize>
    ensures { Utf8Step w 8 result }
{
    if w & HIGH == 0 {
        Some(8)
    } else if w & HIGH_4 == 0 {
        Some(4)
    } else {
        char_len(w)
    }
}

// Whether s has 32 bytes and bit b is 0 in each of the first 32: one test of four words.
fn clear_32(s: &[u8], b: u32) -> bool
    requires { b < 8 }
    ensures { result ≡ true → (32 ≤ length s.now) × Clear s.now b 32 }
{
    if s.len() < 32 {
        return false;
    }
    let mask = LOW << b;
    let x = vrf_bitio::bits_at(s, 0, 64) & mask;
    let y = vrf_bitio::bits_at(s, 64, 64) & mask;
    let z = vrf_bitio::bits_at(s, 128, 64) & mask;
    let w = vrf_bitio::bits_at(s, 192, 64) & mask;
    x | y | z | w == 0
}

// The number of bytes at the start of s, in blocks of 32, whose bit b is 0. (`take_while` and `count` over `chunks_exact(32)` would be no
// plainer: they count blocks, and what each block's closure tested would have to be said again of its place in s.)
fn clear_run(s: &[u8], b: u32) -> usize
    requires { b < 8 }
    ensures { (result ≤ length s.now) × Clear s.now b result }
{
    let mut i = 0;
    while i < s.len() {
        if !clear_32(&s[i..], b) {
            return i;
        }
        i += 32;
    }
    i
}

// The number of bytes to pass at the start of s: 32, eight or four bytes of ASCII, or one character. None is bad text.
fn step_in(s: &[u8]) -> Option<usize>
    ensures { Few 32 result × Passed s.now result }
{
    let k = step(vrf_bitio::bits_at(s, 0, 64))?;
    Some(if k == 8 && clear_32(s, 7) { 32 } else { k })
}

// No `for`: what a step passes, 1 to 32 bytes, is known only when it has looked.
pub fn is_utf8(t: &[u8]) -> bool
    ensures { result ≡ utf8 t.now }
{
    let mut i = clear_run(t, 7);
    while i < t.len() {
        let Some(k) = step_in(&t[i..]) else {
            return false;
        };
        i += k;
    }
    true
}

// `is_utf8` for the n bytes of s from place a on. (It stands alone because the elements of a slice that is passed are known to be bytes, and
// those of a slice in a struct are not.)
fn is_utf8_part(s: &[u8], a: usize, n: usize) -> bool
    requires { a + n ≤ length s.now }
    ensures { result ≡ utf8 (bytes_of s.now (8 * a) n) }
{
    is_utf8(&s[a..a + n])
}

// ---- UTF-16. The loops read words of two units; past the end of the text a word has 0, which is not a low surrogate. They are `while`
// loops because a character has one or two units.

impl Char {
    ghost use Rattle.vrf_text.specs.Inner.Spans.{Utf16Step};

    // The character at the start of the word w of two units. (`char::decode_utf16` is no plainer: it takes an iterator, which would have to
    // be made of these two units, and its answer does not have their number.)
    fn first(w: u64) -> Option<Char>
        ensures { Utf16Step w result }
    {
        let a = w % 0x1_0000;
        let b = w / 0x1_0000 % 0x1_0000;
        if a < 0xD800 || 0xDFFF < a {
            return Some(Char {
                code: a as u32,
                units: 1,
            });
        }
        if 0xDBFF < a || b < 0xDC00 || 0xDFFF < b {
            return None;
        }
        Some(Char {
            code: (0x1_0000 + (a % 0x400 * 0x400 + b % 0x400)) as u32,
            units: 2,
        })
    }

    // The number of its bytes as UTF-8. (`char::len_utf8` takes a `char`. Making one of the code tests again that it is no surrogate.)
    fn utf8_len(self) -> u32
        ensures { (result ≡ length (utf8_of self.code)) × (result ≤ 4) }
    {
        let u = self.code;
        if u < 0x80 {
            1
        } else if u < 0x800 {
            2
        } else if u < 0x1_0000 {
            3
        } else {
            4
        }
    }

    // Writes it as UTF-8 to out from place at on, and answers the place after it. (`char::encode_utf8` is no plainer: it takes a `char`, which
    // would be made of the code with a test, and writes to an array of four bytes, whose first ones would then be copied.)
    fn put(self, out: &mut [u8], at: usize) -> usize
        requires { at + length (utf8_of self.code) ≤ length out.old }
        ensures { (result ≡ at + length (utf8_of self.code)) × (out.new ≡ pasted out.old at (utf8_of self.code)) }
    {
        let u = self.code;
        if u < 0x80 {
            out[at] = u as u8;
            return at + 1;
        }
        if u < 0x800 {
            out[at] = (0xC0 + u / 64) as u8;
            out[at + 1] = (0x80 + u % 64) as u8;
            return at + 2;
        }
        if u < 0x1_0000 {
            out[at] = (0xE0 + u / 4096) as u8;
            out[at + 1] = (0x80 + u / 64 % 64) as u8;
            out[at + 2] = (0x80 + u % 64) as u8;
            return at + 3;
        }
        out[at] = (0xF0 + u / 262144) as u8;
        out[at + 1] = (0x80 + u / 4096 % 64) as u8;
        out[at + 2] = (0x80 + u / 64 % 64) as u8;
        out[at + 3] = (0x80 + u % 64) as u8;
        at + 4
    }
}

impl Span<'_> {
    ghost use Rattle.vrf_text.specs.Inner.Spans.{bytes_in, units_in};

    // The word of the eight bytes from place i on; bytes past the end are 0.
    fn word(self, i: usize) -> u64
        requires { i < self.len }
        ensures { WordHolds result (drop i (bytes_in self.entry)) }
    {
        let p = self.at + 8 * (i as u64);
        let left = self.len - i;
        if left < 8 {
            vrf_bitio::bits_at(self.data, p, 8 * (left as u32))
        } else {
            vrf_bitio::bits_at(self.data, p, 64)
        }
    }

    // The number of bytes to pass as ASCII, in blocks of 32. Their top bits are all at the same place of successive bytes of data, so no
    // byte has to be assembled from two.
    fn ascii(self) -> usize
        ensures { utf8 (drop result (bytes_in self.entry)) ≡ utf8 (bytes_in self.entry) }
    {
        let top = self.at + 7;
        let a = (top / 8) as usize;
        let e = a + self.len;
        if self.len < 32 || self.data.len() < e {
            return 0;
        }
        clear_run(&self.data[a..e], (top % 8) as u32)
    }

    // `is_utf8` by words that may begin inside a byte. The free `is_utf8` is not this loop at bit 0, because it takes slices whose bit
    // count does not fit 64 bits and reads each word by one load. Both loops use the same lemmas about a step, and neither is a `for`,
    // because what a step passes is known only when it has looked.
    fn is_utf8_in_words(self) -> bool
        ensures { result ≡ utf8 (bytes_in self.entry) }
    {
        let mut i = self.ascii();
        while i < self.len {
            let Some(k) = step(self.word(i)) else {
                return false;
            };
            i += k;
        }
        true
    }

    // Whether the bytes are UTF-8. If they begin at a byte of data, that part of data is tested directly.
    fn is_utf8(self) -> bool
        ensures { result ≡ utf8 (bytes_in self.entry) }
    {
        let a = (self.at / 8) as usize;
        if self.at % 8 != 0 || self.data.len() < a + self.len {
            return self.is_utf8_in_words();
        }
        is_utf8_part(self.data, a, self.len)
    }

    // The word of the two units from place i on; a missing unit is 0. (Not one function with `word`: there one to seven bytes can be left, here
    // one unit; and each contract speaks of its own list, bytes or units.)
    fn unit_word(self, i: usize) -> u64
        requires { i < self.len }
        ensures { WordHolds16 result (drop i (units_in self.entry)) }
    {
        let p = self.at + 16 * (i as u64);
        if self.len - i == 1 {
            vrf_bitio::bits_at(self.data, p, 16)
        } else {
            vrf_bitio::bits_at(self.data, p, 32)
        }
    }

    // The length of the units as UTF-8, if they are UTF-16. No `for`, here and below: a character has one or two units. An iterator of
    // characters would be no plainer: its state would be this place i, and its contract would say what the loop's invariant says.
    fn utf8_len(self) -> Option<u32>
        ensures { MeasuredAnswer (units_to_utf8 (units_in self.entry)) result }
    {
        let mut i: usize = 0;
        let mut len: u32 = 0;
        while i < self.len {
            let c = Char::first(self.unit_word(i))?;
            len += c.utf8_len();
            i += c.units;
        }
        Some(len)
    }

    // Writes the UTF-8 of the units, which `utf8_len` has measured, into the first bytes of out.
    fn put_utf8(self, out: &mut [u8])
        requires { FitsTarget (units_to_utf8 (units_in self)) (length out.old) }
        ensures { WroteText (units_to_utf8 (units_in self.entry)) out.old out.new }
    {
        let mut i: usize = 0;
        let mut at: usize = 0;
        while i < self.len {
            let c = Char::first(self.unit_word(i)).unwrap();
            at = c.put(out, at);
            i += c.units;
        }
    }
}

// ---- a text on the wire. It is first tested in the slice, so that a refused text leaves the target unchanged, and then copied.

// Decodes a text's length word. A number below 0 is negated.
fn length_of(n: i32) -> Length
    ensures { LengthOf n result }
{
    if n < 0 {
        return Length::Units(n.unsigned_abs());
    }
    if n == 0 {
        return Length::Empty;
    }
    Length::Bytes(n.unsigned_abs())
}

// The refusal of the bad text at start.
fn bad_text(start: u32) -> Refusal
    ensures { (number result.reason ≡ 14) × (result.a ≡ start) × (result.b ≡ 0) }
{
    Refusal {
        reason: Reason::BadText,
        a: start as u64,
        b: 0,
    }
}

// Whether a text of n bytes may be put into a target of `space` bytes. 41: more than any text may have. Then 15: more than the target has.
fn check_room(n: u32, space: usize) -> Result<(), Refusal>
    ensures { RoomAnswer n space result }
{
    if TEXT_BYTES < n {
        return Err(Refusal {
            reason: Reason::TextTooLong,
            a: n as u64,
            b: 0,
        });
    }
    if space < n as usize {
        return Err(Refusal {
            reason: Reason::Short,
            a: 8 * (n as u64),
            b: 8 * (space as u64),
        });
    }
    Ok(())
}

// The number of bytes or units of a text of n, after a last one that is 0 is dropped.
fn trimmed(last: u64, n: u32) -> u32
    requires { 0 < n }
    ensures { (result ≡ cond (eqb last 0) (n - 1) n) × (result ≤ n) }
{
    if last == 0 { n - 1 } else { n }
}

// Moves past the bits of the text at start, whose length word is w, and answers where they begin in the slice. 13: more than a text on the
// wire may have, or more than are left.
fn take_text(r: &mut BitReader<'_>, start: u32, w: u32, bits: u64) -> Result<u64, Refusal>
    ensures { TakesText r.old r.new start w bits result }
{
    if 8 * WIRE_BYTES < bits || (r.bits_remaining() as u64) < bits {
        return Err(Refusal {
            reason: Reason::TextLength,
            a: start as u64,
            b: w as u64,
        });
    }
    let at = (r.first as u64) + (r.pos as u64);
    r.pos += bits as u32;
    Ok(at)
}

// Reads the n bytes of UTF-8 of the text at start, whose length word has just been read, into the first bytes of out.
fn read_bytes(r: &mut BitReader<'_>, start: u32, n: u32, out: &mut [u8]) -> Result<u32, Refusal>
    requires { 0 < n }
    ensures { PutAnswer r.old r.new (read_here r.old (into (length out.old) (text8 start n n))) out.old out.new result }
{
    let mut from = *r;
    let at = take_text(r, start, n, 8 * (n as u64))?;
    let k = trimmed(vrf_bitio::bits_at(r.data, at + 8 * ((n - 1) as u64), 8), n);
    let text = Span {
        data: r.data,
        at,
        len: k as usize,
    };
    if !text.is_utf8() {
        return Err(bad_text(start));
    }
    check_room(k, out.len())?;
    from.copy_bits_to(out, 8 * (k as u64))?;
    Ok(k)
}

// Reads the n units of UTF-16 of the text at start, whose length word has just been read, as UTF-8 into the first bytes of out.
fn read_units(r: &mut BitReader<'_>, start: u32, n: u32, out: &mut [u8]) -> Result<u32, Refusal>
    requires { (0 < n) × (n ≤ 2 ^ 31) }
    ensures { PutAnswer r.old r.new (read_here r.old (into (length out.old) (text16 start (2 ^ 32 - n) n))) out.old out.new result }
{
    let at = take_text(
        r,
        start,
        (0x1_0000_0000 - (n as u64)) as u32,
        16 * (n as u64),
    )?;
    let k = trimmed(
        vrf_bitio::bits_at(r.data, at + 16 * ((n - 1) as u64), 16),
        n,
    );
    let text = Span {
        data: r.data,
        at,
        len: k as usize,
    };
    let Some(bytes) = text.utf8_len() else {
        return Err(bad_text(start));
    };
    check_room(bytes, out.len())?;
    text.put_utf8(out);
    Ok(bytes)
}

// Reads a text into the first bytes of out, and answers its length there.
pub fn read_fstring(r: &mut BitReader<'_>, out: &mut [u8]) -> Result<u32, Refusal>
    ensures { TextAnswer r.old r.new (read_here r.old (fstring_into (length out.old))) out.old out.new result }
{
    let start = r.pos;
    let mut at = *r;
    let len = match length_of(at.read_i32()?) {
        Length::Empty => 0,
        Length::Bytes(n) => read_bytes(&mut at, start, n, out)?,
        Length::Units(n) => read_units(&mut at, start, n, out)?,
    };
    *r = at;
    Ok(len)
}

// ---- callers' text

// The checks of a caller's text. 40: not UTF-8. Then 41: more than 4,096 bytes.
pub fn check_text(t: &[u8]) -> Result<(), Refusal>
    ensures { CallerAnswer (caller_text t.now) result }
{
    let n = t.len();
    if !is_utf8(t) {
        return Err(Refusal {
            reason: Reason::NotUtf8,
            a: 0,
            b: 0,
        });
    }
    if (TEXT_BYTES as usize) < n {
        return Err(Refusal {
            reason: Reason::TextTooLong,
            a: n as u64,
            b: 0,
        });
    }
    Ok(())
}
