// The bit reader of document 01 over byte slices. The function names are those of vrf-bitio's lib.rs.
#![tactic(auto)]

ghost use Rattle.std.specs.Prelude.{◌≡◌, cond, ◌+◌, ◌-◌, ◌*◌, ◌<◌, ◌≤◌, ◌^◌, ◌%◌, ◌/◌, min, nat_abs, length, get_or, Some};
ghost use Rattle.vrf_bitio.specs.Bits.{bits_of, packed_bits, bytes_for};
ghost use Rattle.vrf_bitio.specs.Window.{window, inner, copied};
ghost use Rattle.vrf_bitio.specs.Number.{byte, word32, int32, packed, chunks, low_bytes};
ghost use Rattle.vrf_bitio.specs.Pasted.{pasted};
ghost use Rattle.vrf_bitio.specs.Inner.Reader.{Takes, TakesBits, LastChunk};
ghost use Rattle.vrf_bitio.specs.Reasons.{number, refusal_text};
ghost use Rattle.vrf_bitio.specs.Answers.{read_here, bits_here, Answers, AnswersAs, Opens, InnerAnswer, CopiedAnswer};

use std::fmt;

// Why a call is refused: document 01's table of refusals, in its order and with its numbers (docs/REFUSALS.md).
#[derive(Clone, Copy, Debug, PartialEq, Eq)]
pub enum Reason {
    AllowanceAboveTop = 1,
    CorruptBook = 2,
    MemoryTooShort = 3,
    TooFew = 10,
    PackedRunsOn = 11,
    PackedTooLarge = 12,
    TextLength = 13,
    BadText = 14,
    Short = 15,
    Width = 16,
    UnknownPathIndex = 20,
    BadExportedFlag = 21,
    TooManySlots = 22,
    CrossedIdentity = 23,
    NegativePayloadSize = 24,
    TrailingPayload = 25,
    TooDeep = 26,
    ReservedWordSet = 30,
    CountOverflow = 31,
    BadPathKind = 32,
    PathIndexOutOfBounds = 33,
    GroupCollision = 34,
    HandleNotSlot = 35,
    FrameOffsetMismatch = 36,
    NotUtf8 = 40,
    TextTooLong = 41,
    AllowancePassed = 42,
    WindowTooLarge = 43,
    PathIsEarlierKey = 44,
    BlockTooLong = 45,
}

impl Reason {
    // The number of document 01's table.
    pub fn number(self) -> u32
        ensures { result ≡ number self }
    {
        self as u32
    }
}

// A window has at most this many bytes.
const WINDOW_BYTES: usize = 268_435_456;

// A refusal: its reason, and the two details of document 01's table.
#[derive(Clone, Copy, Debug, PartialEq, Eq)]
pub struct Refusal {
    pub reason: Reason,
    pub a: u64,
    pub b: u64,
}

impl fmt::Display for Refusal {
    ghost output = { λ r. Some (refusal_text r) };

    fn fmt<W: fmt::Write>(&self, f: &mut fmt::Formatter<W>) -> fmt::Result {
        let number = self.reason.number();
        let a = self.a;
        let b = self.b;
        write!(f, "refused {number} {a} {b}")
    }
}

// A window of a slice (first bit and bit count) and a position, counted from the window's first bit. A slice of at most 268,435,456 bytes
// has fewer than 2^32 bits, so no sum of two of these numbers wraps a u64. A refused reading moves nothing.
#[derive(Clone, Copy)]
pub struct BitReader<'a> {
    pub data: &'a [u8],
    pub first: u32,
    pub count: u32,
    pub pos: u32,
}

// The byte at i, 0 past the end. (`vrf_path` and `vrf_table` have their own: a public one would be one more promise of this exported crate.)
fn byte_or_zero(s: &[u8], i: usize) -> u64
    ensures { (result ≡ get_or s.now i 0) × (result < 256) }
{
    u64::from(s.get(i).copied().unwrap_or(0))
}

// The eight bytes from i on as a number, low byte first. This compiles to one load. (`vrf_path` and `vrf_words` have their own: a public
// function of an exported crate may not ask for these eight bytes.)
fn whole_word(s: &[u8], i: usize) -> u64
    requires { i + 8 ≤ length s.now }
    ensures { result ≡ bits_of s.now (8 * i) 64 }
{
    u64::from_le_bytes(s[i..i + 8].try_into().unwrap())
}

// The number of bytes or bits from place i to the end at n; 0 past the end. It is one call of the library, and stays because it is public
// (such a function may go only into a generic one).
pub fn left_from(n: usize, i: usize) -> usize
    ensures { result ≡ n - i }
{
    n.saturating_sub(i)
}

// `load_u64` where fewer than eight bytes are left; the missing bytes are 0. (`from_le_bytes` of an array of zeros into which these bytes
// are copied is no shorter: i can be past the end, where there is nothing to copy.)
fn load_u64_padded(s: &[u8], i: usize) -> u64
    requires { (i < 2 ^ 61) × (length s.now < i + 8) }
    ensures { result ≡ bits_of s.now (8 * i) 64 }
{
    let mut word: u64 = 0;
    for k in (i..s.len()).rev() {
        word = word * 0x100 + s[k] as u64;
    }
    word
}

// The 64 bits from byte i on; bits past the end are 0.
fn load_u64(s: &[u8], i: usize) -> u64
    requires { i < 2 ^ 61 }
    ensures { result ≡ bits_of s.now (8 * i) 64 }
{
    if i + 8 <= s.len() {
        whole_word(s, i)
    } else {
        load_u64_padded(s, i)
    }
}

// The low w bits of x, w from 1 to 64.
fn low_bits(x: u64, w: u32) -> u64
    requires { (0 < w) × (w ≤ 64) }
    ensures { result ≡ x % 2 ^ w }
{
    let k = 64 - w;
    (x << k) >> k
}

// The w bits from bit p on, w from 0 to 64. One load gives 64 bits less p's place in its byte; a wider read takes one more byte.
fn bits_within(s: &[u8], p: u64, w: u32) -> u64
    requires { w ≤ 64 }
    ensures { result ≡ bits_of s.now p w }
{
    if w == 0 {
        return 0;
    }
    let i = (p / 8) as usize;
    let off = (p % 8) as u32;
    let low = load_u64(s, i) >> off;
    let got = 64 - off;
    if w <= got {
        return low_bits(low, w);
    }
    let more = w - got;
    low + ((byte_or_zero(s, i + 8) % (1 << more)) << got)
}

// The w bits from bit p on, at most 64 of them; bits past the end are 0.
pub fn bits_at(s: &[u8], p: u64, w: u32) -> u64
    ensures { result ≡ bits_of s.now p (min w 64) }
{
    bits_within(s, p, w.min(64))
}

// Writes the eight bytes of v, low byte first, to dst from place at on. This compiles to one store.
fn put_word(dst: &mut [u8], at: usize, v: u64)
    requires { at + 8 ≤ length dst.old }
    ensures { dst.new ≡ pasted dst.old at (low_bytes 8 v) }
{
    dst[at..at + 8].copy_from_slice(&v.to_le_bytes());
}

// Writes the low t bytes of v, low byte first, to dst from place at on.
// A loop, because copies of fewer than 64 bits take longer with a `copy_from_slice` of so few bytes.
fn put_bytes(dst: &mut [u8], at: usize, v: u64, t: usize)
    requires { at + t ≤ length dst.old }
    ensures { dst.new ≡ pasted dst.old at (low_bytes t v) }
{
    let mut left = v;
    for k in 0..t {
        dst[at + k] = (left % 256) as u8;
        left /= 256;
    }
}

// The 64 bits from bit off on of the two words carry and next. The shift of next is made in two steps: off can be 0, and a single shift by
// 64 would not give 0.
fn joined(carry: u64, next: u64, off: u32) -> u64
    requires { off < 64 }
    ensures { result ≡ carry / 2 ^ off + next % 2 ^ off * 2 ^ (64 - off) }
{
    (carry >> off) + ((next << (63 - off)) << 1)
}

// Writes n bits from bit p on into the first bytes of dst, 64 at a time. Each turn uses the word loaded in the turn before and one
// new word, so it loads once.
fn copy_bits(s: &[u8], p: u64, dst: &mut [u8], n: u32)
    requires { (p < 2 ^ 33) × (bytes_for n ≤ length dst.old) }
    ensures { dst.new ≡ pasted dst.old 0 (packed_bits s.now p n (bytes_for n)) }
{
    let words = (n / 64) as usize;
    let off = (p % 8) as u32;
    let i = (p / 8) as usize;
    let mut carry = load_u64(s, i);
    for k in 0..words {
        let next = load_u64(s, i + 8 * k + 8);
        put_word(dst, 8 * k, joined(carry, next, off));
        carry = next;
    }
    let left = n % 64;
    if 0 < left {
        let last = joined(carry, load_u64(s, i + 8 * words + 8), off);
        let tail = left.div_ceil(8) as usize;
        put_bytes(dst, 8 * words, low_bits(last, left), tail);
    }
}

// The value of a packed number's first k chunks, low, with one more chunk added: the upper seven bits of b.
fn with_chunk(low: u32, b: u8, k: u32) -> u32
    requires { (k ≤ 4) × (low < 2 ^ (7 * k)) × (2 ^ (7 * k) * (b / 2) < 2 ^ 32 - low) }
    ensures { result ≡ low + 2 ^ (7 * k) * (b / 2) }
{
    low + (((b / 2) as u32) << (7 * k))
}

impl<'a> BitReader<'a> {
    // The reader of a whole slice.
    pub fn new(data: &'a [u8]) -> Result<BitReader<'a>, Refusal>
        ensures { Opens «data».entry (window «data».now 0 (8 * length «data».now)) result }
    {
        let n = data.len();
        // A longer slice is refused whatever the bit count is; n * 8 might not fit a u64, so 0 is passed.
        if WINDOW_BYTES < n {
            return BitReader::window(data, 0, 0);
        }
        BitReader::window(data, 0, (n as u64) * 8)
    }

    // The reader of the first bit_len bits of a slice.
    pub fn with_bit_len(data: &'a [u8], bit_len: u64) -> Result<BitReader<'a>, Refusal>
        ensures { Opens «data».entry (window «data».now 0 bit_len) result }
    {
        BitReader::window(data, 0, bit_len)
    }

    // The reader of the window with this first bit and bit count. An empty window past the end is not refused.
    pub fn window(data: &'a [u8], first: u64, count: u64) -> Result<BitReader<'a>, Refusal>
        ensures { Opens «data».entry (window «data».now first count) result }
    {
        let n = data.len();
        if WINDOW_BYTES < n {
            return Err(Refusal {
                reason: Reason::WindowTooLarge,
                a: 0,
                b: 0,
            });
        }
        let end = (n as u64) * 8;
        let left = end.saturating_sub(first);
        if left < count {
            return Err(Refusal {
                reason: Reason::Short,
                a: count,
                b: left,
            });
        }
        Ok(BitReader {
            data,
            first: first.min(end) as u32,
            count: count as u32,
            pos: 0,
        })
    }

    // The number of bits read so far.
    pub fn position(&self) -> u32
        ensures { result ≡ self.now.pos }
    {
        self.pos
    }

    pub fn bits_remaining(&self) -> u32
        ensures { result ≡ self.now.count - self.now.pos }
    {
        self.count.saturating_sub(self.pos)
    }

    // The bit at the position, as an index into the slice.
    fn at(&self) -> u64
        ensures { result ≡ self.now.first + self.now.pos }
    {
        self.first as u64 + self.pos as u64
    }

    // Moves past the next n bits, and answers where they begin in the slice.
    fn take(&mut self, n: u64) -> Result<u64, Refusal>
        ensures { Takes self.old self.new n result }
    {
        if u64::from(self.bits_remaining()) < n {
            return Err(Refusal {
                reason: Reason::TooFew,
                a: self.pos as u64,
                b: n,
            });
        }
        let at = self.at();
        self.pos += n as u32;
        Ok(at)
    }

    // Takes the next n bits, at most 64, as a number.
    fn take_bits(&mut self, n: u32) -> Result<u64, Refusal>
        requires { n ≤ 64 }
        ensures { TakesBits self.old self.new n result }
    {
        let at = self.take(n as u64)?;
        Ok(bits_within(self.data, at, n))
    }

    pub fn read_bit(&mut self) -> Result<bool, Refusal>
        ensures { AnswersAs (λ v. cond v 1 0) self.old self.new (bits_here self.old 1) result }
    {
        let at = self.take(1)?;
        Ok((byte_or_zero(self.data, (at / 8) as usize) >> (at % 8)) % 2 == 1)
    }

    // Reads width bits, 0 to 64, as a number.
    pub fn read_bits(&mut self, width: u32) -> Result<u64, Refusal>
        ensures { Answers self.old self.new (bits_here self.old width) result }
    {
        if 64 < width {
            return Err(Refusal {
                reason: Reason::Width,
                a: width as u64,
                b: 0,
            });
        }
        self.take_bits(width)
    }

    pub fn read_u8(&mut self) -> Result<u8, Refusal>
        ensures { Answers self.old self.new (read_here self.old byte) result }
    {
        Ok(self.take_bits(8)? as u8)
    }

    pub fn read_u32(&mut self) -> Result<u32, Refusal>
        ensures { Answers self.old self.new (read_here self.old word32) result }
    {
        Ok(self.take_bits(32)? as u32)
    }

    // Reads a word of 32 bits as a signed number.
    pub fn read_i32(&mut self) -> Result<i32, Refusal>
        ensures { Answers self.old self.new (read_here self.old int32) result }
    {
        Ok(self.read_u32()?.cast_signed())
    }

    // Reads a packed number: up to five bytes. The low bit of a byte is 1 if another follows; the upper seven bits are the next chunk.
    pub fn read_int_packed(&mut self) -> Result<u32, Refusal>
        ensures { Answers self.old self.new (read_here self.old packed) result }
    {
        let start = self.pos;
        let mut at = *self;
        let mut low: u32 = 0;
        for k in 0..4 {
            let b = at.read_u8()?;
            low = with_chunk(low, b, k);
            if b % 2 == 0 {
                *self = at;
                return Ok(low);
            }
        }
        let value = at.read_last_chunk(start, low)?;
        *self = at;
        Ok(value)
    }

    // Reads the fifth byte of a packed number that began at start. 11: a sixth byte would follow. Then 12: the value does not fit 32 bits.
    fn read_last_chunk(&mut self, start: u32, low: u32) -> Result<u32, Refusal>
        requires { low < 2 ^ 28 }
        ensures { LastChunk self.old self.new (read_here self.old (chunks start 0 (2 ^ 28) low)) result }
    {
        let b = self.read_u8()?;
        if b % 2 == 1 {
            return Err(Refusal {
                reason: Reason::PackedRunsOn,
                a: start as u64,
                b: 0,
            });
        }
        if 15 < b / 2 {
            return Err(Refusal {
                reason: Reason::PackedTooLarge,
                a: start as u64,
                b: 0,
            });
        }
        Ok(with_chunk(low, b, 4))
    }

    // The reader of the next n bits. This one is then after them.
    pub fn sub_reader(&mut self, n: u64) -> Result<BitReader<'a>, Refusal>
        ensures { InnerAnswer self.old self.new (inner self.old.«data».now self.old.first self.old.count n self.old.pos) result }
    {
        let mut outer = *self;
        let at = outer.take(n)?;
        let within = BitReader::window(self.data, at, n)?;
        *self = outer;
        Ok(within)
    }

    // Copies n bits into dst, low bits first, and zeroes the padding bits of the last byte that it writes.
    pub fn copy_bits_to(&mut self, dst: &mut [u8], n: u64) -> Result<(), Refusal>
        ensures { CopiedAnswer self.old self.new
            (copied self.old.«data».now self.old.first self.old.count (length dst.old) n self.old.pos)
            dst.old dst.new result }
    {
        let space = dst.len();
        if space < n.div_ceil(8) as usize {
            return Err(Refusal {
                reason: Reason::Short,
                a: n,
                b: 8 * (space as u64),
            });
        }
        let at = self.take(n)?;
        copy_bits(self.data, at, dst, n as u32);
        Ok(())
    }
}

// A signed number without its sign. It is one call of the library, and stays because it is public.
pub fn magnitude(n: i32) -> u32
    ensures { result ≡ nat_abs n }
{
    n.unsigned_abs()
}
