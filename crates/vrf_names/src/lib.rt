// Rendered field names of document 01: an index in decimal, or a text with a signed number. The function names are those of export.rs.
#![tactic(auto)]

ghost use Rattle.std.specs.Prelude.{◌≡◌, ◌+◌, ◌*◌, ◌≤◌, length, take};
ghost use Rattle.vrf_bitio.specs.Pasted.{pasted};
ghost use Rattle.vrf_bitio.specs.Reasons.{number};
ghost use Rattle.vrf_names.specs.Names.{decimal, suffix, rendered, rendered_into};
ghost use Rattle.vrf_names.specs.Answers.{put_into, RenderedAnswer};
ghost use Rattle.vrf_names.specs.Inner.Suffix.{suffix_text};

use vrf_bitio::{Reason, Refusal};

// The most bytes of a rendered name.
const NAME_BYTES: usize = 4_096;

// What a number adds to a name: nothing, or `_` and a number that may have a minus sign.
#[derive(Clone, Copy)]
enum Suffix {
    Empty,
    Plain(u32),
    Minus(u32),
}

// The number of decimal digits of n.
pub fn decimal_len(n: u64) -> usize
    ensures { (result ≡ length (decimal n)) × (result ≤ 20) }
{
    n.max(1).ilog10() as usize + 1
}

// Writes n in decimal to out from place at on, the last digit first. It must fit. (`write!` says which bytes it writes only for a `String`,
// and there is no heap.)
fn put_digits(n: u64, out: &mut [u8], at: usize)
    requires { at + length (decimal n) ≤ length out.old }
    ensures { out.new ≡ pasted out.old at (decimal n) }
{
    let mut rest = n;
    for i in (at..at + decimal_len(n)).rev() {
        out[i] = b'0' + (rest % 10) as u8;
        rest /= 10;
    }
}

// Writes n in decimal to out from place at on. If it does not fit, writes nothing.
pub fn put_decimal(n: u64, out: &mut [u8], at: usize)
    ensures { out.new ≡ put_into out.old at (decimal n) }
{
    let len = decimal_len(n);
    if out.len() < len {
        return;
    }
    if out.len() - len < at {
        return;
    }
    put_digits(n, out, at);
}

// The refusal of a name of len bytes for a buffer of fewer.
fn short(len: usize, space: usize) -> Refusal
    requires { (len ≤ 4096) × (space ≤ len) }
    ensures { (number result.reason ≡ 15) × (result.a ≡ 8 * len) × (result.b ≡ 8 * space) }
{
    Refusal {
        reason: Reason::Short,
        a: 8 * (len as u64),
        b: 8 * (space as u64),
    }
}

// Writes n in decimal to the first bytes of out, as the name with index n, and answers its length. Refused as in `render_fname`.
pub fn render_index(n: u32, out: &mut [u8]) -> Result<usize, Refusal>
    ensures { RenderedAnswer (rendered_into (length out.old) (decimal n)) out.old out.new result }
{
    let len = decimal_len(n as u64);
    if out.len() < len {
        return Err(short(len, out.len()));
    }
    put_digits(n as u64, out, 0);
    Ok(len)
}

// What a number adds to a name.
fn suffix_of(number: i32) -> Suffix
    ensures { suffix_text result ≡ suffix number }
{
    if number < 0 {
        return Suffix::Minus(number.unsigned_abs());
    }
    if number == 0 {
        return Suffix::Empty;
    }
    Suffix::Plain(number.unsigned_abs() - 1)
}

// The number of bytes that a suffix adds.
fn suffix_len(s: Suffix) -> usize
    ensures { (result ≡ length (suffix_text s)) × (result ≤ 22) }
{
    match s {
        Suffix::Empty => 0,
        Suffix::Plain(n) => 1 + decimal_len(n as u64),
        Suffix::Minus(n) => 2 + decimal_len(n as u64),
    }
}

// Writes a suffix to out from place at on. It must fit.
fn put_suffix(s: Suffix, out: &mut [u8], at: usize)
    requires { at + length (suffix_text s) ≤ length out.old }
    ensures { out.new ≡ pasted out.old at (suffix_text s) }
{
    match s {
        Suffix::Empty => {}
        Suffix::Plain(n) => {
            out[at] = b'_';
            put_digits(n as u64, out, at + 1);
        }
        Suffix::Minus(n) => {
            out[at] = b'_';
            out[at + 1] = b'-';
            put_digits(n as u64, out, at + 2);
        }
    }
}

// Appends a number to the base text, the first n bytes of out.
fn append_number(out: &mut [u8], n: usize, number: i32) -> Result<usize, Refusal>
    requires { n ≤ length out.old }
    ensures { RenderedAnswer (rendered_into (length out.old) (rendered (take n out.old) number)) out.old out.new result }
{
    let s = suffix_of(number);
    let len = n + suffix_len(s);
    if NAME_BYTES < len {
        return Err(Refusal {
            reason: Reason::TextTooLong,
            a: len as u64,
            b: 0,
        });
    }
    if out.len() < len {
        return Err(short(len, out.len()));
    }
    put_suffix(s, out, n);
    Ok(len)
}

// Appends a number to the base text, as the Rust does to its String, and answers the length of both. The base is the first n bytes of out,
// or all of out if it has fewer than n. 41: a name above 4,096 bytes, with its bytes. Then 15: a buffer that is too short, with the bits
// wanted and the bits it has.
pub fn render_fname(out: &mut [u8], n: usize, number: i32) -> Result<usize, Refusal>
    ensures { RenderedAnswer (rendered_into (length out.old) (rendered (take n out.old) number)) out.old out.new result }
{
    if out.len() < n {
        return append_number(out, out.len(), number);
    }
    append_number(out, n, number)
}
