// Writes numbers and texts. Each function writes at the front of the slice that it is lent, and answers how many bytes it wrote. (No writer that
// holds the buffer and the place: each contract would also say that it keeps the borrow of the buffer.)
ghost use Rattle.std.specs.Prelude.{◌+◌, ◌≤◌, length};
ghost use Rattle.vrf_bitio.specs.Number.{encode_packed, encode_word32};
ghost use Rattle.vrf_text.specs.Text.{encode_text};
ghost use Rattle.vrf_writer.specs.Inner.Prefix.{WritesPrefix};

use vrf_words::{put_part, put32};

// A word of 32 bits.
pub fn put_word(out: &mut [u8], n: u32) -> usize
    requires { 4 ≤ length out.old }
    ensures { WritesPrefix (encode_word32 n) out.old out.new result }
{
    put32(out, 0, n);
    4
}

// A packed number, in the fewest bytes. The low bit of each byte is 1 if another byte follows.
pub fn put_packed(out: &mut [u8], n: u32) -> usize
    requires { length (encode_packed n) ≤ length out.old }
    ensures { WritesPrefix (encode_packed n) out.old out.new result }
{
    let mut left = n;
    let mut at = 0;
    // `for _ in 1..packed_len(n)` would be no plainer: four comparisons before the loop would find what the loop finds at its end, and that
    // enough of the number is left for each turn would be one fact more to carry.
    while 128 <= left {
        out[at] = (2 * (left % 128) + 1) as u8;
        left /= 128;
        at += 1;
    }
    out[at] = (2 * left) as u8;
    at + 1
}

// An empty text is the word 0. Any other text is the number of bytes that follow, then the text, then a zero byte.
pub fn put_text(out: &mut [u8], t: &[u8]) -> usize
    requires { (length (encode_text t.now) ≤ length out.old) × (length t.now ≤ 4096) }
    ensures { WritesPrefix (encode_text t.now) out.old out.new result }
{
    let n = t.len();
    if n == 0 {
        return put_word(out, 0);
    }
    put_word(out, (n + 1) as u32);
    put_part(out, 4, t);
    out[4 + n] = 0;
    4 + n + 1
}
