// The answers of a run: lines of text in a lent buffer. (The player's lines are made without `write!`: its formatter takes two to seven times as
// long, and calls the C library's `memcpy` and `memmove`, which the player's static library would then need. For the same reason a text is copied
// by `put_part`. The functions over a buffer and a place keep the place in a register; as a field it is stored for each byte, in 1.4 to 1.8 times
// the time.)
ghost use Rattle.std.specs.Prelude.{◌≡◌, ◌≤◌, length, IsOk};
ghost use Rattle.vrf_script.specs.Inner.Written.{WrittenAt};

use std::fmt;
use vrf_bitio::Refusal;
use vrf_names::{decimal_len, put_decimal};
use vrf_words::put_part;

// What does not fit into the buffer is left out. Every line begins with the number of its call.
#[derive(Drop)]
pub struct Answers<'a> {
    out: &'a mut [u8],
    to: usize,
    ghost within: { to ≤ length out.now },
    pub call: u64,
}

// What can be written into a line.
pub trait Shown {
    fn show(self, answers: &mut Answers<'_>);
}

// The hexadecimal digit of a number below 16.
fn digit(n: u8) -> u8
    requires { n ≤ 15 }
{
    if n < 10 { b'0' + n } else { b'a' - 10 + n }
}

// Writes a byte at place `to`, if there is space, and answers the place after what was written. So do the next three functions.
fn byte_at(out: &mut [u8], to: usize, b: u8) -> usize
    requires { to ≤ length out.old }
    ensures { (length out.new ≡ length out.old) × (result ≤ length out.old) }
{
    if to < out.len() {
        out[to] = b;
        return to + 1;
    }
    to
}

fn bytes_at(out: &mut [u8], to: usize, text: &[u8]) -> usize
    requires { to ≤ length out.old }
    ensures bounds { (length out.new ≡ length out.old) × (result ≤ length out.old) }
    ensures written { WrittenAt out.old to text.now out.new result }
{
    let n = text.len().min(out.len() - to);
    put_part(out, to, &text[..n]);
    to + n
}

// A byte that is not printable ASCII, or is a quote or a backslash, is written as `\xHH`.
fn quoted_byte_at(out: &mut [u8], to: usize, b: u8) -> usize
    requires { to ≤ length out.old }
    ensures { (length out.new ≡ length out.old) × (result ≤ length out.old) }
{
    if 0x20 <= b && b <= 0x7E && b != b'"' && b != b'\\' {
        return byte_at(out, to, b);
    }
    let slash = byte_at(out, to, b'\\');
    let x = byte_at(out, slash, b'x');
    let high = byte_at(out, x, digit(b / 16));
    byte_at(out, high, digit(b % 16))
}

fn quoted_at(out: &mut [u8], mut to: usize, text: &[u8]) -> usize
    requires { to ≤ length out.old }
    ensures { (length out.new ≡ length out.old) × (result ≤ length out.old) }
{
    for b in text {
        to = quoted_byte_at(out, to, *b);
    }
    to
}

impl<'a> Answers<'a> {
    pub fn new(out: &'a mut [u8]) -> Answers<'a>
        ensures length { length result.out.now ≡ length out.old }
        ensures begun { (result.out.now ≡ out.old) × (result.to ≡ 0) × (result.call ≡ 0) }
    {
        Answers {
            out,
            to: 0,
            call: 0,
        }
    }

    // The number of bytes that are written.
    pub fn len(&self) -> usize
        ensures within { result ≤ length self.now.out.now }
        ensures place { result ≡ self.now.to }
    {
        self.to
    }

    // Whether no further text would be seen.
    pub fn is_full(&self) -> bool {
        self.out.len() <= self.to
    }

    fn byte(&mut self, b: u8) {
        self.to = byte_at(self.out, self.to, b);
    }

    pub fn bytes(&mut self, text: &[u8])
        ensures written { WrittenAt self.old.out.now self.old.to text.now self.new.out.now self.new.to }
        ensures call { self.new.call ≡ self.old.call }
    {
        self.to = bytes_at(self.out, self.to, text);
    }

    // In decimal. The digits are made in an array of their own, because a number that does not fit whole is written as far as it fits.
    fn decimal(&mut self, n: u64) {
        let mut digits = [0u8; 20];
        put_decimal(n, &mut digits, 0);
        self.bytes(&digits[..decimal_len(n)]);
    }

    // Sixteen hexadecimal digits, the highest first.
    pub fn hexadecimal(&mut self, n: u64) {
        for i in (0..16u32).rev() {
            self.byte(digit(((n >> (4 * i)) % 16) as u8));
        }
    }

    pub fn put<T: Shown>(&mut self, what: T) {
        what.show(self);
    }

    pub fn begin(&mut self) {
        self.decimal(self.call);
        self.byte(b' ');
    }

    pub fn end(&mut self) {
        self.byte(b'\n');
    }

    // A line with only this text.
    pub fn line<T: Shown>(&mut self, what: T) {
        self.begin();
        self.put(what);
        self.end();
    }

    // Lines, joined by single spaces.
    pub fn joined(&mut self, lines: &[u8]) {
        for b in lines {
            self.byte(if *b == b'\n' { b' ' } else { *b });
        }
    }

    // A value after its label.
    pub fn labelled<T: Shown>(&mut self, label: &str, what: T) {
        self.put(label);
        self.put(what);
    }

    // A value after its label, or the refusal.
    pub fn value<T: Shown>(&mut self, label: &str, answer: Result<T, Refusal>) {
        match answer {
            Ok(v) => self.labelled(label, v),
            Err(r) => self.put(r),
        }
    }

    // A text in quotes.
    pub fn quoted(&mut self, text: &[u8]) {
        self.byte(b'"');
        self.to = quoted_at(self.out, self.to, text);
        self.byte(b'"');
    }
}

// So a caller can `write!` any value that has a `Display`. What does not fit is left out, as ever, so `write_str` never fails.
impl fmt::Write for Answers<'_> {
    ghost write_str_gives = { λ a text b. WrittenAt a.out.now a.to text b.out.now b.to × (b.call ≡ a.call) };

    fn write_str(&mut self, s: &str) -> fmt::Result
        ensures ok { IsOk result → WrittenAt self.old.out.now self.old.to s.now self.new.out.now self.new.to × (self.new.call ≡ self.old.call) }
        ensures always { IsOk result }
    {
        self.bytes(s.as_bytes());
        Ok(())
    }
}

impl Shown for &str {
    fn show(self, answers: &mut Answers<'_>) {
        answers.bytes(self.as_bytes());
    }
}

impl Shown for u64 {
    fn show(self, answers: &mut Answers<'_>) {
        answers.decimal(self);
    }
}

impl Shown for u32 {
    fn show(self, answers: &mut Answers<'_>) {
        answers.decimal(u64::from(self));
    }
}

impl Shown for u8 {
    fn show(self, answers: &mut Answers<'_>) {
        answers.decimal(u64::from(self));
    }
}

// With a minus sign below 0.
impl Shown for i32 {
    fn show(self, answers: &mut Answers<'_>) {
        if self < 0 {
            answers.byte(b'-');
        }
        answers.decimal(u64::from(self.unsigned_abs()));
    }
}

// As its `Display` prints it.
impl Shown for Refusal {
    fn show(self, answers: &mut Answers<'_>) {
        answers.labelled("refused ", self.reason.number());
        answers.labelled(" ", self.a);
        answers.labelled(" ", self.b);
    }
}
