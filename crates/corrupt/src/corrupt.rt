// Corrupts books. Each function tries all calls on each memory that it makes, until a call breaks its contract. `work` is a scratch buffer
// as long as the book.
ghost use Rattle.std.specs.Prelude.{◌<◌, length};

use crate::totals::{Broken, Totals, try_all};
use std::fmt;
use vrf_words::put_part;

// How a book is corrupted.
#[derive(Clone, Copy, Debug, PartialEq, Eq)]
pub enum Damage {
    Nothing,
    EachByte,
    Cuts,
    // At random: a few bytes, all bytes after the header, some heads and links of groups, or all bytes.
    SomeBytes,
    BehindHeader,
    HeadsAndLinks,
    AnyBytes,
}

pub const DAMAGES: [Damage; 7] = [
    Damage::Nothing,
    Damage::EachByte,
    Damage::Cuts,
    Damage::SomeBytes,
    Damage::BehindHeader,
    Damage::HeadsAndLinks,
    Damage::AnyBytes,
];

impl fmt::Display for Damage {
    fn fmt<W: fmt::Write>(&self, f: &mut fmt::Formatter<W>) -> fmt::Result {
        match self {
            Damage::Nothing => write!(f, "as they are"),
            Damage::EachByte => write!(f, "one byte changed"),
            Damage::Cuts => write!(f, "cut"),
            Damage::SomeBytes => write!(f, "some bytes changed"),
            Damage::BehindHeader => write!(f, "any bytes behind a header"),
            Damage::HeadsAndLinks => write!(f, "other heads and links"),
            Damage::AnyBytes => write!(f, "any bytes"),
        }
    }
}

// How many random memories are made of each kind.
const MANY: u32 = 5_000;

// Gives the byte at `at` every other value, and then its own value again.
fn each_value(s: &mut [u8], work: &mut [u8], at: usize, t: &mut Totals) -> Result<(), Broken>
    requires { at < length s.old }
{
    let own = s[at];
    for step in 1..=255 {
        s[at] = own.wrapping_add(step);
        try_all(s, work, t)?;
    }
    s[at] = own;
    Ok(())
}

// Makes every change of one byte.
fn each_byte(s: &mut [u8], work: &mut [u8], t: &mut Totals) -> Result<(), Broken> {
    for at in 0..s.len() {
        each_value(s, work, at, t)?;
    }
    Ok(())
}

// Cuts the book to every shorter length.
fn each_cut(s: &[u8], work: &mut [u8], t: &mut Totals) -> Result<(), Broken> {
    for n in 0..s.len().min(work.len()) {
        try_all(&s[..n], &mut work[..n], t)?;
    }
    Ok(())
}

// The next number of a pseudorandom sequence that contains every 32-bit number. The high bits are more random than the low bits.
fn next(seed: u32) -> u32 {
    seed.wrapping_mul(1_664_525).wrapping_add(1_013_904_223)
}

fn any_byte(seed: u32) -> u8 {
    (seed / 0x100_0000) as u8
}

// Changes a byte at a random place. Nothing changes if the place is past the end.
fn change_one(s: &mut [u8], seed: u32) -> u32 {
    let x = next(seed);
    let at = (x / 0x40_0000) as usize;
    let y = next(x);
    if let Some(byte) = s.get_mut(at) {
        *byte = any_byte(y);
    }
    y
}

// Changes up to eight bytes.
fn change_some(s: &mut [u8], seed: u32) -> u32 {
    let mut x = next(seed);
    for _ in 0..1 + x / 0x2000_0000 {
        x = change_one(s, x);
    }
    x
}

// Makes every byte from place `from` on random.
fn scatter(s: &mut [u8], from: usize, seed: u32) -> u32 {
    let mut x = seed;
    for byte in s.iter_mut().skip(from) {
        x = next(x);
        *byte = any_byte(x);
    }
    x
}

// A byte of a pointer. One pointer in eight is changed, so that it points to a random entry or past the entries.
fn pointer_byte(k: usize, own: u8, seed: u32) -> u8 {
    if k % 4 == 0 && seed < 0x2000_0000 {
        return any_byte(next(seed)) / 16;
    }
    own
}

// Changes some heads and links of groups. They are together in the memory, from the heads by index to the heads by leaf.
fn scatter_pointers(s: &mut [u8], seed: u32) -> u32 {
    let mut x = seed;
    for (k, byte) in s.iter_mut().enumerate().take(456).skip(324) {
        x = next(x);
        *byte = pointer_byte(k, *byte, x);
    }
    x
}

// Tries many copies of the book, each scrambled at random.
fn by_chance<F: FnMut(&mut [u8], u32) -> u32>(
    book: &[u8],
    s: &mut [u8],
    work: &mut [u8],
    t: &mut Totals,
    mut scramble: F,
) -> Result<(), Broken>
    requires { (f : _) (s : _) (seed : _) → F.pre f s seed }
{
    if s.len() < book.len() {
        return Ok(());
    }
    let mut x: u32 = 1;
    for _ in 0..MANY {
        put_part(s, 0, book);
        x = scramble(s, x);
        try_all(s, work, t)?;
    }
    Ok(())
}

pub fn corrupt(
    book: &mut [u8],
    s: &mut [u8],
    work: &mut [u8],
    how: Damage,
    t: &mut Totals,
) -> Result<(), Broken> {
    match how {
        Damage::Nothing => try_all(book, work, t),
        Damage::EachByte => each_byte(book, work, t),
        Damage::Cuts => each_cut(book, work, t),
        Damage::SomeBytes => by_chance(book, s, work, t, change_some),
        Damage::BehindHeader => by_chance(book, s, work, t, |s, x| scatter(s, 128, x)),
        Damage::HeadsAndLinks => by_chance(book, s, work, t, scatter_pointers),
        Damage::AnyBytes => by_chance(book, s, work, t, |s, x| scatter(s, 0, x)),
    }
}
