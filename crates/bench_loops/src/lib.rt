// What tests/compare times against the Rust: readings in a loop, over a slice that the caller lends. It is proved that the loops end and
// stay in bounds. The contracts of the crates used here cover what each reading answers.
#![tactic(auto)]

pub mod blocks;
pub mod book;

use vrf_bitio::{BitReader, Refusal};
use vrf_text::read_fstring;

// The most passes of a loop. Every loop ends before, at a refused reading.
const PASSES: u64 = 4_294_967_296;

// The reader of no bits of s.
fn nothing(s: &[u8]) -> BitReader<'_> {
    BitReader {
        data: s,
        first: 0,
        count: 0,
        pos: 0,
    }
}

// The reader of all of s, or of no bits if s is too large for a window.
fn whole(s: &[u8]) -> BitReader<'_> {
    BitReader::new(s).unwrap_or(nothing(s))
}

// The reader after the first bits of s, at most 64 of them, or of no bits if s has fewer.
fn following(s: &[u8], skip: u64) -> BitReader<'_> {
    let mut reader = whole(s);
    match reader.read_bits((skip % 65) as u32) {
        Ok(_) => reader,
        Err(_) => nothing(s),
    }
}

// Reads as many bits as each element of `widths`, and adds the values to the sum.
fn read_widths(reader: &mut BitReader<'_>, widths: &[u8], sum: &mut u64) -> Result<(), Refusal> {
    for width in widths {
        *sum = sum.wrapping_add(reader.read_bits(u32::from(*width))?);
    }
    Ok(())
}

// Makes passes over `widths` until a reading is refused. Answers the wrapping sum of the values.
#[unsafe(no_mangle)]
pub extern "C" fn bench_read_bits(s: &[u8], widths: &[u8]) -> u64 {
    let mut reader = whole(s);
    let mut sum: u64 = 0;
    for _ in 0..PASSES {
        if read_widths(&mut reader, widths, &mut sum).is_err() {
            break;
        }
    }
    sum
}

// Reads packed numbers until one is refused. Answers the wrapping sum.
#[unsafe(no_mangle)]
pub extern "C" fn bench_read_int_packed(s: &[u8]) -> u64 {
    let mut reader = whole(s);
    let mut sum: u64 = 0;
    for _ in 0..PASSES {
        let Ok(v) = reader.read_int_packed() else {
            break;
        };
        sum = sum.wrapping_add(u64::from(v));
    }
    sum
}

// Skips some bits, then reads texts into `out` until one is refused. Answers the wrapping sum of their lengths.
#[unsafe(no_mangle)]
pub extern "C" fn bench_read_fstring(s: &[u8], skip: u64, out: &mut [u8]) -> u64 {
    let mut reader = following(s, skip);
    let mut sum: u64 = 0;
    for _ in 0..PASSES {
        let Ok(n) = read_fstring(&mut reader, out) else {
            break;
        };
        sum = sum.wrapping_add(u64::from(n));
    }
    sum
}

// Skips some bits, then copies `bits` bits into `dst` again and again until a copy is refused. Answers how many copies were made.
#[unsafe(no_mangle)]
pub extern "C" fn bench_copy_bits_to(s: &[u8], skip: u64, dst: &mut [u8], bits: u64) -> u64 {
    let mut reader = following(s, skip);
    for turns in 0..PASSES {
        if reader.copy_bits_to(dst, bits).is_err() {
            return turns;
        }
    }
    PASSES
}
