// The call `bits`: a window, and readings in it, one after another.
ghost use Rattle.std.specs.Prelude.{◌≤◌};

use crate::answers::Answers;
use crate::script::{Script, Stop};
use vrf_bitio::BitReader;
use vrf_reader::names::{read_fname, read_text};

// The most bytes that a copy's target may have.
const TARGET: usize = 65_536;

// The most windows around the current one.
const DEEPEST: usize = 16;

#[derive(Clone, Copy, Debug, PartialEq, Eq)]
enum Reading {
    Bit,
    Bits(u32),
    U8,
    U32,
    I32,
    IntPacked,
    Text,
    Name,
    // A copy of so many bits into a target of so many bytes.
    Copy { size: u32, bits: u64 },
    // Opens the window of the next bits.
    Inner(u64),
    // Goes back to the outer window.
    Outer,
    Unknown,
}

impl Reading {
    fn take(script: &mut Script<'_>) -> Result<Reading, Stop> {
        Ok(match script.take_u8()? {
            0 => Reading::Bit,
            1 => Reading::Bits(script.take_u32()?),
            2 => Reading::U8,
            3 => Reading::U32,
            4 => Reading::I32,
            5 => Reading::IntPacked,
            6 => Reading::Text,
            7 => Reading::Name,
            8 => Reading::Copy {
                size: script.take_u32()?,
                bits: script.take_u64()?,
            },
            9 => Reading::Inner(script.take_u64()?),
            10 => Reading::Outer,
            _ => Reading::Unknown,
        })
    }
}

// The windows around the one in which the readings are made, innermost last. An array with a count, because there is no heap for a `Vec`.
#[derive(Drop)]
struct Around<'a> {
    windows: [BitReader<'a>; DEEPEST],
    deep: usize,
    ghost within: { deep ≤ 16 },
}

impl<'a> Around<'a> {
    fn nothing(window: BitReader<'a>) -> Around<'a> {
        Around {
            windows: [window; DEEPEST],
            deep: 0,
        }
    }

    fn push(&mut self, outer: BitReader<'a>) -> Result<(), Stop> {
        if DEEPEST <= self.deep {
            return Err(Stop::TooLarge);
        }
        self.windows[self.deep] = outer;
        self.deep += 1;
        Ok(())
    }

    fn pop(&mut self) -> Option<BitReader<'a>> {
        if self.deep == 0 {
            return None;
        }
        self.deep -= 1;
        Some(self.windows[self.deep])
    }
}

// Reads a field name, or a text that is no field name. (The reading is a parameter and no closure: a closure would need a contract, that its
// length is at most that of the scratch buffer.)
fn text(reading: Reading, reader: &mut BitReader<'_>, answers: &mut Answers<'_>) {
    let mut scratch = [0u8; 4096];
    let read = match reading {
        Reading::Name => read_fname(reader, &mut scratch),
        _ => read_text(reader, &mut scratch),
    };
    match read {
        Err(r) => answers.put(r),
        Ok(n) => {
            answers.put("text ");
            answers.quoted(&scratch[..n as usize]);
        }
    }
}

// The target is shown after a refusal too: it must be as it was before.
fn copy_into(reader: &mut BitReader<'_>, target: &mut [u8], bits: u64, answers: &mut Answers<'_>) {
    match reader.copy_bits_to(target, bits) {
        Ok(()) => answers.put("copied"),
        Err(r) => answers.put(r),
    }
    answers.put(" target ");
    answers.quoted(target);
}

// (A function of its own, because a function fills its arrays on each call: in `read` the target was filled for every reading.)
fn copy(
    reader: &mut BitReader<'_>,
    size: usize,
    bits: u64,
    answers: &mut Answers<'_>,
) -> Result<(), Stop> {
    let mut target = [0xA5u8; TARGET];
    let (part, _) = target.split_at_mut_checked(size).ok_or(Stop::TooLarge)?;
    copy_into(reader, part, bits, answers);
    Ok(())
}

// The answer of a reading that stays in its window.
fn read(
    reading: Reading,
    reader: &mut BitReader<'_>,
    answers: &mut Answers<'_>,
) -> Result<(), Stop> {
    match reading {
        Reading::Bit => answers.value("value ", reader.read_bit().map(u8::from)),
        Reading::Bits(width) => answers.value("value ", reader.read_bits(width)),
        Reading::U8 => answers.value("value ", reader.read_u8()),
        Reading::U32 => answers.value("value ", reader.read_u32()),
        Reading::I32 => answers.value("value ", reader.read_i32()),
        Reading::IntPacked => answers.value("value ", reader.read_int_packed()),
        Reading::Text | Reading::Name => text(reading, reader, answers),
        Reading::Copy { size, bits } => return copy(reader, size as usize, bits, answers),
        _ => answers.put("no such reading"),
    }
    Ok(())
}

// Ends the line of a reading with the position of its window.
fn placed(reader: &BitReader<'_>, answers: &mut Answers<'_>) {
    answers.labelled(" at ", reader.position());
    answers.end();
}

// Opens an inner window. Its line has the outer position.
fn enter<'a>(
    reader: &mut BitReader<'a>,
    around: &mut Around<'a>,
    n: u64,
    answers: &mut Answers<'_>,
) -> Result<(), Stop> {
    match reader.sub_reader(n) {
        Err(r) => {
            answers.begin();
            answers.put(r);
            placed(reader, answers);
        }
        Ok(inner) => {
            around.push(*reader)?;
            answers.begin();
            answers.put("inner");
            placed(reader, answers);
            *reader = inner;
        }
    }
    Ok(())
}

// Goes back to the window around the current one. The outermost window stays.
fn leave<'a>(reader: &mut BitReader<'a>, around: &mut Around<'a>, answers: &mut Answers<'_>) {
    if let Some(outer) = around.pop() {
        *reader = outer;
    }
    answers.begin();
    answers.put("up");
    placed(reader, answers);
}

fn make<'a>(
    reading: Reading,
    reader: &mut BitReader<'a>,
    around: &mut Around<'a>,
    answers: &mut Answers<'_>,
) -> Result<(), Stop> {
    match reading {
        Reading::Inner(n) => enter(reader, around, n, answers)?,
        Reading::Outer => leave(reader, around, answers),
        Reading::Copy { size, .. } if TARGET < size as usize => return Err(Stop::TooLarge),
        _ => {
            answers.begin();
            read(reading, reader, answers)?;
            placed(reader, answers);
        }
    }
    Ok(())
}

// The call over the bytes of its window's blob, with the rest of its arguments in the script. A window from bit 0 is opened with
// `with_bit_len`, so that both functions that open a window are run. After a refused window the readings are skipped.
pub fn play(bytes: &[u8], script: &mut Script<'_>, answers: &mut Answers<'_>) -> Result<(), Stop> {
    let first = script.take_u64()?;
    let count = script.take_u64()?;
    let n = script.take_u32()?;
    let window = if first == 0 {
        BitReader::with_bit_len(bytes, count)
    } else {
        BitReader::window(bytes, first, count)
    };
    match window {
        Err(r) => {
            answers.line(r);
            for _ in 0..n {
                Reading::take(script)?;
            }
        }
        Ok(window) => {
            answers.line("window");
            let mut reader = window;
            let mut around = Around::nothing(window);
            for _ in 0..n {
                make(Reading::take(script)?, &mut reader, &mut around, answers)?;
            }
        }
    }
    Ok(())
}
