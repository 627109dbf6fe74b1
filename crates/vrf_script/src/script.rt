// Reads the items of a script.
ghost use Rattle.std.specs.Prelude.{Some};
ghost use Rattle.vrf_script.specs.Inner.Stops.{stop_text};

use crate::answers::{Answers, Shown};
use std::fmt;
use vrf_words::put_part;

// Why a run ends before its script does.
#[derive(Clone, Copy, Debug, PartialEq, Eq)]
pub enum Stop {
    // The bytes are not a script, or the script ends within a call.
    NoScript,
    // No call has the byte that was read.
    NoSuchCall,
    // The player does not have enough space for the call.
    TooLarge,
}

// As its `Display` prints it.
impl Shown for Stop {
    fn show(self, answers: &mut Answers<'_>) {
        answers.put(match self {
            Stop::NoScript => "no script",
            Stop::NoSuchCall => "no such call",
            Stop::TooLarge => "too large",
        });
    }
}

impl fmt::Display for Stop {
    ghost output = { λ stop. Some (stop_text stop) };

    fn fmt<W: fmt::Write>(&self, f: &mut fmt::Formatter<W>) -> fmt::Result {
        match self {
            Stop::NoScript => write!(f, "no script"),
            Stop::NoSuchCall => write!(f, "no such call"),
            Stop::TooLarge => write!(f, "too large"),
        }
    }
}

// A blob of at least this length is a filled one.
const FILLED: usize = 0x8000_0000;

// A blob is bytes of the script. A filled blob is bytes of the script, and then the fill byte up to its length.
#[derive(Clone, Copy)]
pub enum Blob<'a> {
    Given(&'a [u8]),
    Filled {
        head: &'a [u8],
        len: usize,
        fill: u8,
    },
}

impl<'a> Blob<'a> {
    // The bytes of a blob. A filled one is laid out at the front of the scratch buffer.
    pub fn bytes<'b>(self, scratch: &'b mut [u8]) -> Result<&'b [u8], Stop>
    where
        'a: 'b,
    {
        match self {
            Blob::Given(bytes) => Ok(bytes),
            Blob::Filled { head, len, fill } => {
                let Some((all, _)) = scratch.split_at_mut_checked(len) else {
                    return Err(Stop::TooLarge);
                };
                let Some((first, others)) = all.split_at_mut_checked(head.len()) else {
                    return Err(Stop::NoScript);
                };
                // By `put_part`, since `copy_from_slice` calls the C library's `memmove`.
                put_part(first, 0, head);
                others.fill(fill);
                Ok(all)
            }
        }
    }
}

// The part of a script that is still to be read.
#[derive(Clone, Copy)]
pub struct Script<'a> {
    rest: &'a [u8],
}

impl<'a> Script<'a> {
    pub fn new(bytes: &'a [u8]) -> Script<'a> {
        Script { rest: bytes }
    }

    // The next byte, if the script does not end here.
    pub fn next_byte(&mut self) -> Option<u8> {
        let (first, rest) = self.rest.split_first()?;
        self.rest = rest;
        Some(*first)
    }

    fn take(&mut self, n: usize) -> Result<&'a [u8], Stop> {
        let (head, rest) = self.rest.split_at_checked(n).ok_or(Stop::NoScript)?;
        self.rest = rest;
        Ok(head)
    }

    fn take_array<const N: usize>(&mut self) -> Result<[u8; N], Stop> {
        let (head, rest) = self.rest.split_first_chunk::<N>().ok_or(Stop::NoScript)?;
        self.rest = rest;
        Ok(*head)
    }

    pub fn take_u8(&mut self) -> Result<u8, Stop> {
        self.next_byte().ok_or(Stop::NoScript)
    }

    pub fn take_u32(&mut self) -> Result<u32, Stop> {
        Ok(u32::from_le_bytes(self.take_array::<4>()?))
    }

    pub fn take_u64(&mut self) -> Result<u64, Stop> {
        Ok(u64::from_le_bytes(self.take_array::<8>()?))
    }

    pub fn take_blob(&mut self) -> Result<Blob<'a>, Stop> {
        let n = self.take_u32()? as usize;
        if n < FILLED {
            return Ok(Blob::Given(self.take(n)?));
        }
        let len = n - FILLED;
        let head = self.take_u32()? as usize;
        if len < head {
            return Err(Stop::NoScript);
        }
        let head = self.take(head)?;
        let fill = self.take_u8()?;
        Ok(Blob::Filled { head, len, fill })
    }
}
