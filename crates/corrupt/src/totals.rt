// Makes every call on one memory, and counts what was tried and how it ended.
ghost use Rattle.std.specs.Prelude.{◌≤◌, length};

use crate::calls::{CALLS, CallEnd, FIRST_LOOKUP, OPENING, call, is_corrupt};
use std::fmt;
use vrf_path::same;
use vrf_words::put_part;

#[derive(Clone, Copy, Default)]
pub struct Totals {
    // Memories, and how many of them passed the check.
    pub copies: u64,
    pub accepted: u64,
    // Calls, and how many of them were refused with 2.
    pub calls: u64,
    pub refused: u64,
}

// Why the program stops before its end.
#[derive(Clone, Copy)]
pub enum Broken {
    // The call with this number broke its contract.
    Call(u32),
    // The book to corrupt was not made.
    Book,
    // The scratch buffer has another length than the memory.
    Lengths,
}

// The report has the number of a call in every case: that of the opening for a book, and one that no call has for the lengths.
impl fmt::Display for Broken {
    fn fmt<W: fmt::Write>(&self, f: &mut fmt::Formatter<W>) -> fmt::Result {
        let call = match self {
            Broken::Call(which) => *which,
            Broken::Book => OPENING,
            Broken::Lengths => CALLS,
        };
        write!(f, "call {call}")
    }
}

impl Totals {
    fn count_copy(&mut self, accepted: bool) {
        self.copies = self.copies.wrapping_add(1);
        self.accepted = self.accepted.wrapping_add(u64::from(accepted));
    }

    fn count_call(&mut self, refused: bool) {
        self.calls = self.calls.wrapping_add(1);
        self.refused = self.refused.wrapping_add(u64::from(refused));
    }
}

// Whether a call left a book that passes the check. A lookup borrows the memory only to read it, so nothing is checked after it.
fn passes(work: &[u8], which: u32) -> bool {
    FIRST_LOOKUP <= which || !is_corrupt(work)
}

// Makes one call on a copy of s. Every call but the opening must refuse a memory that fails the check with 2. Any refusal must leave the
// memory as it was. After every answer the book must pass the check.
fn try_call(
    s: &[u8],
    work: &mut [u8],
    which: u32,
    corrupt: bool,
    t: &mut Totals,
) -> Result<(), Broken>
    requires { length s.now ≤ length work.old }
{
    put_part(work, 0, s);
    let due = corrupt && which != OPENING;
    let end = call(work, which);
    t.count_call(matches!(end, CallEnd::Corrupt));
    let kept = match end {
        CallEnd::Corrupt => due && same(s, work),
        CallEnd::Refused => !due && same(s, work),
        CallEnd::Answered => !due && passes(work, which),
    };
    if kept {
        Ok(())
    } else {
        Err(Broken::Call(which))
    }
}

// Makes every call on the memory s, until a call breaks its contract. Each call gets a copy of s in `work`, which has the same length.
pub fn try_all(s: &[u8], work: &mut [u8], t: &mut Totals) -> Result<(), Broken> {
    let corrupt = is_corrupt(s);
    t.count_copy(!corrupt);
    if work.len() != s.len() {
        return Err(Broken::Lengths);
    }
    for which in 0..CALLS {
        try_call(s, work, which, corrupt, t)?;
    }
    Ok(())
}
