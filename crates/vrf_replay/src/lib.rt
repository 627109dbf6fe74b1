// Plays a script of calls over lent memory, and writes the answers into a lent buffer (docs/SCRIPTS.md). The books are in the memory.
// Windows and blocks are in the scratch buffer.
#![tactic(auto)]

mod tallies;

ghost use Rattle.std.specs.Prelude.{◌≤◌, length};
ghost use Rattle.vrf_script_calls.specs.Inner.Areas.{total};
ghost use Rattle.vrf_script_calls.specs.Inner.Blocks.{KeptIn};

use vrf_script::answers::Answers;
use vrf_script::bits;
use vrf_script::call::{BookCall, Call};
use vrf_script::script::{Script, Stop};
use vrf_script_calls::books::Books;
use vrf_script_calls::{blocks, books, calls};

// The first four bytes of a script, `VJS1`, as one number.
const HEAD: u32 = 0x3153_4A56;

// What a call leaves for the next one: the books, and the length of the last written block, which is at the front of the scratch buffer. (That the
// books fit into the memory, and the block into the buffer, are clauses: a struct of all four would hold two `&mut`, and each contract would say
// that it keeps the borrows.)
#[derive(Clone, Copy, Debug, PartialEq, Eq)]
struct Played {
    books: Books,
    kept: usize,
}

// A call on an opened book. `kept` is the length of the last written block.
fn on_book(
    call: BookCall<'_>,
    book: &mut [u8],
    scratch: &mut [u8],
    kept: &mut usize,
    answers: &mut Answers<'_>,
) -> Result<(), Stop>
    requires { KeptIn (length scratch.old) kept.old }
    ensures { KeptIn (length scratch.old) kept.new }
{
    match call {
        BookCall::Write(n) => blocks::write(book, n, scratch, kept, answers),
        BookCall::ReadWritten => {
            calls::play_written(book, &scratch[..*kept], answers);
            Ok(())
        }
        _ => calls::play(book, call, &mut scratch[*kept..], answers),
    }
}

fn play_call(
    call: Call<'_>,
    script: &mut Script<'_>,
    memory: &mut [u8],
    scratch: &mut [u8],
    played: &mut Played,
    answers: &mut Answers<'_>,
) -> Result<(), Stop>
    requires { (total played.old.books ≤ length memory.old) × (KeptIn (length scratch.old) played.old.kept) }
    ensures { (total played.new.books ≤ length memory.old) × (KeptIn (length scratch.old) played.new.kept) }
{
    match call {
        Call::Open { book, allowances } => {
            played.books.choose(book);
            played.books = books::open(memory, played.books, allowances, answers);
        }
        Call::Use(book) => {
            played.books.choose(book);
            answers.line("using");
        }
        Call::OnBook(call) => {
            let area = played.books.area(memory);
            if area.from == area.to {
                answers.line("no book");
                return Ok(());
            }
            let book = &mut memory[area.from..area.to];
            on_book(call, book, scratch, &mut played.kept, answers)?;
        }
        Call::Bits(blob) => {
            bits::play(blob.bytes(&mut scratch[played.kept..])?, script, answers)?;
        }
        Call::Tally(blob) => tallies::play(blob.bytes(&mut scratch[played.kept..])?, answers),
    }
    Ok(())
}

// A call has at least one byte, so a script has at most as many calls as bytes.
fn play_calls(
    bytes: &[u8],
    memory: &mut [u8],
    scratch: &mut [u8],
    answers: &mut Answers<'_>,
) -> Result<(), Stop> {
    let mut script = Script::new(bytes);
    if script.take_u32()? != HEAD {
        return Err(Stop::NoScript);
    }
    let mut played = Played {
        books: Books::unopened(),
        kept: 0,
    };
    for n in 0..bytes.len() {
        let Some(code) = script.next_byte() else {
            break;
        };
        answers.call = n as u64;
        let call = Call::take(code, &mut script)?;
        play_call(call, &mut script, memory, scratch, &mut played, answers)?;
    }
    Ok(())
}

// Answers the length of the answers.
pub fn play(script: &[u8], memory: &mut [u8], scratch: &mut [u8], out: &mut [u8]) -> usize
    ensures { result ≤ length out.old }
{
    let mut answers = Answers::new(&mut *out);
    if let Err(stop) = play_calls(script, memory, scratch, &mut answers) {
        answers.line(stop);
    }
    // `len` is within the buffer that the answers hold, but it is not known that this is still `out`: `put` is generic over what it writes, and
    // `Shown::show` promises nothing of the buffer.
    let n = answers.len();
    n.min(out.len())
}

// `play` as `vrf_replay_c` exports it to C.
pub fn vrf_replay(script: &[u8], memory: &mut [u8], scratch: &mut [u8], out: &mut [u8]) -> u64
    ensures { result ≤ length out.old }
{
    play(script, memory, scratch, out) as u64
}
