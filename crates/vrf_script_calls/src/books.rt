// The four books of a run, and the call that opens one.
//
// The books are one after another at the front of the memory, in the order of their numbers. The memory after the last book is free. An
// unopened book has no bytes; every opened book has some. When a book is opened with a new size, the books after it are moved, so there is
// no unused memory between books. An opening fails for lack of memory only if all the books together are longer than the memory.
ghost use Rattle.std.specs.Prelude.{◌≡◌, ◌+◌, ◌≤◌, length};
ghost use Rattle.vrf_script_calls.specs.Inner.Areas.{total};

use vrf_model::Allowances;
use vrf_script::answers::Answers;

// The number of the current book, and the size of each book in bytes. Four fields and no array with an index: the sums in `resized` are then
// linear, so the check finds their bounds alone; a part of an array would need laws about its sum.
#[derive(Clone, Copy, Debug, PartialEq, Eq)]
pub struct Books {
    pub current: u8,
    pub a: usize,
    pub b: usize,
    pub c: usize,
    pub d: usize,
}

// Where the current book begins and ends, and where the last book ends.
#[derive(Clone, Copy, Debug, PartialEq, Eq)]
pub struct Area {
    pub from: usize,
    pub to: usize,
    pub end: usize,
}

impl Books {
    pub fn unopened() -> Books
        ensures { total result ≡ 0 }
    {
        Books {
            current: 0,
            a: 0,
            b: 0,
            c: 0,
            d: 0,
        }
    }

    // Numbers of books are taken modulo 4.
    pub fn choose(&mut self, number: u8)
        ensures { total self.new ≡ total self.old }
    {
        self.current = number % 4;
    }

    // The current book's area.
    pub fn area(self, memory: &[u8]) -> Area
        requires { total self ≤ length memory.now }
        ensures { (result.from ≤ result.to) × (result.to ≤ total self) }
    {
        self.resized(memory, 0).0
    }

    // The area of the current book, and the books with n bytes for it. The memory is a parameter only because its length bounds the sums.
    fn resized(self, memory: &[u8], n: usize) -> (Area, Books)
        requires { total self ≤ length memory.now }
        ensures { (result.0.from ≤ result.0.to) × (result.0.to ≤ result.0.end) × (result.0.end ≡ total self) × (total result.1 + result.0.to ≡ result.0.from + n + result.0.end) }
    {
        let Books {
            current,
            a,
            b,
            c,
            d,
        } = self;
        let end = a + b + c + d;
        let (from, to) = match current {
            0 => (0, a),
            1 => (a, a + b),
            2 => (a + b, a + b + c),
            _ => (a + b + c, end),
        };
        let books = match current {
            0 => Books { a: n, ..self },
            1 => Books { b: n, ..self },
            2 => Books { c: n, ..self },
            _ => Books { d: n, ..self },
        };
        (Area { from, to, end }, books)
    }
}

// Copies n bytes of m to another place in m, which may overlap them: from the end if that place is later. (`copy_within` calls the C library's
// `memmove`.)
pub fn move_part(m: &mut [u8], from: usize, to: usize, n: usize)
    requires { (from + n ≤ length m.old) × (to + n ≤ length m.old) }
    ensures { length m.new ≡ length m.old }
{
    if to < from {
        for k in 0..n {
            m[to + k] = m[from + k];
        }
    } else {
        for k in (0..n).rev() {
            m[to + k] = m[from + k];
        }
    }
}

fn open_book(book: &mut [u8], allowed: Allowances, answers: &mut Answers<'_>) {
    match vrf_schema::calls::open(book, allowed) {
        Ok(()) => answers.line("opened"),
        Err(r) => answers.line(r),
    }
}

// Opens the current book over n bytes, if the memory has space for all books then. The books that follow are moved to the place after
// these bytes. The old book is overwritten: `open` is not refused, because n is what `memory_needed` answered.
fn open_sized(
    memory: &mut [u8],
    books: Books,
    allowed: Allowances,
    n: usize,
    answers: &mut Answers<'_>,
) -> Books
    requires { total books ≤ length memory.old }
    ensures { (total result ≤ length memory.old) × (length memory.new ≡ length memory.old) }
{
    let (Area { from, to, end }, resized) = books.resized(memory, n);
    if memory.len() - from - (end - to) < n {
        answers.line("no memory");
        return books;
    }
    let next = from + n;
    move_part(memory, to, next, end - to);
    open_book(&mut memory[from..next], allowed, answers);
    resized
}

// The call `open`. The book becomes the current one, even if it is not opened. If `memory_needed` answers 0, `open` refuses the allowances.
// It is then called over no bytes, so that the old book stays.
pub fn open(
    memory: &mut [u8],
    books: Books,
    allowed: Allowances,
    answers: &mut Answers<'_>,
) -> Books
    requires { total books ≤ length memory.old }
    ensures { (total result ≤ length memory.old) × (length memory.new ≡ length memory.old) }
{
    match vrf_schema::calls::memory_needed(allowed) {
        0 => {
            open_book(&mut memory[..0], allowed, answers);
            books
        }
        n => open_sized(memory, books, allowed, n as usize, answers),
    }
}
