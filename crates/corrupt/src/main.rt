// Makes exported calls on corrupt books. Every call must refuse the book with 2 and leave it as it is, or answer and leave a book that
// passes its check. Prints how many memories were tried, or the first call that breaks this.
#![tactic(auto)]

mod books;
mod calls;
mod corrupt;
mod totals;

use books::{BOOKS, make};
use corrupt::{DAMAGES, Damage, corrupt};
use std::io;
use totals::{Broken, Totals};

fn report(rt: &impl Print, how: Damage, t: Totals, end: Result<(), Broken>) -> io::Result<()> {
    if let Err(broken) = end {
        return println!(rt; "{how}: broken at memory {} by {broken}", t.copies);
    }
    println!(rt;
        "{how}: {} memories, {} accepted; {} calls, {} refused with 2",
        t.copies, t.accepted, t.calls, t.refused
    )
}

// Corrupts every book with one kind of change.
fn each_book(
    book: &mut [u8],
    s: &mut [u8],
    work: &mut [u8],
    how: Damage,
    t: &mut Totals,
) -> Result<(), Broken> {
    for which in BOOKS {
        make(book, which).map_err(|_| Broken::Book)?;
        corrupt(book, s, work, how, t)?;
    }
    Ok(())
}

fn run(rt: &impl Print, book: &mut [u8], s: &mut [u8], work: &mut [u8]) -> io::Result<()> {
    for how in DAMAGES {
        let mut t = Totals::default();
        let end = each_book(book, s, work, how, &mut t);
        report(rt, how, t, end)?;
        if end.is_err() {
            break;
        }
    }
    Ok(())
}

// The arrays are lent with their lengths in the type, so `main` needs no proof about lengths.
fn lend(
    rt: &impl Print,
    book: &mut [u8; 784],
    s: &mut [u8; 784],
    work: &mut [u8; 784],
) -> io::Result<()> {
    run(rt, book, s, work)
}

// Each array has the 784 bytes that a book needs.
fn main(rt: HostRuntime) -> io::Result<()> {
    let mut book = [0u8; 784];
    let mut s = [0u8; 784];
    let mut work = [0u8; 784];
    lend(&rt, &mut book, &mut s, &mut work)
}
