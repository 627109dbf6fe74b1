// The exported functions on a book: book calls, readers, lookups and the writer. All but `open` and `memory_needed` check the lent memory
// first. A memory that fails the check is refused with 2 and stays as it was.
#![tactic(auto)]

pub mod calls;
pub mod checked;
pub mod lookups;
pub mod reading;
pub mod writing;
