// The calls of a script on books (docs/SCRIPTS.md): each makes the exported call and writes the line of its answer. The books are in lent
// memory, and the last written block is in the scratch buffer.
#![tactic(auto)]

pub mod blocks;
pub mod books;
pub mod calls;
mod dump;
mod lookups;
