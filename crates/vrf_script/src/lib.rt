// What a script of calls is made of (docs/SCRIPTS.md): the items in it, its calls, the lines of answers, and the call `bits`, which needs no
// book.
#![tactic(auto)]

pub mod answers;
pub mod bits;
pub mod call;
pub mod script;
#[cfg(test)]
mod tests;
