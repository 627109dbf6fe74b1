// Readers of export runs and objects (reader.rs), on a well-formed memory. Each takes the bit reader, the memory and the scratch buffer one by
// one, as reader.rs takes reader and cache: with a struct of three `&mut`, each contract would also say that the struct keeps all three.
// A public function that reads more than once reads with a copy, which it writes back when nothing was refused, so a refused call leaves the
// caller's reader as it was (`stays`).
// That the scratch buffer has 4,096 bytes is a clause: the type `&mut [u8; 4096]` would ask more of callers, who may lend a longer one.
#![tactic(auto)]

pub mod fields;
pub mod guids;
pub mod names;
pub mod objects;
pub mod runs;
