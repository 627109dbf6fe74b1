// The reader of blocks (checkpoint.rs), on a well-formed memory. As in `vrf_reader`, reader, memory and scratch are parameters one by one, and a
// refused public function leaves the caller's reader as it was.
#![tactic(auto)]

pub mod block;
pub mod groups;
pub mod guids;
