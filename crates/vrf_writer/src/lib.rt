// The writer of checkpoint blocks, for a well-formed memory. `vrf_schema` exports it with the check of the memory.
#![tactic(auto)]

pub mod block;
pub mod clash;
pub mod groups;
pub mod guids;
pub mod numbers;
pub mod size;
pub mod write;
