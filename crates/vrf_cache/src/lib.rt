// The book calls of cache.rs and the resolutions of resolve.rs, on a well-formed memory.
#![tactic(auto)]

pub mod clear;
pub mod fields;
pub mod full;
pub mod groups;
pub mod guids;
pub mod resolve;
pub mod texts;
