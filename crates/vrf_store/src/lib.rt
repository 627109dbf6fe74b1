// The lent memory of a book (docs/LAYOUT.md): its parts, the rows of its tables, its texts, the lookups in it and its changes.
// `WellFormed` is a clause and no ghost field of a struct around the memory. That was tried: a caller that wraps its `&mut [u8]` learns
// nothing of it afterwards, unless each contract says as well that the struct keeps its borrow. A struct around `&[u8]`, for the
// lookups alone, would be made anew at each lookup of a change. `Enough` and the header's 128 bytes are clauses too: what opens or checks a
// memory asks for no more than these. The chains of entries in the memory stay: document 01 fixes its number of
// bytes, and there is no heap for a map.
#![tactic(auto)]

pub mod counters;
pub mod fields;
pub mod groups;
pub mod guids;
pub mod literals;
pub mod look;
pub mod open;
pub mod parts;
pub mod rows;
pub mod texts;
