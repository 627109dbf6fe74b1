// What the book calls take and answer beside numbers: a call answers `Result<_, Refusal>`, a lookup that may find nothing an Option in it.
// specs/Answers.antt gives document 01's value for each of them.
#![tactic(auto)]

// The five allowances that a book is opened with.
#[derive(Clone, Copy, Debug, PartialEq, Eq)]
pub struct Allowances {
    pub guids: u64,
    pub groups: u64,
    pub fields: u64,
    pub text: u64,
    pub literals: u64,
}

// The answer of a run: its count, or the GUID of `load_object`; and the position after it, in bits.
#[derive(Clone, Copy, Debug, PartialEq, Eq)]
pub struct Ran {
    pub count: u32,
    pub pos: u32,
}

// The seven counts of a block, with the names of checkpoint.rs. Fields are counted in 64 bits, because 100,000 groups of 65,536 slots have
// more than 2^32.
#[derive(Clone, Copy, Debug, PartialEq, Eq)]
pub struct CheckpointTables {
    pub guid_count: u32,
    pub group_count: u32,
    pub exported_fields: u64,
    pub frame_offset: u32,
    pub indexed_paths: u32,
    pub literal_paths: u32,
    pub resolved_path_indices: u32,
}
