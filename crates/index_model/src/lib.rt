// The rules of the ordered index as definitions: see specs/. Of code there are only its length and how many rows it has room for.
#![tactic(auto)]

// The index.
pub const INDEX_BYTES: usize = 40964;

// The most rows of an index.
pub const INDEX_PLACES: usize = 1024;
