// The rules of the archive as definitions: see specs/. Of code there are only the lengths, as in specs/Lengths.antt.
#![tactic(auto)]

// A record, and a wish.
pub const RECORD_BYTES: usize = 80;

// A block.
pub const BLOCK_BYTES: usize = 512;

// A log.
pub const LOG_BYTES: usize = 40960;

// A file lent for writing.
pub const FILE_BYTES: usize = 44032;

// The tree table.
pub const TREE_BYTES: usize = 86020;

// A list and a base.
pub const BASE_BYTES: usize = 43032;

// The most records of a log.
pub const LOG_PLACES: usize = 512;

// The most entries of a base, and the most asides.
pub const BASE_PLACES: usize = 512;
