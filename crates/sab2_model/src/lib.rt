// The SAB2 file as definitions: see specs/. Of code there are only two lengths.
#![tactic(auto)]

// An SAB2 file lent for writing: 186 blocks.
pub const SAB2_BYTES: usize = 95232;

// The text of a listing of either form.
pub const LISTING_BYTES: usize = 172544;
