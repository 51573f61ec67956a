// The check of another maker's order as definitions: see specs/. Of code there is only the length of a name.
#![tactic(auto)]

// An identity in a list.
pub const NAME_BYTES: usize = 4;
