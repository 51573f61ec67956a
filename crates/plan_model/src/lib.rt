// Trying out a plan of visits as definitions: see specs/. Of code there are only the lengths.
#![tactic(auto)]

// Eight logs.
pub const ROUND_BYTES: usize = 327680;

// What is printed of a plan, at the most.
pub const PLAN_TEXT_BYTES: usize = 1024;

// An event.
pub const EVENT_BYTES: usize = 84;

// The most blocks of a plan.
pub const PLAN_BLOCKS: usize = 4096;
