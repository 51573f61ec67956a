// The rules of a row of blocks as definitions: see specs/. Of code there is only the length of a report.
#![tactic(auto)]

// The report of a row that is tried.
pub const REPORT_BYTES: usize = 4116;
