// Blocks with any letters, and runs of them, as definitions: see specs/. No code.
#![tactic(auto)]
