// No code: laws of the index of a sound state.
#![tactic(auto)]
