// A wrong content mark stays small: laws; no code.
#![tactic(auto)]
