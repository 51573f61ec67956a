// The claims about the code itself: see specs/ and proofs/. There is no code here.
#![tactic(auto)]
