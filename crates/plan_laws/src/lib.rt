// What holds of every plan of visits: see specs/ and proofs/. No code.
#![tactic(auto)]
