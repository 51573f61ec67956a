// No code: the claims of the ordered index. See specs/ and proofs/.
#![tactic(auto)]
