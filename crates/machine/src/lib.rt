// No code: the plain machine of demand 3, and the claim about every list of calls.
#![tactic(auto)]
