// Laws of acts, on the definitions alone: see proofs/.
#![tactic(auto)]
