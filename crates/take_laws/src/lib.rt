// Laws of taking records, on the definitions alone: see proofs/.
#![tactic(auto)]
