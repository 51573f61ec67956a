// Laws of what every call answers, keeps and leaves, on the definitions alone: see proofs/.
#![tactic(auto)]
