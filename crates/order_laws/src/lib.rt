// Laws of another maker's order: see proofs/Claims.antt. No code.
#![tactic(auto)]
