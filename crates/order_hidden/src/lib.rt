// Another maker's order: what an accepted one leaves of what no listing shows. See proofs/Claims.antt. No code.
#![tactic(auto)]
