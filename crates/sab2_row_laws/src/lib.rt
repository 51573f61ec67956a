// Laws of list and base as rows: see proofs/. No code.
#![tactic(auto)]
