// Laws of the checks of a file's list and base, records and vector: see proofs/. No code.
#![tactic(auto)]
