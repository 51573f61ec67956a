// Laws of rows of blocks: see specs/ and proofs/. No code.
#![tactic(auto)]
