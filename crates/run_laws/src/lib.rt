// Laws of runs of blocks with any letters, and of the blocks of a file of either form: see proofs/. No code.
#![tactic(auto)]
