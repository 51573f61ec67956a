// Laws of the SAB2 file: written and read back, read and written again, conversions, refusals: see proofs/. No code.
#![tactic(auto)]
