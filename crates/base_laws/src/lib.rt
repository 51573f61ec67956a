// Laws of a sound base; no code.
#![tactic(auto)]
