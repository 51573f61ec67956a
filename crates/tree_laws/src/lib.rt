// Laws of the replay; no code.
#![tactic(auto)]
