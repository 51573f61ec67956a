// Laws of the listing: its greatest length. No code.
#![tactic(auto)]
