// Laws of what a run of records leaves: entries that are present, and asides; no code.
#![tactic(auto)]
