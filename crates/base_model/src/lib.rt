// What a list and a base are, as definitions: see specs/.
#![tactic(auto)]
