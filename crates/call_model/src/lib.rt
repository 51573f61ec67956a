// What each call answers and leaves, as definitions: see specs/.
#![tactic(auto)]
