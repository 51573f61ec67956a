// Examples of whole files of either form, with their sums: see specs/. No code.
#![tactic(auto)]
