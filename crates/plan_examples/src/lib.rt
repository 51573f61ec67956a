// Examples of plans that take longer to compute: events and blocks in turn, all lengths lent. See specs/. No code.
#![tactic(auto)]
