// No code: what a sound log means, and the laws of its records and their order.
#![tactic(auto)]
