// No code: laws of folding. A log on a base, what a fold leaves, and what units that fold hold and pass on.
#![tactic(auto)]
