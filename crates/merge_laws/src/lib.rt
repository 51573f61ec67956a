// No code: the laws of one file out of two, of the records of both and of the call.
#![tactic(auto)]
