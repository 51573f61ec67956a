// No code: the laws of logs and files as bytes, and what each call leaves of a log.
#![tactic(auto)]
