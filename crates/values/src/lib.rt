// The cases of document 01 that are marked P. It has no code.
#![tactic(auto)]
