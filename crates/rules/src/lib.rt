// The rules of document 01 have no code.
#![tactic(auto)]
