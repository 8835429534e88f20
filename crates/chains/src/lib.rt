// The theory of chains has no code.
#![tactic(auto)]
