// The steps on tables refine the rules; no code.
#![tactic(auto)]
