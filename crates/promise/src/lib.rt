// Demand 3: what holds over any run of allocate, release, look-up, list and clear. No code.
#![tactic(auto)]
