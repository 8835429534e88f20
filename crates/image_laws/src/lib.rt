// What follows from the promises of save and load. No code.
#![tactic(auto)]
