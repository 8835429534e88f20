// What follows from the rules: of tables that pass the audit, and of the shape that an atlas keeps. No code.
#![tactic(auto)]
