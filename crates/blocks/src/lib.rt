// Blocks of saved form 1, in lent bytes: one block written or judged, and all the blocks of a kind.
#![tactic(auto)]

pub mod block;
