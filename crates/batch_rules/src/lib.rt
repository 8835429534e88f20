// What a batch is asked and tells, as rows of two lent lists of numbers, and what it promises. The call is the crate batch.
#![tactic(auto)]

pub mod told;
pub mod values;
