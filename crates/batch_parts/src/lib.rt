// The parts of a batch: one request served.
#![tactic(auto)]

pub mod serve;
