// The numbers of document 01: indices, roundings, limits and thresholds. No table is read here.
#![tactic(auto)]

pub mod axes;
pub mod bands;
pub mod fit;
pub mod index;
pub mod limits;
pub mod refusal;
pub mod request;
pub mod round;
pub mod sides;
