// The answers of the script program as text in a lent buffer. No table is read here.
#![tactic(auto)]

pub mod answer;
pub mod text;
