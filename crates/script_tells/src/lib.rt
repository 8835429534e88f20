// The commands of the script that change nothing: a line in, its answer out.
#![tactic(auto)]

pub mod list;
pub mod tell;
