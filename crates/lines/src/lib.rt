// A line of the script program into a command. No table is read here.
#![tactic(auto)]

pub mod command;
pub mod ids;
pub mod read;
