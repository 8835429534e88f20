// The header and the rows of the two lent tables, as values. Nothing above this crate sees an offset or the width of a row.
#![tactic(auto)]

pub mod header;
pub mod item;
pub mod live;
pub mod row;
pub mod shelf;
pub mod tables;
