// What the public calls answer, and what each of them promises. The calls are the crates create, allocate, release, queries and listing.
#![tactic(auto)]

pub mod answers;
