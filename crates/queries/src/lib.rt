// The allocator's public calls that change nothing: neither the header, which is taken by value, nor the tables, which are lent. Every call asks
// nothing of its caller and audits what it is given once.
#![tactic(auto)]

pub mod tell;
