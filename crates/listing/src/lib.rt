// The public call that lists the live items. It changes nothing but the list that it is lent.
#![tactic(auto)]

pub mod list;
