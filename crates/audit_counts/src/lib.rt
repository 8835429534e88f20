// What the audit's walks decide and count, as the code hands it on. The crate has no function: its definitions and theorems say what the counts are, and
// why rules 5 to 7 follow from them.
#![tactic(auto)]

// The items of a shelf that are right: how many they are, how many of them are free, how wide the live ones are together, and how far the free links of
// the live ones are from none.
#[derive(Clone, Copy)]
pub struct Tally {
    pub count: u32,
    pub free: u32,
    pub live: u32,
    pub stray: u64,
}

// The same of all the shelves, with the number of shelves, and the live area in place of the width.
#[derive(Clone, Copy)]
pub struct Totals {
    pub shelves: u32,
    pub items: u32,
    pub free: u32,
    pub stray: u64,
    pub area: u64,
}
