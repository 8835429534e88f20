// What a line asks for: a letter and as many numbers as it takes. What the numbers mean is judged later.
#[derive(Clone, Copy)]
pub struct CreateArgs {
    pub w: i32,
    pub h: i32,
    pub align_w: i32,
    pub align_h: i32,
    pub vertical: i32,
    pub columns: i32,
}

// What asks only to be told something.
#[derive(Clone, Copy)]
pub enum Tell {
    // Row and generation.
    Look(i32, i32),
    Space,
    List,
}

// What may change the tables.
#[derive(Clone, Copy)]
pub enum Change {
    Create(CreateArgs),
    // Width and height.
    Ask(i32, i32),
    // Row and generation.
    Release(i32, i32),
    Clear,
}

#[derive(Clone, Copy)]
pub enum Command {
    Tell(Tell),
    Change(Change),
}
