// What create fixes of an atlas. The limits themselves are tested in the crate `limits`.

// The first six numbers of a header: what create fixes and no call changes.
#[derive(Clone, Copy)]
pub struct Limits {
    // W, the size along the shelves, and H, the size across them.
    pub width: u16,
    pub height: u16,
    pub align_width: u16,
    pub align_height: u16,
    pub vertical: u16,
    // S.
    pub shelf_width: u16,
}
