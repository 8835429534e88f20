// The header: the eleven numbers that an atlas keeps beside its two tables, in document 01's order.
ghost use Rattle.std.specs.Prelude.{◌≡◌};
ghost use Rattle.rows.specs.Header.{zero_header};

use numbers::index::{ItemIndex, ShelfIndex};
use numbers::limits::Limits;

#[derive(Clone, Copy)]
pub struct Header {
    pub limits: Limits,
    pub used_shelves: u16,
    pub used_items: u16,
    pub free_items: ItemIndex,
    pub free_shelves: ShelfIndex,
    pub occupied: u32,
}

// The header of a refused create: all zero, and no atlas.
pub fn no_header() -> Header
    ensures { result ≡ zero_header }
{
    Header {
        limits: Limits {
            width: 0,
            height: 0,
            align_width: 0,
            align_height: 0,
            vertical: 0,
            shelf_width: 0,
        },
        used_shelves: 0,
        used_items: 0,
        free_items: ItemIndex(0),
        free_shelves: ShelfIndex(0),
        occupied: 0,
    }
}
