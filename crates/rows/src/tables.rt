// An atlas as it is stored: its header, and the two tables that were lent for it.
ghost use Rattle.std.specs.Prelude.{◌≡◌, ◌<◌};
ghost use Rattle.rows.specs.Item.{item_capacity, item_at};
ghost use Rattle.rows.specs.Shelf.{shelf_capacity, shelf_at_of};

use crate::header::Header;
use crate::item::ItemRow;
use crate::row::Row;
use crate::shelf::ShelfRow;
use numbers::index::{ItemIndex, ShelfIndex};

#[derive(Drop)]
pub struct Tables<'a> {
    pub header: Header,
    pub shelves: &'a mut [u16],
    pub items: &'a mut [u16],
}

impl Tables<'_> {
    // The shelf at an index; zeros where the table has no such row.
    pub fn shelf(&self, at: ShelfIndex) -> ShelfRow
        ensures { result ≡ shelf_at_of self.now.shelves.now at }
    {
        ShelfRow::get(self.shelves, at)
    }

    // The shelf at an index that the table has.
    pub fn shelf_there(&self, at: ShelfIndex) -> ShelfRow
        requires { at.0 < shelf_capacity self.now.shelves.now }
        ensures { result ≡ shelf_at_of self.now.shelves.now at }
    {
        ShelfRow::there(self.shelves, at)
    }

    // The item at an index that the table has.
    pub fn item_there(&self, at: ItemIndex) -> ItemRow
        requires { at.0 < item_capacity self.now.items.now }
        ensures { result ≡ item_at self.now.items.now at }
    {
        ItemRow::there(self.items, at)
    }
}
