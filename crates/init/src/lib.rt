// Create and clear: the first rows of both tables written, and the header of a fresh atlas.
#![tactic(auto)]

ghost use Rattle.std.specs.Prelude.{◌≡◌};
ghost use Rattle.init.specs.Init.{row_before, row_after, fresh_shelf_row, fresh_item_row, fresh_shelf_table, fresh_item_table, fresh_header};

use numbers::index::{ItemIndex, ShelfIndex};
use numbers::limits::Limits;
use rows::header::Header;
use rows::item::ItemRow;
use rows::row::Row;
use rows::shelf::ShelfRow;

// The shelf before shelf k.
fn shelf_before(k: u16) -> ShelfIndex
    ensures { result ≡ record { 0 = row_before k } }
{
    if k == 0 {
        return ShelfIndex::NONE;
    }
    ShelfIndex(k - 1)
}

// The shelf after shelf k of n.
fn shelf_after(n: u16, k: u16) -> ShelfIndex
    ensures { result ≡ record { 0 = row_after n k } }
{
    if (k as u32) + 1 < n as u32 {
        return ShelfIndex(k + 1);
    }
    ShelfIndex::NONE
}

// Shelf k of n: as deep as the atlas and empty, with its item in row k.
pub fn fresh_shelf(limits: Limits, n: u16, k: u16) -> ShelfRow
    ensures { result ≡ fresh_shelf_row limits n k }
{
    ShelfRow {
        x: k.wrapping_mul(limits.shelf_width),
        y: 0,
        height: limits.height,
        prev: shelf_before(k),
        next: shelf_after(n, k),
        first_item: ItemIndex(k),
        first_unallocated: ItemIndex(k),
        is_empty: 1,
    }
}

pub fn fresh_item(limits: Limits, k: u16) -> ItemRow
    ensures { result ≡ fresh_item_row limits k }
{
    let x = k.wrapping_mul(limits.shelf_width);
    ItemRow {
        generation: 1,
        ..item_edits::lone_item(x, limits.shelf_width, ShelfIndex(k))
    }
}

// Rows 0 to n - 1 of both tables hold the n fresh shelves and their items.
pub fn init(shelves: &mut [u16], items: &mut [u16], limits: Limits, n: u16)
    ensures { (shelves.new ≡ fresh_shelf_table limits n shelves.old)
        × (items.new ≡ fresh_item_table limits n items.old) }
{
    for k in 0..n {
        fresh_shelf(limits, n, k).put(shelves, ShelfIndex(k));
        fresh_item(limits, k).put(items, ItemIndex(k));
    }
}

// The header of an atlas of n columns in which nothing is granted.
pub fn fresh_header(limits: Limits, n: u16) -> Header
    ensures { result ≡ fresh_header limits n }
{
    Header {
        limits,
        used_shelves: n,
        used_items: n,
        free_items: ItemIndex::NONE,
        free_shelves: ShelfIndex::NONE,
        occupied: 0,
    }
}
