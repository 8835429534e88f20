// Live items: whether an id names one, what an answer tells of one, its area, and the live rows by rising row.
#![tactic(auto)]

ghost use Rattle.std.specs.Prelude.{◌≡◌, ◌≤◌, ◌<◌, ◌*◌};
ghost use Rattle.rows.specs.Prelude.{item_capacity, item_at, shelf_capacity, shelf_at_of};
ghost use Rattle.live_rows.specs.Live.{is_live_of, live_of_rows, live_at, area_at, is_vacant, live_one, live_count};

use numbers::index::ItemIndex;
use rows::header::Header;
use rows::item::ItemRow;
use rows::live::Live;
use rows::row::Row;
use rows::shelf::ShelfRow;

// The row is used, and holds a live item of this generation.
pub fn is_live(h: Header, items: &[u16], row: u16, generation: u16) -> bool
    requires { h.used_items ≤ item_capacity items.now }
    ensures { result ≡ is_live_of h items.now row generation }
{
    if h.used_items <= row {
        return false;
    }
    let v = ItemRow::there(items, ItemIndex(row));
    v.allocated == 1 && v.generation == generation
}

// The id of item i, which lies in this row on shelf s, and its rectangle.
pub fn live_of_rows(h: Header, s: ShelfRow, i: ItemRow, row: u16) -> Live
    ensures { result ≡ live_of_rows h s i row }
{
    let along = i.x.wrapping_add(i.width);
    let deep = s.y.wrapping_add(s.height);
    if h.limits.vertical == 1 {
        return Live {
            row,
            generation: i.generation,
            x0: s.y,
            y0: i.x,
            x1: deep,
            y1: along,
        };
    }
    Live {
        row,
        generation: i.generation,
        x0: i.x,
        y0: s.y,
        x1: along,
        y1: deep,
    }
}

// The same of an item that has been read; its shelf is there.
pub fn live_of_item(h: Header, shelves: &[u16], i: ItemRow, row: u16) -> Live
    requires { i.shelf.0 < shelf_capacity shelves.now }
    ensures { result ≡ live_of_rows h (shelf_at_of shelves.now i.shelf) i row }
{
    live_of_rows(h, ShelfRow::there(shelves, i.shelf), i, row)
}

pub fn live_at(h: Header, shelves: &[u16], items: &[u16], row: u16) -> Live
    requires { (row < item_capacity items.now) × ((item_at items.now (record { 0 = row })).shelf.0 < shelf_capacity shelves.now) }
    ensures { result ≡ live_at h shelves.now items.now row }
{
    let i = ItemRow::there(items, ItemIndex(row));
    live_of_item(h, shelves, i, row)
}

// The area of item i, which lies on shelf s.
pub fn area_of_rows(s: ShelfRow, i: ItemRow) -> u32
    ensures { result ≡ i.width * s.height }
{
    wrap::area(i.width, s.height)
}

// The area of the item in row `at`.
pub fn area_at(shelves: &[u16], items: &[u16], at: ItemIndex) -> u32
    requires { (at.0 < item_capacity items.now) × ((item_at items.now at).shelf.0 < shelf_capacity shelves.now) }
    ensures { result ≡ area_at shelves.now items.now at }
{
    let i = ItemRow::there(items, at);
    let s = ShelfRow::there(shelves, i.shelf);
    area_of_rows(s, i)
}

// No item is live: a live one has some area.
pub fn is_vacant(h: Header) -> bool
    ensures { result ≡ is_vacant h }
{
    h.occupied == 0
}

// 1 where the row is live, else 0.
fn live_one(items: &[u16], row: u16) -> u16
    requires { row < item_capacity items.now }
    ensures { result ≡ live_one items.now row }
{
    let v = ItemRow::there(items, ItemIndex(row));
    u16::from(v.allocated == 1)
}

// How many used rows are live.
pub fn live_count(items: &[u16], used: u16) -> u16
    requires { used ≤ item_capacity items.now }
    ensures { result ≡ live_count items.now used }
{
    let mut count: u16 = 0;
    for row in 0..used {
        count += live_one(items, row);
    }
    count
}
