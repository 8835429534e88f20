// The plan of a grant, made without a write: which shelf and item, their rows as they were read, which of them are split, and the rectangle; and
// whether the rows that are freed or unused suffice for the splits.
#![tactic(auto)]

ghost use Rattle.std.specs.Prelude.{◌≡◌, ◌-◌, ◌<◌, leb};
ghost use Rattle.numbers.specs.Prelude.{pick};
ghost use Rattle.rows.specs.Prelude.{item_capacity, shelf_capacity};
ghost use Rattle.plan.specs.Spare.{freed_shelves, freed_items, spare_shelves, count, enough_rows};
ghost use Rattle.plan.specs.Plan.{splits_shelf, splits_item, told, plan_at, has_rows};

use numbers::fit;
use numbers::index::{ItemIndex, ShelfIndex};
use numbers::request::Asked;
use rows::header::Header;
use rows::item::ItemRow;
use rows::live::Live;
use rows::row::Row;
use rows::shelf::ShelfRow;
use search::Place;

// What a grant writes, decided before it writes: `width` and `depth` are those of the rectangle, and `live` is what is told of it.
#[derive(Clone, Copy)]
pub struct Plan {
    pub shelf: ShelfIndex,
    pub item: ItemIndex,
    pub shelf_row: ShelfRow,
    pub item_row: ItemRow,
    pub shelf_split: bool,
    pub item_split: bool,
    pub width: u16,
    pub depth: u16,
    pub live: Live,
}

// ---- the rows left

// The rows that were never used.
fn unused(capacity: u16, used: u16) -> u32
    ensures { result ≡ capacity - used }
{
    u32::from(capacity.saturating_sub(used))
}

// The freed shelf rows, as far as they are asked for: one.
fn freed_shelves(h: Header) -> u32
    ensures { result ≡ freed_shelves h }
{
    u32::from(!h.free_shelves.is_none())
}

// The freed item rows, as far as they are asked for: two.
fn freed_items(h: Header, items: &[u16]) -> u32
    ensures { result ≡ freed_items h items.now }
{
    let head = h.free_items;
    if head.is_none() {
        return 0;
    }
    let v = ItemRow::get(items, head);
    if v.next.is_none() {
        return 1;
    }
    2
}

fn spare_shelves(h: Header, shelves: &[u16]) -> u32
    ensures { result ≡ spare_shelves h shelves.now }
{
    unused(ShelfRow::capacity(shelves), h.used_shelves) + freed_shelves(h)
}

// A shelf split takes a shelf row. Where there is none, no row is counted.
fn enough_shelves(h: Header, shelves: &[u16], split: bool) -> bool
    ensures { result ≡ leb (count split) (spare_shelves h shelves.now) }
{
    !split || 1 <= spare_shelves(h, shelves)
}

// A shelf split takes a row of each table, an item split an item row. Freed item rows are counted only where the unused ones are too few.
pub fn enough_rows(
    h: Header,
    shelves: &[u16],
    items: &[u16],
    shelf_split: bool,
    item_split: bool,
) -> bool
    ensures { result ≡ enough_rows h shelves.now items.now shelf_split item_split }
{
    if !enough_shelves(h, shelves, shelf_split) {
        return false;
    }
    let needed = u32::from(shelf_split) + u32::from(item_split);
    let never_used = unused(ItemRow::capacity(items), h.used_items);
    needed <= never_used || needed <= never_used + freed_items(h, items)
}

// ---- the plan

// An empty shelf is split where it is deep enough.
pub fn splits_shelf(asked: Asked, s: ShelfRow) -> bool
    ensures { result ≡ splits_shelf asked s }
{
    s.is_empty == 1 && fit::splits_shelf(asked.depth, s.height)
}

pub fn splits_item(asked: Asked, i: ItemRow) -> bool
    ensures { result ≡ splits_item asked i }
{
    fit::splits_item(asked.width, i.width)
}

// What a part or the whole measures.
fn granted_side(split: bool, asked: u16, whole: u16) -> u16
    ensures { result ≡ pick split asked whole }
{
    if split {
        return asked;
    }
    whole
}

// The id and the rectangle of what is granted of item i on shelf s.
fn told(h: Header, s: ShelfRow, i: ItemRow, row: u16, width: u16, depth: u16) -> Live
    ensures { result ≡ told h s i row width depth }
{
    live_rows::live_of_rows(
        h,
        ShelfRow { height: depth, ..s },
        ItemRow { width, ..i },
        row,
    )
}

// The plan at a place whose two rows are there: each is read once.
pub fn plan_at(h: Header, shelves: &[u16], items: &[u16], p: Place, asked: Asked) -> Plan
    requires { (p.shelf.0 < shelf_capacity shelves.now) × (p.item.0 < item_capacity items.now) }
    ensures { result ≡ plan_at h shelves.now items.now p asked }
{
    let shelf = p.shelf;
    let item = p.item;
    let shelf_row = ShelfRow::there(shelves, shelf);
    let item_row = ItemRow::there(items, item);
    let shelf_split = splits_shelf(asked, shelf_row);
    let item_split = splits_item(asked, item_row);
    let width = granted_side(item_split, asked.width, item_row.width);
    let depth = granted_side(shelf_split, asked.depth, shelf_row.height);
    let live = told(h, shelf_row, item_row, item.0, width, depth);
    Plan {
        shelf,
        item,
        shelf_row,
        item_row,
        shelf_split,
        item_split,
        width,
        depth,
        live,
    }
}

// The rows left suffice for the plan. Where nothing is split, none is needed, and where the item alone is, a freed one is enough.
pub fn has_rows(h: Header, shelves: &[u16], items: &[u16], p: Plan) -> bool
    ensures { result ≡ has_rows h shelves.now items.now p }
{
    if !p.shelf_split && (!p.item_split || !h.free_items.is_none()) {
        return true;
    }
    enough_rows(h, shelves, items, p.shelf_split, p.item_split)
}
