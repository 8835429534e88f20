// Rows of the two tables taken into use and given back. The header goes in and out by value.
#![tactic(auto)]

ghost use Rattle.std.specs.Prelude.{◌≡◌, ◌+◌, ◌≤◌};
ghost use Rattle.pool.specs.Pool.{add_item, added_item, remove_item, item_freed, add_shelf, added_shelf, remove_shelf, remove_shelf_item, shelf_freed, FreedItem};
ghost use Rattle.pool.specs.Pool.{FreedShelf};
ghost use Rattle.numbers.specs.Prelude.{Decides};

use numbers::index::{ItemIndex, ShelfIndex};
use rows::header::Header;
use rows::item;
use rows::item::ItemRow;
use rows::row::Row;
use rows::shelf::ShelfRow;

// The row that was taken, and the header after it.
#[derive(Clone, Copy)]
pub struct Added<I> {
    pub idx: I,
    pub header: Header,
}

// A row for v: the latest freed one, with its generation plus one, or the next unused one, with generation 1.
pub fn add_item(h: Header, items: &mut [u16], v: ItemRow) -> Added<ItemIndex>
    ensures { (result ≡ added_item items.old h) × (items.new ≡ add_item items.old h v) }
{
    let mut header = h;
    let mut w = v;
    let head = h.free_items;
    if head.is_none() {
        let idx = ItemIndex(h.used_items);
        w.generation = 1;
        w.put(items, idx);
        header.used_items = h.used_items.wrapping_add(1);
        return Added { idx, header };
    }
    let old = ItemRow::get(items, head);
    w.generation = old.generation.wrapping_add(1);
    w.put(items, head);
    let next = old.next;
    header.free_items = next;
    Added { idx: head, header }
}

// Row idx becomes the latest freed one: zero but for the one freed before it and its generation.
pub fn remove_item(h: Header, items: &mut [u16], idx: ItemIndex) -> Header
    ensures { (result ≡ item_freed h idx) × (items.new ≡ remove_item items.old h idx) }
{
    let old = ItemRow::get(items, idx);
    let mut v = ItemRow::zero();
    let next = h.free_items;
    v.next = next;
    v.generation = old.generation;
    v.put(items, idx);
    let mut header = h;
    header.free_items = idx;
    header
}

// A row for v: the latest freed one, or the next unused one.
pub fn add_shelf(h: Header, shelves: &mut [u16], v: ShelfRow) -> Added<ShelfIndex>
    ensures { (result ≡ added_shelf shelves.old h) × (shelves.new ≡ add_shelf shelves.old h v) }
{
    let mut header = h;
    let head = h.free_shelves;
    if head.is_none() {
        let idx = ShelfIndex(h.used_shelves);
        v.put(shelves, idx);
        header.used_shelves = h.used_shelves.wrapping_add(1);
        return Added { idx, header };
    }
    let old = ShelfRow::get(shelves, head);
    v.put(shelves, head);
    let next = old.next;
    header.free_shelves = next;
    Added { idx: head, header }
}

// The row of the shelf's first item becomes the latest freed item row, and row idx the latest freed shelf row, zero but for next.
pub fn remove_shelf(h: Header, shelves: &mut [u16], items: &mut [u16], idx: ShelfIndex) -> Header
    ensures { (result ≡ shelf_freed shelves.old h idx)
        × (shelves.new ≡ remove_shelf shelves.old h idx)
        × (items.new ≡ remove_shelf_item shelves.old items.old h idx) }
{
    let old = ShelfRow::get(shelves, idx);
    let first = old.first_item;
    let mut header = remove_item(h, items, first);
    let mut v = ShelfRow::zero();
    let next = h.free_shelves;
    v.next = next;
    v.put(shelves, idx);
    header.free_shelves = idx;
    header
}

// Four numbers together.
fn sum(a: u16, b: u16, c: u16, d: u16) -> u32
    ensures { (result ≡ a + b + c + d) × (result ≤ 262140) }
{
    a as u32 + b as u32 + c as u32 + d as u32
}

// Whether a row is as a freed one is left: zero but for next and generation. Numbers that stand side by side are compared at once.
pub fn is_freed_item(v: ItemRow) -> bool
    ensures { Decides result (FreedItem v) }
{
    if v.x as u32 + v.width as u32 * 65536 != 0 {
        return false;
    }
    if v.prev.0 != 0 {
        return false;
    }
    item::tail_of(v) == 0
}

// The same of a shelf, which has no generation.
pub fn is_freed_shelf(v: ShelfRow) -> bool
    ensures { Decides result (FreedShelf v) }
{
    let place = sum(v.x, v.y, v.height, v.is_empty);
    let links = sum(v.prev.0, v.first_item.0, v.first_unallocated.0, 0);
    place + links == 0
}
