// An empty shelf split in two, and two shelves merged.
#![tactic(auto)]

ghost use Rattle.std.specs.Prelude.{◌≡◌, ◌<◌};
ghost use Rattle.std.specs.Fn.{FnOnceReturnsAtMut};
ghost use Rattle.rows.specs.Prelude.{shelf_capacity, change_shelf, with_shelf_prev};
ghost use Rattle.rows.specs.declared.shelf.ShelfRow.{ShelfRow};
ghost use Rattle.pool.specs.Pool.{new_item};
ghost use Rattle.rows.specs.State.{state, state_of, StillLent};
ghost use Rattle.shelf_edits.specs.ShelfEdits.{with_reach, with_free, lower_of, split_shelf, join_shelves, merge_shelves};

use numbers::index::{ItemIndex, ShelfIndex};
use rows::header::Header;
use rows::row::Row;
use rows::shelf::ShelfRow;
use rows::tables::Tables;

// ---- one row changed

// The row is what f makes of it; nothing changes where the table has no such row.
fn change<F: FnOnce(&mut ShelfRow)>(shelves: &mut [u16], at: ShelfIndex, f: F)
    requires { F.IsAlwaysCallable f }
    ensures { (g : ShelfRow → ShelfRow) → ((s r : ShelfRow) → FnOnceReturnsAtMut F.FnOnce f s tt r → r ≡ g s) → shelves.new ≡ change_shelf shelves.old at g }
{
    let mut s = ShelfRow::get(shelves, at);
    f(&mut s);
    s.put(shelves, at);
}

pub fn set_shelf_prev(shelves: &mut [u16], at: ShelfIndex, prev: ShelfIndex)
    ensures { shelves.new ≡ change_shelf shelves.old at (with_shelf_prev prev) }
{
    change(shelves, at, |s| s.prev = prev);
}

pub fn set_reach(shelves: &mut [u16], at: ShelfIndex, height: u16, next: ShelfIndex)
    ensures { shelves.new ≡ change_shelf shelves.old at (with_reach height next) }
{
    change(shelves, at, |s| {
        s.height = height;
        s.next = next;
    });
}

// The table has this row: its length is not tested.
pub fn set_free(shelves: &mut [u16], at: ShelfIndex, first: ItemIndex, empty: u16)
    requires { at.0 < shelf_capacity shelves.old }
    ensures { shelves.new ≡ change_shelf shelves.old at (with_free first empty) }
{
    let mut s = ShelfRow::there(shelves, at);
    s.first_unallocated = first;
    s.is_empty = empty;
    s.put_there(shelves, at);
}

// ---- a shelf in two

// The row that the next new item gets.
pub fn next_item(h: Header) -> ItemIndex
    ensures { result ≡ new_item h }
{
    let head = h.free_items;
    if head.is_none() {
        return ItemIndex(h.used_items);
    }
    head
}

// What is left of shelf s, which lies in row `at`, below its first `depth`: empty, with this item.
pub fn lower_of(s: ShelfRow, at: ShelfIndex, depth: u16, item: ItemIndex) -> ShelfRow
    ensures { result ≡ lower_of s at depth item }
{
    ShelfRow {
        y: s.y.wrapping_add(depth),
        height: s.height.wrapping_sub(depth),
        prev: at,
        first_item: item,
        first_unallocated: item,
        is_empty: 1,
        ..s
    }
}

// Shelf s, which lies in row `at`, keeps `depth`; a new empty one, which has its shelf row and item row taken in this order, follows it.
pub fn split_shelf(t: &mut Tables, at: ShelfIndex, s: ShelfRow, depth: u16)
    ensures is { state_of t.new ≡ split_shelf (state_of t.old) at s depth }
    ensures lent { StillLent t.old t.new }
{
    let item = next_item(t.header);
    let added = pool::add_shelf(t.header, t.shelves, lower_of(s, at, depth, item));
    let row = item_edits::lone_item(s.x, t.header.limits.shelf_width, added.idx);
    let taken = pool::add_item(added.header, t.items, row);
    t.header = taken.header;
    set_reach(t.shelves, at, depth, added.idx);
    set_shelf_prev(t.shelves, s.next, added.idx);
}

// ---- two shelves in one

// The shelf in row `at` leaves the chain, and `above`, which it follows, gets its depth.
pub fn join_shelves(shelves: &mut [u16], above: ShelfIndex, at: ShelfIndex)
    ensures { shelves.new ≡ join_shelves shelves.old above at }
{
    let a = ShelfRow::get(shelves, above);
    let s = ShelfRow::get(shelves, at);
    let next = s.next;
    set_reach(shelves, above, a.height.wrapping_add(s.height), next);
    set_shelf_prev(shelves, next, above);
}

// Then its item row is freed, and its shelf row. The header goes by value: few releases come here, and the others keep it in registers.
pub fn merge_shelves(
    h: Header,
    shelves: &mut [u16],
    items: &mut [u16],
    above: ShelfIndex,
    at: ShelfIndex,
) -> Header
    ensures { state result shelves.new items.new ≡ merge_shelves (state h shelves.old items.old) above at }
{
    join_shelves(shelves, above, at);
    pool::remove_shelf(h, shelves, items, at)
}
