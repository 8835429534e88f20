// The changes of an item table from which every grant and release is made.
#![tactic(auto)]

ghost use Rattle.std.specs.Prelude.{◌≡◌};
ghost use Rattle.std.specs.Fn.{FnOnceReturnsAtMut};
ghost use Rattle.rows.specs.Prelude.{item_capacity, item_at, change_item, with_item_prev, with_prev_free, with_next_free, Below, Linked};
ghost use Rattle.rows.specs.declared.item.ItemRow.{ItemRow};
ghost use Rattle.pool.specs.Pool.{added_item, item_freed};
ghost use Rattle.item_edits.specs.ItemEdits.{with_links, with_span, mark_live, mark_free, lone_item, unlist_row, unlist, relist, enlist, first_after, rest_of, split_item};
ghost use Rattle.item_edits.specs.ItemEdits.{join_next};

use numbers::index::{ItemIndex, ShelfIndex};
use pool::Added;
use rows::header::Header;
use rows::item;
use rows::item::ItemRow;
use rows::row::Row;

// ---- one row changed, or none where the link names none

// The row is what f makes of it.
fn change<F: FnOnce(&mut ItemRow)>(items: &mut [u16], at: ItemIndex, f: F)
    requires { Below (item_capacity items.old) at.0 × F.IsAlwaysCallable f }
    ensures { (g : ItemRow → ItemRow) → ((v r : ItemRow) → FnOnceReturnsAtMut F.FnOnce f v tt r → r ≡ g v) → items.new ≡ change_item items.old at g }
{
    let mut v = item::linked_item(items, at);
    f(&mut v);
    item::put_linked_item(items, at, v);
}

pub fn set_prev(items: &mut [u16], at: ItemIndex, prev: ItemIndex)
    requires { Below (item_capacity items.old) at.0 }
    ensures { items.new ≡ change_item items.old at (with_item_prev prev) }
{
    change(items, at, |v| v.prev = prev);
}

pub fn set_prev_unallocated(items: &mut [u16], at: ItemIndex, prev: ItemIndex)
    requires { Below (item_capacity items.old) at.0 }
    ensures { items.new ≡ change_item items.old at (with_prev_free prev) }
{
    change(items, at, |v| v.prev_unallocated = prev);
}

pub fn set_next_unallocated(items: &mut [u16], at: ItemIndex, next: ItemIndex)
    requires { Below (item_capacity items.old) at.0 }
    ensures { items.new ≡ change_item items.old at (with_next_free next) }
{
    change(items, at, |v| v.next_unallocated = next);
}

pub fn set_links(items: &mut [u16], at: ItemIndex, prev: ItemIndex, next: ItemIndex)
    requires { Below (item_capacity items.old) at.0 }
    ensures { items.new ≡ change_item items.old at (with_links prev next) }
{
    change(items, at, |v| {
        v.prev_unallocated = prev;
        v.next_unallocated = next;
    });
}

pub fn set_span(items: &mut [u16], at: ItemIndex, width: u16, next: ItemIndex)
    requires { Below (item_capacity items.old) at.0 }
    ensures { items.new ≡ change_item items.old at (with_span width next) }
{
    change(items, at, |v| {
        v.width = width;
        v.next = next;
    });
}

pub fn mark_live(items: &mut [u16], at: ItemIndex)
    requires { Below (item_capacity items.old) at.0 }
    ensures { items.new ≡ change_item items.old at mark_live }
{
    change(items, at, |v| {
        v.prev_unallocated = ItemIndex::NONE;
        v.next_unallocated = ItemIndex::NONE;
        v.allocated = 1;
    });
}

pub fn mark_free(items: &mut [u16], at: ItemIndex)
    requires { Below (item_capacity items.old) at.0 }
    ensures { items.new ≡ change_item items.old at mark_free }
{
    change(items, at, |v| v.allocated = 0);
}

// A free item that has its shelf to itself.
pub fn lone_item(x: u16, width: u16, shelf: ShelfIndex) -> ItemRow
    ensures { result ≡ lone_item x width shelf }
{
    ItemRow {
        x,
        width,
        prev: ItemIndex::NONE,
        next: ItemIndex::NONE,
        prev_unallocated: ItemIndex::NONE,
        next_unallocated: ItemIndex::NONE,
        shelf,
        ..ItemRow::zero()
    }
}

// ---- a shelf's free list

// A row with these links leaves its free list.
pub fn unlist_row(items: &mut [u16], i: ItemRow)
    requires { Linked (item_capacity items.old) i }
    ensures { items.new ≡ unlist_row items.old i }
{
    let prev = i.prev_unallocated;
    let next = i.next_unallocated;
    set_next_unallocated(items, prev, next);
    set_prev_unallocated(items, next, prev);
}

// The row leaves its free list.
pub fn unlist(items: &mut [u16], at: ItemIndex)
    requires { Below (item_capacity items.old) at.0 × Linked (item_capacity items.old) (item_at items.old at) }
    ensures { items.new ≡ unlist items.old at }
{
    let i = item::linked_item(items, at);
    unlist_row(items, i);
}

// Another row, which has the links of row i, is in its place.
pub fn relist(items: &mut [u16], i: ItemRow, new: ItemIndex)
    requires { Linked (item_capacity items.old) i }
    ensures { items.new ≡ relist items.old i new }
{
    let prev = i.prev_unallocated;
    let next = i.next_unallocated;
    set_next_unallocated(items, prev, new);
    set_prev_unallocated(items, next, new);
}

// The row is put in front of the one that is first so far.
pub fn enlist(items: &mut [u16], first: ItemIndex, at: ItemIndex)
    requires { Below (item_capacity items.old) first.0 × Below (item_capacity items.old) at.0 }
    ensures { items.new ≡ enlist items.old first at }
{
    set_prev_unallocated(items, first, at);
    set_links(items, at, ItemIndex::NONE, first);
}

// The first row of a free list in which another row, or what follows it, has taken the place of `at`.
pub fn first_after(first: ItemIndex, at: ItemIndex, new: ItemIndex) -> ItemIndex
    ensures { result ≡ first_after first at new }
{
    if first == at {
        return new;
    }
    first
}

// ---- an item in two, and two in one

// What is left of item i, which lies in row `at`, after the first `width` of it. It keeps the item's links in the free list.
pub fn rest_of(i: ItemRow, at: ItemIndex, width: u16) -> ItemRow
    ensures { result ≡ rest_of i at width }
{
    ItemRow {
        x: i.x.wrapping_add(width),
        width: i.width.wrapping_sub(width),
        prev: at,
        allocated: 0,
        ..i
    }
}

// Item i, which lies in row `at`, keeps `width`; the rest, free, goes into a new row.
pub fn split_item(
    h: Header,
    items: &mut [u16],
    at: ItemIndex,
    i: ItemRow,
    width: u16,
) -> Added<ItemIndex>
    requires { Below (item_capacity items.old) at.0 × Linked (item_capacity items.old) i }
    ensures { (result ≡ added_item items.old h) × (items.new ≡ split_item h items.old at i width) }
{
    let next = i.next;
    let added = pool::add_item(h, items, rest_of(i, at, width));
    let new = added.idx;
    set_span(items, at, width, new);
    set_prev(items, next, new);
    added
}

// The next item is merged into this one, and its row freed.
pub fn join_next(h: Header, items: &mut [u16], at: ItemIndex) -> Header
    requires { Below (item_capacity items.old) at.0 × Linked (item_capacity items.old) (item_at items.old at)
        × Linked (item_capacity items.old) (item_at items.old (item_at items.old at).next) }
    ensures { (result ≡ item_freed h (item_at items.old at).next) × (items.new ≡ join_next h items.old at) }
{
    let v = item::linked_item(items, at);
    let next = v.next;
    let n = item::linked_item(items, next);
    let after = n.next;
    set_span(items, at, v.width.wrapping_add(n.width), after);
    set_prev(items, after, at);
    pool::remove_item(h, items, next)
}
