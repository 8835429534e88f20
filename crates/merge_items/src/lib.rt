// A live item made free, and merged with its free neighbours in the shelf.
#![tactic(auto)]

ghost use Rattle.std.specs.Prelude.{◌≡◌};
ghost use Rattle.rows.specs.Prelude.{item_capacity, Below};
ghost use Rattle.merge_items.specs.LooseIn.{Loosens};
ghost use Rattle.merge_items.specs.MergeItems.{loose, AreLoose, is_free_item, absorb_next, merge_next, merge_into, loosen, one_free_of};

use numbers::index::ItemIndex;
use rows::header::Header;
use rows::item;

// The header, and the first row of the shelf's free list, on the way through a release.
#[derive(Clone, Copy)]
pub struct Loosened {
    pub header: Header,
    pub first: ItemIndex,
}

// There is an item in this row, and it is free.
fn is_free_item(items: &[u16], at: ItemIndex) -> bool
    requires { Below (item_capacity items.now) at.0 }
    ensures { result ≡ is_free_item items.now at }
{
    !at.is_none() && item::linked_item(items, at).allocated == 0
}

// The next item leaves the free list and is merged into this one.
pub fn absorb_next(h: Header, items: &mut [u16], first: ItemIndex, at: ItemIndex) -> Loosened
    requires { Loosens h first items.old at }
    ensures { AreLoose (absorb_next (loose h first items.old) at) result items.new }
{
    let i = item::linked_item(items, at);
    let next = i.next;
    let n = item::linked_item(items, next);
    let after = n.next_unallocated;
    item_edits::unlist(items, next);
    let header = item_edits::join_next(h, items, at);
    Loosened {
        header,
        first: item_edits::first_after(first, next, after),
    }
}

// A free next item is merged in.
pub fn merge_next(h: Header, items: &mut [u16], first: ItemIndex, at: ItemIndex) -> Loosened
    requires { Loosens h first items.old at }
    ensures { AreLoose (merge_next (loose h first items.old) at) result items.new }
{
    let i = item::linked_item(items, at);
    let next = i.next;
    if is_free_item(items, next) {
        return absorb_next(h, items, first, at);
    }
    Loosened { header: h, first }
}

// The item is merged into a free previous one, or goes to the front of the free list.
pub fn merge_into(h: Header, items: &mut [u16], first: ItemIndex, at: ItemIndex) -> Loosened
    requires { Loosens h first items.old at }
    ensures { AreLoose (merge_into (loose h first items.old) at) result items.new }
{
    let i = item::linked_item(items, at);
    let prev = i.prev;
    if is_free_item(items, prev) {
        let header = item_edits::join_next(h, items, prev);
        return Loosened { header, first };
    }
    item_edits::enlist(items, first, at);
    Loosened {
        header: h,
        first: at,
    }
}

// The item is free, and merged with its free neighbours.
pub fn loosen(h: Header, items: &mut [u16], first: ItemIndex, at: ItemIndex) -> Loosened
    requires { Loosens h first items.old at }
    ensures { AreLoose (loosen (loose h first items.old) at) result items.new }
{
    item_edits::mark_free(items, at);
    let m = merge_next(h, items, first, at);
    let header = m.header;
    let front = m.first;
    merge_into(header, items, front, at)
}

// The item is free and has no next: as a shelf's first item, it is then the only one, and the shelf is empty.
pub fn is_one_free(items: &[u16], first: ItemIndex) -> bool
    requires { Below (item_capacity items.now) first.0 }
    ensures { result ≡ one_free_of items.now first }
{
    let v = item::linked_item(items, first);
    v.allocated == 0 && v.next.is_none()
}
