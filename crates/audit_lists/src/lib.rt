// Rules 5 to 7: the free lists and the freed chains, against what was counted along the item chains.
#![tactic(auto)]

ghost use Rattle.std.specs.Prelude.{◌≤◌};
ghost use Rattle.numbers.specs.Prelude.{Decides};
ghost use Rattle.rows.specs.Prelude.{item_capacity};
ghost use Rattle.chains.specs.Prelude.{Each};
ghost use Rattle.rules.specs.Prelude.{shelves_met, freed_shelves_met, freed_items_met};
ghost use Rattle.audit_counts.specs.Counts.{Counts, FreeItem, FreeListCounted, FreeListOf, all_free_met, FreedShelves, FreedItems, ListsAgree};

use audit_counts::Totals;
use numbers::index::{ItemIndex, NO_ROW, ShelfIndex};
use rows::header::Header;
use rows::item::ItemRow;
use rows::row::Row;
use rows::shelf::ShelfRow;

// Whether an item can stand in the free list of the shelf in row `on`, after the row `prev`.
fn free_item(on: u16, prev: u16, i: ItemRow) -> bool
    ensures { Decides result (FreeItem on prev i) }
{
    if i.prev_unallocated.0 != prev {
        return false;
    }
    if i.shelf.0 != on {
        return false;
    }
    if i.width == 0 {
        return false;
    }
    i.allocated == 0
}

// The free list of the shelf in row `on`, from row `first` on.
pub fn free_list(h: Header, items: &[u16], on: u16, first: ItemIndex) -> Option<u32>
    requires { h.used_items ≤ item_capacity items.now }
    ensures { FreeListCounted h items.now on first.0 result }
{
    let mut prev: u16 = NO_ROW;
    let mut cur: u16 = first.0;
    for count in 0..h.used_items {
        if cur == NO_ROW {
            return Some(count as u32);
        }
        if cur >= h.used_items {
            return None;
        }
        let i = ItemRow::there(items, ItemIndex(cur));
        if !free_item(on, prev, i) {
            return None;
        }
        prev = cur;
        cur = i.next_unallocated.0;
    }
    if cur != NO_ROW {
        return None;
    }
    Some(h.used_items as u32)
}

// The free lists of all the shelves.
pub fn free_lists(h: Header, shelves: &[u16], items: &[u16]) -> Option<u32>
    requires { h.used_items ≤ item_capacity items.now }
    ensures { Counts (Each (FreeListOf h shelves.now items.now) (shelves_met h shelves.now)) (all_free_met h shelves.now items.now) result }
{
    let mut count: u32 = 0;
    let mut cur: u16 = 0;
    for _ in 0..h.used_shelves {
        if cur == NO_ROW {
            return Some(count);
        }
        let s = ShelfRow::get(shelves, ShelfIndex(cur));
        count += free_list(h, items, cur, s.first_unallocated)?;
        cur = s.next.0;
    }
    Some(count)
}

// The freed shelf rows.
pub fn freed_shelves(h: Header, shelves: &[u16]) -> Option<u32>
    ensures { Counts (FreedShelves h shelves.now) (freed_shelves_met h shelves.now) result }
{
    let mut cur: u16 = h.free_shelves.0;
    for count in 0..h.used_shelves {
        if cur == NO_ROW {
            return Some(count as u32);
        }
        if cur >= h.used_shelves {
            return None;
        }
        let s = ShelfRow::get(shelves, ShelfIndex(cur));
        if !pool::is_freed_shelf(s) {
            return None;
        }
        cur = s.next.0;
    }
    if cur != NO_ROW {
        return None;
    }
    Some(h.used_shelves as u32)
}

// The freed item rows.
pub fn freed_items(h: Header, items: &[u16]) -> Option<u32>
    requires { h.used_items ≤ item_capacity items.now }
    ensures { Counts (FreedItems h items.now) (freed_items_met h items.now) result }
{
    let mut cur: u16 = h.free_items.0;
    for count in 0..h.used_items {
        if cur == NO_ROW {
            return Some(count as u32);
        }
        if cur >= h.used_items {
            return None;
        }
        let i = ItemRow::there(items, ItemIndex(cur));
        if !pool::is_freed_item(i) {
            return None;
        }
        cur = i.next.0;
    }
    if cur != NO_ROW {
        return None;
    }
    Some(h.used_items as u32)
}

// Whether the free lists and the freed chains agree with the totals of the item chains.
pub fn lists_agree(h: Header, shelves: &[u16], items: &[u16], t: Totals) -> bool
    requires { h.used_items ≤ item_capacity items.now }
    ensures { Decides result (ListsAgree h shelves.now items.now t) }
{
    if t.stray != 0 {
        return false;
    }
    if t.area != h.occupied as u64 {
        return false;
    }
    let Some(freed_shelves) = freed_shelves(h, shelves) else {
        return false;
    };
    if t.shelves as u64 + freed_shelves as u64 != h.used_shelves as u64 {
        return false;
    }
    let Some(freed_items) = freed_items(h, items) else {
        return false;
    };
    if t.items as u64 + freed_items as u64 != h.used_items as u64 {
        return false;
    }
    free_lists(h, shelves, items) == Some(t.free)
}
