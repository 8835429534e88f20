// Rules 5 and 6 for the fast audit: a free list and the freed item rows, each walked for as many rows as are known to be due. So the end of a chain is
// looked for once, and not at each row.
#![tactic(auto)]

ghost use Rattle.std.specs.Prelude.{◌≤◌, ◌≡◌, length};
ghost use Rattle.numbers.specs.Prelude.{Decides};
ghost use Rattle.rows.specs.Prelude.{item_capacity};
ghost use Rattle.chains.specs.Prelude.{rows_from};
ghost use Rattle.rules.specs.Prelude.{free_next, freed_items_met};
ghost use Rattle.audit_counts.specs.Counts.{FreeListAt, FreedItems};
ghost use Rattle.audit_counts.specs.Fast.{FreeOf};

use numbers::index::{ItemIndex, NO_ROW};
use rows::header::Header;
use rows::item::ItemRow;
use rows::row::Row;

// Whether an item is free, and of the shelf in row `on`. The two numbers stand side by side, so that they are read and compared at once.
pub fn free_of(on: u16, i: ItemRow) -> bool
    ensures { Decides result (FreeOf on i) }
{
    i.shelf.0 as u32 + i.allocated as u32 * 65536 == on as u32
}

// The free list of the shelf in row `on`, from row `first` on: whether it is right and has so many rows. No width is asked, since a freed row can't stand
// in a list that is linked both ways. `first` and `cur` are usizes so that the compiler keeps a whole register, with nothing to widen at each row (measured).
pub fn free_list(h: Header, items: &[u16], on: u16, first: usize, free: u32) -> bool
    requires { (h.used_items ≤ item_capacity items.now) × (free ≤ h.used_items) }
    ensures { Decides result (FreeListAt h items.now on first
        × (length (rows_from (free_next items.now) h.used_items first) ≡ free)) }
{
    let mut prev: u16 = NO_ROW;
    let mut cur: usize = first;
    let mut left = free;
    while 0 < left {
        if cur >= h.used_items as usize {
            return false;
        }
        let i = ItemRow::there(items, ItemIndex(cur as u16));
        if i.prev_unallocated.0 != prev {
            return false;
        }
        if !free_of(on, i) {
            return false;
        }
        prev = cur as u16;
        cur = i.next_unallocated.0 as usize;
        left -= 1;
    }
    cur == NO_ROW as usize
}

// The freed item rows, from row `head` on: whether they are right, and so many. `head` and `row` are usizes as above.
pub fn freed_items(h: Header, items: &[u16], head: usize, rest: u16) -> bool
    requires { (h.used_items ≤ item_capacity items.now) × (rest ≤ h.used_items) × (head ≡ h.free_items.0) }
    ensures { Decides result (FreedItems h items.now × (length (freed_items_met h items.now) ≡ rest)) }
{
    let mut row: usize = head;
    let mut left = rest;
    while 0 < left {
        if row >= h.used_items as usize {
            return false;
        }
        let i = ItemRow::there(items, ItemIndex(row as u16));
        if !pool::is_freed_item(i) {
            return false;
        }
        row = i.next.0 as usize;
        left -= 1;
    }
    row == NO_ROW as usize
}
