// Rule 3: the items of each shelf. What rules 5 to 7 ask of the items is counted in the same pass.
#![tactic(auto)]

ghost use Rattle.std.specs.Prelude.{false, ◌≡◌, ◌+◌, ◌%◌, ◌≤◌};
ghost use Rattle.numbers.specs.Prelude.{Decides};
ghost use Rattle.rows.specs.Prelude.{item_capacity};
ghost use Rattle.rules.specs.Prelude.{ItemRight};
ghost use Rattle.audit_counts.specs.Counts.{ShelfTallied, AllTallied};

use audit_counts::{Tally, Totals};
use numbers::axes;
use numbers::index::{ItemIndex, NO_ROW, ShelfIndex};
use rows::header::Header;
use rows::item::ItemRow;
use rows::row::Row;
use rows::shelf::ShelfRow;

// Whether a width is a multiple of the alignment. Most atlases have an alignment of 1, and need no division.
fn aligned(width: u32, step: u32) -> bool
    ensures { Decides result (width % step ≡ 0) }
{
    if step == 1 {
        return true;
    }
    if step == 0 {
        return width == 0;
    }
    width % step == 0
}

// Whether an item is right where the walk has come to, if no free item ends there.
fn item_right(h: Header, on: u16, prev: u16, x: u32, i: ItemRow) -> bool
    ensures { Decides result (ItemRight h on (record { prev = prev; x = x; after_free = false }) i) }
{
    if i.prev.0 != prev {
        return false;
    }
    if i.shelf.0 != on {
        return false;
    }
    if i.width == 0 {
        return false;
    }
    if i.allocated > 1 {
        return false;
    }
    if i.x as u32 != x {
        return false;
    }
    let step = limit_checks::along_step(h.limits);
    aligned(i.width as u32, step)
}

// Whether the free links of an item are both none. They stand side by side, and as one number they are read and compared at once.
fn unlinked(i: ItemRow) -> bool
    ensures { Decides result (i.prev_unallocated.0 + i.next_unallocated.0 ≡ 131070) }
{
    i.prev_unallocated.0 as u32 + i.next_unallocated.0 as u32 * 65536 == 4294967295
}

// How far the free links of an item are from none.
fn strayed(i: ItemRow) -> u64
    ensures { result + (i.prev_unallocated.0 + i.next_unallocated.0) ≡ 131070 }
{
    131070 - i.prev_unallocated.0 as u64 - i.next_unallocated.0 as u64
}

// The items of shelf `s`, which stands in row `on`. `edge` is 1 more than the place where the last free item ended, `gap` the width of the free items.
pub fn items_of(h: Header, items: &[u16], on: u16, s: ShelfRow) -> Option<Tally>
    requires { h.used_items ≤ item_capacity items.now }
    ensures { ShelfTallied h items.now on s result }
{
    let mut prev: u16 = NO_ROW;
    let mut x: u32 = s.x as u32;
    let mut edge: u32 = 0;
    let mut free: u32 = 0;
    let mut count: u32 = 0;
    let mut gap: u32 = 0;
    let mut stray: u64 = 0;
    let mut cur: u16 = s.first_item.0;
    while cur < h.used_items {
        let i = ItemRow::there(items, ItemIndex(cur));
        if !item_right(h, on, prev, x, i) {
            return None;
        }
        let end = x + i.width as u32;
        count += 1;
        if i.allocated == 1 {
            if !unlinked(i) {
                stray += strayed(i);
            }
        } else {
            if edge == x + 1 {
                return None;
            }
            free += 1;
            gap += i.width as u32;
            edge = end + 1;
        }
        x = end;
        prev = cur;
        cur = i.next.0;
    }
    if cur != NO_ROW {
        return None;
    }
    if (h.used_items as u32) < count {
        return None;
    }
    if x != s.x as u32 + h.limits.shelf_width as u32 {
        return None;
    }
    Some(Tally {
        count,
        free,
        live: x - s.x as u32 - gap,
        stray,
    })
}

// Rule 3.
pub fn all_items(h: Header, shelves: &[u16], items: &[u16]) -> Option<Totals>
    requires { h.used_items ≤ item_capacity items.now }
    ensures { AllTallied h shelves.now items.now result }
{
    let mut t = Totals {
        shelves: 0,
        items: 0,
        free: 0,
        stray: 0,
        area: 0,
    };
    let mut cur: u16 = 0;
    for _ in 0..h.used_shelves {
        if cur == NO_ROW {
            return Some(t);
        }
        let s = ShelfRow::get(shelves, ShelfIndex(cur));
        let of = items_of(h, items, cur, s)?;
        t.shelves += 1;
        t.items += of.count;
        t.free += of.free;
        t.stray += of.stray;
        t.area += of.live as u64 * s.height as u64;
        cur = s.next.0;
    }
    Some(t)
}
