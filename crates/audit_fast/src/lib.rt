// A fast yes: one walk over the shelves, their items and their free lists, which stops at the first thing that is not right. Where it says yes the exact
// audit would too; where it says no, that has to be asked.
#![tactic(auto)]

ghost use Rattle.std.specs.Prelude.{◌≤◌, IfSome};
ghost use Rattle.numbers.specs.Prelude.{Decides, along_step};
ghost use Rattle.rows.specs.Prelude.{item_capacity};
ghost use Rattle.rules.specs.Prelude.{Rule1, Passes};
ghost use Rattle.audit_fast.specs.Found.{ShelfFound, ShelvesFound, EachAligned, WidthsFound, FreedFound, SaysYes};

use fast_items::Walked;
use numbers::index::{ItemIndex, NO_ROW, ShelfIndex};
use rows::header::Header;
use rows::item::ItemRow;
use rows::row::Row;
use rows::shelf::ShelfRow;

// What was counted where all shelves are right: how many shelves and items there are, the live area, and all widths, or-ed.
#[derive(Clone, Copy)]
pub struct Found {
    pub shelves: u16,
    pub items: u32,
    pub area: u64,
    pub widths: u32,
}

// One shelf: its items, its free list, and its flag. No two free items adjoin, so that a shelf is one free item exactly when they are as wide as it is.
// `met` and `all` are what was counted and or-ed on the shelves before it.
fn one_shelf(
    h: Header,
    items: &[u16],
    on: u16,
    s: ShelfRow,
    under_empty: bool,
    met: u32,
    all: u32,
) -> Option<Walked>
    requires { (h.used_items ≤ item_capacity items.now) × (1 ≤ h.limits.shelf_width) × (met ≤ 65535) }
    ensures { IfSome result (ShelfFound h items.now on s under_empty met all) }
{
    let w = fast_items::items_right(h, items, on, s, met, all)?;
    if !fast_lists::free_list(h, items, on, s.first_unallocated.0 as usize, w.free) {
        return None;
    }
    let due = u16::from(w.gap == h.limits.shelf_width as u32);
    if !audit_shelves::flag_right(s, due, under_empty) {
        return None;
    }
    Some(w)
}

// All the shelves, with their items and free lists.
fn all_shelves(h: Header, shelves: &[u16], items: &[u16]) -> Option<Found>
    requires { Rule1 h shelves.now items.now }
    ensures { IfSome result (ShelvesFound h shelves.now items.now) }
{
    let mut prev: u16 = NO_ROW;
    let mut column: u16 = 0;
    let mut y: u32 = 0;
    let mut under_empty = false;
    let mut cur: u16 = 0;
    let mut fuel: u16 = h.used_shelves;
    let mut count: u32 = 0;
    let mut area: u64 = 0;
    let mut widths: u32 = 0;
    while cur < h.used_shelves {
        if fuel == 0 {
            return None;
        }
        let s = ShelfRow::there(shelves, ShelfIndex(cur));
        let end = y + s.height as u32;
        if !audit_shelves::shelf_placed(h, prev, column, y, end, s) {
            return None;
        }
        let w = one_shelf(h, items, cur, s, under_empty, count, widths)?;
        count = w.count;
        area += (h.limits.shelf_width as u32 - w.gap) as u64 * s.height as u64;
        widths = w.widths;
        prev = cur;
        cur = s.next.0;
        fuel -= 1;
        y = end;
        under_empty = s.is_empty == 1;
        if y == h.limits.height as u32 {
            column += 1;
            y = 0;
            under_empty = false;
        }
    }
    if cur != NO_ROW {
        return None;
    }
    if y != 0 {
        return None;
    }
    if column != limit_checks::columns(h.limits) {
        return None;
    }
    Some(Found {
        shelves: h.used_shelves - fuel,
        items: count,
        area,
        widths,
    })
}

// The rows that no shelf or item chain holds: with those that one does they are all the used rows.
fn freed_right(h: Header, shelves: &[u16], items: &[u16], f: Found) -> bool
    requires { Rule1 h shelves.now items.now × (f.items ≤ h.used_items) }
    ensures { SaysYes result (FreedFound h shelves.now items.now f) }
{
    let Some(freed_shelves) = audit_lists::freed_shelves(h, shelves) else {
        return false;
    };
    if f.shelves as u64 + freed_shelves as u64 != h.used_shelves as u64 {
        return false;
    }
    let rest = h.used_items - f.items as u16;
    fast_lists::freed_items(h, items, h.free_items.0 as usize, rest)
}

// Whether the width of each used item row is a multiple of `step`: a division for each. Freed rows are 0 wide, and need no exception.
fn each_aligned(items: &[u16], used: u16, step: u32) -> bool
    requires { (used ≤ item_capacity items.now) × (1 ≤ step) }
    ensures { Decides result (EachAligned items.now used step) }
{
    for row in 0..used {
        let i = ItemRow::there(items, ItemIndex(row));
        if i.width as u32 % step != 0 {
            return false;
        }
    }
    true
}

// Whether the widths on the shelves, which are or-ed to `widths`, are aligned. Where the alignment is a power of two they are tested all at once.
fn widths_right(h: Header, items: &[u16], widths: u32) -> bool
    requires { (h.used_items ≤ item_capacity items.now) × (1 ≤ along_step h.limits) }
    ensures { SaysYes result (WidthsFound h items.now widths) }
{
    let step = limit_checks::along_step(h.limits);
    if step & (step - 1) == 0 {
        return widths % step == 0;
    }
    each_aligned(items, h.used_items, step)
}

// Whether one walk finds all the rules kept.
pub fn says_yes(h: Header, shelves: &[u16], items: &[u16]) -> bool
    requires { Rule1 h shelves.now items.now }
    ensures { SaysYes result (Passes h shelves.now items.now) }
{
    let Some(f) = all_shelves(h, shelves, items) else {
        return false;
    };
    if !widths_right(h, items, f.widths) {
        return false;
    }
    if f.area != h.occupied as u64 {
        return false;
    }
    freed_right(h, shelves, items, f)
}
