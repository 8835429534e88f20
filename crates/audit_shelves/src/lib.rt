// Rule 2: the shelf chain.
#![tactic(auto)]

ghost use Rattle.std.specs.Prelude.{◌≡◌, ◌+◌};
ghost use Rattle.numbers.specs.Prelude.{Decides};
ghost use Rattle.rules.specs.Prelude.{ShelfRight, Rule2, one_free_of, flag};
ghost use Rattle.audit_shelves.specs.Placed.{ShelfPlaced, FlagRight};

use numbers::index::{ItemIndex, NO_ROW, ShelfIndex};
use rows::header::Header;
use rows::item::ItemRow;
use rows::row::Row;
use rows::shelf::ShelfRow;

// What a shelf's empty flag has to be, by its first item: 1 if that is a used row, free, with no next.
fn empty_flag(h: Header, items: &[u16], first: ItemIndex) -> u16
    ensures { result ≡ flag (one_free_of h items.now first.0) }
{
    if first.0 >= h.used_items {
        return 0;
    }
    let i = ItemRow::get(items, first);
    if i.allocated != 0 {
        return 0;
    }
    if i.next.0 != NO_ROW {
        return 0;
    }
    1
}

// Whether a shelf stands where the walk has come to, from y to `end`. Depths have 32 bits here, so that they are added once (measured).
pub fn shelf_placed(h: Header, prev: u16, column: u16, y: u32, end: u32, s: ShelfRow) -> bool
    requires { end ≡ y + s.height }
    ensures { Decides result (ShelfPlaced h prev column y s) }
{
    if s.prev.0 != prev {
        return false;
    }
    if s.x as u32 != column as u32 * h.limits.shelf_width as u32 {
        return false;
    }
    if s.y as u32 != y {
        return false;
    }
    if s.height == 0 {
        return false;
    }
    end <= h.limits.height as u32
}

// Whether a shelf has the flag that is due, and no empty shelf follows an empty one.
pub fn flag_right(s: ShelfRow, due: u16, under_empty: bool) -> bool
    ensures { Decides result (FlagRight s due under_empty) }
{
    if s.is_empty != due {
        return false;
    }
    if under_empty {
        return s.is_empty != 1;
    }
    true
}

// Whether a shelf is right where the walk has come to.
fn shelf_right(
    h: Header,
    items: &[u16],
    prev: u16,
    column: u16,
    y: u16,
    under_empty: bool,
    s: ShelfRow,
) -> bool
    ensures { Decides result (ShelfRight h items.now (record { prev = prev; column = column; y = y; under_empty = under_empty }) s) }
{
    let end = y as u32 + s.height as u32;
    if !shelf_placed(h, prev, column, y as u32, end, s) {
        return false;
    }
    flag_right(s, empty_flag(h, items, s.first_item), under_empty)
}

// Rule 2.
pub fn shelves_right(h: Header, shelves: &[u16], items: &[u16]) -> bool
    ensures { Decides result (Rule2 h shelves.now items.now) }
{
    let mut prev: u16 = NO_ROW;
    let mut column: u16 = 0;
    let mut y: u16 = 0;
    let mut under_empty = false;
    let mut cur: u16 = 0;
    for _ in 0..h.used_shelves {
        if cur == NO_ROW {
            break;
        }
        if cur >= h.used_shelves {
            return false;
        }
        let s = ShelfRow::get(shelves, ShelfIndex(cur));
        if !shelf_right(h, items, prev, column, y, under_empty, s) {
            return false;
        }
        prev = cur;
        cur = s.next.0;
        y += s.height;
        under_empty = s.is_empty == 1;
        if y == h.limits.height {
            column += 1;
            y = 0;
            under_empty = false;
        }
    }
    if cur != NO_ROW {
        return false;
    }
    if y != 0 {
        return false;
    }
    column == limit_checks::columns(h.limits)
}
