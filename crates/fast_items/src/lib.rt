// The items of a shelf, in one walk that can say yes and nothing else. It leaves their alignment to one test at the end of all walks: widths are or-ed.
#![tactic(auto)]

ghost use Rattle.std.specs.Prelude.{◌≡◌, ◌≤◌, IfSome};
ghost use Rattle.numbers.specs.Prelude.{Decides};
ghost use Rattle.rows.specs.Prelude.{item_capacity};
ghost use Rattle.audit_counts.specs.Fast.{LiveOf};
ghost use Rattle.fast_items.specs.Walks.{Near, Kept, passed, start_of, EndsSo, LivesPast, Walks};

use numbers::index::NO_ROW;
use rows::header::Header;
use rows::item;
use rows::item::ItemRow;
use rows::shelf::ShelfRow;

// Where a walk along the items of a shelf has come to: the row and where it starts, the row before, the place; how many items were
// passed, on this shelf and on those before it, and their widths, or-ed.
#[derive(Clone, Copy)]
pub struct Passed {
    pub cur: usize,
    pub start: usize,
    pub prev: u16,
    pub x: u32,
    pub count: u32,
    pub widths: u32,
}

// What was counted where the items of a shelf are right: how many were passed up to here, how many of them are free and how wide these are together, and all
// widths, or-ed.
#[derive(Clone, Copy)]
pub struct Walked {
    pub count: u32,
    pub free: u32,
    pub gap: u32,
    pub widths: u32,
}

// The tail of a live item on the shelf in row 0: no free links, 65535 and 65535, and the flag.
const LIVE: u64 = 281479271677951;

// Whether an item is live, of the shelf in row `on` and in no free list.
fn live_of(on: u16, i: ItemRow) -> bool
    ensures { Decides result (LiveOf on i) }
{
    item::tail_of(i) == LIVE + on as u64 * 4294967296
}

// Whether an item can stand at x, after the row `prev`. Its place is compared with the low half of x, as it stands in the row: at the shelf's end x is
// below 65536, so that it was so all the way.
fn fits(prev: u16, x: u32, i: ItemRow) -> bool
    ensures { Decides result (Near prev x i) }
{
    if i.prev.0 != prev {
        return false;
    }
    if i.width == 0 {
        return false;
    }
    i.x == (x % 65536) as u16
}

// Past an item that stands right.
fn past(p: Passed, i: ItemRow) -> Passed
    requires { (p.cur ≤ 65535) × (p.x ≤ 4294836225) × (p.count ≤ 131069) }
    ensures { result ≡ passed p i }
{
    Passed {
        cur: i.next.0 as usize,
        start: item::item_start(i.next),
        prev: p.cur as u16,
        x: p.x + i.width as u32,
        count: p.count + 1,
        widths: p.widths | i.width as u32,
    }
}

// On past the live items. A loop of their own, since most items are live: it carries no more than they need.
fn lives(items: &[u16], used: u16, on: u16, from: Passed) -> Passed
    requires { (used ≤ item_capacity items.now) × Kept items.now used from }
    ensures { LivesPast items.now used on from result }
{
    let mut p = from;
    while p.cur < used as usize {
        let i = item::item_from(items, p.cur, p.start);
        if !live_of(on, i) {
            return p;
        }
        if !fits(p.prev, p.x, i) {
            return p;
        }
        p = past(p, i);
    }
    p
}

// Before the first item of a shelf. `met` items were passed on the shelves before it, and the widths are or-ed to `all`, which is theirs.
fn first(s: ShelfRow, met: u32, all: u32) -> Passed
    ensures { result ≡ start_of s met all }
{
    Passed {
        cur: s.first_item.0 as usize,
        start: item::item_start(s.first_item),
        prev: NO_ROW,
        x: s.x as u32,
        count: met,
        widths: all,
    }
}

// What was counted along a shelf's items, at their end.
fn at_end(h: Header, s: ShelfRow, p: Passed, free: u32, gap: u32) -> Option<Walked>
    ensures { IfSome result (EndsSo h s p free gap) }
{
    if p.cur != NO_ROW as usize {
        return None;
    }
    if (h.used_items as u32) < p.count {
        return None;
    }
    let end = s.x as u32 + h.limits.shelf_width as u32;
    if p.x != end {
        return None;
    }
    if 65535 < end {
        return None;
    }
    Some(Walked {
        count: p.count,
        free,
        gap,
        widths: p.widths,
    })
}

// The items of shelf `s`, which stands in row `on`: runs of live items, and between them a free one, which no free one follows.
pub fn items_right(
    h: Header,
    items: &[u16],
    on: u16,
    s: ShelfRow,
    met: u32,
    all: u32,
) -> Option<Walked>
    requires { (h.used_items ≤ item_capacity items.now) × (met ≤ 65535) }
    ensures { IfSome result (Walks h items.now on s met all) }
{
    let mut p = first(s, met, all);
    let mut free: u32 = 0;
    let mut gap: u32 = 0;
    while p.cur < h.used_items as usize {
        p = lives(items, h.used_items, on, p);
        if p.cur < h.used_items as usize {
            let i = item::item_from(items, p.cur, p.start);
            if !fits(p.prev, p.x, i) {
                return None;
            }
            if !fast_lists::free_of(on, i) {
                return None;
            }
            free += 1;
            gap += i.width as u32;
            p = past(p, i);
            if p.cur < h.used_items as usize {
                let j = item::item_from(items, p.cur, p.start);
                if !live_of(on, j) {
                    return None;
                }
                if !fits(p.prev, p.x, j) {
                    return None;
                }
                p = past(p, j);
            }
        }
    }
    at_end(h, s, p, free, gap)
}
