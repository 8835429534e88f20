// Where a request goes: the walk of the shelf chain. It relies on an audit that passed, and tests no row and counts no step.
#![tactic(auto)]

ghost use Rattle.std.specs.Prelude.{◌≡◌};
ghost use Rattle.rows.specs.Prelude.{item_capacity, shelf_capacity};
ghost use Rattle.chains.specs.Prelude.{rows_from, EndsFrom};
ghost use Rattle.rules.specs.Prelude.{shelf_next, free_next};
ghost use Rattle.search.specs.Search.{place_of, first_wide, is_bad_fit, skipped_by, NextToTry, search};
ghost use Rattle.search.specs.Walkable.{Walkable};

use numbers::fit;
use numbers::index::{ItemIndex, ShelfIndex};
use numbers::request::Asked;
use rows::header::Header;
use rows::item::ItemRow;
use rows::row::Row;
use rows::shelf::ShelfRow;

// More than the depth of any shelf.
const OVER_ANY_DEPTH: u32 = 65536;

// An item of a shelf.
#[derive(Clone, Copy)]
pub struct Place {
    pub shelf: ShelfIndex,
    pub item: ItemIndex,
}

// The first item of the free list from `first` on that is at least `width` wide, or none. The list has to end among the rows of the table. Its end is
// tested where a link is read, and not at the head of the loop: that takes fewer instructions.
pub fn first_wide(items: &[u16], first: ItemIndex, width: u16) -> ItemIndex
    requires { EndsFrom (free_next items.now) (item_capacity items.now) first.0 }
    ensures { result ≡ first_wide items.now width (rows_from (free_next items.now) (item_capacity items.now) first.0) }
{
    if first.is_none() {
        return ItemIndex::NONE;
    }
    let mut at = first;
    loop {
        let v = ItemRow::there(items, at);
        if width <= v.width {
            return at;
        }
        at = v.next_unallocated;
        if at.is_none() {
            return ItemIndex::NONE;
        }
    }
}

// The shelf is in use, and deeper than a good fit.
fn is_bad_fit(good_to: u16, s: ShelfRow) -> bool
    ensures { result ≡ is_bad_fit good_to s }
{
    s.is_empty != 1 && good_to < s.height
}

// The shelf is shallower than asked, or not shallower than the good fit held, or a bad fit while a place is held.
fn is_skipped(depth: u16, good_to: u16, below: u32, holding: bool, s: ShelfRow) -> bool
    ensures { result ≡ skipped_by depth good_to below holding s }
{
    if s.height < depth {
        return true;
    }
    if below <= s.height as u32 {
        return true;
    }
    is_bad_fit(good_to, s) && holding
}

// The next shelf to try: the first from row `from` on that is not skipped, or none. On the way what is held stays the same, so that this loop carries no more
// than the row.
fn next_to_try(
    shelves: &[u16],
    from: ShelfIndex,
    depth: u16,
    good_to: u16,
    below: u32,
    holding: bool,
) -> ShelfIndex
    requires { EndsFrom (shelf_next shelves.now) (shelf_capacity shelves.now) from.0 }
    ensures { NextToTry shelves.now depth good_to below holding from.0 result.0 }
{
    let mut at = from;
    while !at.is_none() {
        let s = ShelfRow::there(shelves, at);
        if !is_skipped(depth, good_to, below, holding, s) {
            return at;
        }
        at = s.next;
    }
    ShelfIndex::NONE
}

// The place held in the end, or none. `below` is the depth of the good fit held, or more than any.
pub fn search(h: Header, shelves: &[u16], items: &[u16], asked: Asked) -> Option<Place>
    requires { Walkable h shelves.now items.now }
    ensures { result ≡ place_of (search h shelves.now items.now asked) }
{
    let good_to = fit::good_fit_to(asked.depth);
    let mut from = ShelfIndex(0);
    let mut below = OVER_ANY_DEPTH;
    let mut held: Option<Place> = None;
    loop {
        let at = next_to_try(shelves, from, asked.depth, good_to, below, held.is_some());
        if at.is_none() {
            return held;
        }
        let s = ShelfRow::there(shelves, at);
        from = s.next;
        let found = first_wide(items, s.first_unallocated, asked.width);
        if !found.is_none() {
            held = Some(Place {
                shelf: at,
                item: found,
            });
            if s.height == asked.depth {
                return held;
            }
            if !is_bad_fit(good_to, s) {
                below = s.height as u32;
            }
        }
    }
}
