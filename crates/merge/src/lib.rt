// A live item released: merged with its free neighbours, and an emptied shelf with its empty ones.
#![tactic(auto)]

ghost use Rattle.std.specs.Prelude.{◌≡◌};
ghost use Rattle.rows.specs.State.{state_of, StillLent};
ghost use Rattle.rows.specs.Prelude.{item_capacity, item_at, shelf_at_of, Below};
ghost use Rattle.rules.specs.Prelude.{flag};
ghost use Rattle.merge_items.specs.MergeItems.{one_free_of};
ghost use Rattle.merge.specs.Merge.{joins, merge_below, merge_above, with_area_removed, release_item, release_at};
ghost use Rattle.merge.specs.Releasable.{Releasable};

use numbers::index::{ItemIndex, ShelfIndex};
use rows::header::Header;
use rows::item::ItemRow;
use rows::row::Row;
use rows::shelf::ShelfRow;
use rows::tables::Tables;

// ---- shelves

// Two empty shelves of one column.
fn joins(t: &Tables, above: ShelfIndex, at: ShelfIndex) -> bool
    ensures { result ≡ joins t.now.shelves.now above at }
{
    let a = t.shelf(above);
    let s = t.shelf(at);
    let both_empty = a.is_empty == 1 && s.is_empty == 1;
    both_empty && a.x == s.x
}

// An empty next shelf of the same column is merged into an empty one.
pub fn merge_below(t: &mut Tables, at: ShelfIndex)
    ensures is { state_of t.new ≡ merge_below (state_of t.old) at }
    ensures lent { StillLent t.old t.new }
{
    let s = t.shelf(at);
    if joins(t, at, s.next) {
        t.header = shelf_edits::merge_shelves(t.header, t.shelves, t.items, at, s.next);
    }
}

// An empty shelf is merged into an empty previous one of its column.
pub fn merge_above(t: &mut Tables, at: ShelfIndex)
    ensures is { state_of t.new ≡ merge_above (state_of t.old) at }
    ensures lent { StillLent t.old t.new }
{
    let s = t.shelf(at);
    if joins(t, s.prev, at) {
        t.header = shelf_edits::merge_shelves(t.header, t.shelves, t.items, s.prev, at);
    }
}

// Both, the next one first.
pub fn merge_around(t: &mut Tables, at: ShelfIndex)
    ensures is { state_of t.new ≡ merge_above (merge_below (state_of t.old) at) at }
    ensures lent { StillLent t.old t.new }
{
    merge_below(t, at);
    merge_above(t, at);
}

// ---- a release

// So much less is occupied.
fn vacate(h: Header, area: u32) -> Header
    ensures { result ≡ with_area_removed h area }
{
    Header {
        occupied: h.occupied.wrapping_sub(area),
        ..h
    }
}

// The item in row `first` is free and has no next: as a shelf's first item, it is then the only one, and the shelf is empty.
fn is_one_free(t: &Tables, first: ItemIndex) -> bool
    requires { Below (item_capacity t.now.items.now) first.0 }
    ensures { result ≡ one_free_of t.now.items.now first }
{
    merge_items::is_one_free(t.items, first)
}

// The item in row `at` of the shelf `on` is released, as far as that shelf goes; and whether that leaves the shelf empty.
pub fn release_item(t: &mut Tables, on: ShelfIndex, at: ItemIndex) -> bool
    requires { Releasable t.old.header t.old.shelves.now t.old.items.now at × (on ≡ (item_at t.old.items.now at).shelf) }
    ensures is { state_of t.new ≡ release_item (state_of t.old) on at }
    ensures empty { (shelf_at_of t.new.shelves.now on).is_empty ≡ flag result }
    ensures lent { StillLent t.old t.new }
{
    let s = t.shelf_there(on);
    let i = t.item_there(at);
    let less = vacate(t.header, live_rows::area_of_rows(s, i));
    let loosened = merge_items::loosen(less, t.items, s.first_unallocated, at);
    t.header = loosened.header;
    let empty = is_one_free(t, s.first_item);
    shelf_edits::set_free(t.shelves, on, loosened.first, u16::from(empty));
    empty
}

// The live item in row `at` is released. Only a shelf that it leaves empty is merged with others.
pub fn release_at(t: &mut Tables, at: ItemIndex)
    requires { Releasable t.old.header t.old.shelves.now t.old.items.now at }
    ensures is { state_of t.new ≡ release_at (state_of t.old) at }
    ensures lent { StillLent t.old t.new }
{
    let i = t.item_there(at);
    if release_item(t, i.shelf, at) {
        merge_around(t, i.shelf);
    }
}
