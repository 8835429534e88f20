// A grant written as it was planned. Nothing is decided here, and no row is read that the plan has.
#![tactic(auto)]

ghost use Rattle.std.specs.Prelude.{◌≡◌, ◌<◌};
ghost use Rattle.rows.specs.Prelude.{shelf_capacity};
ghost use Rattle.rows.specs.State.{state_of, StillLent};
ghost use Rattle.grant.specs.Grant.{PlanThere, fit_shelf, use_shelf, take_part, take_whole, take_item, with_area_added, grant_at};

use numbers::index::ItemIndex;
use plan::Plan;
use rows::header::Header;
use rows::tables::Tables;

// The shelf is split where the plan says so.
pub fn fit_shelf(t: &mut Tables, p: Plan)
    ensures is { state_of t.new ≡ fit_shelf (state_of t.old) p }
    ensures lent { StillLent t.old t.new }
{
    if p.shelf_split {
        shelf_edits::split_shelf(t, p.shelf, p.shelf_row, p.depth);
    }
}

// The shelf is in use, and where its first free item was the one granted, another row is the first free one.
pub fn use_shelf(shelves: &mut [u16], p: Plan, new: ItemIndex)
    requires { p.shelf.0 < shelf_capacity shelves.old }
    ensures { shelves.new ≡ use_shelf shelves.old p new }
{
    let first = item_edits::first_after(p.shelf_row.first_unallocated, p.item, new);
    shelf_edits::set_free(shelves, p.shelf, first, 0);
}

// The left part of the item is granted; the rest takes its place in the free list.
pub fn take_part(t: &mut Tables, p: Plan)
    requires { PlanThere t.old.shelves.now t.old.items.now p }
    ensures is { state_of t.new ≡ take_part (state_of t.old) p }
    ensures lent { StillLent t.old t.new }
{
    let added = item_edits::split_item(t.header, t.items, p.item, p.item_row, p.width);
    t.header = added.header;
    item_edits::relist(t.items, p.item_row, added.idx);
    item_edits::mark_live(t.items, p.item);
    use_shelf(t.shelves, p, added.idx);
}

// The whole item is granted.
pub fn take_whole(t: &mut Tables, p: Plan)
    requires { PlanThere t.old.shelves.now t.old.items.now p }
    ensures is { state_of t.new ≡ take_whole (state_of t.old) p }
    ensures lent { StillLent t.old t.new }
{
    item_edits::unlist_row(t.items, p.item_row);
    item_edits::mark_live(t.items, p.item);
    use_shelf(t.shelves, p, p.item_row.next_unallocated);
}

// The item is split where the plan says so.
pub fn take_item(t: &mut Tables, p: Plan)
    requires { PlanThere t.old.shelves.now t.old.items.now p }
    ensures is { state_of t.new ≡ take_item (state_of t.old) p }
    ensures lent { StillLent t.old t.new }
{
    if p.item_split {
        take_part(t, p);
    } else {
        take_whole(t, p);
    }
}

// So much more is occupied.
fn occupy(h: Header, area: u32) -> Header
    ensures { result ≡ with_area_added h area }
{
    Header {
        occupied: h.occupied.wrapping_add(area),
        ..h
    }
}

// The grant, with the rows that it needs: the plan has been asked whether they suffice.
pub fn grant_at(t: &mut Tables, p: Plan)
    requires { PlanThere t.old.shelves.now t.old.items.now p }
    ensures is { state_of t.new ≡ grant_at (state_of t.old) p }
    ensures lent { StillLent t.old t.new }
{
    fit_shelf(t, p);
    take_item(t, p);
    t.header = occupy(t.header, wrap::area(p.width, p.depth));
}
