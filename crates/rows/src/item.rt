// The rows of the item table, as values.
ghost use Rattle.std.specs.Prelude.{◌≡◌, length, ◌+◌, ◌*◌, ◌<◌, ◌≤◌};
ghost use Rattle.numbers.specs.Library.{lit<};
ghost use Rattle.rows.specs.Item.{zero_item, items, nine_numbers, item_start, item_capacity, item_at, put_item};
ghost use Rattle.rows.specs.Links.{Below};

use crate::row::Row;
use numbers::index::{ItemIndex, ShelfIndex};

// An item row, in the source's field order; `allocated` is 0 or 1.
#[derive(Clone, Copy)]
pub struct ItemRow {
    pub x: u16,
    pub width: u16,
    pub prev: ItemIndex,
    pub next: ItemIndex,
    pub prev_unallocated: ItemIndex,
    pub next_unallocated: ItemIndex,
    pub shelf: ShelfIndex,
    pub allocated: u16,
    pub generation: u16,
}

impl Row for ItemRow {
    type Index = ItemIndex;

    const NUMBERS: usize = 9;

    ghost NUMBERS = { 9 };

    ghost shape = { items };

    ghost number = { λ at. at.0 };

    fn number(at: ItemIndex) -> u16 {
        at.0
    }

    #[tactic(auto, unfolding(crate::specs::Item::items))]
    fn zero() -> ItemRow
        ensures { result ≡ zero_item }
    {
        ItemRow {
            x: 0,
            width: 0,
            prev: ItemIndex(0),
            next: ItemIndex(0),
            prev_unallocated: ItemIndex(0),
            next_unallocated: ItemIndex(0),
            shelf: ShelfIndex(0),
            allocated: 0,
            generation: 0,
        }
    }

    #[tactic(auto, unfolding(crate::specs::Item::items))]
    fn read(numbers: &[u16]) -> ItemRow {
        ItemRow {
            x: numbers[0],
            width: numbers[1],
            prev: ItemIndex(numbers[2]),
            next: ItemIndex(numbers[3]),
            prev_unallocated: ItemIndex(numbers[4]),
            next_unallocated: ItemIndex(numbers[5]),
            shelf: ShelfIndex(numbers[6]),
            allocated: numbers[7],
            generation: numbers[8],
        }
    }

    #[tactic(auto, unfolding(crate::specs::Item::items))]
    fn write(self, numbers: &mut [u16]) {
        numbers.copy_from_slice(&[
            self.x,
            self.width,
            self.prev.0,
            self.next.0,
            self.prev_unallocated.0,
            self.next_unallocated.0,
            self.shelf.0,
            self.allocated,
            self.generation,
        ]);
    }

    ghost wide = { nine_numbers };

    ghost few = { lit< tt };
}

// The free links, the shelf and the flag of a row as one number. They stand side by side, so that they are read and compared at once.
pub fn tail_of(v: ItemRow) -> u64
    ensures { result ≡ v.prev_unallocated.0 + v.next_unallocated.0 * 65536 + v.shelf.0 * 4294967296 + v.allocated * 281474976710656 }
{
    let links = v.prev_unallocated.0 as u64 + v.next_unallocated.0 as u64 * 65536;
    let place = v.shelf.0 as u64 * 4294967296 + v.allocated as u64 * 281474976710656;
    links + place
}

// Where the numbers of a row begin. A walk keeps it beside the index, so that it is worked out once for each row.
pub fn item_start(at: ItemIndex) -> usize
    ensures { result ≡ item_start at.0 }
{
    at.0 as usize * ItemRow::NUMBERS
}

// The row at an index that the table has, from its start on: the length is not tested.
pub fn item_from(items: &[u16], at: usize, start: usize) -> ItemRow
    requires { (at < item_capacity items.now) × (start ≡ item_start at) }
    ensures { result ≡ item_at items.now (record { 0 = at }) }
{
    let end = start + ItemRow::NUMBERS;
    ItemRow::read(&items[start..end])
}

// The row that a link names; zeros where it names none. It names a row that the table has, so that the length is not tested.
pub fn linked_item(items: &[u16], at: ItemIndex) -> ItemRow
    requires { Below (item_capacity items.now) at.0 }
    ensures { result ≡ item_at items.now at }
{
    if at.is_none() {
        return ItemRow::zero();
    }
    ItemRow::there(items, at)
}

// The row goes to where a link leads; nothing changes where it names none.
pub fn put_linked_item(items: &mut [u16], at: ItemIndex, v: ItemRow)
    requires { Below (item_capacity items.old) at.0 }
    ensures { items.new ≡ put_item items.old at v }
{
    if at.is_none() {
        return;
    }
    v.put_there(items, at);
}
