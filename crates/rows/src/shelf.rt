// The rows of the shelf table, as values.
ghost use Rattle.std.specs.Prelude.{◌≡◌};
ghost use Rattle.numbers.specs.Library.{lit<};
ghost use Rattle.rows.specs.Shelf.{zero_shelf, shelves, eight_numbers};

use crate::row::Row;
use numbers::index::{ItemIndex, ShelfIndex};

// A shelf row, in the source's field order; `is_empty` is 0 or 1.
#[derive(Clone, Copy)]
pub struct ShelfRow {
    pub x: u16,
    pub y: u16,
    pub height: u16,
    pub prev: ShelfIndex,
    pub next: ShelfIndex,
    pub first_item: ItemIndex,
    pub first_unallocated: ItemIndex,
    pub is_empty: u16,
}

impl Row for ShelfRow {
    type Index = ShelfIndex;

    const NUMBERS: usize = 8;

    ghost NUMBERS = { 8 };

    ghost shape = { shelves };

    ghost number = { λ at. at.0 };

    fn number(at: ShelfIndex) -> u16 {
        at.0
    }

    #[tactic(auto, unfolding(crate::specs::Shelf::shelves))]
    fn zero() -> ShelfRow
        ensures { result ≡ zero_shelf }
    {
        ShelfRow {
            x: 0,
            y: 0,
            height: 0,
            prev: ShelfIndex(0),
            next: ShelfIndex(0),
            first_item: ItemIndex(0),
            first_unallocated: ItemIndex(0),
            is_empty: 0,
        }
    }

    #[tactic(auto, unfolding(crate::specs::Shelf::shelves))]
    fn read(numbers: &[u16]) -> ShelfRow {
        ShelfRow {
            x: numbers[0],
            y: numbers[1],
            height: numbers[2],
            prev: ShelfIndex(numbers[3]),
            next: ShelfIndex(numbers[4]),
            first_item: ItemIndex(numbers[5]),
            first_unallocated: ItemIndex(numbers[6]),
            is_empty: numbers[7],
        }
    }

    #[tactic(auto, unfolding(crate::specs::Shelf::shelves))]
    fn write(self, numbers: &mut [u16]) {
        numbers.copy_from_slice(&[
            self.x,
            self.y,
            self.height,
            self.prev.0,
            self.next.0,
            self.first_item.0,
            self.first_unallocated.0,
            self.is_empty,
        ]);
    }

    ghost wide = { eight_numbers };

    ghost few = { lit< tt };
}
