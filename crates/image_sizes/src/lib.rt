// What saved form 1 says in numbers: the layouts of its two kinds of rows, and how many blocks an atlas takes.
#![tactic(auto)]

ghost use Rattle.image_sizes.specs.Sizes.{SizesOf};

use row_blocks::Layout;
use rows::header::Header;
use rows::item::ItemRow;
use rows::row::Row;
use rows::shelf::ShelfRow;

pub const SHELF_LAYOUT: Layout = Layout {
    kind: 1,
    most: 31,
    width: ShelfRow::NUMBERS,
};

pub const ITEM_LAYOUT: Layout = Layout {
    kind: 2,
    most: 28,
    width: ItemRow::NUMBERS,
};

// The blocks of each kind, where in the image those of the items start, and where it ends.
#[derive(Clone, Copy)]
pub struct Sizes {
    pub shelf_blocks: usize,
    pub item_blocks: usize,
    pub items_from: usize,
    pub end: usize,
}

pub fn sizes_of(h: Header) -> Sizes
    ensures { SizesOf h result }
{
    let shelf_blocks = usize::from(h.used_shelves).div_ceil(SHELF_LAYOUT.most);
    let item_blocks = usize::from(h.used_items).div_ceil(ITEM_LAYOUT.most);
    let items_from = 512 + shelf_blocks * 512;
    Sizes {
        shelf_blocks,
        item_blocks,
        items_from,
        end: items_from + item_blocks * 512,
    }
}
