// An image of form 1 that is met: whether every block and the length are exactly so, the header that stands in it, and its rows, copied to lent tables.
#![tactic(auto)]

ghost use Rattle.std.specs.Prelude.{◌≡◌, length};
ghost use Rattle.numbers.specs.Prelude.{Decides};
ghost use Rattle.image_form.specs.Bytes.{words_of, over};
ghost use Rattle.image_sizes.specs.Sizes.{SizesOf};
ghost use Rattle.image_promises.specs.Promises.{HasRows};
ghost use Rattle.image_read.specs.Right.{header_in, RowsRight, ImageRight, shelf_numbers, item_numbers};

use blocks::block;
use image_sizes::Sizes;
use numbers::index::{ItemIndex, ShelfIndex};
use numbers::limits::Limits;
use row_blocks::RowBlocks;
use rows::header::Header;
use words::word;

fn limits_in(block: &[u8]) -> Limits
    requires { length block.now ≡ 512 }
    ensures { result ≡ (header_in (words_of block.now)).limits }
{
    Limits {
        width: word(block, 3),
        height: word(block, 4),
        align_width: word(block, 5),
        align_height: word(block, 6),
        vertical: word(block, 7),
        shelf_width: word(block, 8),
    }
}

// The header that stands in the first block.
pub fn header_in(block: &[u8]) -> Header
    requires { length block.now ≡ 512 }
    ensures { result ≡ header_in (words_of block.now) }
{
    Header {
        limits: limits_in(block),
        used_shelves: word(block, 9),
        used_items: word(block, 10),
        free_items: ItemIndex(word(block, 11)),
        free_shelves: ShelfIndex(word(block, 12)),
        occupied: word(block, 13) as u32 + 65536 * word(block, 14) as u32,
    }
}

// Whether the blocks after the first are those of the used rows.
fn rows_right(image: &[u8], h: Header, z: Sizes) -> bool
    requires { SizesOf h z × (z.end ≡ length image.now) }
    ensures { Decides result (RowsRight image.now h z) }
{
    let from = z.items_from;
    let end = z.end;
    let first = 1 + z.shelf_blocks;
    let shelves = RowBlocks {
        layout: image_sizes::SHELF_LAYOUT,
        first: 1,
        used: h.used_shelves as usize,
        count: z.shelf_blocks,
    };
    if !shelves.are_right(&image[512..from]) {
        return false;
    }
    let items = RowBlocks {
        layout: image_sizes::ITEM_LAYOUT,
        first,
        used: h.used_items as usize,
        count: z.item_blocks,
    };
    items.are_right(&image[from..end])
}

// Whether every block and the length are exactly so.
pub fn image_right(image: &[u8]) -> bool
    ensures { Decides result (ImageRight image.now) }
{
    if image.len() < 512 {
        return false;
    }
    if !block::block_right(&image[0..512], block::HEADER, 12) {
        return false;
    }
    let h = header_in(&image[0..512]);
    let z = image_sizes::sizes_of(h);
    if z.end != image.len() {
        return false;
    }
    rows_right(image, h, z)
}

// The rows that stand in the image go to the front of the tables.
pub fn copy_rows(image: &[u8], h: Header, z: Sizes, shelves: &mut [u16], items: &mut [u16])
    requires { SizesOf h z × (z.end ≡ length image.now) × HasRows h shelves.old items.old }
    ensures shelves_after { shelves.new ≡ over (shelf_numbers image.now h z) shelves.old }
    ensures items_after { items.new ≡ over (item_numbers image.now h z) items.old }
{
    let from = z.items_from;
    let end = z.end;
    let shelf_blocks = RowBlocks {
        layout: image_sizes::SHELF_LAYOUT,
        first: 1,
        used: h.used_shelves as usize,
        count: z.shelf_blocks,
    };
    shelf_blocks.copy(shelves, &image[512..from]);
    let item_blocks = RowBlocks {
        layout: image_sizes::ITEM_LAYOUT,
        first: 1 + z.shelf_blocks,
        used: h.used_items as usize,
        count: z.item_blocks,
    };
    item_blocks.copy(items, &image[from..end]);
}
