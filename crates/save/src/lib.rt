// Save: an atlas as an image of form 1, in a lent output.
#![tactic(auto)]

ghost use Rattle.std.specs.Prelude.{◌≡◌, ◌≤◌, length};
ghost use Rattle.rules.specs.Prelude.{Passes};
ghost use Rattle.image_form.specs.Bytes.{bytes_of, over};
ghost use Rattle.image_form.specs.Blocks.{block};
ghost use Rattle.image_form.specs.Form1.{form1, header_words};
ghost use Rattle.image_sizes.specs.Sizes.{SizesOf};
ghost use Rattle.image_promises.specs.Promises.{HasRows, saved_image, Saves};

use blocks::block;
use image_sizes::Sizes;
use numbers::refusal::Refusal;
use row_blocks::RowBlocks;
use rows::header::Header;

// The words of the header block.
fn header_words(h: Header) -> [u16; 12]
    ensures { result ≡ header_words h }
{
    [
        h.limits.width,
        h.limits.height,
        h.limits.align_width,
        h.limits.align_height,
        h.limits.vertical,
        h.limits.shelf_width,
        h.used_shelves,
        h.used_items,
        h.free_items.0,
        h.free_shelves.0,
        (h.occupied % 65536) as u16,
        (h.occupied / 65536) as u16,
    ]
}

fn write_header(out: &mut [u8], h: Header)
    requires { length out.old ≡ 512 }
    ensures { out.new ≡ bytes_of (block form1 0 0 1 (header_words h)) }
{
    let words = header_words(h);
    block::write_block(out, block::HEADER, &words);
}

// The image goes to the front of the output, which has room for it.
fn write_image(h: Header, z: Sizes, shelves: &[u16], items: &[u16], out: &mut [u8])
    requires { SizesOf h z × HasRows h shelves.now items.now × (z.end ≤ length out.old) }
    ensures { out.new ≡ over (saved_image h shelves.now items.now) out.old }
{
    let from = z.items_from;
    let end = z.end;
    let first = 1 + z.shelf_blocks;
    write_header(&mut out[0..512], h);
    let shelf_blocks = RowBlocks {
        layout: image_sizes::SHELF_LAYOUT,
        first: 1,
        used: h.used_shelves as usize,
        count: z.shelf_blocks,
    };
    shelf_blocks.write(&mut out[512..from], shelves);
    let item_blocks = RowBlocks {
        layout: image_sizes::ITEM_LAYOUT,
        first,
        used: h.used_items as usize,
        count: z.item_blocks,
    };
    item_blocks.write(&mut out[from..end], items);
}

// The length of the image that now stands at the front of the output, or 10 where it has no room for one. No audit is made: this is for callers that have
// made one, and they owe that the tables pass.
pub fn save_unaudited(
    h: Header,
    shelves: &[u16],
    items: &[u16],
    out: &mut [u8],
) -> Result<u32, Refusal>
    requires { Passes h shelves.now items.now }
    ensures { Saves h shelves.now items.now out.old result out.new }
{
    let z = image_sizes::sizes_of(h);
    if out.len() < z.end {
        return Err(Refusal::TooShort);
    }
    write_image(h, z, shelves, items, out);
    Ok(z.end as u32)
}

// The same for any header and tables, after the audit.
pub fn save(h: Header, shelves: &[u16], items: &[u16], out: &mut [u8]) -> Result<u32, Refusal>
    ensures { Saves h shelves.now items.now out.old result out.new }
{
    if !audit::passes(h, shelves, items) {
        return Err(Refusal::Audit);
    }
    save_unaudited(h, shelves, items, out)
}
