// Load: an image of form 1 read into lent tables. Nothing is written before every block is judged and the rows are known to fit.
#![tactic(auto)]

ghost use Rattle.numbers.specs.Prelude.{Decides};
ghost use Rattle.image_promises.specs.Promises.{HasRows, LoadedSo, Loads};
ghost use Rattle.rules.specs.Prelude.{Passes, refused, gives, Judged};

use numbers::refusal::Refusal;
use promises::answers::Answered;
use rows::header::Header;
use rows::item::ItemRow;
use rows::row::Row;
use rows::shelf::ShelfRow;

// Whether both tables have a row for each used row.
fn has_rows(h: Header, shelves: &[u16], items: &[u16]) -> bool
    ensures { Decides result (HasRows h shelves.now items.now) }
{
    ShelfRow::has(shelves, h.used_shelves) && ItemRow::has(items, h.used_items)
}

// The copied rows are audited: the atlas, or 3 and the all-zero header.
fn audited(h: Header, shelves: &[u16], items: &[u16]) -> Answered<()>
    ensures { Judged (Passes h shelves.now items.now) (LoadedSo result) (refused 3) (gives h) }
{
    if !audit::passes(h, shelves, items) {
        return Answered::no_atlas(Refusal::Audit);
    }
    Answered {
        answer: Ok(()),
        header: h,
    }
}

// The atlas of an image in these tables: its header, or 9, 7 or 3 with the all-zero header. Where 3 is the answer the rows are copied, and stay.
pub fn load(image: &[u8], shelves: &mut [u16], items: &mut [u16]) -> Answered<()>
    ensures { Loads image.now shelves.old items.old result shelves.new items.new }
{
    if !image_read::image_right(image) {
        return Answered::no_atlas(Refusal::Image);
    }
    let h = image_read::header_in(&image[0..512]);
    if !has_rows(h, shelves, items) {
        return Answered::no_atlas(Refusal::TooFewRows);
    }
    let z = image_sizes::sizes_of(h);
    image_read::copy_rows(image, h, z, shelves, items);
    audited(h, shelves, items)
}
