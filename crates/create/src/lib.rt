// The public calls create and clear: both leave a fresh atlas.
#![tactic(auto)]

ghost use Rattle.promises.specs.Prelude.{Creates, Clears};
ghost use Rattle.create.specs.Making.{MakesWithin};

use numbers::limits::Limits;
use numbers::refusal::Refusal;
use promises::answers::Answered;
use rows::header::Header;
use rows::item::ItemRow;
use rows::row::Row;
use rows::shelf::ShelfRow;

// Answer 7, or a fresh atlas of these limits.
fn make_within(shelves: &mut [u16], items: &mut [u16], l: Limits) -> Answered<u16>
    ensures { MakesWithin shelves.old items.old result shelves.new items.new l }
{
    let n = limit_checks::columns(l);
    if !ShelfRow::has(shelves, n) {
        return Answered::no_atlas(Refusal::TooFewRows);
    }
    if !ItemRow::has(items, n) {
        return Answered::no_atlas(Refusal::TooFewRows);
    }
    init::init(shelves, items, l, n);
    Answered {
        answer: Ok(n),
        header: init::fresh_header(l, n),
    }
}

pub fn create(
    shelves: &mut [u16],
    items: &mut [u16],
    w: i32,
    h: i32,
    align_width: i32,
    align_height: i32,
    vertical: i32,
    columns: i32,
) -> Answered<u16>
    ensures { Creates shelves.old items.old w h align_width align_height vertical columns result shelves.new items.new }
{
    let made = limit_checks::create_numbers(w, h, align_width, align_height, vertical, columns);
    match made {
        Ok(l) => make_within(shelves, items, l),
        Err(refusal) => Answered::no_atlas(refusal),
    }
}

pub fn clear(h: Header, shelves: &mut [u16], items: &mut [u16]) -> Answered<()>
    ensures { Clears h shelves.old items.old result shelves.new items.new }
{
    if !audit::passes_for_clear(h, shelves, items) {
        return Answered::refused(Refusal::Audit, h);
    }
    let l = h.limits;
    let n = limit_checks::columns(l);
    init::init(shelves, items, l, n);
    Answered {
        answer: Ok(()),
        header: init::fresh_header(l, n),
    }
}
