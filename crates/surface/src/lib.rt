// The calls that change an atlas, with its header lent and changed in place: each reads it, makes the call by value, and stores what that returns. They promise
// what the calls by value do, of the header as it stands when they return.
#![tactic(auto)]

ghost use Rattle.promises.specs.Prelude.{Allocates, Releases, Clears};

use numbers::refusal::Refusal;
use rows::header::Header;
use rows::live::Live;

pub fn allocate(
    h: &mut Header,
    shelves: &mut [u16],
    items: &mut [u16],
    w: i32,
    height: i32,
) -> Result<Live, Refusal>
    ensures { Allocates h.old shelves.old items.old w height (record { answer = result; header = h.new }) shelves.new items.new }
{
    let granted = allocate::allocate(*h, shelves, items, w, height);
    *h = granted.header;
    granted.answer
}

pub fn release(
    h: &mut Header,
    shelves: &mut [u16],
    items: &mut [u16],
    row: u16,
    generation: u16,
) -> Result<(), Refusal>
    ensures { Releases h.old shelves.old items.old row generation (record { answer = result; header = h.new }) shelves.new items.new }
{
    let released = release::release(*h, shelves, items, row, generation);
    *h = released.header;
    released.answer
}

pub fn clear(h: &mut Header, shelves: &mut [u16], items: &mut [u16]) -> Result<(), Refusal>
    ensures { Clears h.old shelves.old items.old (record { answer = result; header = h.new }) shelves.new items.new }
{
    let cleared = create::clear(*h, shelves, items);
    *h = cleared.header;
    cleared.answer
}
