// The calls that change nothing: look-up, the totals, size and is_empty.
ghost use Rattle.std.specs.Prelude.{◌≡◌};
ghost use Rattle.numbers.specs.Prelude.{space_left};
ghost use Rattle.rules.specs.Prelude.{Passes};
ghost use Rattle.promises.specs.Prelude.{LooksUp, TellsOccupied, TellsFreeSpace, TellsSize, TellsEmpty};

use numbers::refusal::Refusal;
use promises::answers::Sides;
use rows::header::Header;
use rows::live::Live;

// What is told of the item that an id names, or 8 where it names none. No audit is made: this is for callers that have made one, and they owe that
// the tables pass.
pub fn look_up_unaudited(
    h: Header,
    shelves: &[u16],
    items: &[u16],
    row: u16,
    generation: u16,
) -> Result<Live, Refusal>
    requires { Passes h shelves.now items.now }
    ensures { LooksUp h shelves.now items.now row generation result }
{
    if !live_rows::is_live(h, items, row, generation) {
        return Err(Refusal::NoSuchItem);
    }
    Ok(live_rows::live_at(h, shelves, items, row))
}

// The same for any header and tables, after the audit.
pub fn look_up(
    h: Header,
    shelves: &[u16],
    items: &[u16],
    row: u16,
    generation: u16,
) -> Result<Live, Refusal>
    ensures { LooksUp h shelves.now items.now row generation result }
{
    if !audit::passes(h, shelves, items) {
        return Err(Refusal::Audit);
    }
    look_up_unaudited(h, shelves, items, row, generation)
}

pub fn occupied(h: Header, shelves: &[u16], items: &[u16]) -> Result<u32, Refusal>
    ensures { TellsOccupied h shelves.now items.now result }
{
    if !audit::passes(h, shelves, items) {
        return Err(Refusal::Audit);
    }
    Ok(h.occupied)
}

pub fn free_space(h: Header, shelves: &[u16], items: &[u16]) -> Result<u32, Refusal>
    ensures { TellsFreeSpace h shelves.now items.now result }
{
    if !audit::passes(h, shelves, items) {
        return Err(Refusal::Audit);
    }
    Ok(space_left(h))
}

// What is left of the atlas. No audit is made: the caller has made one.
pub fn space_left(h: Header) -> u32
    ensures { result ≡ space_left h.limits h.occupied }
{
    wrap::area(h.limits.width, h.limits.height).saturating_sub(h.occupied)
}

pub fn size(h: Header, shelves: &[u16], items: &[u16]) -> Result<Sides, Refusal>
    ensures { TellsSize h shelves.now items.now result }
{
    if !audit::passes(h, shelves, items) {
        return Err(Refusal::Audit);
    }
    if h.limits.vertical == 1 {
        return Ok(Sides {
            width: h.limits.height,
            height: h.limits.width,
        });
    }
    Ok(Sides {
        width: h.limits.width,
        height: h.limits.height,
    })
}

pub fn is_empty(h: Header, shelves: &[u16], items: &[u16]) -> Result<bool, Refusal>
    ensures { TellsEmpty h shelves.now items.now result }
{
    if !audit::passes(h, shelves, items) {
        return Err(Refusal::Audit);
    }
    Ok(live_rows::is_vacant(h))
}
