// List, with the live items written to a lent list of records: the call of `listing` has a list of their numbers.
#![tactic(auto)]

ghost use Rattle.std.specs.Prelude.{◌≡◌, ◌≤◌, length};
ghost use Rattle.rules.specs.Prelude.{Passes};
ghost use Rattle.live_rows.specs.Live.{LiveRowsThere, live_count, rows_listed};
ghost use Rattle.surface_list.specs.Lives.{laid, ListsLives};

use numbers::index::ItemIndex;
use numbers::refusal::Refusal;
use rows::header::Header;
use rows::item::ItemRow;
use rows::live::Live;
use rows::row::Row;

// The live ones of the used rows go to the records from the first on; there is room for them. A row is read once.
fn lay_rows(h: Header, shelves: &[u16], items: &[u16], out: &mut [Live])
    requires { LiveRowsThere h shelves.now items.now × (live_count items.now h.used_items ≤ length out.old) }
    ensures { out.new ≡ laid (rows_listed h shelves.now items.now h.used_items) out.old }
{
    let mut count: usize = 0;
    for row in 0..h.used_items {
        let i = ItemRow::there(items, ItemIndex(row));
        if i.allocated == 1 {
            out[count] = live_rows::live_of_item(h, shelves, i, row);
            count += 1;
        }
    }
}

// The live items by rising row, each in a record of its own, and how many they are. Both checks are made, and the items counted, before anything is
// written.
pub fn list(h: Header, shelves: &[u16], items: &[u16], out: &mut [Live]) -> Result<u16, Refusal>
    ensures { ListsLives h shelves.now items.now out.old result out.new }
{
    if !audit::passes(h, shelves, items) {
        return Err(Refusal::Audit);
    }
    let count = live_rows::live_count(items, h.used_items);
    if out.len() < count as usize {
        return Err(Refusal::TooShort);
    }
    lay_rows(h, shelves, items, out);
    Ok(count)
}
