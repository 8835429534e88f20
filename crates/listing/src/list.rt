// List: the live items by rising row, six numbers each.
ghost use Rattle.std.specs.Prelude.{◌≡◌, ◌≤◌};
ghost use Rattle.rows.specs.Prelude.{rows};
ghost use Rattle.rules.specs.Prelude.{Passes};
ghost use Rattle.live_rows.specs.Live.{LiveRowsThere, live_count, rows_listed};
ghost use Rattle.promises.specs.Prelude.{records, written, Lists};

use numbers::index::ItemIndex;
use numbers::refusal::Refusal;
use rows::header::Header;
use rows::item::ItemRow;
use rows::live::Live;
use rows::row::Row;

// The live ones of the used rows go to the records from the first on; there is room for them. A row is read once.
fn list_rows(h: Header, shelves: &[u16], items: &[u16], out: &mut [u16])
    requires { LiveRowsThere h shelves.now items.now × (live_count items.now h.used_items ≤ rows records out.old) }
    ensures { out.new ≡ written 0 (rows_listed h shelves.now items.now h.used_items) out.old }
{
    let mut count: u16 = 0;
    for row in 0..h.used_items {
        let i = ItemRow::there(items, ItemIndex(row));
        if i.allocated == 1 {
            live_rows::live_of_item(h, shelves, i, row).put_there(out, count);
            count += 1;
        }
    }
}

// The live items by rising row, six numbers each, or 10 where `out` has no room for all of them. No audit is made: this is for callers that have
// made one, and they owe that the tables pass.
pub fn list_unaudited(
    h: Header,
    shelves: &[u16],
    items: &[u16],
    out: &mut [u16],
) -> Result<u16, Refusal>
    requires { Passes h shelves.now items.now }
    ensures { Lists h shelves.now items.now out.old result out.new }
{
    let count = live_rows::live_count(items, h.used_items);
    if Live::capacity(out) < count {
        return Err(Refusal::TooShort);
    }
    list_rows(h, shelves, items, out);
    Ok(count)
}

// The same for any header and tables, after the audit.
pub fn list(h: Header, shelves: &[u16], items: &[u16], out: &mut [u16]) -> Result<u16, Refusal>
    ensures { Lists h shelves.now items.now out.old result out.new }
{
    if !audit::passes(h, shelves, items) {
        return Err(Refusal::Audit);
    }
    list_unaudited(h, shelves, items, out)
}
