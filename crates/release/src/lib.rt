// The public call release: the item that an id names is free again.
#![tactic(auto)]

ghost use Rattle.std.specs.Prelude.{◌≡◌};
ghost use Rattle.rows.specs.State.{state};
ghost use Rattle.merge.specs.Merge.{release_at};
ghost use Rattle.merge.specs.Releasable.{Releasable};
ghost use Rattle.rules.specs.Prelude.{Passes};
ghost use Rattle.promises.specs.Prelude.{Releases};

use merge::release_at;
use numbers::index::ItemIndex;
use numbers::refusal::Refusal;
use promises::answers::Answered;
use rows::header::Header;
use rows::tables::Tables;

// The item in row `at` is released in the tables that were lent.
fn release_row(h: Header, shelves: &mut [u16], items: &mut [u16], at: ItemIndex) -> Header
    requires { Releasable h shelves.old items.old at }
    ensures { state result shelves.new items.new ≡ release_at (state h shelves.old items.old) at }
{
    let mut t = Tables {
        header: h,
        shelves,
        items,
    };
    release_at(&mut t, at);
    t.header
}

// The call without the audit, for callers that have made one: its caller owes that the tables pass.
pub fn release_unaudited(
    h: Header,
    shelves: &mut [u16],
    items: &mut [u16],
    row: u16,
    generation: u16,
) -> Answered<()>
    requires { Passes h shelves.old items.old }
    ensures { Releases h shelves.old items.old row generation result shelves.new items.new }
{
    if !live_rows::is_live(h, items, row, generation) {
        return Answered::refused(Refusal::NoSuchItem, h);
    }
    let at = ItemIndex(row);
    let header = release_row(h, shelves, items, at);
    Answered {
        answer: Ok(()),
        header,
    }
}

pub fn release(
    h: Header,
    shelves: &mut [u16],
    items: &mut [u16],
    row: u16,
    generation: u16,
) -> Answered<()>
    ensures { Releases h shelves.old items.old row generation result shelves.new items.new }
{
    if !audit::passes(h, shelves, items) {
        return Answered::refused(Refusal::Audit, h);
    }
    release_unaudited(h, shelves, items, row, generation)
}
