// The command l: a line for each live item by rising row, and the count.
ghost use Rattle.std.specs.Prelude.{◌<◌};
ghost use Rattle.lines.specs.declared.command.Tell.TheVariants as tell;
ghost use Rattle.live_rows.specs.Live.{LiveRowsThere, row_listed, rows_listed};
ghost use Rattle.script_tells.specs.Listing.{Listed};
ghost use Rattle.script_rules.specs.Answers.{tell_of};
ghost use Rattle.script_rules.specs.Step.{Steps, Calling};

use numbers::index::ItemIndex;
use numbers::refusal::Refusal;
use rows::header::Header;
use rows::item::ItemRow;
use rows::row::Row;
use script_rules::Stepped;
use script_rules::answers::say;
use texts::answer::{Answer, put_answer};

// How many items are listed, and the place after their lines.
#[derive(Clone, Copy)]
pub struct Lines {
    pub count: u32,
    pub at: usize,
}

// The line of this used row, if it holds a live item.
fn put_row(h: Header, shelves: &[u16], items: &[u16], row: u16, out: &mut [u8], at: usize) -> Lines
    requires { LiveRowsThere h shelves.now items.now × (row < h.used_items) }
    ensures { Listed (row_listed h shelves.now items.now row) out.old at result out.new }
{
    let index = ItemIndex(row);
    let i = ItemRow::there(items, index);
    if i.allocated != 1 {
        return Lines { count: 0, at };
    }
    let found = live_rows::live_of_item(h, shelves, i, row);
    Lines {
        count: 1,
        at: put_answer(out, at, Answer::Listed(found)),
    }
}

// The lines of all the used rows.
fn put_rows(h: Header, shelves: &[u16], items: &[u16], out: &mut [u8], at: usize) -> Lines
    requires { LiveRowsThere h shelves.now items.now }
    ensures { Listed (rows_listed h shelves.now items.now h.used_items) out.old at result out.new }
{
    let mut count: u32 = 0;
    let mut end = at;
    for row in 0..h.used_items {
        let lines = put_row(h, shelves, items, row, out, end);
        count += lines.count;
        end = lines.at;
    }
    Lines { count, at: end }
}

pub fn on_list(h: Header, shelves: &[u16], items: &[u16], out: &mut [u8], at: usize) -> Stepped
    ensures { Steps (Calling h shelves.now items.now (tell_of tell.List)) out.old at result shelves.now items.now out.new }
{
    if !audit::passes(h, shelves, items) {
        return say(h, out, at, Answer::No(Refusal::Audit));
    }
    let lines = put_rows(h, shelves, items, out, at);
    say(h, out, lines.at, Answer::End(lines.count))
}
