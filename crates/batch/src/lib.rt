// A batch: requests one after the other on one audit. Beyond document 01; each request is answered as its single call would answer it.
#![tactic(auto)]

ghost use Rattle.std.specs.Prelude.{◌≤◌};
ghost use Rattle.rows.specs.Prelude.{rows};
ghost use Rattle.rules.specs.Prelude.{Passes};
ghost use Rattle.promises.specs.Prelude.{Releases};
ghost use Rattle.batch_rules.specs.Asked.{askings, tolds};
ghost use Rattle.batch_rules.specs.Batch.{ServesFirst, Batches};

use batch_parts::serve;
use batch_rules::values::{Asking, Told};
use numbers::refusal::Refusal;
use promises::answers::Answered;
use rows::header::Header;
use rows::row::Row;

// The first n requests, in their order: each on what the one before it left.
fn serve_all(
    h: Header,
    shelves: &mut [u16],
    items: &mut [u16],
    requests: &[u16],
    out: &mut [u16],
    n: u16,
) -> Header
    requires { Passes h shelves.old items.old × (n ≤ rows askings requests.now) × (n ≤ rows tolds out.old) }
    ensures { ServesFirst h shelves.old items.old requests.now out.old n result shelves.new items.new out.new }
{
    let mut header = h;
    for k in 0..n {
        let q = Asking::there(requests, k);
        let served = serve::serve(header, shelves, items, q);
        header = served.header;
        served.told.put_there(out, k);
    }
    header
}

// One audit for all of them; 10 where the list of answers is shorter than that of requests.
pub fn batch(
    h: Header,
    shelves: &mut [u16],
    items: &mut [u16],
    requests: &[u16],
    out: &mut [u16],
) -> Answered<u16>
    ensures { Batches h shelves.old items.old requests.now out.old result shelves.new items.new out.new }
{
    if !audit::passes(h, shelves, items) {
        return Answered::refused(Refusal::Audit, h);
    }
    let n = Asking::capacity(requests);
    if Told::capacity(out) < n {
        return Answered::refused(Refusal::TooShort, h);
    }
    let header = serve_all(h, shelves, items, requests, out, n);
    Answered {
        answer: Ok(n),
        header,
    }
}

// The public call release, as a list of one request. Then the loop above is the only code of the library that makes a release, and the compiler puts a release's
// steps into it, where the header need not go through memory. Whether the item is live is asked here too, so that the answer need not be read from a list.
pub fn release(
    h: Header,
    shelves: &mut [u16],
    items: &mut [u16],
    row: u16,
    generation: u16,
) -> Answered<()>
    ensures { Releases h shelves.old items.old row generation result shelves.new items.new }
{
    if !audit::passes(h, shelves, items) {
        return Answered::refused(Refusal::Audit, h);
    }
    if !live_rows::is_live(h, items, row, generation) {
        return Answered::refused(Refusal::NoSuchItem, h);
    }
    let requests: [u16; 3] = [2, row, generation];
    let mut out: [u16; 7] = [0; 7];
    let header = serve_all(h, shelves, items, &requests, &mut out, 1);
    Answered {
        answer: Ok(()),
        header,
    }
}
