// Answers the lines of the input as they come, piece by piece. Nothing is read or written here: the answers go into a lent buffer.
#![tactic(auto)]

ghost use Rattle.std.specs.Prelude.{◌≡◌, ◌≤◌, length, take};
ghost use Rattle.input.specs.Line.{kept};
ghost use Rattle.feed.specs.Fed.{FeedsLine, FeedsPart};

use input::{Line, take_line};
use rows::header::Header;

// After the bytes taken of a piece: the header, how many bytes are kept of the line, how many were taken, and where the answers end.
#[derive(Clone, Copy)]
pub struct Fed {
    pub header: Header,
    pub have: usize,
    pub taken: usize,
    pub filled: usize,
}

// Takes the bytes of `piece` up to a newline and answers the line that it ends; takes all of them where there is none. Of the line `have` bytes
// are kept already, and the answer goes into `out` from `at` on.
pub fn feed(
    header: Header,
    shelves: &mut [u16],
    items: &mut [u16],
    line: &mut [u8],
    have: usize,
    piece: &[u8],
    out: &mut [u8],
    at: usize,
) -> Fed
    requires line_len { length line.old ≡ 81 }
    requires have_bound { have ≤ 81 }
    ensures { FeedsPart (take have line.old) piece.now out.old at (record { header = header; shelves = shelves.old; items = items.old }) (record { header = result.header; shelves = shelves.new; items = items.new }) result line.new out.new }
{
    let kept = take_line(line, have, piece);
    let Some(taken) = kept.ended else {
        return Fed {
            header,
            have: kept.have,
            taken: piece.len(),
            filled: at,
        };
    };
    let stepped = script::step(header, shelves, items, &line[..kept.have], out, at);
    Fed {
        header: stepped.header,
        have: 0,
        taken,
        filled: stepped.at,
    }
}

// The same without the bytes kept, which a Line holds.
#[derive(Clone, Copy)]
pub struct FedLine {
    pub header: Header,
    pub taken: usize,
    pub filled: usize,
}

// The same of a Line.
pub fn feed_line(
    header: Header,
    shelves: &mut [u16],
    items: &mut [u16],
    line: &mut Line,
    piece: &[u8],
    out: &mut [u8],
    at: usize,
) -> FedLine
    ensures { FeedsLine (kept line.old) piece.now out.old at (record { header = header; shelves = shelves.old; items = items.old }) (record { header = result.header; shelves = shelves.new; items = items.new }) result (kept line.new) out.new }
{
    let have = line.have;
    let fed = feed(
        header,
        shelves,
        items,
        &mut line.bytes,
        have,
        piece,
        out,
        at,
    );
    line.have = fed.have;
    FedLine {
        header: fed.header,
        taken: fed.taken,
        filled: fed.filled,
    }
}
