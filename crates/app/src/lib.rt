// The script program: reads standard input to its end, and answers each line. It holds one line, one read and the answers not yet written.
// What is done with the bytes that were read is proved in `feed`. What is read and what is written no contract can say; here each read goes through
// `feed_line` as it came, and the text of its answers is written. Where one of the two fails, a sentence on standard error says so, and the program ends.
#![tactic(auto)]

ghost use Rattle.std.specs.Prelude.{◌≡◌, length};
ghost use Rattle.input.specs.Line.{kept};
ghost use Rattle.app.specs.Reads.{Answered, Reads, Obeys};

use feed::feed_line;
use input::Line;
use rows::header;
use rows::header::Header;
use rows::item::ItemRow;
use rows::row::Row;
use rows::shelf::ShelfRow;
use std::io::Read;

// The two tables: 512 rows for shelves and 2048 for items.
const SHELVES: usize = 512 * ShelfRow::NUMBERS;

const ITEMS: usize = 2048 * ItemRow::NUMBERS;
// Answers are written once fewer than 79,911 bytes are left: no answer has more (feed/proofs/Longest).
const FULL: usize = 51161;

// A sentence on standard error, where one can be written.
fn complain(rt: HostRuntime, sentence: &[u8]) {
    let _ = rt.stderr().write_all(sentence);
}

// Writes a text of answers, unless that has failed before.
fn hand_on<W: Print>(rt: HostRuntime, to: &W, well: bool, text: &[u8]) -> bool {
    if !well {
        return false;
    }
    if to.write_all(text).is_ok() {
        return true;
    }
    complain(rt, b"script: standard output can't be written\n");
    false
}

// Answers the lines that end in `piece`, and writes the answers. It takes all of the piece, also where writing fails; says whether it was written.
fn reply<W: Print>(
    rt: HostRuntime,
    to: &W,
    header: &mut Header,
    shelves: &mut [u16],
    items: &mut [u16],
    line: &mut Line,
    piece: &[u8],
) -> bool
    requires { length items.old ≡ 18432 }
    ensures { Answered (kept line.old) piece.now (record { header = header.old; shelves = shelves.old; items = items.old }) (record { header = header.new; shelves = shelves.new; items = items.new }) (kept line.new) }
{
    let mut out = [0u8; 131072];
    let mut well = true;
    let mut taken: usize = 0;
    let mut filled: usize = 0;
    while taken < piece.len() {
        let fed = feed_line(
            *header,
            shelves,
            items,
            line,
            &piece[taken..],
            &mut out,
            filled,
        );
        *header = fed.header;
        taken += fed.taken;
        filled = fed.filled;
        if filled > FULL {
            well = hand_on(rt, to, well, &out[..filled]);
            filled = 0;
        }
    }
    hand_on(rt, to, well, &out[..filled])
}

// The end of the input: a last line without a newline is a line if it has a byte.
fn finish<W: Print>(
    rt: HostRuntime,
    to: &W,
    header: &mut Header,
    shelves: &mut [u16],
    items: &mut [u16],
    line: &mut Line,
)
    requires { length items.old ≡ 18432 }
    ensures { Reads (kept line.old) (record { header = header.old; shelves = shelves.old; items = items.old }) (record { header = header.new; shelves = shelves.new; items = items.new }) (kept line.new) }
{
    if line.is_empty() {
        return;
    }
    reply(rt, to, header, shelves, items, line, b"\n");
}

// Reads once, and answers what came; says whether to read on.
fn turn<W: Print>(
    rt: HostRuntime,
    to: &W,
    header: &mut Header,
    shelves: &mut [u16],
    items: &mut [u16],
    line: &mut Line,
) -> bool
    requires { length items.old ≡ 18432 }
    ensures { Reads (kept line.old) (record { header = header.old; shelves = shelves.old; items = items.old }) (record { header = header.new; shelves = shelves.new; items = items.new }) (kept line.new) }
{
    let mut buf = [0u8; 65536];
    let Ok(n) = rt.stdin().read(&mut buf) else {
        complain(rt, b"script: standard input can't be read\n");
        return false;
    };
    if n == 0 {
        finish(rt, to, header, shelves, items, line);
        return false;
    }
    reply(rt, to, header, shelves, items, line, &buf[..n])
}

// Reads standard input to its end and obeys its lines, from no atlas on; the answers go to `to`. What it returns is the header of the last atlas, which lies in the tables.
pub fn obey<W: Print>(rt: HostRuntime, to: &W, shelves: &mut [u16], items: &mut [u16]) -> Header
    requires { length items.old ≡ 18432 }
    ensures { Obeys shelves.old items.old result shelves.new items.new }
{
    let mut line = Line::new();
    let mut header = header::no_header();
    for _ in 0..u64::MAX {
        if !turn(rt, to, &mut header, shelves, items, &mut line) {
            break;
        }
    }
    header
}

// The whole program.
pub fn run(rt: HostRuntime) {
    let mut shelves = [0u16; SHELVES];
    let mut items = [0u16; ITEMS];
    obey(rt, &rt.stdout(), &mut shelves, &mut items);
}
