// The answers of the script program, and the text of each.
ghost use Rattle.std.specs.Prelude.{◌≤◌, length};
ghost use Rattle.texts.specs.Lines.{PutsLines};
ghost use Rattle.texts.specs.Put.{Puts};
ghost use Rattle.texts.specs.Answer.{live_line, refusal_line, text_of};
ghost use Rattle.texts.specs.declared.answer.Answer.TheVariants.{Made, Item, Space, End};

use crate::text::{put_line, put_number, put_text};
use numbers::refusal::Refusal;
use rows::live::Live;

#[derive(Clone, Copy)]
pub enum Answer {
    // To r and c.
    Done,
    // To n: the columns.
    Made(u16),
    // To a and g.
    Item(Live),
    // To s: occupied, then free.
    Space(u32, u32),
    // To l: an item's line, and the count that ends the list.
    Listed(Live),
    End(u32),
    // Its number is told.
    No(Refusal),
}

// The line of an item in a list.
fn put_live(out: &mut [u8], at: usize, live: Live) -> usize
    ensures puts { Puts out.old at (live_line live) out.new result }
    ensures live_len_bound { length (live_line live) ≤ 36 }
{
    let a = put_number(out, at, live.row as u32);
    put_line(
        out,
        a,
        b"",
        &[
            live.generation as u32,
            live.x0 as u32,
            live.y0 as u32,
            live.x1 as u32,
            live.y1 as u32,
        ],
    )
}

fn put_item(out: &mut [u8], at: usize, live: Live) -> usize
    ensures { PutsLines out.old at (text_of (Item live)) out.new result }
{
    let a = put_text(out, at, b"ok ");
    put_live(out, a, live)
}

fn put_made(out: &mut [u8], at: usize, columns: u16) -> usize
    ensures { PutsLines out.old at (text_of (Made columns)) out.new result }
{
    put_line(out, at, b"ok", &[columns as u32])
}

fn put_space(out: &mut [u8], at: usize, occupied: u32, free: u32) -> usize
    ensures { PutsLines out.old at (text_of (Space occupied free)) out.new result }
{
    put_line(out, at, b"space", &[occupied, free])
}

fn put_end(out: &mut [u8], at: usize, count: u32) -> usize
    ensures { PutsLines out.old at (text_of (End count)) out.new result }
{
    put_line(out, at, b"end", &[count])
}

// The line of a refusal's number, whatever it is.
pub fn put_no(out: &mut [u8], at: usize, number: u16) -> usize
    ensures { PutsLines out.old at (refusal_line number) out.new result }
{
    put_line(out, at, b"no", &[number as u32])
}

// An answer's line with its newline, of at most 39 bytes.
pub fn put_answer(out: &mut [u8], at: usize, answer: Answer) -> usize
    ensures { PutsLines out.old at (text_of answer) out.new result }
{
    match answer {
        Answer::Done => put_text(out, at, b"ok\n"),
        Answer::Made(columns) => put_made(out, at, columns),
        Answer::Item(live) => put_item(out, at, live),
        Answer::Space(occupied, free) => put_space(out, at, occupied, free),
        Answer::Listed(live) => put_live(out, at, live),
        Answer::End(count) => put_end(out, at, count),
        Answer::No(refusal) => put_no(out, at, refusal.number()),
    }
}
