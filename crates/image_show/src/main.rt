// Tells what an image on standard input holds: the size, the space and the live items of its atlas; or the number with which load refuses it, and where.
#![tactic(auto)]

ghost use Rattle.std.specs.Prelude.{◌≡◌, ◌≤◌, length};

use audit::Verdict;
use blocks::block;
use blocks::block::Heading;
use input_bytes::read_full;
use numbers::refusal::Refusal;
use row_blocks::RowBlocks;
use rows::header::Header;
use std::io::Read;
use std::{fmt, io};

// The longest image has 4,457 blocks; one byte more tells a longer one.
const LONGEST: usize = 2281985;

// 65535 rows of each table, and as many records.
const SHELVES: usize = 524280;

const ITEMS: usize = 589815;

const RECORDS: usize = 393210;

fn say_records(rt: &impl Print, out: &[u16], n: u16) -> io::Result<()> {
    let (records, _) = out.as_chunks::<6>();
    for [a, b, c, d, e, f] in records.iter().take(usize::from(n)) {
        println!(rt; "{a} {b} {c} {d} {e} {f}")?;
    }
    Ok(())
}

fn say_live(
    rt: &impl Print,
    h: Header,
    shelves: &[u16],
    items: &[u16],
    out: &mut [u16],
) -> io::Result<()> {
    match listing::list::list(h, shelves, items, out) {
        Ok(n) => {
            say_records(rt, out, n)?;
            println!(rt; "live {n}")
        }
        Err(refusal) => print!(rt; "{}", refusal.number()),
    }
}

fn say_atlas(
    rt: &impl Print,
    h: Header,
    shelves: &[u16],
    items: &[u16],
    out: &mut [u16],
) -> io::Result<()> {
    println!(rt; "size {} {}", h.limits.width, h.limits.height)?;
    println!(rt; "rows {} {}", h.used_shelves, h.used_items)?;
    println!(rt; "occupied {}", h.occupied)?;
    say_live(rt, h, shelves, items, out)
}

// What is wrong with a block, or from one on.
#[derive(Clone, Copy)]
enum Part {
    Number,
    Form,
    Kind,
    Rows,
    UnusedByte,
    Check,
    // It is missing, cut short, or one too many.
    Length,
}

impl fmt::Display for Part {
    fn fmt<W: fmt::Write>(&self, f: &mut fmt::Formatter<W>) -> fmt::Result {
        f.write_str(match self {
            Part::Number => "number wrong in block",
            Part::Form => "form wrong in block",
            Part::Kind => "kind wrong in block",
            Part::Rows => "rows wrong in block",
            Part::UnusedByte => "unused byte wrong in block",
            Part::Check => "check wrong in block",
            Part::Length => "length wrong from block",
        })
    }
}

// What is wrong first with an image, and with which of its blocks.
#[derive(Clone, Copy)]
struct Fault {
    part: Part,
    number: u16,
}

// Why load refuses an image.
#[derive(Clone, Copy)]
enum Why {
    Image(Fault),
    Audit(Verdict),
    TooFewRows,
}

impl fmt::Display for Why {
    fn fmt<W: fmt::Write>(&self, f: &mut fmt::Formatter<W>) -> fmt::Result {
        match self {
            Why::Image(fault) => write!(f, "{} {}", fault.part, fault.number),
            // Load has audited the same rows, so this is not met.
            Why::Audit(Verdict::Passes) => f.write_str("the audit fails"),
            Why::Audit(Verdict::Rules5To7) => write!(
                f,
                "one of audit {} fails",
                Verdict::Rules5To7
            ),
            Why::Audit(verdict) => write!(f, "audit {verdict} fails"),
            Why::TooFewRows => f.write_str("too few rows in the tables"),
        }
    }
}

// The first part of the heading that is not what it is due to be.
fn heading_fault(block: &[u8], due: Heading) -> Option<Part>
    requires { length block.now ≡ 512 }
{
    let form_and_kind = words::word(block, 1);
    if words::word(block, 0) != due.number {
        return Some(Part::Number);
    }
    if form_and_kind % 256 != 1 {
        return Some(Part::Form);
    }
    if form_and_kind / 256 != u16::from(due.kind) {
        return Some(Part::Kind);
    }
    if words::word(block, 2) != due.rows {
        return Some(Part::Rows);
    }
    None
}

// What is wrong first with a block that is due to have this heading and so many words of data.
fn block_fault(block: &[u8], due: Heading, count: usize) -> Option<Fault>
    requires { (length block.now ≡ 512) × (count ≤ 252) }
{
    let number = due.number;
    if let Some(part) = heading_fault(block, due) {
        return Some(Fault { part, number });
    }
    let end = 6 + 2 * count;
    if words::sum_of_words(&block[end..510]) != 0 {
        let part = Part::UnusedByte;
        return Some(Fault { part, number });
    }
    if words::sum_of_words(&block[0..510]) % 65535 != u32::from(words::word(block, 255)) {
        let part = Part::Check;
        return Some(Fault { part, number });
    }
    None
}

// The same of the first of the blocks that is not there or wrong.
fn rows_fault(image: &[u8], blocks: RowBlocks) -> Option<Fault> {
    for b in 0..blocks.count {
        let rows = blocks.rows_in(b);
        let number = blocks.first + b;
        let due = blocks.layout.heading(number, rows);
        let at = number * 512;
        let to = at + 512;
        if image.len() < to {
            return Some(Fault {
                part: Part::Length,
                number: due.number,
            });
        }
        let fault = block_fault(&image[at..to], due, rows * blocks.layout.width);
        if fault.is_some() {
            return fault;
        }
    }
    None
}

// What is wrong first. Load judges the length before the blocks of the rows; here it is judged block by block, so that a block can be named.
fn image_fault(image: &[u8], h: Header) -> Fault
    requires { 512 ≤ length image.now }
{
    if let Some(fault) = block_fault(&image[0..512], block::HEADER, 12) {
        return fault;
    }
    let z = image_sizes::sizes_of(h);
    let shelves = RowBlocks {
        layout: image_sizes::SHELF_LAYOUT,
        first: 1,
        used: h.used_shelves as usize,
        count: z.shelf_blocks,
    };
    if let Some(fault) = rows_fault(image, shelves) {
        return fault;
    }
    let first = 1 + z.shelf_blocks;
    let items = RowBlocks {
        layout: image_sizes::ITEM_LAYOUT,
        first,
        used: h.used_items as usize,
        count: z.item_blocks,
    };
    if let Some(fault) = rows_fault(image, items) {
        return fault;
    }
    Fault {
        part: Part::Length,
        number: (first + z.item_blocks) as u16,
    }
}

fn why_refused(refusal: Refusal, image: &[u8], shelves: &[u16], items: &[u16]) -> Why {
    if image.len() < 512 {
        return Why::Image(Fault {
            part: Part::Length,
            number: 0,
        });
    }
    let h = image_read::header_in(&image[0..512]);
    match refusal {
        Refusal::Image => Why::Image(image_fault(image, h)),
        Refusal::Audit => Why::Audit(audit::audit(h, shelves, items)),
        _ => Why::TooFewRows,
    }
}

fn say_refusal(
    rt: &impl Print,
    refusal: Refusal,
    image: &[u8],
    shelves: &[u16],
    items: &[u16],
) -> io::Result<()> {
    let why = why_refused(refusal, image, shelves, items);
    println!(rt; "no {}: {why}", refusal.number())
}

fn show(
    rt: &impl Print,
    image: &[u8],
    shelves: &mut [u16],
    items: &mut [u16],
    out: &mut [u16],
) -> io::Result<()> {
    let r = load::load(image, shelves, items);
    match r.answer {
        Ok(()) => say_atlas(rt, r.header, shelves, items, out),
        Err(refusal) => say_refusal(rt, refusal, image, shelves, items),
    }
}

fn read(
    rt: &impl Print,
    input: &mut impl Read,
    image: &mut [u8],
    shelves: &mut [u16],
    items: &mut [u16],
    out: &mut [u16],
) -> io::Result<()> {
    let n = read_full(input, image)?;
    show(rt, &image[0..n], shelves, items, out)
}

fn lent(
    rt: &impl Print,
    input: &mut impl Read,
    image: &mut [u8; LONGEST],
    shelves: &mut [u16; SHELVES],
    items: &mut [u16; ITEMS],
    out: &mut [u16; RECORDS],
) -> io::Result<()> {
    read(rt, input, image, shelves, items, out)
}

fn main(rt: HostRuntime) -> io::Result<()> {
    let mut input = rt.reader();
    let mut image = [0u8; LONGEST];
    let mut shelves = [0u16; SHELVES];
    let mut items = [0u16; ITEMS];
    let mut out = [0u16; RECORDS];
    lent(
        &rt,
        &mut input,
        &mut image,
        &mut shelves,
        &mut items,
        &mut out,
    )
}
