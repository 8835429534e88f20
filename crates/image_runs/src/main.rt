// Loads images, sound and damaged, and saves again what was loaded: a line for each, with its answer and a sum over each table. The images are the records
// of standard input, and make.py says what they are.
#![tactic(auto)]

use input_bytes::read_full;
use rows::header::Header;
use rows::item::ItemRow;
use rows::row::Row;
use rows::shelf::ShelfRow;
use std::io;
use std::io::Read;

const LONGEST: usize = 8192;

// 64 rows of each table.
const SHELVES: usize = 512;

const ITEMS: usize = 576;

fn table_sum(table: &[u16]) -> u64 {
    let mut sum: u64 = 0;
    for number in table {
        sum = (sum * 31 + u64::from(*number)) % 65521;
    }
    sum
}

// Whether the image that was saved is the one that was loaded.
fn compared(n: u32, out: &[u8], image: &[u8]) -> &'static str {
    match out.get(..n as usize) {
        None => "too long",
        Some(saved) if saved == image => "same",
        Some(_) => "other",
    }
}

fn save_again(
    rt: &impl Print,
    h: Header,
    shelves: &[u16],
    items: &[u16],
    image: &[u8],
) -> io::Result<()> {
    let mut out = [0u8; LONGEST];
    match save::save(h, shelves, items, &mut out) {
        Ok(n) => print!(rt; " {}", compared(n, &out, image)),
        Err(refusal) => print!(rt; "{}", refusal.number()),
    }
}

fn tell(rt: &impl Print, answer: u16, shelves: &[u16], items: &[u16]) -> io::Result<()> {
    print!(rt; "{answer} {} {}", table_sum(shelves), table_sum(items))
}

fn run(rt: &impl Print, image: &[u8], shelves: &mut [u16], items: &mut [u16]) -> io::Result<()> {
    let r = load::load(image, shelves, items);
    match r.answer {
        Ok(()) => {
            tell(rt, 0, shelves, items)?;
            save_again(rt, r.header, shelves, items, image)?;
        }
        Err(refusal) => tell(rt, refusal.number(), shelves, items)?,
    }
    rt.println("")
}

// What a record says of its image: the length, and how many rows of each table it is loaded into.
#[derive(Clone, Copy)]
struct Record {
    length: usize,
    shelf_rows: u16,
    item_rows: u16,
}

fn run_in(rt: &impl Print, image: &[u8], record: Record) -> io::Result<()> {
    let mut shelves = [7u16; SHELVES];
    let mut items = [7u16; ITEMS];
    let s = SHELVES.min(usize::from(record.shelf_rows) * ShelfRow::NUMBERS);
    let i = ITEMS.min(usize::from(record.item_rows) * ItemRow::NUMBERS);
    let n = image.len().min(record.length);
    run(rt, &image[0..n], &mut shelves[0..s], &mut items[0..i])
}

// The next record, where there is one; its image goes to the front.
fn next_record(input: &mut impl Read, image: &mut [u8]) -> io::Result<Option<Record>> {
    let mut sizes = [0u8; 6];
    if read_full(input, &mut sizes)? < 6 {
        return Ok(None);
    }
    let length = image.len().min(usize::from(words::word(&sizes, 0)));
    if read_full(input, &mut image[0..length])? < length {
        return Ok(None);
    }
    Ok(Some(Record {
        length,
        shelf_rows: words::word(&sizes, 1),
        item_rows: words::word(&sizes, 2),
    }))
}

fn all_records(rt: &impl Print, input: &mut impl Read, image: &mut [u8]) -> io::Result<()> {
    for _ in 0..100000 {
        let Some(record) = next_record(input, image)? else {
            return Ok(());
        };
        run_in(rt, image, record)?;
    }
    Ok(())
}

fn main(rt: HostRuntime) -> io::Result<()> {
    let mut input = rt.reader();
    let mut image = [0u8; LONGEST];
    all_records(&rt, &mut input, &mut image)
}
