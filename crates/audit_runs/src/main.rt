// Audits of sound, damaged and hostile tables: a line for each, with its verdict. The cases are the lines of standard input.
#![tactic(auto)]

mod case;
mod tables;

ghost use Rattle.std.specs.Prelude.{◌≤◌, length};

use audit::Verdict;
use case::{Ask, Case, Part};
use rows::header::Header;
use rows::item::ItemRow;
use rows::row::Row;
use rows::shelf::ShelfRow;
use std::io::Read;
use tables::{FULL, HEADER, ITEMS, SHELVES};

fn say(rt: HostRuntime, text: &[u8]) {
    let _ = rt.write_all(text);
}

fn told(rt: HostRuntime, v: Verdict) {
    let _ = println!(rt; "{v}");
}

// What is left of a table's length.
fn left(length: usize, short: u16) -> usize
    ensures { result ≤ length }
{
    length.saturating_sub(short as usize)
}

fn header(c: Case) -> Header {
    let mut h = tables::header_numbers(c.of);
    tables::set(&mut h, case::place(c, Part::Header, HEADER), c.value);
    tables::header_of(&h)
}

fn shelf_table(c: Case) -> [u16; SHELVES] {
    let mut s = tables::shelf_numbers(c.of);
    tables::set(
        &mut s,
        case::place(c, Part::ShelfRow, ShelfRow::NUMBERS),
        c.value,
    );
    s
}

fn item_table(c: Case) -> [u16; ITEMS] {
    let mut i = tables::item_numbers(c.of);
    tables::set(
        &mut i,
        case::place(c, Part::ItemRow, ItemRow::NUMBERS),
        c.value,
    );
    i
}

fn audit(rt: HostRuntime, c: Case) {
    let s = shelf_table(c);
    let i = item_table(c);
    let shelves = &s[0..left(SHELVES, c.short_shelves)];
    let items = &i[0..left(ITEMS, c.short_items)];
    told(rt, audit::audit(header(c), shelves, items));
}

fn audit_full(rt: HostRuntime, h: Header, shelves: &[u16; SHELVES], items: &[u16; FULL]) {
    told(rt, audit::audit(h, shelves, items));
}

// The items at the front of the largest table.
fn audit_large(rt: HostRuntime, c: Case) {
    let s = tables::shelf_numbers(c.of);
    let mut i = [0u16; FULL];
    tables::put_items(&mut i, tables::item_numbers(c.of));
    audit_full(rt, header(c), &s, &i);
}

// Whether tables can be cleared. What they hold is not asked.
fn clear(rt: HostRuntime, c: Case) {
    let s = [0u16; SHELVES];
    let i = [0u16; ITEMS];
    let shelves = &s[0..left(SHELVES, c.short_shelves)];
    let items = &i[0..left(ITEMS, c.short_items)];
    if audit::passes_for_clear(header(c), shelves, items) {
        say(rt, b"can be cleared\n");
    } else {
        say(rt, b"can't be cleared\n");
    }
}

fn run(rt: HostRuntime, c: Case) {
    match c.ask {
        Ask::Clear => clear(rt, c),
        Ask::AuditLargest => audit_large(rt, c),
        Ask::Audit => audit(rt, c),
    }
}

// A line that says what its columns hold is no case.
fn run_line(rt: HostRuntime, line: &[u8]) {
    if line.len() < case::NAME || line[0] == b'#' {
        return;
    }
    say(rt, &line[case::NAME..]);
    say(rt, b": ");
    run(rt, case::case_of(line));
}

fn run_lines(rt: HostRuntime, text: &[u8]) {
    for line in text.split(|byte| *byte == b'\n') {
        run_line(rt, line);
    }
}

// Reads until `buf` is full, the input ends or a read fails, and says how many bytes stand at its start.
fn read_full(rt: HostRuntime, buf: &mut [u8]) -> usize
    ensures { result ≤ length buf.new }
{
    let mut done: usize = 0;
    while done < buf.len() {
        let Ok(n) = rt.stdin().read(&mut buf[done..]) else {
            return done;
        };
        if n == 0 {
            return done;
        }
        done += n;
    }
    done
}

fn main(rt: HostRuntime) {
    let mut table = [0u8; 8192];
    let n = read_full(rt, &mut table);
    run_lines(rt, &table[..n]);
}
