// Two sound atlases to damage, number by number: a fresh one, and one after document 01's whole case with a few rows freed. 2048 x 2048, alignments 4 and
// 8, two columns.
use crate::case::Atlas;
use numbers::index::{ItemIndex, ShelfIndex};
use numbers::limits::Limits;
use rows::header::Header;
use rows::item::ItemRow;
use rows::row::Row;
use rows::shelf::ShelfRow;

// The lengths of the tables: five shelf rows and nine item rows; and of an item table with all the rows that there can be.
pub const SHELVES: usize = 5 * ShelfRow::NUMBERS;

pub const ITEMS: usize = 9 * ItemRow::NUMBERS;

pub const FULL: usize = 65535 * ItemRow::NUMBERS;

// A header's ten numbers of 16 bits, then the occupied total in two.
pub const HEADER: usize = 12;

const FRESH_HEADER: [u16; HEADER] = [2048, 2048, 4, 8, 0, 1024, 2, 2, 65535, 65535, 0, 0];

const UNUSED_HEADER: [u16; HEADER] = [2048, 2048, 4, 8, 0, 1024, 0, 0, 65535, 65535, 0, 0];

const USED_HEADER: [u16; HEADER] = [2048, 2048, 4, 8, 0, 1024, 5, 9, 8, 4, 2176, 0];

pub fn header_numbers(of: Atlas) -> [u16; HEADER] {
    match of {
        Atlas::Fresh => FRESH_HEADER,
        Atlas::Unused => UNUSED_HEADER,
        Atlas::InUse => USED_HEADER,
        Atlas::Zeros => [0; HEADER],
    }
}

fn total(low: u16, high: u16) -> u32 {
    low as u32 + high as u32 * 65536
}

fn limits_of(n: &[u16; HEADER]) -> Limits {
    Limits {
        width: n[0],
        height: n[1],
        align_width: n[2],
        align_height: n[3],
        vertical: n[4],
        shelf_width: n[5],
    }
}

pub fn header_of(n: &[u16; HEADER]) -> Header {
    let mut h = rows::header::no_header();
    let limits = limits_of(n);
    h.limits = limits;
    h.used_shelves = n[6];
    h.used_items = n[7];
    let items = ItemIndex(n[8]);
    h.free_items = items;
    let shelves = ShelfIndex(n[9]);
    h.free_shelves = shelves;
    h.occupied = total(n[10], n[11]);
    h
}

const FRESH_SHELVES: [u16; SHELVES] = [
    0, 0, 2048, 65535, 1, 0, 0, 1, 1024, 0, 2048, 0, 65535, 1, 1, 1, 0, 0, 0, 0, 0, 0, 0, 0, 0, 0,
    0, 0, 0, 0, 0, 0, 0, 0, 0, 0, 0, 0, 0, 0,
];

// The shelf chain is 0, 2, 3, 1; shelf 4 is freed.
const USED_SHELVES: [u16; SHELVES] = [
    0, 0, 32, 65535, 2, 0, 0, 0, 1024, 0, 2048, 3, 65535, 1, 1, 1, 0, 32, 48, 0, 3, 2, 5, 0, 0, 80,
    1968, 2, 1, 4, 4, 1, 0, 0, 0, 0, 65535, 0, 0, 0,
];

pub fn shelf_numbers(of: Atlas) -> [u16; SHELVES] {
    match of {
        Atlas::Fresh => FRESH_SHELVES,
        _ => USED_SHELVES,
    }
}

const FRESH_ITEMS: [u16; ITEMS] = [
    0, 1024, 65535, 65535, 65535, 65535, 0, 0, 1, 1024, 1024, 65535, 65535, 65535, 65535, 1, 0, 1,
    0, 0, 0, 0, 0, 0, 0, 0, 0, 0, 0, 0, 0, 0, 0, 0, 0, 0, 0, 0, 0, 0, 0, 0, 0, 0, 0, 0, 0, 0, 0, 0,
    0, 0, 0, 0, 0, 0, 0, 0, 0, 0, 0, 0, 0, 0, 0, 0, 0, 0, 0, 0, 0, 0, 0, 0, 0, 0, 0, 0, 0, 0, 0,
];

// Shelf 0 holds 0, 3, 6, of which 0 and 6 are free. Shelf 2 holds 2 and 5, of which 5 is free; shelves 1 and 3 hold one free item each, 1 and 4; 8 and 7
// are freed, 8 the latest.
const USED_ITEMS: [u16; ITEMS] = [
    0, 20, 65535, 3, 65535, 6, 0, 0, 1, 1024, 1024, 65535, 65535, 65535, 65535, 1, 0, 1, 0, 32,
    65535, 5, 65535, 65535, 2, 1, 1, 20, 20, 0, 6, 65535, 65535, 0, 1, 1, 0, 1024, 65535, 65535,
    65535, 65535, 3, 0, 1, 32, 992, 2, 65535, 65535, 65535, 2, 0, 1, 40, 984, 3, 65535, 0, 65535,
    0, 0, 1, 0, 0, 0, 65535, 0, 0, 0, 0, 1, 0, 0, 0, 7, 0, 0, 0, 0, 3,
];

pub fn item_numbers(of: Atlas) -> [u16; ITEMS] {
    match of {
        Atlas::Fresh => FRESH_ITEMS,
        _ => USED_ITEMS,
    }
}

// Item rows at the front of the largest table.
pub fn put_items(items: &mut [u16; FULL], numbers: [u16; ITEMS]) {
    items[..ITEMS].copy_from_slice(&numbers);
}

// One number replaced, where there is one.
pub fn set(numbers: &mut [u16], at: Option<usize>, n: u16) {
    let Some(at) = at else {
        return;
    };
    if let Some(number) = numbers.get_mut(at) {
        *number = n;
    }
}
