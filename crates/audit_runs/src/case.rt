// A case, as a line of standard input gives it: a table with numbers in fixed columns, then the name of the case.
ghost use Rattle.std.specs.Prelude.{◌≤◌, length};

// Where the name begins.
pub const NAME: usize = 26;

// What is asked of the tables.
#[derive(Clone, Copy)]
pub enum Ask {
    Audit,
    // whether they can be cleared
    Clear,
    // an audit with the largest item table
    AuditLargest,
}

impl From<u8> for Ask {
    fn from(letter: u8) -> Ask {
        match letter {
            b'c' => Ask::Clear,
            b'l' => Ask::AuditLargest,
            _ => Ask::Audit,
        }
    }
}

// Whose header and tables these are.
#[derive(Clone, Copy)]
pub enum Atlas {
    Fresh,
    // a fresh one whose header has no used rows
    Unused,
    InUse,
    // no atlas: a header of zeros
    Zeros,
}

impl From<u8> for Atlas {
    fn from(letter: u8) -> Atlas {
        match letter {
            b'f' => Atlas::Fresh,
            b'e' => Atlas::Unused,
            b'u' => Atlas::InUse,
            _ => Atlas::Zeros,
        }
    }
}

// What can have a number replaced.
#[derive(Clone, Copy, PartialEq, Eq)]
pub enum Part {
    Header,
    ShelfRow,
    ItemRow,
}

// The part that a letter names, if it names one.
fn part_of(letter: u8) -> Option<Part> {
    match letter {
        b'h' => Some(Part::Header),
        b's' => Some(Part::ShelfRow),
        b'i' => Some(Part::ItemRow),
        _ => None,
    }
}

#[derive(Clone, Copy)]
pub struct Case {
    pub ask: Ask,
    pub of: Atlas,
    // what has a number replaced, if anything has
    pub part: Option<Part>,
    pub row: u16,
    pub field: u16,
    pub value: u16,
    // how many numbers the tables lack at their ends
    pub short_shelves: u16,
    pub short_items: u16,
}

// The decimal number that stands, after spaces, in these columns of a line; 65535 at most.
fn number(columns: &[u8]) -> u16 {
    let mut n: u32 = 0;
    for byte in columns {
        if *byte > b' ' {
            n = n * 10 + (*byte % 16) as u32;
            if n > 65535 {
                return 65535;
            }
        }
    }
    n as u16
}

pub fn case_of(line: &[u8]) -> Case
    requires { 26 ≤ length line.now }
{
    Case {
        ask: Ask::from(line[0]),
        of: Atlas::from(line[2]),
        part: part_of(line[4]),
        row: number(&line[5..8]),
        field: number(&line[8..11]),
        value: number(&line[11..17]),
        short_shelves: number(&line[17..21]),
        short_items: number(&line[21..25]),
    }
}

// The place of the replaced number in the table of this part, whose rows have so many numbers, if it is in this part.
pub fn place(c: Case, part: Part, numbers: usize) -> Option<usize>
    requires { numbers ≤ 12 }
{
    if c.part != Some(part) {
        return None;
    }
    Some(c.row as usize * numbers + c.field as usize)
}
