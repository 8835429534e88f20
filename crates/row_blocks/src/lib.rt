// The rows of a lent table as the blocks of a kind: written, judged and copied. Where a row stands in a table is known here and in `rows`, and nowhere
// above.
#![tactic(auto)]

ghost use Rattle.std.specs.Prelude.{◌≡◌, ◌+◌, ◌*◌, ◌<◌, ◌≤◌, length};
ghost use Rattle.numbers.specs.Prelude.{Decides};
ghost use Rattle.image_form.specs.Bytes.{bytes_of, words_of, over};
ghost use Rattle.image_form.specs.Blocks.{up_to};
ghost use Rattle.row_blocks.specs.Layout.{Laid, Rows, There, table_block, over_from, standing, RightAt, AllRight, held_in_of};

use blocks::block;
use blocks::block::Heading;

// A kind of blocks that hold rows: its number, how many rows a block has at most, and how many numbers a row has.
#[derive(Clone, Copy)]
pub struct Layout {
    pub kind: u16,
    pub most: usize,
    pub width: usize,
}

impl Layout {
    // How many of the used rows block b has.
    pub fn rows_in(self, used: usize, b: usize) -> usize
        requires { (b * self.most ≤ used) × (used ≤ 65535) × (self.most * self.width ≤ 252) }
        ensures { Rows self used b result }
    {
        self.most.min(used - b * self.most)
    }

    // What stands in front of a block of the kind.
    pub fn heading(self, number: usize, rows: usize) -> Heading
        requires { (number < 65536) × (rows < 65536) × (self.kind < 256) }
        ensures { result ≡ record { number = number; kind = self.kind; rows = rows } }
    {
        Heading {
            number: number as u16,
            kind: self.kind as u8,
            rows: rows as u16,
        }
    }
}

// The blocks that hold the used rows of a table: how many they are, and which block of the image is the first of them.
#[derive(Clone, Copy)]
pub struct RowBlocks {
    pub layout: Layout,
    pub first: usize,
    pub used: usize,
    pub count: usize,
    ghost laid: { Laid layout first used count },
}

// Whether block b is right, with so many rows.
fn one_right(image: &[u8], k: Layout, first: usize, b: usize, rows: usize) -> bool
    requires { There k first b rows image.now }
    ensures { Decides result (RightAt k first b rows (words_of image.now)) }
{
    let at = b * 512;
    let to = at + 512;
    let heading = k.heading(first + b, rows);
    block::block_right(&image[at..to], heading, rows * k.width)
}

// Whether the blocks that are full are right. Their sizes are the same, and worked out once; where no block is full, not at all.
fn full_right(image: &[u8], k: Layout, first: usize, full: usize) -> bool
    requires { Laid k first (full * k.most) full × (full * 512 ≤ length image.now) }
    ensures { Decides result (AllRight k (full * k.most) first full (words_of image.now)) }
{
    if full == 0 {
        return true;
    }
    for b in 0..full {
        if !one_right(image, k, first, b, k.most) {
            return false;
        }
    }
    true
}

// The rows that stand in block b go to their place in a table.
fn copy_block(table: &mut [u16], image: &[u8], k: Layout, b: usize, rows: usize)
    requires { There k 0 b rows image.now × (b * k.most * k.width + rows * k.width ≤ length table.old) }
    ensures { table.new ≡ over_from (b * k.most * k.width) (standing b (rows * k.width) (words_of image.now)) table.old }
{
    let from = b * k.most * k.width;
    let end = from + rows * k.width;
    let at = b * 512 + 6;
    let to = at + 2 * (rows * k.width);
    words::read_words(&mut table[from..end], &image[at..to]);
}

impl RowBlocks {
    // How many rows block b has.
    pub fn rows_in(self, b: usize) -> usize
        requires { b < self.count }
        ensures { Rows self.layout self.used b result }
    {
        self.layout.rows_in(self.used, b)
    }

    // The used rows go to the blocks.
    pub fn write(self, out: &mut [u8], table: &[u16])
        requires { (length out.old ≡ self.count * 512) × (self.used * self.layout.width ≤ length table.now) }
        ensures { out.new ≡ bytes_of (up_to (table_block self.layout self.used self.first table.now) self.count) }
    {
        let k = self.layout;
        for b in 0..self.count {
            let rows = self.rows_in(b);
            let at = b * 512;
            let to = at + 512;
            let from = b * k.most * k.width;
            let end = from + rows * k.width;
            let heading = k.heading(self.first + b, rows);
            block::write_block(&mut out[at..to], heading, &table[from..end]);
        }
    }

    // Whether these are the blocks of the used rows. Only the last can have room left.
    pub fn are_right(self, image: &[u8]) -> bool
        requires { length image.now ≡ self.count * 512 }
        ensures { Decides result (AllRight self.layout self.used self.first self.count (words_of image.now)) }
    {
        let k = self.layout;
        let first = self.first;
        let used = self.used;
        let full = used / k.most;
        if !full_right(image, k, first, full) {
            return false;
        }
        if full == self.count {
            return true;
        }
        one_right(image, k, first, full, used - full * k.most)
    }

    // The rows that stand in the blocks go to the front of a table: those of the full blocks, then those of the last where it has room left.
    pub fn copy(self, table: &mut [u16], image: &[u8])
        requires { (length image.now ≡ self.count * 512) × (self.used * self.layout.width ≤ length table.old) }
        ensures { table.new ≡ over (up_to (held_in_of self.layout self.used (words_of image.now)) self.count) table.old }
    {
        let k = self.layout;
        let used = self.used;
        let full = used / k.most;
        for b in 0..full {
            copy_block(table, image, k, b, k.most);
        }
        if full == self.count {
            return;
        }
        copy_block(table, image, k, full, used - full * k.most);
    }
}
