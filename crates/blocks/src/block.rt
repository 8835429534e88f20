// One block of saved form 1, over 512 lent bytes.
ghost use Rattle.std.specs.Prelude.{◌≡◌, ◌%◌, ◌<◌, ◌≤◌, [], ◌∷◌, length, take};
ghost use Rattle.numbers.specs.Prelude.{Decides};
ghost use Rattle.image_form.specs.Bytes.{bytes_of, words_of, total};
ghost use Rattle.image_form.specs.Blocks.{heading, block};
ghost use Rattle.image_form.specs.Form1.{form1};
ghost use Rattle.blocks.specs.Right.{BlockRight, unused_sum, CheckRight};

// What stands in front of a block: its number in the image, its kind, and how many rows it has.
#[derive(Clone, Copy)]
pub struct Heading {
    pub number: u16,
    pub kind: u8,
    pub rows: u16,
}

// Of the block that holds the header.
pub const HEADER: Heading = Heading {
    number: 0,
    kind: 0,
    rows: 1,
};

impl Heading {
    // The second word is the form with the kind above it.
    fn to_words(self) -> [u16; 3]
        ensures { result ≡ heading form1 self.number self.kind self.rows }
    {
        [self.number, 1 + 256 * u16::from(self.kind), self.rows]
    }

    // Whether these are the three words in front of the block.
    fn is_of(self, block: &[u8]) -> bool
        requires { length block.now ≡ 512 }
        ensures { Decides result (take 3 (words_of block.now) ≡ heading form1 self.number self.kind self.rows) }
    {
        let met = [
            words::word(block, 0),
            words::word(block, 1),
            words::word(block, 2),
        ];
        met == self.to_words()
    }
}

// The check of the bytes before it.
fn check_of(bytes: &[u8]) -> [u16; 1]
    requires { length bytes.now ≡ 510 }
    ensures { result ≡ (total (words_of bytes.now) % 65535) ∷ [] }
{
    [(words::sum_of_words(bytes) % 65535) as u16]
}

// Copied first, then summed: the length of what is summed is always the same.
pub fn write_block(out: &mut [u8], heading: Heading, numbers: &[u16])
    requires { (length out.old ≡ 512) × (length numbers.now ≤ 252) }
    ensures { out.new ≡ bytes_of (block form1 heading.number heading.kind heading.rows numbers.now) }
{
    let front = heading.to_words();
    let end = 6 + 2 * numbers.len();
    words::write_words(&mut out[0..6], &front);
    words::write_words(&mut out[6..end], numbers);
    out[end..510].fill(0);
    let check = check_of(&out[0..510]);
    words::write_words(&mut out[510..512], &check);
}

// Whether the check is that of the words before it, where those after the data are zero and add nothing. A fuller block is summed whole and the check taken
// off again: the length of what is summed is then known when this is compiled, which is faster.
fn check_right(block: &[u8], count: usize) -> bool
    requires { (length block.now ≡ 512) × (count ≤ 252) × (unused_sum count (words_of block.now) ≡ 0) }
    ensures { Decides result (CheckRight count (words_of block.now)) }
{
    let end = 6 + 2 * count;
    let check = words::word(block, 255) as u32;
    if count < 150 {
        return words::sum_of_words(&block[0..end]) % 65535 == check;
    }
    (words::sum_of_words(&block[0..512]) - check) % 65535 == check
}

// Whether this is the block with that heading and with the first `count` words of its data, all others of them zero.
pub fn block_right(block: &[u8], heading: Heading, count: usize) -> bool
    requires { (length block.now ≡ 512) × (count ≤ 252) }
    ensures { Decides result (BlockRight heading.number heading.kind heading.rows count (words_of block.now)) }
{
    if !heading.is_of(block) {
        return false;
    }
    let end = 6 + 2 * count;
    if !words::all_zero(&block[end..510]) {
        return false;
    }
    check_right(block, count)
}
