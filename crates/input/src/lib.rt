// Standard input as lines, which come in pieces of any length. Nothing is read or written here.
#![tactic(auto)]

ghost use Rattle.std.specs.Prelude.{◌≡◌, ◌≤◌, ◌∷◌, ◌++◌, [], length, take};
ghost use Rattle.input.specs.Kept.{short};
ghost use Rattle.input.specs.Takes.{Takes};

// The most bytes of a line, its newline not counted. One more is kept, which is enough to say that a line is too long.
const LONGEST: usize = 80;

// What is kept of a line: its first bytes.
#[derive(Drop)]
pub struct Line {
    pub bytes: [u8; 81],
    pub have: usize,
    ghost room: { have ≤ 81 },
}

// What was taken of a piece: how many bytes are kept of the line after it, and, where the line has ended, with how many bytes of the piece.
#[derive(Clone, Copy)]
pub struct Taken {
    pub have: usize,
    pub ended: Option<usize>,
}

// One byte more is kept of a line, where there is room for it; tells how many are kept then.
fn keep(line: &mut [u8], have: usize, byte: u8) -> usize
    requires { (length line.old ≡ 81) × (have ≤ 81) }
    ensures holds { take result line.new ≡ short (take have line.old ++ byte ∷ []) }
    ensures room { result ≤ 81 }
{
    if have <= LONGEST {
        line[have] = byte;
        return have + 1;
    }
    have
}

// Takes the bytes of `piece` up to a newline, and the newline; all of them where there is none. Of the line `have0` bytes are kept already. They are counted
// in a local: written back for each byte, the count made long lines slower (measured).
pub fn take_line(line: &mut [u8], have0: usize, piece: &[u8]) -> Taken
    requires line_len { length line.old ≡ 81 }
    requires have0_bound { have0 ≤ 81 }
    ensures takes { Takes (take have0 line.old) piece.now (take result.have line.new) result.ended }
    ensures room { result.have ≤ 81 }
{
    let mut have = have0;
    for (before, &byte) in piece.iter().enumerate() {
        if byte == b'\n' {
            return Taken {
                have,
                ended: Some(before + 1),
            };
        }
        have = keep(line, have, byte);
    }
    Taken { have, ended: None }
}

impl Line {
    ghost use Rattle.std.specs.Prelude.{◌≡◌, [], IsTrue, ◌↔◌};
    ghost use Rattle.input.specs.Line.{kept};

    // A line of which nothing was read.
    pub fn new() -> Line
        ensures { kept result ≡ [] }
    {
        Line {
            bytes: [0; 81],
            have: 0,
        }
    }

    pub fn is_empty(&self) -> bool
        ensures { IsTrue result ↔ (kept self.now ≡ []) }
    {
        self.have == 0
    }
}
