// Text put into a lent buffer from a place on: each function answers the place after it. Bytes that pass the buffer's end are dropped.
ghost use Rattle.std.specs.Prelude.{[], ◌∷◌};
ghost use Rattle.texts.specs.Put.{Puts};
ghost use Rattle.texts.specs.Text.{decimal, spaced, line};

pub fn put_byte(out: &mut [u8], at: usize, byte: u8) -> usize
    ensures { Puts out.old at (byte ∷ []) out.new result }
{
    if at < out.len() {
        out[at] = byte;
        return at + 1;
    }
    at
}

pub fn put_text(out: &mut [u8], at: usize, text: &[u8]) -> usize
    ensures { Puts out.old at text.now out.new result }
{
    let mut end = at;
    for &byte in text {
        end = put_byte(out, end, byte);
    }
    end
}

// A number in decimal.
pub fn put_number(out: &mut [u8], at: usize, n: u32) -> usize
    ensures { Puts out.old at (decimal n) out.new result }
{
    let mut digits = [0u8; 10];
    let mut i: usize = 9;
    let mut rest = n;
    while rest > 9 {
        digits[i] = b'0' + (rest % 10) as u8;
        rest /= 10;
        i -= 1;
    }
    digits[i] = b'0' + rest as u8;
    put_text(out, at, &digits[i..10])
}

// Numbers, with a space before each.
pub fn put_spaced(out: &mut [u8], at: usize, numbers: &[u32]) -> usize
    ensures { Puts out.old at (spaced numbers.now) out.new result }
{
    let mut end = at;
    for &number in numbers {
        end = put_byte(out, end, b' ');
        end = put_number(out, end, number);
    }
    end
}

// A word and numbers, and a newline.
pub fn put_line(out: &mut [u8], at: usize, word: &[u8], numbers: &[u32]) -> usize
    ensures { Puts out.old at (line word.now numbers.now) out.new result }
{
    let a = put_text(out, at, word);
    let b = put_spaced(out, a, numbers);
    put_byte(out, b, b'\n')
}
