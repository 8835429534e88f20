// Words, which are numbers of 16 bits, and their bytes in lent slices: little-endian.
#![tactic(auto)]

ghost use Rattle.std.specs.Prelude.{◌≡◌, ◌+◌, ◌*◌, ◌<◌, ◌≤◌, length, get_or};
ghost use Rattle.numbers.specs.Prelude.{Decides};
ghost use Rattle.image_form.specs.Bytes.{bytes_of, words_of, total};

// The word at a place, counted in words.
pub fn word(bytes: &[u8], at: usize) -> u16
    requires { 2 * at + 1 < length bytes.now }
    ensures { result ≡ get_or (words_of bytes.now) at 0 }
{
    u16::from_le_bytes([bytes[2 * at], bytes[2 * at + 1]])
}

// The bytes' words, into numbers that are as many.
pub fn read_words(numbers: &mut [u16], bytes: &[u8])
    requires { length bytes.now ≡ 2 * length numbers.old }
    ensures { numbers.new ≡ words_of bytes.now }
{
    for (i, number) in numbers.iter_mut().enumerate() {
        *number = word(bytes, i);
    }
}

// The numbers' bytes, over bytes that are as many.
pub fn write_words(bytes: &mut [u8], numbers: &[u16])
    requires { length bytes.old ≡ 2 * length numbers.now }
    ensures { bytes.new ≡ bytes_of numbers.now }
{
    for (i, number) in numbers.iter().enumerate() {
        let [low, high] = number.to_le_bytes();
        bytes[2 * i] = low;
        bytes[2 * i + 1] = high;
    }
}

// The sum of the bytes' words, of which there are few enough that it fits.
pub fn sum_of_words(bytes: &[u8]) -> u32
    requires { length bytes.now ≤ 512 }
    ensures { result ≡ total (words_of bytes.now) }
{
    let mut sum: u32 = 0;
    for i in 0..bytes.len() / 2 {
        sum += u32::from(word(bytes, i));
    }
    sum
}

// Whether the bytes' words are all zero, which is whether their sum is. They are or-ed, which is faster than to sum them.
pub fn all_zero(bytes: &[u8]) -> bool
    ensures { Decides result (total (words_of bytes.now) ≡ 0) }
{
    let mut any: u16 = 0;
    for i in 0..bytes.len() / 2 {
        any |= word(bytes, i);
    }
    any == 0
}
