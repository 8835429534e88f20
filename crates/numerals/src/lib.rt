// A number out of its decimal text: an optional minus, digits without a leading zero, and no more than 32 signed bits hold.
#![tactic(auto)]

ghost use Rattle.std.specs.Prelude.{◌≡◌, ◌≤◌, pos, neg_ℤ};
ghost use Rattle.numerals.specs.Numeral.{zero_first, minus_first, digits_of, signed, number_of};

fn zero_first(w: &[u8]) -> bool
    ensures { result ≡ zero_first w.now }
{
    w.len() > 1 && w[0] == b'0'
}

// What digits are worth, up to 2147483648, the greatest that a minus can stand before.
fn read_digits(w: &[u8]) -> Option<u32>
    ensures { result ≡ digits_of w.now }
{
    if w.is_empty() {
        return None;
    }
    if zero_first(w) {
        return None;
    }
    let mut worth: u32 = 0;
    for &c in w {
        if c < b'0' {
            return None;
        }
        if c > b'9' {
            return None;
        }
        if worth > 214748364 {
            return None;
        }
        worth = worth * 10 + (c - b'0') as u32;
        if worth > 2147483648 {
            return None;
        }
    }
    Some(worth)
}

fn negated(v: u32) -> i32
    requires { v ≤ 2147483648 }
    ensures { result ≡ neg_ℤ (pos v) }
{
    (-(v as i64)) as i32
}

// The number of the digits after a minus.
fn read_negative(digits: &[u8]) -> Option<i32>
    ensures { result ≡ signed neg_ℤ digits.now }
{
    let worth = read_digits(digits)?;
    Some(negated(worth))
}

// The number of digits with no minus before them.
fn read_natural(digits: &[u8]) -> Option<i32>
    ensures { result ≡ signed (λ z. z) digits.now }
{
    let worth = read_digits(digits)?;
    if worth < 2147483648 {
        Some(worth as i32)
    } else {
        None
    }
}

fn minus_first(w: &[u8]) -> bool
    ensures { result ≡ minus_first w.now }
{
    w.len() > 0 && w[0] == b'-'
}

// The number that a word writes.
pub fn read_number(w: &[u8]) -> Option<i32>
    ensures { result ≡ number_of w.now }
{
    if minus_first(w) {
        read_negative(&w[1..])
    } else {
        read_natural(w)
    }
}
