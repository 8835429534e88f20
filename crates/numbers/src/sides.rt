// Raw numbers, as a caller gives them, into checked ones. Signed numbers go no further than this file.
ghost use Rattle.std.specs.Prelude.{◌≡◌};
ghost use Rattle.numbers.specs.Sides.{one_to, natural, flag_of, side_of};

// The greatest side of an atlas or of a request, and the greatest alignment.
pub const MOST_SIDE: u32 = 65535;

// The number lies from 1 to the greatest allowed.
pub fn one_to(most: u32, n: u32) -> bool
    ensures { result ≡ one_to most n }
{
    if n < 1 {
        return false;
    }
    n <= most
}

// The number, or 0 for a negative one: no limit that starts at 1 tells them apart.
pub fn natural_of(raw: i32) -> u32
    ensures { result ≡ natural raw }
{
    if raw < 0 {
        return 0;
    }
    raw as u32
}

// A flag: 0, 1, or 2 for any other number.
pub fn flag_of(raw: i32) -> u16
    ensures { result ≡ flag_of raw }
{
    if raw < 0 {
        return 2;
    }
    let n = natural_of(raw);
    if n < 2 {
        return n as u16;
    }
    2
}

// A side that an atlas or a request can have, or none.
pub fn side_of(raw: i32) -> Option<u16>
    ensures { result ≡ side_of raw }
{
    let n = natural_of(raw);
    if one_to(MOST_SIDE, n) {
        return Some(n as u16);
    }
    None
}
