// The refusals of document 01's table. The number of each is the one that the table gives; 0 is success.
ghost use Rattle.std.specs.Prelude.{◌≡◌};
ghost use Rattle.numbers.specs.Refusal.{refusal_number};

#[derive(Clone, Copy, Debug, PartialEq, Eq)]
pub enum Refusal {
    // create: W, H or area outside the limits
    Size = 1,
    // create: alignment, columns or S bad
    Options = 2,
    // audit fails
    Audit = 3,
    // request side 0, negative or over 65535
    Side = 4,
    // aligned request wider than S or deeper than H
    TooLarge = 5,
    // no place: no shelf and free item fit
    NoPlace = 6,
    // too few rows
    TooFewRows = 7,
    // row or generation names no live item
    NoSuchItem = 8,
    // image blocks wrong
    Image = 9,
    // lent list or output too short
    TooShort = 10,
    // script line not readable
    NotReadable = 11,
}

impl Refusal {
    pub fn number(self) -> u16
        ensures { result ≡ refusal_number self }
    {
        self as u16
    }
}
