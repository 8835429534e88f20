// What the public calls answer: what was asked for, or a refusal. Create answers the columns, allocate and look-up an item, release and clear nothing,
// the totals an area, size the sides, is_empty whether it is, and list how many items are listed.
ghost use Rattle.std.specs.Prelude.{◌≡◌};
ghost use Rattle.rows.specs.Prelude.{zero_header};

use numbers::refusal::Refusal;
use rows::header;
use rows::header::Header;

// Width and height, as they were given.
#[derive(Clone, Copy)]
pub struct Sides {
    pub width: u16,
    pub height: u16,
}

// The answer of a call that may change the header, and the header after it.
#[derive(Clone, Copy)]
pub struct Answered<T> {
    pub answer: Result<T, Refusal>,
    pub header: Header,
}

impl<T> Answered<T> {
    pub fn refused(refusal: Refusal, header: Header) -> Self
        ensures { result ≡ record { answer = Err refusal; header = header } }
    {
        Answered {
            answer: Err(refusal),
            header,
        }
    }
    // "A refused create or load returns an all-zero header."
    pub fn no_atlas(refusal: Refusal) -> Self
        ensures { result ≡ record { answer = Err refusal; header = zero_header } }
    {
        Answered::refused(refusal, header::no_header())
    }
}
