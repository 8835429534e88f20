// Rounding up to an alignment.
ghost use Rattle.std.specs.Prelude.{◌≡◌};
ghost use Rattle.numbers.specs.Round.{round_up};

// The size rounded up to a multiple of the alignment. It can pass 65535.
pub fn adjust_size(alignment: u16, size: u16) -> u32
    ensures { result ≡ round_up alignment size }
{
    if alignment == 0 {
        return size as u32;
    }
    let over = size % alignment;
    if over == 0 {
        return size as u32;
    }
    size as u32 + (alignment - over) as u32
}
