// A row or a generation as a line gives it.
ghost use Rattle.std.specs.Prelude.{◌≡◌};
ghost use Rattle.lines.specs.Ids.{row_of};

// From 0 to 65535; a number outside names no live item, which is answer 8.
pub fn row_of(raw: i32) -> Option<u16>
    ensures { result ≡ row_of raw }
{
    u16::try_from(raw).ok()
}
