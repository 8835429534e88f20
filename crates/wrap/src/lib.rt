// The area of a rectangle of stored numbers. `specs/Wrap` has the sums, differences and products of stored numbers, which wrap where they would not fit, so that no
// caller has to know that they fit: the code takes them by the number types' own `wrapping_` methods.
#![tactic(auto)]

ghost use Rattle.std.specs.Prelude.{◌≡◌, ◌*◌};

// It always fits.
pub fn area(width: u16, depth: u16) -> u32
    ensures { result ≡ width * depth }
{
    width as u32 * depth as u32
}
