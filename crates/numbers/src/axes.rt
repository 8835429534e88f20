// The two axes: along the shelves, and deep across them. With vertical shelves x and y change places on the way in and out, by the same
// two functions.
ghost use Rattle.std.specs.Prelude.{◌≡◌};
ghost use Rattle.numbers.specs.Axes.{first_axis, second_axis};

// Of x and y the number along the shelves; of along and deep the number for x.
pub fn first_axis(vertical: u16, p: u32, q: u32) -> u32
    ensures { result ≡ first_axis vertical p q }
{
    if vertical == 1 {
        return q;
    }
    p
}

// Of x and y the number across the shelves; of along and deep the number for y.
pub fn second_axis(vertical: u16, p: u32, q: u32) -> u32
    ensures { result ≡ second_axis vertical p q }
{
    if vertical == 1 {
        return p;
    }
    q
}
