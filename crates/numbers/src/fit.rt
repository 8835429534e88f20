// When a shelf or an item is split, and when a shelf is too deep for a request. Sums are in u32, so that no depth is special.
ghost use Rattle.std.specs.Prelude.{◌≡◌};
ghost use Rattle.numbers.specs.Fit.{large_enough_to_split, good_fit_to};

const SHELF_SPLIT_THRESHOLD: u32 = 8;

const ITEM_SPLIT_THRESHOLD: u32 = 8;

// The greatest depth that 16 bits hold.
const MOST_DEPTH: u16 = 65535;

// An empty shelf is split for a request of a depth.
pub fn splits_shelf(depth: u16, shelf_depth: u16) -> bool
    ensures { result ≡ large_enough_to_split depth shelf_depth }
{
    depth as u32 + SHELF_SPLIT_THRESHOLD < shelf_depth as u32
}

// An item is split for a request of a width.
pub fn splits_item(width: u16, item_width: u16) -> bool
    ensures { result ≡ large_enough_to_split width item_width }
{
    width as u32 + ITEM_SPLIT_THRESHOLD < item_width as u32
}

// The greatest depth at which a shelf in use is no bad fit for a request of a depth.
pub fn good_fit_to(depth: u16) -> u16
    ensures { result ≡ good_fit_to depth }
{
    let half_more = depth as u32 + depth as u32 / 2;
    if half_more <= MOST_DEPTH as u32 {
        return half_more as u16;
    }
    MOST_DEPTH
}
