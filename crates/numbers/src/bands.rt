// The steps to which depths are rounded: four bands of depths, one step each.
ghost use Rattle.std.specs.Prelude.{◌≡◌};
ghost use Rattle.numbers.specs.Bands.{depth_band, depth_step, shelf_height};

use crate::round::adjust_size;

// A row is a band: its last depth and its step. The last band has no end, and the number in its place is never read.
const BANDS: [[u16; 2]; 4] = [[31, 8], [127, 16], [511, 32], [65535, 64]];

// The band of a depth, 0 to 3.
pub fn depth_band(depth: u32) -> usize
    ensures { result ≡ depth_band depth }
{
    for i in 0..3 {
        if depth <= u32::from(BANDS[i][0]) {
            return i;
        }
    }
    3
}

pub fn depth_step(depth: u32) -> u16
    ensures { result ≡ depth_step depth }
{
    let band = depth_band(depth);
    BANDS[band][1]
}

// The depth rounded up to its step; where that passes the atlas, the depth as it is.
pub fn shelf_height(depth: u16, atlas_depth: u16) -> u16
    ensures { result ≡ shelf_height atlas_depth depth }
{
    let rounded = adjust_size(depth_step(depth as u32), depth);
    if rounded <= atlas_depth as u32 {
        return rounded as u16;
    }
    depth
}
