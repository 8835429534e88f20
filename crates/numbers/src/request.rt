// A request's raw sides into the width and depth that are looked for, or answer 4 or 5.
ghost use Rattle.std.specs.Prelude.{◌≡◌};
ghost use Rattle.numbers.specs.Request.{asked_within, asked};

use crate::axes::{first_axis, second_axis};
use crate::bands::shelf_height;
use crate::limits::Limits;
use crate::refusal::Refusal;
use crate::round::adjust_size;
use crate::sides::side_of;

// The aligned width along the shelves, and D; `aligned` is the depth before it is rounded up to its step.
#[derive(Clone, Copy)]
pub struct Asked {
    pub width: u16,
    pub depth: u16,
    pub aligned: u16,
}

// Answer 5, or the depth rounded up, on sides that are aligned.
pub fn within(l: Limits, width: u32, depth: u32) -> Result<Asked, Refusal>
    ensures { result ≡ asked_within l width depth }
{
    if width > l.shelf_width as u32 {
        return Err(Refusal::TooLarge);
    }
    if depth > l.height as u32 {
        return Err(Refusal::TooLarge);
    }
    let aligned = depth as u16;
    Ok(Asked {
        width: width as u16,
        depth: shelf_height(aligned, l.height),
        aligned,
    })
}

pub fn check_request(l: Limits, w: i32, h: i32) -> Result<Asked, Refusal>
    ensures { result ≡ asked l w h }
{
    let Some(width) = side_of(w) else {
        return Err(Refusal::Side);
    };
    let Some(height) = side_of(h) else {
        return Err(Refusal::Side);
    };
    let x = adjust_size(l.align_width, width);
    let y = adjust_size(l.align_height, height);
    within(
        l,
        first_axis(l.vertical, x, y),
        second_axis(l.vertical, x, y),
    )
}
