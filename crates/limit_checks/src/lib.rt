// Create's numbers, and the limits that every header keeps.
#![tactic(auto)]

ghost use Rattle.std.specs.Prelude.{◌≡◌};
ghost use Rattle.numbers.specs.Decides.{Decides};
ghost use Rattle.numbers.specs.Limits.{sizes_good, options_good, shelf_width_good, along_step, WithinLimits, shelf_width_of, limits_for, judged_limits};
ghost use Rattle.numbers.specs.Limits.{create_numbers};
ghost use Rattle.numbers.specs.Limits as limits;

use numbers::axes::{first_axis, second_axis};
use numbers::limits::Limits;
use numbers::refusal::Refusal;
use numbers::sides::{MOST_SIDE, flag_of, natural_of, one_to};

// The greatest H: the Rust adds 8 to a 16-bit depth, and never picks a shelf of depth 65535.
const MOST_HEIGHT: u32 = 65527;

// The greatest W x H.
const MOST_AREA: u32 = 2147483647;

fn sizes_good(width: u32, height: u32) -> bool
    ensures { result ≡ sizes_good width height }
{
    if !one_to(MOST_SIDE, width) {
        return false;
    }
    if !one_to(MOST_HEIGHT, height) {
        return false;
    }
    width * height <= MOST_AREA
}

fn options_good(align_width: u32, align_height: u32, vertical: u16) -> bool
    ensures { result ≡ options_good align_width align_height vertical }
{
    if !one_to(MOST_SIDE, align_width) {
        return false;
    }
    if !one_to(MOST_SIDE, align_height) {
        return false;
    }
    vertical <= 1
}

// S; 0 where there is no column or no step.
fn shelf_width_of(width: u32, columns: u32, step: u32) -> u32
    ensures { result ≡ shelf_width_of width columns step }
{
    if columns == 0 {
        return 0;
    }
    if step == 0 {
        return 0;
    }
    let share = width / columns;
    share - share % step
}

// C; 0 where S is.
pub fn columns(l: Limits) -> u16
    ensures { result ≡ limits.columns l }
{
    if l.shelf_width == 0 {
        return 0;
    }
    l.width / l.shelf_width
}

// The alignment along the shelves.
pub fn along_step(l: Limits) -> u32
    ensures { result ≡ along_step l }
{
    first_axis(l.vertical, l.align_width as u32, l.align_height as u32)
}

// S lies from 1 to W and is a multiple of the step.
fn shelf_width_good(width: u32, shelf_width: u32, step: u32) -> bool
    ensures { result ≡ shelf_width_good width shelf_width step }
{
    if !one_to(width, shelf_width) {
        return false;
    }
    if step == 0 {
        return false;
    }
    shelf_width % step == 0
}

pub fn within_limits(l: Limits) -> bool
    ensures { Decides result (WithinLimits l) }
{
    if !sizes_good(l.width as u32, l.height as u32) {
        return false;
    }
    if !options_good(l.align_width as u32, l.align_height as u32, l.vertical) {
        return false;
    }
    shelf_width_good(l.width as u32, l.shelf_width as u32, along_step(l))
}

// Answer 1, then answer 2, on numbers that are no longer signed.
fn judge_limits(
    w: u32,
    h: u32,
    align_width: u32,
    align_height: u32,
    vertical: u16,
    columns: u32,
) -> Result<Limits, Refusal>
    ensures { result ≡ judged_limits columns (limits_for w h align_width align_height vertical columns) }
{
    let width = first_axis(vertical, w, h);
    let height = second_axis(vertical, w, h);
    if !sizes_good(width, height) {
        return Err(Refusal::Size);
    }
    if !options_good(align_width, align_height, vertical) {
        return Err(Refusal::Options);
    }
    if columns < 1 {
        return Err(Refusal::Options);
    }
    let shelf_width = shelf_width_of(
        width,
        columns,
        first_axis(vertical, align_width, align_height),
    );
    if shelf_width < 1 {
        return Err(Refusal::Options);
    }
    Ok(Limits {
        width: width as u16,
        height: height as u16,
        align_width: align_width as u16,
        align_height: align_height as u16,
        vertical,
        shelf_width: shelf_width as u16,
    })
}

pub fn create_numbers(
    w: i32,
    h: i32,
    align_width: i32,
    align_height: i32,
    vertical: i32,
    columns: i32,
) -> Result<Limits, Refusal>
    ensures { result ≡ create_numbers w h align_width align_height vertical columns }
{
    judge_limits(
        natural_of(w),
        natural_of(h),
        natural_of(align_width),
        natural_of(align_height),
        flag_of(vertical),
        natural_of(columns),
    )
}
