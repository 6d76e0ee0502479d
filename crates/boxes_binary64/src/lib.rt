// Boxes handed out in binary64, in stage units: their four numbers, and the drawing office's short form.
#![tactic(auto)]

ghost use Rattle.std.specs.Prelude.{◌≡◌};
ghost use Rattle.std.proofs.Math.Option.{none};
ghost use Rattle.boxes.specs.Ranges.{box_fault};
ghost use Rattle.boxes_binary64.specs.Boxes.{InUnits, ShortOf, HandedOut, Shortened};

use binary64::{sixteenth, thirty_second};
use boxes::Box;
use refusals::Refusal;

// A box in stage units.
#[repr(C)]
#[derive(Clone, Copy)]
pub struct StageBox {
    pub x_low: f64,
    pub x_high: f64,
    pub y_low: f64,
    pub y_high: f64,
}

// The short form, in stage units: a single point, or the middle of a box with half of its width and of its height.
#[derive(Clone, Copy)]
pub enum Short {
    Point(f64, f64),
    Middle {
        x: f64,
        y: f64,
        half_width: f64,
        half_height: f64,
    },
}

// A box in stage units, each number exactly the sixteenth divided by 16, or check 12. Defined for every box.
pub fn hand_out(b: Box) -> Result<StageBox, Refusal>
    ensures { HandedOut b result }
{
    match b.fault() {
        Some(place) => Err(Refusal::BoxNumber(place)),
        None => Ok(in_units(b)),
    }
}

// The four numbers of a box in stage units.
fn in_units(b: Box) -> StageBox
    ensures { InUnits b result }
{
    StageBox {
        x_low: sixteenth(b.x_low),
        x_high: sixteenth(b.x_high),
        y_low: sixteenth(b.y_low),
        y_high: sixteenth(b.y_high),
    }
}

// The short form of a box, or check 12. Defined for every box.
pub fn shorten(b: Box) -> Result<Short, Refusal>
    ensures { Shortened b result }
{
    match b.fault() {
        Some(bad) => Err(Refusal::BoxNumber(bad)),
        None => Ok(short_of(b)),
    }
}

// The short form of a box that check 12 passed, so that no sum of two of its numbers wraps.
fn short_of(b: Box) -> Short
    requires { box_fault b ≡ none }
    ensures { ShortOf b result }
{
    let x_low = b.x_low;
    let x_high = b.x_high;
    let y_low = b.y_low;
    let y_high = b.y_high;
    if x_low == x_high && y_low == y_high {
        return Short::Point(sixteenth(x_low), sixteenth(y_low));
    }
    Short::Middle {
        x: thirty_second(x_low + x_high),
        y: thirty_second(y_low + y_high),
        half_width: thirty_second(x_high - x_low),
        half_height: thirty_second(y_high - y_low),
    }
}
