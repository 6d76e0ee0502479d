// Boxes in whole sixteenths, as callers hand them over, and the range of their numbers and of a point's.
#![tactic(auto)]

ghost use Rattle.std.specs.Prelude.{◌≡◌};
ghost use Rattle.boxes.specs.{Ranges.{in_range, low_fine, box_fault, place_of}, Inside.{side_fine, box_of}};

// A box: what lies from the lows to the highs, edges included.
#[repr(C)]
#[derive(Clone, Copy)]
pub struct Box {
    pub x_low: i32,
    pub x_high: i32,
    pub y_low: i32,
    pub y_high: i32,
}

// Whether a number of a box or of a point is in its range, −536,870,912 to 536,870,912. Every number may be asked
// about.
pub fn in_range(n: i32) -> bool
    ensures { result ≡ in_range n }
{
    (-536870912..=536870912).contains(&n)
}

// Whether a low is in range and not above its high.
fn low_fine(low: i32, high: i32) -> bool
    ensures { result ≡ low_fine low high }
{
    in_range(low) && low <= high
}

// Whether a low and a high are fine, by three comparisons and no branch. Defined for every two numbers.
pub fn side_fine(low: i32, high: i32) -> bool
    ensures { result ≡ side_fine low high }
{
    (-536870912 <= low) & (low <= high) & (high <= 536870912)
}

impl Box {
    // The place of the first bad number, 0 to 3 in the order of the fields. A low above its high is named by the low.
    // The numbers are looked at one by one only where one is bad.
    pub fn fault(self) -> Option<usize>
        ensures { result ≡ place_of (box_fault self) }
    {
        let x_low = self.x_low;
        let x_high = self.x_high;
        let y_low = self.y_low;
        let y_high = self.y_high;
        if side_fine(x_low, x_high) && side_fine(y_low, y_high) {
            return None;
        }
        first_bad(x_low, x_high, y_low, y_high)
    }
}

// The place of the first bad number of a box, number by number.
fn first_bad(x_low: i32, x_high: i32, y_low: i32, y_high: i32) -> Option<usize>
    ensures { result ≡ place_of (box_fault (box_of x_low x_high y_low y_high)) }
{
    if !low_fine(x_low, x_high) {
        return Some(0);
    }
    if !in_range(x_high) {
        return Some(1);
    }
    if !low_fine(y_low, y_high) {
        return Some(2);
    }
    if !in_range(y_high) {
        return Some(3);
    }
    None
}
