// Whether a cover holds a point, decided in 64 bits.
ghost use Rattle.std.specs.Prelude.{◌≡◌, ◌≤◌, ◌^◌, nat_abs};
ghost use Rattle.boxes.specs.Ranges.{farthest};
ghost use Rattle.judge_cover.specs.Deciding.{ordered, sides_of, outside, apart, cut, cut_sides, held_by, held};
ghost use Rattle.judge_cover.specs.Inside.{SmallWeights, SmallRange, SmallSides, SpanInRange, BoxInRange};

use crate::held::{Range, Sides, Weights};
use boxes::Box;

// Whether q gives the second box no less weight than p does.
fn in_order(p: Weights, q: Weights) -> bool
    requires { (SmallWeights p) × (SmallWeights q) }
    ensures { result ≡ ordered p q }
{
    p.second * q.first <= p.first * q.second
}

// What one side leaves of a range: a and b say how far the coordinate lies inside of it at the first box and at the
// second. Its edge is the new end where it lies beyond the old one.
fn cut(range: Range, a: i64, b: i64) -> Range
    requires { (SmallRange range) × (nat_abs a ≤ 2 ^ 30) × (nat_abs b ≤ 2 ^ 30) }
    ensures { result ≡ cut range a b }
{
    let low = range.low;
    let high = range.high;
    if a < 0 {
        let edge = Weights {
            first: b,
            second: -a,
        };
        if in_order(low, edge) {
            return Range { low: edge, high };
        }
        return range;
    }
    if b < 0 {
        let edge = Weights {
            first: -b,
            second: a,
        };
        if in_order(high, edge) {
            return range;
        }
        return Range { low, high: edge };
    }
    range
}

// What both sides of a coordinate leave of a range.
fn cut_sides(range: Range, sides: Sides) -> Range
    requires { (SmallRange range) × (SmallSides sides) }
    ensures { result ≡ cut_sides range sides }
{
    let half = cut(range, sides.low_first, sides.low_second);
    cut(half, sides.high_first, sides.high_second)
}

// Whether the sides of both coordinates leave any weights.
fn held_by(x: Sides, y: Sides) -> bool
    requires { (SmallSides x) × (SmallSides y) }
    ensures { result ≡ held_by x y }
{
    let low = Weights {
        first: 1,
        second: 0,
    };
    let high = Weights {
        first: 0,
        second: 1,
    };
    let range = cut_sides(Range { low, high }, x);
    let range = cut_sides(range, y);
    let low = range.low;
    let high = range.high;
    in_order(low, high)
}

// Whether a coordinate lies beyond both boxes on one side.
fn apart(sides: Sides) -> bool
    requires { SmallSides sides }
    ensures { result ≡ apart sides }
{
    outside(sides.low_first, sides.low_second) || outside(sides.high_first, sides.high_second)
}

// Whether a coordinate lies outside of a side at both boxes.
fn outside(a: i64, b: i64) -> bool
    ensures { result ≡ outside a b }
{
    a < 0 && b < 0
}

// How far a coordinate z lies inside the sides of two boxes, of which the lows and the highs are given.
fn sides(low0: i32, high0: i32, low1: i32, high1: i32, z: i64) -> Sides
    requires { (SpanInRange low0 high0) × (SpanInRange low1 high1) × (nat_abs z ≤ farthest) }
    ensures { result ≡ sides_of low0 high0 low1 high1 z }
{
    Sides {
        low_first: z - low0 as i64,
        low_second: z - low1 as i64,
        high_first: high0 as i64 - z,
        high_second: high1 as i64 - z,
    }
}

// Whether the cover between two boxes holds the point (x, y). A point beyond both boxes on one side is turned away
// first.
pub fn holds(first: Box, second: Box, x: i64, y: i64) -> bool
    requires { (BoxInRange first) × (BoxInRange second) × (nat_abs x ≤ farthest) × (nat_abs y ≤ farthest) }
    ensures { result ≡ held first second x y }
{
    let in_x = sides(first.x_low, first.x_high, second.x_low, second.x_high, x);
    if apart(in_x) {
        return false;
    }
    let in_y = sides(first.y_low, first.y_high, second.y_low, second.y_high, y);
    !apart(in_y) && held_by(in_x, in_y)
}
