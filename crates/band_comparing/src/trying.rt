// A node of the walk tried: its boxes are computed one after the other, until one is too long, and compared with the
// numbers given.
ghost use Rattle.std.specs.Prelude.{◌≡◌, not, [], ◌∷◌, ◌+◌, ◌≤◌, ◌<◌, ◌^◌};
ghost use lib.{ListN.{length}, IntN.{◌+ℤ◌, ◌-ℤ◌}, Signed.{lt_z}};
ghost use Rattle.integers.specs.Squares.{squared};
ghost use Rattle.setting.specs.Setting.{lists, break_points};
ghost use Rattle.curve_nodes.specs.Nodes.{depth};
ghost use Rattle.bound_coordinate.specs.{Terms.{ComputableAt}, HigherTerms.{HigherComputable}};
ghost use Rattle.bound_node.specs.Boxes.{meets};
ghost use Rattle.bound_pieces.specs.Inside.{across_by, higher_across_by};
ghost use Rattle.band_records.specs.{Records.{boxes_to, node_numbers}, Inside.{box_by}};
ghost use Rattle.band_comparing.specs.Inside.{reach_of, tried_of, BoxGiven, Tryable, Numbered, higher_box_by};

use crate::reaching::{reach_box, reach_number};
use bound_coordinate::higher::HigherTerms;
use bound_coordinate::terms::Terms;
use bound_tolerance::is_longer;
use curve_nodes::Curve;

// What goes with the number of pieces: that number m, and 5040 over m.
#[derive(Clone, Copy)]
pub struct Scaling {
    pub m: usize,
    pub scale: usize,
}

// The box from `left` to `right` and from `low` to `high`, whose numbers stand from index `at` on: how far the numbers
// given agree, or nothing where its diagonal is longer than the length that has this square.
fn try_sides(
    given: &[i32],
    reach: usize,
    at: usize,
    left: i64,
    right: i64,
    low: i64,
    high: i64,
    square: i64,
) -> Option<usize>
    requires { BoxGiven given.now reach at left right low high }
    ensures { result ≡ tried_of (not (lt_z square (squared (right -ℤ left) +ℤ squared (high -ℤ low))))
        (reach_of given.now reach at (left ∷ right ∷ low ∷ high ∷ [])) }
{
    if is_longer(right - left, high - low, square) {
        return None;
    }
    Some(reach_box(
        given,
        reach,
        at,
        left as i32,
        right as i32,
        low as i32,
        high as i32,
    ))
}

// The box at break point i of a curve of degree 1 to 3; its numbers stand from index `at` on. The square is that of the
// tolerance.
fn try_box(
    given: &[i32],
    reach: usize,
    at: usize,
    rows: &[i64],
    x: Terms,
    y: Terms,
    shift: u32,
    by: Scaling,
    i: usize,
    square: i64,
) -> Option<usize>
    requires { (reach ≤ length given.now) × (at + 4 ≤ 2 ^ 63)
        × (ComputableAt by.m shift by.scale i rows.now x)
        × (ComputableAt by.m shift by.scale i rows.now y) }
    ensures { result ≡ tried_of (not (lt_z square (across_by by.m shift rows.now x y i)))
        (reach_of given.now reach at (box_by by.m shift rows.now x y i)) }
{
    let x_low = bound_coordinate::break_points::low_at(rows, x, shift, by.scale, by.m, i);
    let x_high = bound_coordinate::break_points::high_at(rows, x, shift, by.scale, by.m, i);
    let y_low = bound_coordinate::break_points::low_at(rows, y, shift, by.scale, by.m, i);
    let y_high = bound_coordinate::break_points::high_at(rows, y, shift, by.scale, by.m, i);
    try_sides(given, reach, at, x_low, x_high, y_low, y_high, square)
}

// The box at break point i of a curve of degree 4 or 5.
// It stands apart from `try_box`, as the terms of its boxes from those of degrees 1 to 3, for speed (docs/landings/19).
fn try_higher_box(
    given: &[i32],
    reach: usize,
    at: usize,
    rows: &[i64],
    x: HigherTerms,
    y: HigherTerms,
    shift: u32,
    by: Scaling,
    i: usize,
    square: i64,
) -> Option<usize>
    requires { (reach ≤ length given.now) × (at + 4 ≤ 2 ^ 63)
        × (HigherComputable by.m shift by.scale rows.now x)
        × (HigherComputable by.m shift by.scale rows.now y) × (i ≤ by.m) }
    ensures { result ≡ tried_of (not (lt_z square (higher_across_by by.m shift rows.now x y i)))
        (reach_of given.now reach at (higher_box_by by.m shift rows.now x y i)) }
{
    let x_low = bound_coordinate_higher::low_at(rows, x, shift, by.scale, by.m, i);
    let x_high = bound_coordinate_higher::high_at(rows, x, shift, by.scale, by.m, i);
    let y_low = bound_coordinate_higher::low_at(rows, y, shift, by.scale, by.m, i);
    let y_high = bound_coordinate_higher::high_at(rows, y, shift, by.scale, by.m, i);
    try_sides(given, reach, at, x_low, x_high, y_low, y_high, square)
}

// The boxes of a curve of degree 1 to 3 at a depth; their numbers stand from index `at` on.
fn try_low(
    given: &[i32],
    reach: usize,
    at: usize,
    rows: &[i64],
    by: Scaling,
    curve: Curve,
    depth: u32,
    t: i64,
) -> Option<usize>
    requires { (Tryable given.now reach at (2 ^ 60) by.m by.scale rows.now depth curve t)
        × (curve.degree ≤ 3) }
    ensures { result ≡ tried_of (meets (lists by.m) t depth curve)
        (reach_of given.now reach at (boxes_to (lists by.m) (break_points (lists by.m)) depth curve)) }
{
    let m = by.m;
    let degree = curve.degree;
    let shift = degree * depth;
    let square = t * t;
    let xs = curve.x;
    let ys = curve.y;
    let x = bound_coordinate::terms::terms_of(xs, degree, m);
    let y = bound_coordinate::terms::terms_of(ys, degree, m);
    let mut to = reach;
    for i in 0..m + 1 {
        to = try_box(given, to, at + 4 * i, rows, x, y, shift, by, i, square)?;
    }
    Some(to)
}

// The boxes of a curve of degree 4 or 5.
// It stands apart from `try_low`, as the terms of its boxes from those of degrees 1 to 3, for speed (docs/landings/19).
fn try_higher(
    given: &[i32],
    reach: usize,
    at: usize,
    rows: &[i64],
    by: Scaling,
    curve: Curve,
    depth: u32,
    t: i64,
) -> Option<usize>
    requires { (Tryable given.now reach at (2 ^ 60) by.m by.scale rows.now depth curve t)
        × (3 < curve.degree) }
    ensures { result ≡ tried_of (meets (lists by.m) t depth curve)
        (reach_of given.now reach at (boxes_to (lists by.m) (break_points (lists by.m)) depth curve)) }
{
    let m = by.m;
    let degree = curve.degree;
    let shift = degree * depth;
    let square = t * t;
    let xs = curve.x;
    let ys = curve.y;
    let x = bound_coordinate_higher::higher_of(xs, degree, shift, m);
    let y = bound_coordinate_higher::higher_of(ys, degree, shift, m);
    let mut to = reach;
    for i in 0..m + 1 {
        to = try_higher_box(given, to, at + 4 * i, rows, x, y, shift, by, i, square)?;
    }
    Some(to)
}

// A node, whose record begins at index `at`, of the curve of this number.
pub fn try_node(
    given: &[i32],
    reach: usize,
    at: usize,
    number: u32,
    node: u32,
    rows: &[i64],
    by: Scaling,
    curve: Curve,
    t: i64,
) -> Option<usize>
    requires { (Tryable given.now reach at (2 ^ 50) by.m by.scale rows.now (depth node) curve t)
        × (Numbered number node) }
    ensures { result ≡ tried_of (meets (lists by.m) t (depth node) curve)
        (reach_of given.now reach at
        (node_numbers number node (boxes_to (lists by.m) (break_points (lists by.m)) (depth node) curve))) }
{
    let first = reach_number(given, reach, at, number as i32);
    let second = reach_number(given, first, at + 1, node as i32);
    let depth = curve_nodes::depth(node);
    if 3 < curve.degree {
        try_higher(given, second, at + 2, rows, by, curve, depth, t)
    } else {
        try_low(given, second, at + 2, rows, by, curve, depth, t)
    }
}
