// The test that a node of degree 1 to 3 meets the tolerance.
#![tactic(auto)]

ghost use Rattle.std.specs.Prelude.{◌≡◌, ◌≤◌, ◌^◌};
ghost use lib.{IntN.{◌+ℤ◌}, Signed.{lt_z}};
ghost use Rattle.integers.specs.Squares.{squared};
ghost use Rattle.setting.specs.Setting.{HasRows};
ghost use Rattle.curve_nodes.specs.Bounds.{Sized};
ghost use Rattle.bound_coordinate.specs.{Inside.{Small, Boundable}, Terms.{ComputableAt}};
ghost use Rattle.bound_node.specs.Boxes.{meets};
ghost use Rattle.bound_pieces.specs.Inside.{pieces_of, setting_of, exact_of, sums_of, point_sum, PiecesReady};
ghost use Rattle.bound_pieces.specs.Inside.{across_by};
ghost use Rattle.bound_tolerance.specs.Verdicts.{VerdictRight};

use crate::spread::size;
use bound_coordinate::break_points::{high_at, low_at};
use bound_coordinate::terms::{Terms, difference_at, terms_of};
use bound_pieces::Pieces;
use curve_nodes::Curve;

pub mod spread;

// The diagonal of a box is longer than the length that has this square.
pub fn is_longer(width: i64, height: i64, square: i64) -> bool
    requires { (Small (2 ^ 29) width) × (Small (2 ^ 29) height) }
    ensures { result ≡ lt_z square (squared width +ℤ squared height) }
{
    square < width * width + height * height
}

// The box at break point i is too long.
fn is_wide(
    rows: &[i64],
    x: Terms,
    y: Terms,
    shift: u32,
    scale: usize,
    divisor: usize,
    i: usize,
    square: i64,
) -> bool
    requires { (ComputableAt divisor shift scale i rows.now x)
        × (ComputableAt divisor shift scale i rows.now y) }
    ensures { result ≡ lt_z square (across_by divisor shift rows.now x y i) }
{
    let x_low = low_at(rows, x, shift, scale, divisor, i);
    let x_high = high_at(rows, x, shift, scale, divisor, i);
    let y_low = low_at(rows, y, shift, scale, divisor, i);
    let y_high = high_at(rows, y, shift, scale, divisor, i);
    is_longer(x_high - x_low, y_high - y_low, square)
}

// The boxes at all break points are narrow. The square is that of the tolerance.
pub fn boxes_meet(
    rows: &[i64],
    pieces: Pieces,
    curve: Curve,
    depth: u32,
    t: i64,
    square: i64,
) -> bool
    requires { (PiecesReady pieces rows.now) × (Sized depth curve) × (curve.degree ≤ 3) × (depth ≤ 8)
        × (square ≡ squared t) }
    ensures { result ≡ meets (setting_of pieces) t depth curve }
{
    let m = pieces.m;
    let divisor = pieces.divisor;
    let scale = pieces.scale;
    let degree = curve.degree;
    let xs = curve.x;
    let ys = curve.y;
    let shift = degree * depth;
    let x = terms_of(xs, degree, m);
    let y = terms_of(ys, degree, m);
    for i in 0..m + 1 {
        if is_wide(rows, x, y, shift, scale, divisor, i, square) {
            return false;
        }
    }
    true
}

// The corners of the degree are break points.
fn is_exact(pieces: Pieces, degree: u32) -> bool
    requires { (HasRows pieces.m) × (pieces ≡ pieces_of pieces.m pieces.sixths) }
    ensures { result ≡ exact_of pieces.sixths pieces.m degree }
{
    if degree < 3 {
        return true;
    }
    pieces.less == 0
}

// The sum of one coordinate of degree 3 at the break point of a corner: that of the corner, less what its second gap
// has more than the break point.
fn sum_there(pieces: Pieces, c: [i64; 6], sums: [u64; 2], last: bool) -> u64
    requires { (HasRows pieces.m) × (pieces ≡ pieces_of pieces.m pieces.sixths) × (Boundable c 3)
        × (sums ≡ sums_of pieces.sixths pieces.m 3 c) }
    ensures { result ≡ point_sum pieces.sixths pieces.m 3 last c }
{
    let less = pieces.less;
    if last {
        sums[1] - less * size(difference_at(c, 0))
    } else {
        sums[0] - less * size(difference_at(c, 1))
    }
}

// What the gaps tell of a node.
#[derive(Clone, Copy)]
pub enum Tested {
    Narrow,
    Wide,
    Open,
}

// What the gaps tell of a node, by how far its lows and highs are apart before rounding: no box is wider than the wider
// corner is, rounded up, and one more; at the break point of a corner no box is narrower than its sum, rounded up. That
// of the corner where x is the wider is tried.
fn verdict_by(pieces: Pieces, curve: Curve, depth: u32, t: i64) -> Tested
    requires { (HasRows pieces.m) × (pieces ≡ pieces_of pieces.m pieces.sixths) × (Sized depth curve)
        × (curve.degree ≤ 3) × (depth ≤ 8) × (Small (2 ^ 27) t) }
    ensures { VerdictRight (setting_of pieces) t depth curve result }
{
    let square = t * t;
    let degree = curve.degree;
    let xs = curve.x;
    let ys = curve.y;
    let x = crate::spread::sums(pieces, xs, degree);
    let y = crate::spread::sums(pieces, ys, degree);
    let shift = degree * depth;
    let more = (3750u64 << shift) - 1;
    let x1 = x[0];
    let x2 = x[1];
    let y1 = y[0];
    let y2 = y[1];
    let width = crate::spread::rounded_up(x1.max(x2), more, shift);
    let height = crate::spread::rounded_up(y1.max(y2), more, shift);
    if !is_longer(width + 1, height + 1, square) {
        return Tested::Narrow;
    }
    if is_exact(pieces, degree) {
        let there = if x1 < x2 { y2 } else { y1 };
        if is_longer(width, crate::spread::rounded_up(there, more, shift), square) {
            return Tested::Wide;
        }
        return Tested::Open;
    }
    let last = x1 < x2;
    let least_width = crate::spread::rounded_up(sum_there(pieces, xs, x, last), more, shift);
    let least_height = crate::spread::rounded_up(sum_there(pieces, ys, y, last), more, shift);
    if is_longer(least_width, least_height, square) {
        return Tested::Wide;
    }
    Tested::Open
}

// Whether a node meets the tolerance, as far as the gaps tell. A tolerance beyond 2^27 is longer than every diagonal,
// and so no square wraps.
#[inline(always)]
pub fn verdict_of(pieces: Pieces, curve: Curve, depth: u32, t: i64) -> Tested
    requires { (HasRows pieces.m) × (pieces ≡ pieces_of pieces.m pieces.sixths) × (Sized depth curve)
        × (curve.degree ≤ 3) × (depth ≤ 8) }
    ensures { VerdictRight (setting_of pieces) t depth curve result }
{
    if t < -134217728 || 134217728 < t {
        return Tested::Narrow;
    }
    verdict_by(pieces, curve, depth, t)
}
