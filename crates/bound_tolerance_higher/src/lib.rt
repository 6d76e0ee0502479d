// The test that a node of degree 4 or 5 meets the tolerance: what the gaps tell, and the boxes. It stands apart from
// degrees 1 to 3, for speed: in one loop for all degrees the test is no longer inlined (docs/landings/19).
#![tactic(auto)]

ghost use Rattle.std.specs.Prelude.{◌≡◌, false, not, ◌≤◌, ◌<◌, ◌-◌, ◌*◌, ◌^◌};
ghost use lib.{IntN.{pos}, Signed.{lt_z}};
ghost use Rattle.setting.specs.Setting.{HasRows};
ghost use Rattle.curve_nodes.specs.Bounds.{Sized};
ghost use Rattle.bound_coordinate.specs.{Inside.{HigherBoundable, Small, Computed}, HigherTerms.{HigherComputable}};
ghost use Rattle.bound_node.specs.Boxes.{meets};
ghost use Rattle.bound_pieces.specs.Inside.{spread_of, pieces_of, setting_of, gaps_of, PiecesReady, higher_across_by};
ghost use Rattle.bound_pieces.specs.Inside.{SmallGaps};
ghost use Rattle.bound_tolerance.specs.Verdicts.{VerdictRight};
ghost use Rattle.bound_tolerance_higher.specs.Spreads.{sizes_of, most_of, end_of, squares_above, squares_of};
ghost use Rattle.bound_tolerance_higher.specs.Spreads.{SmallSizes, Spread, SpreadAt};

use bound_coordinate::higher::HigherTerms;
use bound_coordinate::terms::difference_at;
use bound_coordinate_higher::{high_at, higher_of, low_at};
use bound_pieces::{Gaps, Pieces};
use bound_tolerance::spread::size;
use bound_tolerance::{Tested, is_longer};
use curve_nodes::Curve;

// The box at break point i is too long.
fn is_wide(
    rows: &[i64],
    x: HigherTerms,
    y: HigherTerms,
    shift: u32,
    scale: usize,
    m: usize,
    i: usize,
    square: i64,
) -> bool
    requires { (HigherComputable m shift scale rows.now x) × (HigherComputable m shift scale rows.now y)
        × (i ≤ m) }
    ensures { result ≡ lt_z square (higher_across_by m shift rows.now x y i) }
{
    let x_low = low_at(rows, x, shift, scale, m, i);
    let x_high = high_at(rows, x, shift, scale, m, i);
    let y_low = low_at(rows, y, shift, scale, m, i);
    let y_high = high_at(rows, y, shift, scale, m, i);
    is_longer(x_high - x_low, y_high - y_low, square)
}

// The boxes at all break points are narrow.
#[inline(always)]
pub fn boxes_meet(rows: &[i64], pieces: Pieces, curve: Curve, depth: u32, t: i64) -> bool
    requires { (PiecesReady pieces rows.now) × (3 ≤ pieces.m) × (Sized depth curve) × (3 < curve.degree)
        × (depth ≤ 4) × (Small (2 ^ 27) t) × (pieces.sixths ≡ false) }
    ensures { result ≡ meets (setting_of pieces) t depth curve }
{
    let m = pieces.m;
    let scale = pieces.scale;
    let degree = curve.degree;
    let xs = curve.x;
    let ys = curve.y;
    let shift = degree * depth;
    let square = t * t;
    let x = higher_of(xs, degree, shift, m);
    let y = higher_of(ys, degree, shift, m);
    for i in 0..m + 1 {
        if is_wide(rows, x, y, shift, scale, m, i, square) {
            return false;
        }
    }
    true
}

// The sizes of the second differences of a coordinate: the first two and the last two. At degree 4 the one in the
// middle stands twice.
fn sizes_of(c: [i64; 6], degree: u32) -> [u64; 4]
    requires { HigherBoundable c degree }
    ensures { result ≡ sizes_of degree c }
{
    let a = size(difference_at(c, 0));
    let b = size(difference_at(c, 1));
    let d = size(difference_at(c, 2));
    if degree < 5 {
        return [a, b, b, d];
    }
    [a, b, d, size(difference_at(c, 3))]
}

// The gaps of the degree.
fn gaps_for(pieces: Pieces, degree: u32) -> Gaps
    requires { (HasRows pieces.m) × (pieces ≡ pieces_of pieces.m pieces.sixths) × (4 ≤ degree)
        × (degree ≤ 5) }
    ensures { result ≡ gaps_of pieces.m degree }
{
    if degree < 5 {
        pieces.quartic
    } else {
        pieces.quintic
    }
}

// No low and high of a coordinate are further apart before rounding.
fn most(gaps: Gaps, sizes: [u64; 4]) -> u64
    requires { (SmallGaps gaps) × (SmallSizes sizes) }
    ensures { result ≡ most_of gaps sizes }
{
    let outer = sizes[0].max(sizes[3]);
    let inner = sizes[1].max(sizes[2]);
    let beyond = outer.saturating_sub(inner);
    gaps.whole * inner + gaps.outer * beyond
}

// The fraction of a sum over 625 times a power of 2, rounded up: one less than the denominator is added. Control values
// of degrees 4 and 5 are whole.
fn whole_units(sum: u64, more: u64, shift: u32) -> i64
    requires { (sum ≤ 2 ^ 36 * 2 ^ shift) × (more ≡ 625 * 2 ^ shift - 1) × (shift ≤ 24) }
    ensures { Computed (2 ^ 27) (pos (spread_of (6 * sum) shift)) result }
{
    (((sum + more) >> shift) / 625) as i64
}

// The boxes at all break points are narrow: rounded up and one more, no box is wider.
fn is_narrow(gaps: Gaps, x: [u64; 4], y: [u64; 4], shift: u32, square: i64) -> bool
    requires { (Spread gaps shift x) × (Spread gaps shift y) }
    ensures { result ≡ not (lt_z square (squares_above (6 * most_of gaps x) (6 * most_of gaps y) shift)) }
{
    let more = (625u64 << shift) - 1;
    let width = whole_units(most(gaps, x), more, shift);
    let height = whole_units(most(gaps, y), more, shift);
    !is_longer(width + 1, height + 1, square)
}

// The box at an end is wide, by the two differences there.
fn is_wide_at(gaps: Gaps, x: [u64; 2], y: [u64; 2], shift: u32, square: i64) -> bool
    requires { (SpreadAt gaps shift x) × (SpreadAt gaps shift y) }
    ensures { result ≡ lt_z square (squares_of (6 * end_of gaps x) (6 * end_of gaps y) shift) }
{
    let more = (625u64 << shift) - 1;
    let first = gaps.first;
    let second = gaps.second;
    let width = whole_units(first * x[0] + second * x[1], more, shift);
    let height = whole_units(first * y[0] + second * y[1], more, shift);
    is_longer(width, height, square)
}

// Whether a node meets the tolerance, as far as the gaps tell: by the most that its lows and highs can be apart, and
// by how far they are apart at its two ends. A tolerance beyond 2^27 is longer than every diagonal, and so no square
// wraps.
pub fn verdict_of(pieces: Pieces, curve: Curve, depth: u32, t: i64) -> Tested
    requires { (HasRows pieces.m) × (pieces ≡ pieces_of pieces.m pieces.sixths) × (3 ≤ pieces.m)
        × (Sized depth curve) × (3 < curve.degree) × (depth ≤ 4) × (pieces.sixths ≡ false) }
    ensures { VerdictRight (setting_of pieces) t depth curve result }
{
    if t < -134217728 || 134217728 < t {
        return Tested::Narrow;
    }
    let degree = curve.degree;
    let gaps = gaps_for(pieces, degree);
    let square = t * t;
    let shift = degree * depth;
    let xs = curve.x;
    let ys = curve.y;
    let x = sizes_of(xs, degree);
    let y = sizes_of(ys, degree);
    if is_narrow(gaps, x, y, shift, square) {
        return Tested::Narrow;
    }
    if is_wide_at(gaps, [x[0], x[1]], [y[0], y[1]], shift, square) {
        return Tested::Wide;
    }
    if is_wide_at(gaps, [x[3], x[2]], [y[3], y[2]], shift, square) {
        return Tested::Wide;
    }
    Tested::Open
}
