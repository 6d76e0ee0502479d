// B-splines: the curve of four neighbouring points, and checks 24 and 25 of a list of points.
#![tactic(auto)]

ghost use Rattle.std.specs.Prelude.{◌≡◌, ◌+◌, ◌≤◌, ◌<◌, length};
ghost use Rattle.outline.specs.Inside.{found_of, checked_of};
ghost use Rattle.outline_splines.specs.Splines.{spline_values, spline_at, first_far, splined};

use curve_nodes::Curve;
use refusals::Refusal;

// Six times the control values of one coordinate, whose first number stands at index `from`.
fn spline_values(ns: &[i32], from: usize) -> [i64; 6]
    requires { from + 6 < length ns.now }
    ensures { result ≡ spline_values ns.now from }
{
    let b0 = ns[from] as i64;
    let b1 = ns[from + 2] as i64;
    let b2 = ns[from + 4] as i64;
    let b3 = ns[from + 6] as i64;
    [
        b0 + 4 * b1 + b2,
        2 * (2 * b1 + b2),
        2 * (b1 + 2 * b2),
        b1 + 4 * b2 + b3,
        0,
        0,
    ]
}

// The curve of the four points from index `at` on, at depth 0; its control values are sixths.
pub fn spline_at(ns: &[i32], at: usize) -> Curve
    requires { at + 8 ≤ length ns.now }
    ensures { result ≡ spline_at ns.now at }
{
    let x = spline_values(ns, at);
    let y = spline_values(ns, at + 1);
    Curve { degree: 3, x, y }
}

// Check 25: the first index of a number that is no coordinate of a B-spline's point.
fn first_beyond(ns: &[i32]) -> Option<usize>
    ensures { result ≡ found_of (first_far ns.now (length ns.now) 0) }
{
    ns.iter().position(|z| !(-131072..=131072).contains(z))
}

// Checks 24 and 25 of a list of points, in their order: how many curves it gives, or the first fault. Defined for every
// list.
pub fn check_spline(ns: &[i32]) -> Result<usize, Refusal>
    ensures { result ≡ checked_of (splined ns.now) }
{
    let n = ns.len();
    if n % 2 != 0 || !(8..=8198).contains(&n) {
        return Err(Refusal::SplineLength(n));
    }
    match first_beyond(ns) {
        Some(index) => Err(Refusal::SplineCoordinate(index)),
        None => Ok(n / 2 - 3),
    }
}
