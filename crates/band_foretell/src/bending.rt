// The largest second difference of a curve's control values: M of document 01.
ghost use Rattle.std.specs.Prelude.{◌≡◌, ◌≤◌, ◌<◌, ◌^◌, nat_abs};
ghost use Rattle.curve_halves.specs.Sizes.{Each};
ghost use Rattle.curve_nodes.specs.{Bounds.{Sized}, Differences.{difference, bend, largest}};

use bound_coordinate::terms::difference_at;
use curve_nodes::Curve;

// The size of the second difference of control values from place k on.
fn size_at(c: [i64; 6], k: usize) -> u64
    requires { (Each (2 ^ 44) c) × (k < 4) }
    ensures { result ≡ nat_abs (difference c k) }
{
    difference_at(c, k).unsigned_abs()
}

// The largest size of a second difference of one coordinate.
fn bend(c: [i64; 6], degree: u32) -> u64
    requires { (Each (2 ^ 44) c) × (1 ≤ degree) × (degree ≤ 5) }
    ensures { result ≡ bend degree c }
{
    let count = (degree - 1) as usize;
    let mut most = 0;
    for k in 0..count {
        most = most.max(size_at(c, k));
    }
    most
}

// M, the largest size of a second difference of a curve, over both coordinates.
pub fn largest_of(curve: Curve) -> u64
    requires { Sized 0 curve }
    ensures { result ≡ largest curve }
{
    let degree = curve.degree;
    let x = curve.x;
    let y = curve.y;
    bend(x, degree).max(bend(y, degree))
}
