// Reading one curve of an outline in binary64 whose numbers were checked.
ghost use Rattle.std.specs.Prelude.{◌≡◌, true, ◌≤◌, ◌<◌, length};
ghost use Rattle.integers.specs.Entry.{entry};
ghost use Rattle.setting.specs.Setting.{most_degree};
ghost use Rattle.outline.specs.{Curves.{degree_fine, degree_at, next_at, values, curve_at}, Faults.{coordinate_fine}};
ghost use Rattle.outline_binary64.specs.{Lists.{wholes}, Inside.{AllRead, Stands}};

use binary64::near_number;
use curve_nodes::Curve;

// The degree that stands at index `at`.
pub fn degree_at(xs: &[f64], at: usize) -> u32
    requires { degree_fine (entry (wholes xs.now) at) ≡ true }
    ensures { result ≡ degree_at (wholes xs.now) at }
{
    near_number(xs[at]) as u32
}

// Where the curve whose degree stands at index `at` is over, and the next begins.
pub fn next_at(xs: &[f64], at: usize) -> usize
    requires { degree_fine (entry (wholes xs.now) at) ≡ true }
    ensures { result ≡ next_at (wholes xs.now) at }
{
    let d = degree_at(xs, at) as usize;
    at + 1 + 2 * (d + 1)
}

// The coordinate at index i.
fn number_at(xs: &[f64], i: usize) -> i64
    requires { (i < length xs.now) × (coordinate_fine (entry (wholes xs.now) i) ≡ true) }
    ensures { result ≡ entry (wholes xs.now) i }
{
    near_number(xs[i])
}

// The control values of one coordinate: every other number from index `from` on, degree + 1 of them, and zeros up to
// six.
fn values_at(xs: &[f64], degree: u32, from: usize) -> [i64; 6]
    requires { (1 ≤ degree) × (degree ≤ most_degree) × (AllRead (wholes xs.now) degree from) }
    ensures { result ≡ values (wholes xs.now) degree from }
{
    let c0 = number_at(xs, from);
    let c1 = number_at(xs, from + 2);
    if degree < 2 {
        return [c0, c1, 0, 0, 0, 0];
    }
    let c2 = number_at(xs, from + 4);
    if degree < 3 {
        return [c0, c1, c2, 0, 0, 0];
    }
    let c3 = number_at(xs, from + 6);
    if degree < 4 {
        return [c0, c1, c2, c3, 0, 0];
    }
    let c4 = number_at(xs, from + 8);
    if degree < 5 {
        return [c0, c1, c2, c3, c4, 0];
    }
    let c5 = number_at(xs, from + 10);
    [c0, c1, c2, c3, c4, c5]
}

// The curve whose degree stands at index `at`, at depth 0: its control values are the whole numbers read.
pub fn curve_at(xs: &[f64], at: usize) -> Curve
    requires { Stands (wholes xs.now) at }
    ensures { result ≡ curve_at (wholes xs.now) at }
{
    let degree = degree_at(xs, at);
    let x = values_at(xs, degree, at + 1);
    let y = values_at(xs, degree, at + 2);
    Curve { degree, x, y }
}
