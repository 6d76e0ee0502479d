// Reading one curve of an outline that is all there.
ghost use Rattle.std.specs.Prelude.{◌≡◌, true, ◌+◌, ◌*◌, ◌≤◌, ◌<◌, length};
ghost use Rattle.integers.specs.Entry.{entry};
ghost use Rattle.setting.specs.Setting.{most_degree};
ghost use Rattle.outline.specs.Curves.{degree_fine, next_at, values, curve_at};

use crate::outline_curves::degree_at;
use curve_nodes::Curve;

// The curve whose degree stands at index `at`, at depth 0: its control values are the coordinates themselves.
pub fn curve_at(ns: &[i32], at: usize) -> Curve
    requires { (degree_fine (entry ns.now at) ≡ true) × (next_at ns.now at ≤ length ns.now) }
    ensures { result ≡ curve_at ns.now at }
{
    let degree = degree_at(ns, at);
    let x = values_at(ns, degree, at + 1);
    let y = values_at(ns, degree, at + 2);
    Curve { degree, x, y }
}

// The control values of one coordinate: every other number from index `from` on, degree + 1 of them, and zeros up to
// six.
fn values_at(ns: &[i32], degree: u32, from: usize) -> [i64; 6]
    requires { (1 ≤ degree) × (degree ≤ most_degree) × (from + 2 * degree < length ns.now) }
    ensures { result ≡ values ns.now degree from }
{
    let c0 = ns[from] as i64;
    let c1 = ns[from + 2] as i64;
    if degree < 2 {
        return [c0, c1, 0, 0, 0, 0];
    }
    let c2 = ns[from + 4] as i64;
    if degree < 3 {
        return [c0, c1, c2, 0, 0, 0];
    }
    let c3 = ns[from + 6] as i64;
    if degree < 4 {
        return [c0, c1, c2, c3, 0, 0];
    }
    let c4 = ns[from + 8] as i64;
    if degree < 5 {
        return [c0, c1, c2, c3, c4, 0];
    }
    let c5 = ns[from + 10] as i64;
    [c0, c1, c2, c3, c4, c5]
}
