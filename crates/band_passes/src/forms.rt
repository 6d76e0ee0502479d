// A list that gives curves, by its form.
ghost use Rattle.std.specs.Prelude.{◌≡◌};
ghost use Rattle.band_passes.specs.Inside.{form_of, numbers_of, read_at, next_of, sixths_of, StandsAt};

use curve_nodes::Curve;
use outline_binary64::reading;
use outline_reading::curve_values;
use outline_reading::outline_curves::next_at;
use outline_splines::spline_at;

// An outline of Bézier curves, in integers or in binary64, or the points of a B-spline.
#[derive(Clone, Copy)]
pub enum CurveList<'a> {
    Outline(&'a [i32]),
    Binary64(&'a [f64]),
    Spline(&'a [i32]),
}

// The curve at index `at`.
#[inline(always)]
pub fn curve_at(list: CurveList, at: usize) -> Curve
    requires { StandsAt (form_of list) (numbers_of list) at }
    ensures { result ≡ read_at (form_of list.entry) (numbers_of list.entry) at }
{
    match list {
        CurveList::Outline(ns) => curve_values::curve_at(ns, at),
        CurveList::Binary64(xs) => reading::curve_at(xs, at),
        CurveList::Spline(ns) => spline_at(ns, at),
    }
}

// The index of the curve after the one at index `at`.
pub fn next_of(list: CurveList, at: usize) -> usize
    requires { StandsAt (form_of list) (numbers_of list) at }
    ensures { result ≡ next_of (form_of list.entry) (numbers_of list.entry) at }
{
    match list {
        CurveList::Outline(ns) => next_at(ns, at),
        CurveList::Binary64(xs) => reading::next_at(xs, at),
        CurveList::Spline(_) => at + 2,
    }
}

// Whether the control values are sixths of a stage unit.
pub fn sixths_of(list: CurveList) -> bool
    ensures { result ≡ sixths_of (form_of list.entry) }
{
    matches!(list, CurveList::Spline(_))
}
