// The points of the path round two boxes, computed; what the path is stands in the crate `draw_polygon`.
ghost use Rattle.std.specs.Prelude.{◌≡◌};
ghost use Rattle.draw_polygon.specs.Polygon.{joined_span, reached, ends_of_spans, across_of, upright_of, path_point};

use boxes::Box;
use draw_polygon::{Ends, Point, Span};
use std::cmp::Ordering;

// The span from the lower low to the higher high.
fn joined_span(first: Span, second: Span) -> Span
    ensures { result ≡ joined_span first second }
{
    let low = first.low.min(second.low);
    let high = first.high.max(second.high);
    Span { low, high }
}

// The first span where a is less, the second where b is, and where they are equal both, joined.
fn reached(a: i32, b: i32, first: Span, second: Span) -> Span
    ensures { result ≡ reached a b first second }
{
    match a.cmp(&b) {
        Ordering::Less => first,
        Ordering::Greater => second,
        Ordering::Equal => joined_span(first, second),
    }
}

// The x that a box covers.
pub fn across(b: Box) -> Span
    ensures { result ≡ across_of b }
{
    let low = b.x_low;
    let high = b.x_high;
    Span { low, high }
}

// The y that a box covers.
pub fn upright(b: Box) -> Span
    ensures { result ≡ upright_of b }
{
    let low = b.y_low;
    let high = b.y_high;
    Span { low, high }
}

// The ends of two boxes whose levels and stretches are given.
pub fn ends_of_spans(first: Span, second: Span, across_first: Span, across_second: Span) -> Ends
    ensures { result ≡ ends_of_spans first second across_first across_second }
{
    let levels = joined_span(first, second);
    let lowest = reached(first.low, second.low, across_first, across_second);
    let highest = reached(second.high, first.high, across_first, across_second);
    Ends {
        levels,
        lowest,
        highest,
    }
}

// Point k of the path, from 0 to 8, where the last is the first again. The levels of `upright` are y, those of `across`
// are x.
pub fn path_point(upright: Ends, across: Ends, k: usize) -> Point
    ensures { result ≡ path_point upright across k }
{
    match k {
        1 => Point {
            x: upright.lowest.high,
            y: upright.levels.low,
        },
        2 => Point {
            x: across.levels.high,
            y: across.highest.low,
        },
        3 => Point {
            x: across.levels.high,
            y: across.highest.high,
        },
        4 => Point {
            x: upright.highest.high,
            y: upright.levels.high,
        },
        5 => Point {
            x: upright.highest.low,
            y: upright.levels.high,
        },
        6 => Point {
            x: across.levels.low,
            y: across.lowest.high,
        },
        7 => Point {
            x: across.levels.low,
            y: across.lowest.low,
        },
        _ => Point {
            x: upright.lowest.low,
            y: upright.levels.low,
        },
    }
}
