// Writing the vertices of two boxes: the points from which the path round them moves on.
ghost use Rattle.std.specs.Prelude.{◌≡◌, [], ◌∷◌, ◌+◌, ◌*◌, ◌≤◌};
ghost use lib.{ListN.{length}, Seq.{sets}};
ghost use Rattle.draw_polygon.specs.Polygon.{path_point, unless_same, vertices_of, vertices, numbers};

use crate::path_points::{across, ends_of_spans, path_point, upright};
use boxes::Box;
use draw_polygon::{Ends, Point};

// The two numbers of a point, as vertex number `count`.
fn put_point(list: &mut [i32], count: usize, p: Point)
    requires { 2 * count + 2 ≤ length list.old }
    ensures { list.new ≡ sets list.old (2 * count) (p.x ∷ p.y ∷ []) }
{
    let x = p.x;
    let y = p.y;
    let at = 2 * count;
    list[at] = x;
    list[at + 1] = y;
}

// The point p as vertex number `count`, unless q is the same. It returns the count with it.
fn put_unless(list: &mut [i32], count: usize, p: Point, q: Point) -> usize
    requires { 2 * count + 2 ≤ length list.old }
    ensures value { result ≡ count + length (unless_same p q) }
    ensures list_after { list.new ≡ sets list.old (2 * count) (numbers (unless_same p q)) }
{
    if p == q {
        return count;
    }
    put_point(list, count, p);
    count + 1
}

// The vertices of the path between these ends, from the front of the list on. It returns their count.
fn put_path(list: &mut [i32], upright: Ends, across: Ends) -> usize
    requires { 16 ≤ length list.old }
    ensures value { result ≡ length (vertices_of (path_point upright across)) }
    ensures list_after { list.new ≡ sets list.old 0 (numbers (vertices_of (path_point upright across))) }
{
    let mut count: usize = 0;
    for k in 0..8 {
        let p = path_point(upright, across, k);
        let q = path_point(upright, across, k + 1);
        count = put_unless(list, count, p, q);
    }
    if count == 0 {
        put_point(list, 0, path_point(upright, across, 0));
        return 1;
    }
    count
}

// The vertices of two boxes.
pub fn put_vertices(list: &mut [i32], first: Box, second: Box) -> usize
    requires { 16 ≤ length list.old }
    ensures value { result ≡ length (vertices first second) }
    ensures list_after { list.new ≡ sets list.old 0 (numbers (vertices first second)) }
{
    let x = across(first);
    let u = across(second);
    let y = upright(first);
    let v = upright(second);
    put_path(list, ends_of_spans(y, v, x, u), ends_of_spans(x, u, y, v))
}
