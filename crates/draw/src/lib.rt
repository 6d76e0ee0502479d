// Drawing a cover: the vertices of the convex hull of two boxes.
#![tactic(auto)]

ghost use Rattle.std.specs.Prelude.{◌≡◌, length};
ghost use Rattle.boxes.specs.Ranges.{place_of};
ghost use Rattle.draw.specs.Drawing.{two_boxes_fault, drawn, drawn_into};

use crate::vertices::put_vertices;
use boxes::Box;
use refusals::Refusal;

pub mod path_points;
pub mod vertices;

// Draws the convex hull of two boxes: its vertices, x and y of each, counter-clockwise from the lowest, then leftmost,
// stand at the front of the list afterwards, and what stood behind them stays. Returned is how many there are. A
// refusal alters nothing. Defined for every two boxes and every list.
pub fn draw(first: Box, second: Box, vertices: &mut [i32]) -> Result<usize, Refusal>
    ensures value { result ≡ drawn first second (length vertices.old) }
    ensures vertices_after { vertices.new ≡ drawn_into first second vertices.old }
{
    if let Some(place) = first_fault(first, second) {
        return Err(Refusal::BoxNumber(place));
    }
    if vertices.len() < 16 {
        return Err(Refusal::TooFewVertices(vertices.len()));
    }
    Ok(put_vertices(vertices, first, second))
}

// Check 12: the place of the first bad number of two boxes, 0 to 7.
fn first_fault(first: Box, second: Box) -> Option<usize>
    ensures { result ≡ place_of (two_boxes_fault first second) }
{
    if let Some(place) = first.fault() {
        return Some(place);
    }
    let place = second.fault()?;
    Some(4 + place)
}
