// Leaf records: what they are, and one written to a list.
#![tactic(auto)]

ghost use Rattle.std.specs.Prelude.{◌≡◌, false, [], ◌∷◌, suc, ◌+◌, ◌*◌, ◌≤◌, ◌<◌, ◌^◌};
ghost use lib.{ListN.{length}, Seq.{sets}, IntN.{pos}};
ghost use Rattle.setting.specs.Setting.{break_points, record_length, greatest_node};
ghost use Rattle.curve_nodes.specs.{Bounds.{Sized}, Nodes.{depth}};
ghost use Rattle.bound_coordinate.specs.Terms.{ComputableAt};
ghost use Rattle.bound_pieces.specs.Inside.{PiecesReady, setting_of};
ghost use Rattle.band_records.specs.{Records.{boxes_to, node_numbers}, Inside.{box_by}};

use bound_coordinate::terms::Terms;
use bound_pieces::Pieces;
use curve_nodes::Curve;

pub mod higher;

// The four numbers of the box at break point i, from place `at` on, by what goes with the number of pieces.
fn put_box(
    records: &mut [i32],
    at: usize,
    rows: &[i64],
    x: Terms,
    y: Terms,
    shift: u32,
    pieces: Pieces,
    i: usize,
)
    requires { (at + 4 ≤ length records.old)
        × (ComputableAt pieces.divisor shift pieces.scale i rows.now x)
        × (ComputableAt pieces.divisor shift pieces.scale i rows.now y) }
    ensures { records.new
        ≡ sets records.old at (box_by pieces.divisor shift rows.now x y i) }
{
    let divisor = pieces.divisor;
    let scale = pieces.scale;
    let x_low = bound_coordinate::break_points::low_at(rows, x, shift, scale, divisor, i);
    let x_high = bound_coordinate::break_points::high_at(rows, x, shift, scale, divisor, i);
    let y_low = bound_coordinate::break_points::low_at(rows, y, shift, scale, divisor, i);
    let y_high = bound_coordinate::break_points::high_at(rows, y, shift, scale, divisor, i);
    records[at] = x_low as i32;
    records[at + 1] = x_high as i32;
    records[at + 2] = y_low as i32;
    records[at + 3] = y_high as i32;
}

// The boxes at the break points of a curve of degree 1 to 3 at a depth, from place `at` on, by what goes with the
// number of pieces, whose rows are lent.
fn put_low_boxes(
    records: &mut [i32],
    at: usize,
    rows: &[i64],
    curve: Curve,
    depth: u32,
    pieces: Pieces,
)
    requires { (at + 4 * break_points (setting_of pieces) ≤ length records.old) × (PiecesReady pieces rows.now)
        × (Sized depth curve) × (curve.degree ≤ 3) × (depth ≤ 8) }
    ensures { records.new
        ≡ sets records.old at
        (boxes_to (setting_of pieces) (break_points (setting_of pieces)) depth curve) }
{
    let m = pieces.m;
    let degree = curve.degree;
    let shift = degree * depth;
    let xs = curve.x;
    let ys = curve.y;
    let x = bound_coordinate::terms::terms_of(xs, degree, m);
    let y = bound_coordinate::terms::terms_of(ys, degree, m);
    for i in 0..m + 1 {
        let place = at + 4 * i;
        put_box(records, place, rows, x, y, shift, pieces, i);
    }
}

// The two numbers of a node before its boxes: its curve's number and its own.
fn put_numbers(records: &mut [i32], at: usize, number: u32, node: u32)
    requires { (at + 2 ≤ length records.old) × (number < 2 ^ 31) × (node < 2 ^ 31) }
    ensures { records.new ≡ sets records.old at (pos number ∷ pos node ∷ []) }
{
    records[at] = number as i32;
    records[at + 1] = node as i32;
}

// The record of a node of degree 1 to 3: its curve's number, its own, and its boxes, by what goes with the number of
// pieces, whose rows are lent.
pub fn put_record(
    records: &mut [i32],
    at: usize,
    number: u32,
    node: u32,
    rows: &[i64],
    pieces: Pieces,
    curve: Curve,
)
    requires { (at + record_length (setting_of pieces) ≤ length records.old) × (number < 2 ^ 31)
        × (node < suc greatest_node) × (0 < node) × (PiecesReady pieces rows.now) × (Sized (depth node) curve)
        × (curve.degree ≤ 3) }
    ensures { records.new
        ≡ sets records.old at
        (node_numbers number node
        (boxes_to (setting_of pieces) (break_points (setting_of pieces)) (depth node) curve)) }
{
    put_numbers(records, at, number, node);
    let depth = curve_nodes::depth(node);
    put_low_boxes(records, at + 2, rows, curve, depth, pieces);
}

// The record of a node of degree 4 or 5: its curve's number, its own, and its boxes, by what goes with the number of
// pieces, whose rows are lent.
// It stands apart from `put_record`, as its loop from that of degrees 1 to 3, for speed (docs/landings/20).
pub fn put_record_higher(
    records: &mut [i32],
    at: usize,
    number: u32,
    node: u32,
    rows: &[i64],
    pieces: Pieces,
    curve: Curve,
)
    requires { (at + record_length (setting_of pieces) ≤ length records.old) × (number < 2 ^ 31)
        × (node < 32) × (0 < node) × (PiecesReady pieces rows.now) × (3 ≤ pieces.m) × (Sized (depth node) curve)
        × (3 < curve.degree) × (pieces.sixths ≡ false) }
    ensures { records.new
        ≡ sets records.old at
        (node_numbers number node
        (boxes_to (setting_of pieces) (break_points (setting_of pieces)) (depth node) curve)) }
{
    put_numbers(records, at, number, node);
    let depth = curve_nodes::depth(node);
    crate::higher::put_higher_boxes(records, at + 2, rows, curve, depth, pieces.scale, pieces.m);
}
