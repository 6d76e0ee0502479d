// The boxes of a curve of degree 4 or 5, written to a list.
ghost use Rattle.std.specs.Prelude.{◌≡◌, suc, ◌+◌, ◌*◌, ◌≤◌, ◌<◌};
ghost use lib.{ListN.{length}, Seq.{sets}};
ghost use Rattle.setting.specs.Setting.{HasRows, lists, break_points};
ghost use Rattle.curve_nodes.specs.Bounds.{Sized};
ghost use Rattle.bound_row_table.specs.Inside.{Copied};
ghost use Rattle.bound_coordinate.specs.HigherTerms.{HigherComputable};
ghost use Rattle.band_records.specs.{Records.{boxes_to}, Inside.{put_pairs_by}};

use bound_coordinate::higher::HigherTerms;
use bound_coordinate_higher::{high_at, higher_of, low_at};
use curve_nodes::Curve;

// The low and the high of one coordinate at every break point, four places apart, from place `at` on.
fn put_coordinate(
    records: &mut [i32],
    at: usize,
    rows: &[i64],
    z: HigherTerms,
    shift: u32,
    scale: usize,
    m: usize,
)
    requires { (at + 4 * m + 2 ≤ length records.old) × (HigherComputable m shift scale rows.now z) }
    ensures { records.new
        ≡ put_pairs_by records.old at m shift rows.now z (suc m) }
{
    for i in 0..m + 1 {
        let low = low_at(rows, z, shift, scale, m, i);
        let high = high_at(rows, z, shift, scale, m, i);
        records[at + 4 * i] = low as i32;
        records[at + 4 * i + 1] = high as i32;
    }
}

// The boxes at the break points of a curve at a depth, from place `at` on; `rows` are those of m pieces, and the scale
// is 5040 over m.
pub fn put_higher_boxes(
    records: &mut [i32],
    at: usize,
    rows: &[i64],
    curve: Curve,
    depth: u32,
    scale: usize,
    m: usize,
)
    requires { (at + 4 * break_points (lists m) ≤ length records.old) × (HasRows m) × (Copied m rows.now)
        × (Sized depth curve) × (3 < curve.degree) × (3 ≤ m) × (depth ≤ 4) × (scale * m ≡ 5040) }
    ensures { records.new
        ≡ sets records.old at (boxes_to (lists m) (break_points (lists m)) depth curve) }
{
    let degree = curve.degree;
    let shift = degree * depth;
    let xs = curve.x;
    let ys = curve.y;
    put_coordinate(
        records,
        at,
        rows,
        higher_of(xs, degree, shift, m),
        shift,
        scale,
        m,
    );
    put_coordinate(
        records,
        at + 2,
        rows,
        higher_of(ys, degree, shift, m),
        shift,
        scale,
        m,
    );
}
