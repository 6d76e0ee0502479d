// The second pass over the curves of a list: it writes the records of their leaves.
ghost use Rattle.std.specs.Prelude.{◌≡◌, ◌+◌, ◌*◌, ◌≤◌, ◌<◌, ◌^◌};
ghost use lib.{ListN.{length}, Seq.{sets}};
ghost use Rattle.setting.specs.Setting.{record_length};
ghost use Rattle.bound_pieces.specs.Inside.{PiecesReady, setting_of};
ghost use Rattle.walk_curve.specs.Walked.{ends_of};
ghost use Rattle.band_records.specs.Records.{records_of, all_records};
ghost use Rattle.band_passes.specs.{Leaves.{leaves_of}, Inside.{form_of, numbers_of, curves_in, EndsMeet, Fillable}};

use crate::forms::{CurveList, curve_at, next_of};
use band_records::{put_record, put_record_higher};
use bound_pieces::Pieces;
use bound_tolerance::Tested;
use curve_nodes::Curve;
use walk_curve::Part;

// The records of a curve's leaves, from place `at` on. It returns the place after them. The rows lent are those of the
// number of pieces.
pub fn write_curve(
    records: &mut [i32],
    at: usize,
    rows: &[i64],
    pieces: Pieces,
    number: u32,
    curve: Curve,
    t: i64,
) -> usize
    requires { (PiecesReady pieces rows.now) × (EndsMeet (setting_of pieces) t curve) × (number < 2 ^ 31)
        × (at + record_length (setting_of pieces) * length (ends_of (setting_of pieces) t curve)
        ≤ length records.old) }
    ensures value { result ≡ at + record_length (setting_of pieces) * length (ends_of (setting_of pieces) t curve) }
    ensures records_after { records.new ≡ sets records.old at
        (records_of (setting_of pieces) number curve (ends_of (setting_of pieces) t curve)) }
{
    if 3 < curve.degree {
        write_higher(records, at, rows, pieces, number, curve, t)
    } else {
        write_low(records, at, rows, pieces, number, curve, t)
    }
}

// Writes the records of a curve of degree 1 to 3.
// Apart, for speed: in one loop with degrees 4 and 5 the test of a node is no longer inlined (docs/landings/20).
fn write_low(
    records: &mut [i32],
    at: usize,
    rows: &[i64],
    pieces: Pieces,
    number: u32,
    curve: Curve,
    t: i64,
) -> usize
    requires { (PiecesReady pieces rows.now) × (EndsMeet (setting_of pieces) t curve) × (number < 2 ^ 31)
        × (at + record_length (setting_of pieces) * length (ends_of (setting_of pieces) t curve)
        ≤ length records.old) × (curve.degree ≤ 3) }
    ensures value { result ≡ at + record_length (setting_of pieces) * length (ends_of (setting_of pieces) t curve) }
    ensures records_after { records.new ≡ sets records.old at
        (records_of (setting_of pieces) number curve (ends_of (setting_of pieces) t curve)) }
{
    let m = pieces.m;
    let record_length = 6 + 4 * m;
    let mut part = Part { node: 1, curve };
    let mut place = at;
    loop {
        let node = part.node;
        let own = part.curve;
        let depth = curve_nodes::depth(node);
        let met = match bound_tolerance::verdict_of(pieces, own, depth, t) {
            Tested::Narrow => true,
            Tested::Wide => false,
            Tested::Open => bound_tolerance::boxes_meet(rows, pieces, own, depth, t, t * t),
        };
        if met {
            put_record(records, place, number, node, rows, pieces, own);
            place += record_length;
            part = part.after_low();
            if part.node == 1 {
                return place;
            }
        } else {
            part = part.left_low();
        }
    }
}

// Writes the records of a curve of degree 4 or 5. A node at the last depth is a leaf, or the first pass would have
// refused.
fn write_higher(
    records: &mut [i32],
    at: usize,
    rows: &[i64],
    pieces: Pieces,
    number: u32,
    curve: Curve,
    t: i64,
) -> usize
    requires { (PiecesReady pieces rows.now) × (EndsMeet (setting_of pieces) t curve) × (number < 2 ^ 31)
        × (at + record_length (setting_of pieces) * length (ends_of (setting_of pieces) t curve)
        ≤ length records.old) × (3 < curve.degree) }
    ensures value { result ≡ at + record_length (setting_of pieces) * length (ends_of (setting_of pieces) t curve) }
    ensures records_after { records.new ≡ sets records.old at
        (records_of (setting_of pieces) number curve (ends_of (setting_of pieces) t curve)) }
{
    let m = pieces.m;
    let record_length = 6 + 4 * m;
    let mut part = Part { node: 1, curve };
    let mut place = at;
    loop {
        let node = part.node;
        let own = part.curve;
        let depth = curve_nodes::depth(node);
        let met = if 16 <= node {
            true
        } else {
            match bound_tolerance_higher::verdict_of(pieces, own, depth, t) {
                Tested::Narrow => true,
                Tested::Wide => false,
                Tested::Open => bound_tolerance_higher::boxes_meet(
                    rows,
                    pieces,
                    own.same(),
                    depth,
                    t,
                ),
            }
        };
        if met {
            put_record_higher(records, place, number, node, rows, pieces, own);
            place += record_length;
            part = part.after();
            if part.node == 1 {
                return place;
            }
        } else {
            part = part.left();
        }
    }
}

// The records of every leaf of a list's curves, from the front of the lent list on. It returns the place after them.
pub fn write_all(
    records: &mut [i32],
    rows: &[i64],
    pieces: Pieces,
    list: CurveList,
    t: i64,
    curves: usize,
) -> usize
    requires { (PiecesReady pieces rows.now)
        × (Fillable (setting_of pieces) t (form_of list) (numbers_of list) curves (length records.old)) }
    ensures value { result ≡ record_length (setting_of pieces) * leaves_of (setting_of pieces) t
        (curves_in (form_of list.entry) (numbers_of list.entry) curves) }
    ensures records_after { records.new ≡ sets records.old 0
        (all_records (setting_of pieces) t 0
        (curves_in (form_of list.entry) (numbers_of list.entry) curves)) }
{
    let mut at: usize = 0;
    let mut place: usize = 0;
    for k in 0..curves {
        let curve = curve_at(list, at);
        at = next_of(list, at);
        place = write_curve(records, place, rows, pieces, k as u32, curve, t);
    }
    place
}
