// Whether the leaves of a list's curves surely have room, without a walk.
#![tactic(auto)]

ghost use Rattle.std.specs.Prelude.{◌≡◌, true, ◌≤◌, ◌<◌, ◌*◌, ◌^◌, IfSome};
ghost use Rattle.setting.specs.Setting.{HasRows};
ghost use Rattle.curve_nodes.specs.{Bounds.{Sized}, Differences.{largest}};
ghost use Rattle.bound_rows.specs.Rule.{gap_of};
ghost use Rattle.bound_pieces.specs.Inside.{times, pieces_of, setting_of};
ghost use Rattle.band_passes.specs.Inside.{form_of, numbers_of, Readable, curves_in};
ghost use Rattle.band_room.specs.Inside.{Reaches, Few, Fits};

use band_passes::forms::{CurveList, curve_at, next_of};
use bound_coordinate::terms::difference_at;
use bound_pieces::Pieces;
use bound_tolerance::is_longer;
use bound_tolerance::spread::size;
use curve_nodes::Curve;

// The size of the largest second difference of a curve of degree 1 to 3.
fn largest_size(curve: Curve) -> u64
    requires { (Sized 0 curve) × (curve.degree ≤ 3) }
    ensures { (largest curve ≤ result) × (result ≤ 2 ^ 22) }
{
    let degree = curve.degree;
    let xs = curve.x;
    let ys = curve.y;
    if degree < 2 {
        return 0;
    }
    let first = size(difference_at(xs, 0)).max(size(difference_at(ys, 0)));
    if degree < 3 {
        return first;
    }
    let second = size(difference_at(xs, 1)).max(size(difference_at(ys, 1)));
    first.max(second)
}

// G of a degree from 1 to 3, times 6 over the scale of control values.
fn gap_for(pieces: Pieces, degree: u32) -> u64
    requires { (HasRows pieces.m) × (pieces ≡ pieces_of pieces.m pieces.sixths) × (1 ≤ degree)
        × (degree ≤ 3) }
    ensures { (times pieces.sixths * gap_of pieces.m degree ≤ result) × (result ≤ 90000) }
{
    if degree < 2 {
        return 0;
    }
    if degree < 3 {
        return pieces.single;
    }
    let near = pieces.near;
    let far = pieces.far;
    near + far
}

// 2^j for the least depth j up to 8 at which no box is too long, if there is one: where G × M so multiplied is `bend`,
// a box at depth j is at most bend over 3750 × 4^j wide and high, rounded down, and two more.
fn leaves_by(bend: u64, t: i64) -> Option<usize>
    requires { bend ≤ 90000 * 2 ^ 22 }
    ensures { IfSome result (Reaches bend t) }
{
    if t < -134217728 || 134217728 < t {
        return None;
    }
    let square = t * t;
    let mut part = bend;
    for depth in 0..9u32 {
        let wide = (part / 3750) as i64 + 2;
        if !is_longer(wide, wide, square) {
            return Some(1usize << depth);
        }
        part >>= 2;
    }
    None
}

// The most leaves that a curve of degree 1 to 3 can have, where that is known.
fn most_leaves(pieces: Pieces, curve: Curve, t: i64) -> Option<usize>
    requires { (HasRows pieces.m) × (pieces ≡ pieces_of pieces.m pieces.sixths) × (Sized 0 curve)
        × (curve.degree ≤ 3) }
    ensures { IfSome result (Few (setting_of pieces) t curve) }
{
    let degree = curve.degree;
    let bend = gap_for(pieces, degree) * largest_size(curve);
    leaves_by(bend, t)
}

// Whether the curves of a list without faults surely have no more than `room` leaves, none of them too wide. What is
// left of the room is counted with one leaf for each curve taken off, so that a list with just that room is soon known.
pub fn surely_fit(pieces: Pieces, list: CurveList, t: i64, curves: usize, room: usize) -> bool
    requires { (HasRows pieces.m) × (pieces ≡ pieces_of pieces.m pieces.sixths)
        × (Readable (setting_of pieces) (form_of list) (numbers_of list) curves) }
    ensures { result ≡ true → Fits (setting_of pieces) t
        (curves_in (form_of list.entry) (numbers_of list.entry) curves) room }
{
    if room < curves {
        return false;
    }
    let mut left = room - curves;
    let mut at: usize = 0;
    for k in 0..curves {
        let curve = curve_at(list, at);
        if 3 < curve.degree {
            return false;
        }
        at = next_of(list, at);
        let Some(most) = most_leaves(pieces, curve, t) else {
            return false;
        };
        if left < most - 1 {
            return false;
        }
        left -= most - 1;
    }
    true
}
