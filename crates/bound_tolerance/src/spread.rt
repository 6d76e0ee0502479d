// How far apart the low and the high of a coordinate are before rounding, by the gaps of the corners, and rounded up.
ghost use Rattle.std.specs.Prelude.{◌≡◌, ◌≤◌, ◌^◌, ◌*◌, ◌-◌, pos, nat_abs};
ghost use Rattle.setting.specs.Setting.{HasRows};
ghost use Rattle.bound_coordinate.specs.Inside.{Boundable, Small, Computed};
ghost use Rattle.bound_pieces.specs.Inside.{spread_of, pieces_of, sums_of};

use bound_coordinate::terms::difference_at;
use bound_pieces::Pieces;

// The size of a second difference.
pub fn size(difference: i64) -> u64
    requires { Small (2 ^ 46) difference }
    ensures { (result ≡ nat_abs difference) × (result ≤ 2 ^ 46) }
{
    difference.unsigned_abs()
}

// The fraction of a sum, times 6 over the scale of control values, over 3750 times a power of 2, rounded up: one less
// than the denominator is added.
pub fn rounded_up(sum: u64, more: u64, shift: u32) -> i64
    requires { (sum ≤ 6 * (2 ^ 36 * 2 ^ shift)) × (more ≡ 3750 * 2 ^ shift - 1) × (shift ≤ 24) }
    ensures { Computed (2 ^ 27) (pos (spread_of sum shift)) result }
{
    (((sum + more) >> shift) / 3750) as i64
}

// The sums of one coordinate at the two corners: gaps times the sizes of its second differences, times 6 over the scale
// of control values. At degree 2 they are the same.
pub fn sums(pieces: Pieces, c: [i64; 6], degree: u32) -> [u64; 2]
    requires { (HasRows pieces.m) × (pieces ≡ pieces_of pieces.m pieces.sixths) × (Boundable c degree) }
    ensures { result ≡ sums_of pieces.sixths pieces.m degree c }
{
    match degree {
        1 => [0, 0],
        2 => {
            let single = pieces.single;
            let both = single * size(difference_at(c, 0));
            [both, both]
        }
        _ => {
            let near = pieces.near;
            let far = pieces.far;
            let a = size(difference_at(c, 0));
            let b = size(difference_at(c, 1));
            [near * a + far * b, far * a + near * b]
        }
    }
}
