// The first cover of a leaf list that holds a point.
ghost use Rattle.std.specs.Prelude.{◌≡◌, Ok};
ghost use Rattle.std.proofs.Math.Option.{none};
ghost use Rattle.setting.specs.Setting.{lists, HasRows, covers};
ghost use Rattle.boxes.specs.Ranges.{place_of};
ghost use Rattle.judge.specs.Judging.{Passed, Verdict};
ghost use Rattle.judge.specs.Inside.{InRange, RecordAt, holder_at, EndsAt, Searched, FoundTo};

use crate::beyond::next_near;
use crate::judging::Holder;
use judge_cover::cover_test::holds;
use judge_list::leaf_faults::box_in;

// The first cover of the record of m pieces that begins at index `at` that holds the point (x, y).
fn first_cover(leaves: &[i32], m: usize, at: usize, x: i64, y: i64) -> Option<usize>
    requires { (RecordAt (lists m) leaves.now at) × (InRange x y) }
    ensures { result ≡ place_of (holder_at (lists m) leaves.now x y at) }
{
    for i in 0..m {
        let first = box_in(leaves, at + (2 + 4 * i));
        let second = box_in(leaves, at + (6 + 4 * i));
        if holds(first, second, x, y) {
            return Some(i);
        }
    }
    None
}

// The first record of m pieces and its first cover that hold the point (x, y), looked for from index `from` to before
// index `to`: no record before `from` holds it. Covers are tried only of records that the point is not apart from.
pub fn find_to(leaves: &[i32], m: usize, from: usize, to: usize, x: i32, y: i32) -> Option<Holder>
    requires { (HasRows m) × (Passed (lists m) leaves.now) × (InRange x y) × (EndsAt (lists m) leaves.now to)
        × (Searched (lists m) leaves.now x y from) }
    ensures { FoundTo (lists m) leaves.now x y to result }
{
    let record_length = 6 + 4 * m;
    let mut first = from;
    while let Some(at) = next_near(leaves, m, first, to, x, y) {
        if let Some(cover) = first_cover(leaves, m, at, i64::from(x), i64::from(y)) {
            let leaf = at / record_length;
            return Some(Holder { leaf, cover });
        }
        first = at + record_length;
    }
    None
}

// The first record of m pieces and its first cover that hold the point (x, y).
pub fn find(leaves: &[i32], m: usize, x: i32, y: i32) -> Option<Holder>
    requires { (HasRows m) × (Passed (lists m) leaves.now) × (InRange x y) }
    ensures { Verdict (lists m) none leaves.now x y (Ok result) }
{
    find_to(leaves, m, 0, leaves.len(), x, y)
}
